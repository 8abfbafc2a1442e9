// Plans: which transform, of which size, at which scales; and what its lines mean.
#![tactic(auto)]

mod figures;
mod laws;
mod making;
mod meaning;
mod method;
mod plan;
mod show;
mod sizes;

pub use figures::Figures;
pub use laws::{figures_are_determined, sizes_are_powers, worked_figures_stand};
pub use method::Method;
pub use plan::Plan;
