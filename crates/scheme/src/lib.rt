// Schemes: ways of hiding whole numbers modulo N, and what is done alike under every one of them.
#![tactic(auto)]

mod calls;
mod hidden;
pub mod pairs;
mod sealing;

pub use calls::{Pair, Scheme};
pub use hidden::{difference, multiple};
pub use sealing::{
    admit, modulus_of, open_centred, seal_and_open, seal_residue, seal_within, sealed_opens,
};
