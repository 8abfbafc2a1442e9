// What a program tells its reader: numbers to two decimals, lines beside their fine transform, and what a call answered.
#![tactic(auto)]

mod answered;
mod decimal;
mod fine;
mod reading;

pub use answered::Answered;
pub use decimal::Decimal;
pub use fine::fine_line;
pub use reading::Reading;
