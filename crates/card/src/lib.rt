// A plan's card: what the lines of a plan mean, and whether it fits a modulus, as text.
#![tactic(auto)]

mod card;
mod show;

pub use card::{Card, Verdict};
