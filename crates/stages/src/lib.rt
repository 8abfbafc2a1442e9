// Transforms on lent blocks of hidden pairs, under every scheme: the place of a sample, the search for a malformed pair, the stages,
// one direct line.
#![tactic(auto)]

mod butterfly;
mod direct;
mod place;
mod radix;
mod search;

pub use direct::direct_line;
pub use place::place_of;
pub use radix::{stage, stage_count};
pub use search::first_malformed;
