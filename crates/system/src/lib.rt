// The residue system: a whole number hidden as its remainders modulo three odd numbers, no two with a common factor.
#![tactic(auto)]

mod arithmetic;
mod calls;
mod euclid;
mod making;
mod residues;
#[cfg(test)]
mod tests;
mod theorems;

pub use residues::{Residues, System};
pub use theorems::{figure_stands, residues_hide_one_number};
