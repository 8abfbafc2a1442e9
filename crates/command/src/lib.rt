// The console's language: from the bytes of its input to commands, and from answers to text.
#![tactic(auto)]

mod decoding;
mod fields;
mod input;
mod kinds;
mod text;

pub use decoding::{commands_are_spelled_once, decode};
pub use input::{decode_all, input_lines_are_determined};
pub use kinds::{Choice, Command};
pub use text::{Answer, transcript};
