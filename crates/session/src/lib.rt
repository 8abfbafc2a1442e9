// A session of the console: from the bytes of its input to the bytes of its output.
#![tactic(auto)]

mod making;
mod replies;
mod schemes;
mod serving;
mod turning;

pub use replies::{LIMIT, answer_lines, only_choices_replace_windows, reply};
pub use schemes::Chosen;
