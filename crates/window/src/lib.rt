// The running window: a plan, samples, stages and lines over a lent block of hidden pairs, call by call.
#![tactic(auto)]

mod parts;
mod window;

pub use window::Window;
