// The window's states, its calls and its answers, and what each call does: the definitions that the
// window keeps and that the laws over lists of calls speak of.
#![tactic(auto)]

use plan::{Method, Plan};
use refusal::Refusal;

// The plan in force and the modulus that it was made for.
#[derive(Clone, Copy)]
pub struct Kept {
    pub plan: Plan,
    pub modulus: u64,
}

// The state of a window.
#[derive(Clone, Copy)]
pub enum State {
    // no plan yet
    Idle,
    // samples 0 to count − 1 are loaded
    Filling { kept: Kept, count: usize },
    // so many stages are done, and at least one is still due
    Running { kept: Kept, done: usize },
    // no stage is due
    Finished { kept: Kept },
}

// A call of a window, N the hidden numbers.
// Kept: a command of the console has these six too. One enum for both would be no plainer: a command loads a sample yet to be
// sealed, and knows no type of hidden numbers.
#[derive(Clone, Copy)]
pub enum Call<N> {
    // Kept: four numbers as they are asked for, here and in `Window::plan`. A struct of them would be no plainer: a second `Plan`, of
    // which nothing holds.
    Plan {
        method: Method,
        size: u64,
        sample_scale: u64,
        twiddle_scale: u64,
    },
    Load {
        n: usize,
        pair: (N, N),
    },
    Begin,
    Advance,
    Line {
        k: usize,
    },
    Restart,
}

// An opened line: which, its two components, and the scale and distance that it is stated with.
// Kept: two components, where crate integers has `Complex`. A field of that type would be no plainer: they are public and read one
// by one, in code and in statements.
#[derive(Clone, Copy, PartialEq, Eq, Debug)]
pub struct Line {
    pub index: usize,
    pub re: i64,
    pub im: i64,
    pub scale: u128,
    pub distance: u128,
}

// What a call answers: the opened line, none where the call opens none; or the refusal where it is declined.
pub type Answer = Result<Option<Line>, Refusal>;
