// What a call answered.
ghost use Rattle.std.specs.Fmt.{◌++?◌};
ghost use Rattle.report.specs.Answered.{answer_text};
ghost use Rattle.std.specs.Prelude.{Some};

use refusal::Refusal;
use std::fmt;

// A call and its answer: accepted, or declined by a refusal.
#[derive(Drop)]
pub struct Answered<C>(pub C, pub Result<(), Refusal>);

// The call, a colon, and 'ok' or 'no' with the refusal.
impl<C: fmt::Display> fmt::Display for Answered<C> {
    ghost output = { λ x. C.output x.0 ++? Some (answer_text x.1) };

    fn fmt<W: fmt::Write>(&self, f: &mut fmt::Formatter<W>) -> fmt::Result {
        let Answered(call, answer) = self;
        match answer {
            Ok(()) => write!(f, "{call}: ok"),
            Err(refusal) => write!(f, "{call}: no, {refusal}"),
        }
    }
}
