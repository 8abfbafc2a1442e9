// Answers as text.
ghost use Rattle.std.specs.Prelude.{◌≡◌, IfOk, Some, string_bytes};
ghost use Rattle.command.specs.Text.{answer_text, transcript_of};

use refusal::Refusal;
use states::Line;
use std::alloc::{AllocError, Global};
use std::fmt;

// An answer as it is written: 'ok', 'no,11', 'g,1,-2,2,1,0'.
// Kept: a type of its own, since Display cannot be written for std's Result. A function that answers the text is no plainer: it would
// need the heap.
#[derive(Clone, Copy)]
pub struct Answer {
    pub answer: states::Answer,
}

impl fmt::Display for Answer {
    ghost output = { λ a. Some (answer_text a.answer) };

    fn fmt<W: fmt::Write>(&self, f: &mut fmt::Formatter<W>) -> fmt::Result {
        match self.answer {
            Ok(None) => write!(f, "ok"),
            Ok(
                Some(
                    Line {
                        index,
                        re,
                        im,
                        scale,
                        distance,
                    },
                ),
            ) => write!(f, "g,{index},{re},{im},{scale},{distance}"),
            Err(refusal) => write!(f, "no,{}", refusal.number()),
        }
    }
}

// Each answer in order, each with a line feed after it.
pub fn transcript(answers: &[states::Answer], heap: Global) -> Result<String, AllocError>
    ensures { IfOk result (λ t. string_bytes t ≡ transcript_of answers.now) }
{
    let mut text = String::new(heap);
    for answer in answers {
        let answer = Answer { answer: *answer };
        writeln!(text, "{answer}")?;
    }
    Ok(text)
}
