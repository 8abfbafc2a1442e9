// From the bytes of the input to the bytes of the output.
ghost use Rattle.std.specs.Prelude.{◌≡◌, IfOk, string_bytes};
ghost use Rattle.secrecy.specs.Secrecy.{SecrecyStands};
ghost use Rattle.session.specs.Replies.{SessionOf, Replies as RepliesTo};
ghost use Rattle.session.specs.Steady.{Steady};

use crate::serving::Session;
use command::{Command, decode_all, transcript};
use refusal::Refusal;
use states::Answer;
use std::alloc::{AllocError, Global};

// The most bytes of input that are served.
pub const LIMIT: usize = 65_536;

// Answers the lines in order: one answer each, under the scheme that was chosen last. Opened lines are right by what was typed.
pub fn answer_lines(
    lines: &[Result<Command, Refusal>],
    heap: Global,
) -> Result<Vec<Answer>, AllocError>
    ensures { IfOk result (λ v. SessionOf lines.now v.items) }
{
    let mut session = Session::new(lines, heap);
    let mut next = session.serve_absent()?;
    while let Some(scheme) = next {
        next = session.serve_under(scheme, heap)?;
    }
    Ok(session.into_answers())
}

// The text that the console writes for the bytes that it reads: one reply a line; for more bytes than the limit, that it is too long.
pub fn reply(input: &[u8], heap: Global) -> Result<String, AllocError>
    ensures replies { IfOk result (λ t. RepliesTo input.now (string_bytes t)) }
    ensures houses { SecrecyStands }
{
    if input.len() > LIMIT {
        return transcript(&[Err(Refusal::Long)], heap);
    }
    let lines = decode_all(input, heap)?;
    let answers = answer_lines(lines.as_slice(), heap)?;
    transcript(answers.as_slice(), heap)
}

// Nothing but an accepted choice of a scheme replaces a window, and a declined line changes nothing.
pub fn only_choices_replace_windows()
    ensures { Steady }
{}
