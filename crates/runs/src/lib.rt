// Runs of lists of calls on a new window, with the laws on them.
#![tactic(auto)]

ghost use Rattle.std.specs.Prelude.{◌≡◌, IfOk};
ghost use Rattle.runs.specs.Guards.{OneRun, OneWrong, Reaches, SealedLinesRight, SealedSamplesWithin};
ghost use Rattle.runs.specs.Runs.{RunOf};
ghost use Rattle.secrecy.specs.Secrecy.{SecrecyStands};

use scheme::Scheme;
use states::{Answer, Call};
use std::alloc::{AllocError, Global};
use window::Window;

// Makes the calls in order on a new window over the block, and answers what each answered.
pub fn run<S: Scheme>(
    s: &mut S,
    block: &mut [(S::Number, S::Number)],
    calls: &[Call<S::Number>],
    heap: Global,
) -> Result<Vec<Answer>, AllocError>
    ensures run { IfOk result (λ v. RunOf (S.meaning s.old) block.old calls.now v.items block.new) }
    ensures houses { SecrecyStands }
    ensures frame { S.meaning s.new ≡ S.meaning s.old }
{
    let mut window = Window::new(block);
    let mut answers = Vec::new(heap);
    // Kept: tried with map and collect, and the proof didn't close: after them nothing is known of the block and the scheme, which the
    // closure borrows.
    for call in calls {
        let answer = window.call(s, *call);
        answers.push(answer)?;
    }
    Ok(answers)
}

// A pair that was sealed under a limit means the sample that was sealed, which lies within the limit.
pub fn sealed_samples_are_within<N>()
    ensures { SealedSamplesWithin N }
{}

// Where the answers of a run are right by the history, and each of the samples in force was sealed under the plan's sample scale, an
// opened line is right for the plan and those samples: nothing is left to assume.
pub fn sealed_lines_are_right<N>()
    ensures { SealedLinesRight N }
{}

// There is a run that opens a line.
pub fn one_run_opens_a_line()
    ensures { OneRun }
{}

// Not every line is right: that run's line with another real part is not.
pub fn a_wrong_line_is_not_right()
    ensures { OneWrong }
{}

// There are histories for the law on opened lines to speak of: the empty one is reached, and every call leads on.
pub fn histories_are_reached<N>()
    ensures { Reaches N }
{}
