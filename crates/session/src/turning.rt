// One line of the console on a window.
ghost use Rattle.std.specs.Prelude.{◌≡◌};
ghost use Rattle.window.specs.Answers.{answer_without_line};
ghost use Rattle.session.specs.Session.{limit_in, LoadsWithin};
ghost use Rattle.session.specs.Serving.{Choosing, Turning, TurningAbsent};

use crate::schemes::Chosen;
use command::{Choice, Command};
use integers::Complex;
use refusal::Refusal;
use scheme::{Scheme, pairs};
use states::{Answer, State};
use std::ops::ControlFlow;
use window::Window;

// The limit for sample n: the sample scale of the plan in force. Refuses with Moment where the window is not filling, else with Place.
fn limit_for(state: State, n: usize) -> Result<u64, Refusal>
    ensures { result ≡ limit_in state n }
{
    let State::Filling { kept, count } = state else {
        return Err(Refusal::Moment);
    };
    // Kept: the window makes this test too. A method of `Kept` is no plainer: a public function of states, with a contract, for one line.
    if n > count || n >= kept.plan.size() {
        return Err(Refusal::Place);
    }
    Ok(u64::from(kept.plan.sample_scale()))
}

// Seals a sample under the limit and loads it.
fn load<S: Scheme>(
    window: &mut Window<'_, S>,
    s: &mut S,
    n: usize,
    sample: Complex,
    words: (u64, u64),
) -> Result<(), Refusal>
    ensures loads { LoadsWithin (S.meaning s.old) window.old.state window.old.block.now n sample words (limit_in window.old.state n) (answer_without_line result) window.new.state window.new.block.now }
    ensures frame { S.meaning s.new ≡ S.meaning s.old }
{
    let limit = limit_for(window.state(), n)?;
    let pair = pairs::seal(s, limit, sample, words)?;
    window.load(s, n, pair)
}

// The choice of a scheme: the scheme, or the answer that declines it.
// Kept: a match. `map_or_else` is no plainer: it takes the refusal first, and a closure for it.
fn choose(choice: Choice) -> ControlFlow<Chosen, Answer>
    ensures { Choosing choice result }
{
    match Chosen::try_from(choice) {
        Ok(scheme) => ControlFlow::Break(scheme),
        Err(refusal) => ControlFlow::Continue(Err(refusal)),
    }
}

// One line: a command on the window is answered, another scheme that is chosen breaks off.
pub(crate) fn turn<S: Scheme>(
    window: &mut Window<'_, S>,
    s: &mut S,
    line: Result<Command, Refusal>,
) -> ControlFlow<Chosen, Answer>
    ensures turning { Turning (S.meaning s.old) window.old.state window.old.block.now line result window.new.state window.new.block.now }
    ensures frame { S.meaning s.new ≡ S.meaning s.old }
{
    let answer = match line {
        Err(_) => Err(Refusal::Garbled),
        Ok(Command::Choose(choice)) => return choose(choice),
        Ok(
            Command::Plan {
                method,
                size,
                sample_scale,
                twiddle_scale,
            },
        ) => window
            .plan(s, method, size, sample_scale, twiddle_scale)
            .map(|()| None),
        Ok(Command::Load { n, sample, words }) => {
            load(window, s, n, sample, words).map(|()| None)
        }
        Ok(Command::Begin) => window.begin().map(|()| None),
        Ok(Command::Advance) => window.advance(s).map(|()| None),
        Ok(Command::Line { k }) => window.line(s, k).map(Some),
        Ok(Command::Restart) => window.restart().map(|()| None),
    };
    ControlFlow::Continue(answer)
}

// One line where there is no window yet: a scheme may be chosen, any other command is declined with Moment.
// Kept: two arms are those of `turn`. One function that takes the answer of a command as a closure is no plainer: the match in the
// closure would name the choice a second time.
pub(crate) fn turn_absent(line: Result<Command, Refusal>) -> ControlFlow<Chosen, Answer>
    ensures { TurningAbsent line result }
{
    let refusal = match line {
        Err(_) => Refusal::Garbled,
        Ok(Command::Choose(choice)) => return choose(choice),
        Ok(_) => Refusal::Moment,
    };
    ControlFlow::Continue(Err(refusal))
}
