// The window and its calls.
ghost use Rattle.std.specs.Prelude.{◌≡◌, true, length};
ghost use Rattle.scheme.specs.Meaning.{Meaning};
ghost use Rattle.states.specs.Step.{Step, fits};
ghost use Rattle.states.specs.declared.State.TheVariants.{Idle};
ghost use Rattle.states.specs.declared.Call.TheVariants.{Plan as PlanCall, Load, Begin, Advance, Line as LineCall, Restart};
ghost use Rattle.window.specs.Answers.{answer_with_line, answer_without_line};

use crate::parts;
use plan::Method;
use refusal::Refusal;
use scheme::Scheme;
use states::{Answer, Call, Line, State};

// A window over a lent block of hidden pairs, real part first. The block comes back to its owner with what it then holds.
// Kept: the clause `lender` at each call, that the block is the same loan after it. Facts in the type would be no plainer: they are of
// one moment, this one is of two, and each call would still have to state it.
#[derive(Drop)]
pub struct Window<'a, S: Scheme> {
    block: &'a mut [(S::Number, S::Number)],
    state: State,
    ghost fits: { fits (length block.now) state ≡ true },
}

impl<'a, S: Scheme> Window<'a, S> {
    // An idle window over the block, whatever it holds.
    pub fn new(block: &'a mut [(S::Number, S::Number)]) -> Window<'a, S>
        ensures idle { result.state ≡ Idle }
        ensures block { result.block.now ≡ block.old }
        ensures lender { result.block.ghost_name ≡ block.entry.ghost_name }
    {
        let state = State::Idle;
        Window { block, state }
    }

    // The state of the window.
    pub fn state(&self) -> State
        ensures { result ≡ self.now.state }
    {
        self.state
    }

    // Any call: what it does depends on the window's state and the call together, and what is not listed is declined with Moment.
    // A declined call changes nothing. The state is copied for the match, and the block is lent once more: the borrow checker covers
    // neither a match on the state behind its reference nor a shared loan through the window's own.
    #[tactic(auto, using(crate::proofs::Stepping::planned, crate::proofs::Stepping::stages_few))]
    pub fn call(&mut self, s: &mut S, call: Call<S::Number>) -> Answer
        ensures step { Step (S.meaning s.old) self.old.state self.old.block.now call result self.new.state self.new.block.now }
        ensures frame { S.meaning s.new ≡ S.meaning s.old }
        ensures lender { self.new.block.ghost_name ≡ self.old.block.ghost_name }
    {
        let Window { block, state } = self;
        let block = &mut **block;
        match (*state, call) {
            (
                _,
                Call::Plan {
                    method,
                    size,
                    sample_scale: sample,
                    twiddle_scale: twiddle,
                },
            ) => {
                let kept = parts::plan_for(s, block, method, size, sample, twiddle)?;
                *state = State::Filling { kept, count: 0 };
                Ok(None)
            }
            (State::Filling { kept, count }, Call::Load { n, pair }) => {
                parts::load_at(s, &kept, count, n, pair, block)?;
                let count = count.max(n + 1);
                *state = State::Filling { kept, count };
                Ok(None)
            }
            (State::Filling { .. }, Call::Begin) => self.begin().map(|()| None),
            (State::Running { kept, done }, Call::Advance) => {
                parts::advance_at(s, &kept, done, block)?;
                *state = parts::progress(kept, done + 1);
                Ok(None)
            }
            (State::Finished { .. }, Call::Line { k }) => self.line(s, k).map(Some),
            (
                State::Filling { .. } | State::Running { .. } | State::Finished { .. },
                Call::Restart,
            ) => self.restart().map(|()| None),
            _ => Err(Refusal::Moment),
        }
    }

    // Puts a plan of these numbers in force, in every state: no sample is loaded then. Refuses with Size, SampleScale or TwiddleScale
    // for the numbers, else with Block where the block is shorter than the size, else with Narrow where the lines do not fit the modulus.
    pub fn plan(
        &mut self,
        s: &mut S,
        method: Method,
        size: u64,
        sample_scale: u64,
        twiddle_scale: u64,
    ) -> Result<(), Refusal>
        ensures step { Step (S.meaning s.old) self.old.state self.old.block.now (PlanCall method size sample_scale twiddle_scale) (answer_without_line result) self.new.state self.new.block.now }
        ensures frame { S.meaning s.new ≡ S.meaning s.old }
        ensures lender { self.new.block.ghost_name ≡ self.old.block.ghost_name }
    {
        self.call(
            s,
            Call::Plan {
                method,
                size,
                sample_scale,
                twiddle_scale,
            },
        )
        .map(|_| ())
    }

    // Loads sample n, the next one or one loaded before, at its place. Refuses with Moment where the window is not filling, else with
    // Place, with Strange under another modulus, with Malformed at n.
    pub fn load(&mut self, s: &mut S, n: usize, pair: (S::Number, S::Number)) -> Result<(), Refusal>
        ensures step { Step (S.meaning s.old) self.old.state self.old.block.now (Load n pair) (answer_without_line result) self.new.state self.new.block.now }
        ensures frame { S.meaning s.new ≡ S.meaning s.old }
        ensures lender { self.new.block.ghost_name ≡ self.old.block.ghost_name }
    {
        self.call(s, Call::Load { n, pair }).map(|_| ())
    }

    // Begins the stages, or finishes where none is due. Refuses with Moment where the window is not filling, else with Short where
    // samples are missing. What it does hangs on no scheme.
    pub fn begin(&mut self) -> Result<(), Refusal>
        ensures step { (m : Meaning S.Number) → Step m self.old.state self.old.block.now Begin (answer_without_line result) self.new.state self.new.block.now }
        ensures lender { self.new.block.ghost_name ≡ self.old.block.ghost_name }
    {
        let Window { state, .. } = self;
        let State::Filling { kept, count } = *state else {
            return Err(Refusal::Moment);
        };
        if count < kept.plan.size() {
            return Err(Refusal::Short);
        }
        *state = parts::progress(kept, 0);
        Ok(())
    }

    // One stage; after the last the window is finished. Refuses with Moment where the window is not running, else with Strange under
    // another modulus, else with Malformed at the first malformed pair among those of the plan.
    pub fn advance(&mut self, s: &mut S) -> Result<(), Refusal>
        ensures step { Step (S.meaning s.old) self.old.state self.old.block.now Advance (answer_without_line result) self.new.state self.new.block.now }
        ensures frame { S.meaning s.new ≡ S.meaning s.old }
        ensures lender { self.new.block.ghost_name ≡ self.old.block.ghost_name }
    {
        self.call(s, Call::Advance).map(|_| ())
    }

    // Line k, opened. Refuses with Moment where the window is not finished, else with Place where k is not below the size, with Strange
    // under another modulus, with Malformed where a pair that is read is malformed.
    pub fn line(&mut self, s: &mut S, k: usize) -> Result<Line, Refusal>
        ensures step { Step (S.meaning s.old) self.old.state self.old.block.now (LineCall k) (answer_with_line result) self.new.state self.new.block.now }
        ensures frame { S.meaning s.new ≡ S.meaning s.old }
        ensures lender { self.new.block.ghost_name ≡ self.old.block.ghost_name }
    {
        let Window { block, state } = self;
        let block = &mut **block;
        let State::Finished { kept } = *state else {
            return Err(Refusal::Moment);
        };
        parts::line_at(s, &kept, k, block)
    }

    // Back to no samples under the plan in force. Refuses with Moment where there is no plan. What it does hangs on no scheme.
    pub fn restart(&mut self) -> Result<(), Refusal>
        ensures step { (m : Meaning S.Number) → Step m self.old.state self.old.block.now Restart (answer_without_line result) self.new.state self.new.block.now }
        ensures lender { self.new.block.ghost_name ≡ self.old.block.ghost_name }
    {
        let Window { state, .. } = self;
        match *state {
            State::Idle => Err(Refusal::Moment),
            State::Filling { kept, .. } | State::Running { kept, .. } | State::Finished { kept } =>
                {
                    *state = State::Filling { kept, count: 0 };
                    Ok(())
                }
        }
    }
}
