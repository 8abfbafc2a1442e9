// Serving the lines of a session, window by window.
ghost use Rattle.std.specs.Prelude.{◌≡◌, ◌≤◌, [], length, IfOk, vec_len};

use crate::schemes::Chosen;
use crate::turning::{turn, turn_absent};
use command::Command;
use refusal::Refusal;
use scheme::Scheme;
use split::Split;
use states::Answer;
use std::alloc::{AllocError, Global};
use std::ops::ControlFlow;
use window::Window;

// The lines of a session and the answers so far, of which there are no more than lines.
#[derive(Drop)]
pub(crate) struct Session<'a> {
    lines: &'a [Result<Command, Refusal>],
    answers: Vec<Answer>,
    ghost few: { vec_len answers ≤ length lines.now },
}

impl<'a> Session<'a> {
    ghost use Rattle.session.specs.Serving.{AnsweredBy, ServedFrom, ServedUnder, ServedAbsent};

    // No line is answered yet.
    pub(crate) fn new(lines: &'a [Result<Command, Refusal>], heap: Global) -> Session<'a>
        ensures lines { result.lines.now ≡ lines.now }
        ensures none { result.answers.items ≡ [] }
    {
        let answers = Vec::new(heap);
        Session { lines, answers }
    }

    // The answers.
    pub(crate) fn into_answers(self) -> Vec<Answer>
        ensures { result.items ≡ self.entry.answers.items }
    {
        self.answers
    }

    // Answers the lines that have no answer yet, each by its turn, until one chooses another scheme, which is handed back.
    fn serve_by<F: FnMut(Result<Command, Refusal>) -> ControlFlow<Chosen, Answer>>(
        &mut self,
        mut turn: F,
    ) -> Result<Option<Chosen>, AllocError>
        requires { F.IsAlwaysCallable turn }
        ensures { IfOk result (λ next. AnsweredBy (λ f line r g. F.step f line r g) turn self.old self.new next) }
    {
        let lines = self.lines;
        for line in &lines[self.answers.len()..] {
            match turn(*line) {
                ControlFlow::Continue(answer) => self.answers.push(answer)?,
                ControlFlow::Break(scheme) => {
                    self.answers.push(Ok(None))?;
                    return Ok(Some(scheme));
                }
            }
        }
        Ok(None)
    }

    // Serves lines before the first scheme.
    pub(crate) fn serve_absent(&mut self) -> Result<Option<Chosen>, AllocError>
        ensures { IfOk result (λ next. ServedAbsent self.old self.new next) }
    {
        self.serve_by(turn_absent)
    }

    // Serves lines on a new window over the block.
    fn serve<S: Scheme>(
        &mut self,
        s: &mut S,
        block: &mut [(S::Number, S::Number)],
    ) -> Result<Option<Chosen>, AllocError>
        requires { length block.old ≡ 256 }
        ensures { IfOk result (λ next. ServedFrom (S.meaning s.old) self.old self.new next) }
    {
        let mut window = Window::new(block);
        self.serve_by(|line| turn(&mut window, s, line))
    }

    // Serves lines on a new window over a new block.
    fn serve_new<S: Scheme>(
        &mut self,
        s: &mut S,
        heap: Global,
    ) -> Result<Option<Chosen>, AllocError>
        ensures { IfOk result (λ next. ServedFrom (S.meaning s.old) self.old self.new next) }
    {
        let mut block = new_block(s, heap)?;
        self.serve(s, block.as_mut_slice())
    }

    // Serves lines under the chosen scheme.
    pub(crate) fn serve_under(
        &mut self,
        scheme: Chosen,
        heap: Global,
    ) -> Result<Option<Chosen>, AllocError>
        ensures { IfOk result (λ next. ServedUnder scheme self.old self.new next) }
    {
        match scheme {
            Chosen::Plain(mut plain) => self.serve_new(&mut plain, heap),
            Chosen::System(mut system) => self.serve_new(&mut system, heap),
            Chosen::Split(plain) => self.serve_new(&mut Split::new(plain), heap),
        }
    }
}

// A block of 256 pairs of zeros.
// Kept: `empty_block` of harmonics_cycle differs in the size alone. One function for both is no plainer: a library's, with two clauses,
// for one `vec!`.
fn new_block<S: Scheme>(s: &mut S, heap: Global) -> Result<Vec<(S::Number, S::Number)>, AllocError>
    ensures long { IfOk result (λ v. vec_len v ≡ 256) }
    ensures frame { S.meaning s.new ≡ S.meaning s.old }
{
    let zero = s.zero();
    vec![in heap; (zero, zero); 256]
}
