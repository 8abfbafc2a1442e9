// The two houses: transform numbers of which each holds one share only, by sums and opposites.
use crate::cycle::Cycle;
use crate::example::{METHOD, SAMPLE_SCALE, SIZE, STAGES, TWIDDLE_SCALE};
use crate::meter::{SHARE_COLUMNS, Shares};
use crate::session::{Request, empty_block, transform};
use anyhow::Context;
use plain::Plain;
use report::Answered;
use split::Split;
use window::Window;

impl<'a, P: Print + AllocGlobal> Cycle<'a, P> {
    // The stages, with a line that comes too early and one stage too many.
    fn print_stages(&mut self, window: &mut Window<'_, Split<Plain>>) -> anyhow::Result<()> {
        let rt = self.rt;
        rt.println(Answered("begin", window.begin()))?;
        rt.println(Answered("line 5", window.line(self.s, 5).map(|_| ())))?;
        for _ in 0..=STAGES {
            rt.println(Answered("advance", window.advance(self.s)))?;
        }
        rt.println(Answered("line 64", window.line(self.s, 64).map(|_| ())))?;
        Ok(())
    }

    // The window, call by call.
    pub(crate) fn print_calls(&mut self) -> anyhow::Result<()> {
        let rt = self.rt;
        println!(rt; "\nThe two houses: the window, call by call\n")?;
        let mut block = empty_block(rt.alloc(), self.s)?;
        let mut window = Window::new(block.as_mut_slice());
        rt.println(Answered("begin", window.begin()))?;
        let answer = window.plan(self.s, METHOD, SIZE, SAMPLE_SCALE, TWIDDLE_SCALE);
        let plan = format_args!(
            "plan {METHOD}, size {SIZE}, scales {SAMPLE_SCALE} and {TWIDDLE_SCALE}"
        );
        rt.println(Answered(plan, answer))?;
        rt.println(Answered("begin", window.begin()))?;
        for (n, pair) in self.sealed.iter().enumerate() {
            window.load(self.s, n, *pair)?;
        }
        println!(rt; "load 0 to 63: {} ok", self.sealed.len())?;
        self.print_stages(&mut window)
    }

    // What the houses hold at place 5 once so many stages are done.
    fn print_place(&mut self, stages: usize) -> anyhow::Result<()> {
        let rt = self.rt;
        let outcome = transform(rt.alloc(), self.s, Request::stages(stages), self.sealed)?;
        let shares = Shares(*outcome.block.get(5).context("a block without a place 5")?);
        println!(rt; "{stages:>6}           {shares}")?;
        Ok(())
    }

    // What the houses hold before the first stage and after each.
    pub(crate) fn print_held(&mut self) -> anyhow::Result<()> {
        println!(self.rt; "\nWhat each house holds at place 5, by the stages done\n")?;
        println!(self.rt; "stages           {SHARE_COLUMNS}")?;
        for stages in 0..=STAGES {
            self.print_place(stages)?;
        }
        Ok(())
    }
}
