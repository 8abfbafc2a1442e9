// A wrong scale: what a reader makes of a line where it takes the scale from a comment and not from the line.
use crate::cards::print_card;
use crate::cycle::Cycle;
use crate::session::{Request, transform};
use crate::spectrum::amplitude;
use anyhow::Context;
use plan::Method;
use states::Line;

// The scale that a comment names: right for direct lines, where it is the twiddle scale.
const COMMENT_SCALE: u64 = 32_768;

// The fifth harmonic, read with the scale that its line is stated with and with the one of the comment.
fn print_readings(rt: &impl Print, request: Request<'_>, line: &Line) -> anyhow::Result<()> {
    let Request {
        method,
        twiddle_scale,
        ..
    } = request;
    let scale = line.scale;
    let right = amplitude(line, scale)?;
    let wrong = amplitude(line, u128::from(COMMENT_SCALE))?;
    println!(rt; "{twiddle_scale:>13} {scale:>13}  {right:>10}  {wrong:>10}   {method}")?;
    Ok(())
}

impl<'a, P: Print + AllocGlobal> Cycle<'a, P> {
    // Line 5 by the plan for which the comment is right, and the same line of the example's plan.
    pub(crate) fn print_scales(&mut self, lines: &[Line]) -> anyhow::Result<()> {
        let rt = self.rt;
        println!(rt;
            "\nA wrong scale: the fifth harmonic, read with {COMMENT_SCALE} from a comment\n"
        )?;
        print_card(rt, Method::Direct, COMMENT_SCALE)?;
        println!(rt; "\ntwiddle scale  stated scale   amplitude  with {COMMENT_SCALE}")?;
        let request = Request {
            method: Method::Direct,
            twiddle_scale: COMMENT_SCALE,
            stages: 0,
            ..Request::lines(&[5])
        };
        let direct = transform(rt.alloc(), self.s, request, self.sealed)?;
        let before = direct.lines.first().context("no direct line was opened")?;
        let after = lines.get(5).context("line 5 was not opened")?;
        print_readings(rt, request, before)?;
        print_readings(rt, Request::lines(&[5]), after)?;
        let times = after.scale / u128::from(COMMENT_SCALE);
        println!(rt;
            "\nWith the comment's scale the line by radix 4 reads {times} times too large:\ndivide by the scale that is stated with the line."
        )?;
        Ok(())
    }
}
