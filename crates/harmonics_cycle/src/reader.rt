// The reader: joins the shares, opens the lines and divides each by the scale that it is stated with.
use crate::cycle::Cycle;
use crate::example::Pair;
use crate::meter::CURRENT;
use crate::session::{Request, transform};
use anyhow::Context;
use integers::{Complex, Modulus};
use report::{Decimal, Reading};
use scheme::modulus_of;
use split::Halves;
use states::Line;
use std::io;

// The lines that the reader opens.
pub const HARMONICS: [usize; 11] = [0, 1, 2, 3, 4, 5, 6, 7, 8, 9, 10];

// A line divided by its scale, the true one, and the distance between them that is guaranteed.
fn readings_of(line: &Line) -> Option<(Reading, Reading, Decimal)> {
    let Line { re, im, scale, .. } = *line;
    let value = Reading::new(Complex { re, im }, scale)?;
    let exact = Reading::exact(&CURRENT, line.index)?;
    let within = Decimal::at_most(line.distance, scale)?;
    Some((value, exact, within))
}

// One line as it was opened, divided by its scale, and the true one with the distance that is guaranteed.
fn print_line(rt: &impl Print, line: &Line) -> anyhow::Result<()> {
    let Line { index, re, im, .. } = *line;
    let (value, exact, within) = readings_of(line).context("a line without a reading")?;
    print!(rt; "{index:>4} {re:>11} {im:>11}")?;
    let Reading { re, im } = value;
    println!(rt;
        "  {re:>10} {im:>10}  {:>10} {:>10}  {within:>10}",
        exact.re, exact.im
    )?;
    Ok(())
}

// The real part of line 5: what the houses hold at place 5, joined.
fn print_joined(rt: &impl Print, modulus: Modulus, pair: &Pair) -> io::Result<()> {
    let Halves { first, second } = pair.0;
    let joined = modulus.sum(first, second);
    let meant = modulus.centred(joined);
    println!(rt; "line 5, real part: {first} + {second} is {joined}, which means {meant}\n")
}

// The table of the odd harmonics.
fn print_table(rt: &impl Print, lines: &[Line]) -> anyhow::Result<()> {
    let Line {
        scale,
        distance,
        ..
    } = *lines.first().context("no line was opened")?;
    println!(rt;
        "Each line is stated with scale {scale} and distance {distance}:\ndivided by the scale, no component is off by more than the last column.\n"
    )?;
    println!(rt;
        "line      opened: re, im      divided by the scale          true value           within"
    )?;
    for line in lines.iter().filter(|line| line.index % 2 == 1) {
        print_line(rt, line)?;
    }
    Ok(())
}

impl<'a, P: Print + AllocGlobal> Cycle<'a, P> {
    // Opens the lines under the split and prints them.
    pub(crate) fn print_reader(&mut self) -> anyhow::Result<Vec<Line>> {
        let rt = self.rt;
        println!(rt; "\nThe reader: joins the shares, opens the lines, divides by the scale\n")?;
        let outcome = transform(rt.alloc(), self.s, Request::lines(&HARMONICS), self.sealed)?;
        let pair = outcome.block.get(5).context("a block without a place 5")?;
        print_joined(rt, modulus_of(self.s), pair)?;
        print_table(rt, outcome.lines.as_slice())?;
        Ok(outcome.lines)
    }
}
