// One cycle of a feeder current, from the meter through the two houses to the reader: sealed under the
// split, taken through the window call by call, opened. And what the houses could not tell.
use anyhow::Context;
use integers::Complex;
use plain::Plain;
use plan::Method;
use refusal::Refusal;
use report::{Answered, Reading};
use scheme::{Scheme, modulus_of, pairs};
use secrecy::{House, masks_for};
use split::{Halves, Split};
use states::Line;
use std::alloc::Global;
use window::Window;

// The modulus of this example, 2^31 − 1.
pub const WIDE: u64 = 2_147_483_647;

// Sixteen samples of one cycle: a fundamental of amplitude 80 and a fifth harmonic of amplitude 15.
const CURRENT: [i64; 16] = [
    0, 44, 46, 68, 95, 68, 46, 44, 0, -44, -46, -68, -95, -68, -46, -44,
];

// Another curve: a flat one.
const FLAT: Complex = Complex { re: 40, im: 0 };

// A hidden sample of this example.
type Pair = (Halves<u64>, Halves<u64>);

// The meter: every sample of the cycle, sealed with two mask words of its own.
// Kept: beside the one in harmonics_cycle, which has other samples and words. One for both would be a public function of a library, with a
// contract on every sealed pair: no plainer than these lines.
pub(crate) fn seal_cycle<S: Scheme>(
    s: &mut S,
    heap: Global,
) -> anyhow::Result<Vec<(S::Number, S::Number)>> {
    let masks = (1u64..).map(|n| n.wrapping_mul(123_456_789));
    CURRENT
        .into_iter()
        .zip(masks)
        .map(|(re, word)| -> anyhow::Result<(S::Number, S::Number)> {
            let words = (word % WIDE, word.wrapping_mul(7) % WIDE);
            Ok(pairs::seal(s, 100, Complex { re, im: 0 }, words)?)
        })
        .try_collect(heap)
}

// An opened line, what it is when divided by the scale that it is stated with, and the exact value; or the refusal.
fn print_line(rt: &impl Print, call: &str, answer: Result<Line, Refusal>) -> anyhow::Result<()> {
    match answer {
        Ok(
            Line {
                index,
                re,
                im,
                scale,
                distance,
            },
        ) => {
            let value = Reading::new(Complex { re, im }, scale).context("a line of scale 0")?;
            let exact = Reading::exact(&CURRENT, index).context("a line beyond 64 bits")?;
            println!(rt; "line {index}: {re}, {im}, scale {scale}, distance {distance}")?;
            println!(rt; "  divided by the scale {value}")?;
            println!(rt; "  exact {exact}")?;
        }
        Err(refusal) => rt.println(Answered(call, Err(refusal)))?,
    }
    Ok(())
}

// The whole way of one cycle.
// Kept: rt, s and sealed go through this function and the next alone, each called once: a struct of the three with two methods is no plainer.
pub(crate) fn print_cycle(
    rt: &impl Print,
    s: &mut Split<Plain>,
    sealed: &[Pair],
) -> anyhow::Result<()> {
    let zero = s.zero();
    let mut block = [(zero, zero); 16];
    let mut window = Window::new(&mut block);
    rt.println(Answered("begin", window.begin()))?;
    let answer = window.plan(s, Method::Radix4, 16, 100, 1000);
    rt.println(Answered("plan radix 4, size 16, scales 100 and 1000", answer))?;
    rt.println(Answered("begin", window.begin()))?;
    for (n, pair) in sealed.iter().enumerate() {
        rt.println(Answered(format_args!("load {n}"), window.load(s, n, *pair)))?;
    }
    rt.println(Answered("begin", window.begin()))?;
    rt.println(Answered("advance", window.advance(s)))?;
    print_line(rt, "line 1", window.line(s, 1))?;
    rt.println(Answered("advance", window.advance(s)))?;
    for k in [1, 3, 5, 7] {
        print_line(rt, "line", window.line(s, k))?;
    }
    print_line(rt, "line 16", window.line(s, 16))?;
    rt.println(Answered("restart", window.restart()))?;
    Ok(())
}

// What the houses could not tell: the mask words under which each would hold the same for a flat curve, for the first samples.
pub(crate) fn print_unknown(
    rt: &(impl Print + AllocGlobal),
    s: &mut Split<Plain>,
    sealed: &[Pair],
) -> anyhow::Result<()> {
    for (name, house) in [("first", House::First), ("second", House::Second)] {
        println!(rt;
            "the {name} house would hold the same for a flat {} under the mask words",
            FLAT.re
        )?;
        for (re, im) in masks_for(rt.alloc(), modulus_of(s), house, sealed, &[FLAT; 3])? {
            println!(rt; "  {re} and {im}")?;
        }
    }
    Ok(())
}
