// The meter: samples one cycle of a current and seals each sample for the two houses.
use crate::example::{MODULUS, Pair, SAMPLE_SCALE, SIZE};
use integers::Complex;
use scheme::{Scheme, pairs};
use std::alloc::Global;
use std::{fmt, io};

// One cycle in 64 samples, in hundredths of an ampere: a fundamental of amplitude 480 and phase −8 degrees, a third harmonic
// of 300 and 160 degrees, a fifth of 150 and −30 degrees, a seventh of 60 and 135 degrees, rounded to whole numbers.
pub const CURRENT: [i64; 64] = [
    3, -3, -11, -14, -8, 7, 23, 33, 38, 46, 72, 137, 252, 416, 607, 792, 930, 989, 955, 837, 664,
    475, 306, 183, 112, 82, 74, 70, 58, 38, 16, 1, -3, 3, 11, 14, 8, -7, -23, -33, -38, -46, -72,
    -137, -252, -416, -607, -792, -930, -989, -955, -837, -664, -475, -306, -183, -112, -82, -74,
    -70, -58, -38, -16, -1,
];

// A linear congruential generator. It stands in for a source of random mask words, so that the program always prints the
// same: a real meter draws its words at random, evenly, and uses each once.
#[derive(Drop)]
struct Generator {
    state: u64,
}

impl Generator {
    // The next word, below the modulus.
    fn word(&mut self) -> u64 {
        self.state = self
            .state
            .wrapping_mul(6_364_136_223_846_793_005)
            .wrapping_add(1_442_695_040_888_963_407);
        (self.state >> 20) % MODULUS
    }
}

// The mask words, two for each sample, without an end.
impl Iterator for Generator {
    type Item = (u64, u64);

    fn next(&mut self) -> Option<(u64, u64)> {
        Some((self.word(), self.word()))
    }
}

// Every sample of the cycle, sealed with two mask words of its own.
// Kept: beside the one in harmonics, which has other samples and words. One for both would be a public function of a library, with a contract
// on every sealed pair: no plainer than these lines.
pub(crate) fn seal_cycle<S: Scheme>(
    s: &mut S,
    heap: Global,
) -> anyhow::Result<Vec<(S::Number, S::Number)>> {
    let masks = Generator { state: 1 };
    CURRENT
        .into_iter()
        .zip(masks)
        .map(|(re, words)| -> anyhow::Result<(S::Number, S::Number)> {
            Ok(pairs::seal(s, SAMPLE_SCALE, Complex { re, im: 0 }, words)?)
        })
        .try_collect(heap)
}

// The heads of the columns in which shares are written.
pub const SHARE_COLUMNS: &str = "first house: re, im         second house: re, im";

// What the two houses hold of a pair: both components' first shares, then both second shares.
#[derive(Clone, Copy)]
pub(crate) struct Shares(pub(crate) Pair);

// Four columns.
impl fmt::Display for Shares {
    fn fmt<W: fmt::Write>(&self, f: &mut fmt::Formatter<W>) -> fmt::Result {
        let Shares((re, im)) = *self;
        write!(
            f,
            "{:>12} {:>12}   {:>12} {:>12}",
            re.first, im.first, re.second, im.second
        )
    }
}

// One sample, and what each house gets of it.
pub(crate) fn print_sample(rt: &impl Print, n: usize, sample: i64, pair: Pair) -> io::Result<()> {
    let shares = Shares(pair);
    println!(rt; "{n:>6} {sample:>7}   {shares}")
}

// The first samples, and what each house gets of them.
pub(crate) fn print_meter(rt: &impl Print, sealed: &[Pair]) -> io::Result<()> {
    println!(rt; "\nThe meter: one cycle in {SIZE} samples, in hundredths of an ampere\n")?;
    println!(rt; "fundamental 480, third harmonic 300, fifth 150, seventh 60")?;
    println!(rt; "a fixed generator stands in for random mask words\n")?;
    println!(rt; "sample   value   {SHARE_COLUMNS}")?;
    for (n, (sample, pair)) in CURRENT.iter().zip(sealed.iter()).enumerate().take(4) {
        print_sample(rt, n, *sample, *pair)?;
    }
    println!(rt; "   ...")
}
