// A complex number over a scale, to two decimals.
ghost use Rattle.std.specs.Prelude.{◌≡◌, ◌^◌, ◌≤◌, ◌++◌, length, codes, unsigned_abs, All, Some, IfSome, IsSome, MatchOption};
ghost use Rattle.lines.specs.Lines.{fine_line_of};
ghost use Rattle.report.specs.Decimal.{decimal_text};
ghost use Rattle.report.specs.Samples.{samples_of};
ghost use Rattle.report.specs.Reading.{Reads};

use crate::decimal::Decimal;
use crate::fine::fine_line;
use integers::Complex;
use std::fmt;

// Both components.
#[derive(Clone, Copy, PartialEq, Eq, Debug)]
pub struct Reading {
    pub re: Decimal,
    pub im: Decimal,
}

impl Reading {
    // Both components of value/scale, each to the nearest hundredth; none where the scale is 0.
    pub fn new(value: Complex, scale: u128) -> Option<Reading>
        ensures { MatchOption result (scale ≡ 0) (Reads value scale) }
    {
        let re = Decimal::ratio(value.re, scale)?;
        let im = Decimal::ratio(value.im, scale)?;
        Some(Reading { re, im })
    }

    // Line k of the fine transform of real samples over 2^30, which is the exact line but for the circle's rounding. None where a component has no
    // room in 64 bits.
    pub fn exact(samples: &[i64], k: usize) -> Option<Reading>
        ensures value { IfSome result (Reads (fine_line_of (length samples.now) (samples_of samples.now) k) (2 ^ 30)) }
        ensures room { length samples.now ≤ 256 → All (λ x. unsigned_abs x ≤ 2 ^ 24) samples.now → IsSome result }
    {
        Reading::new(fine_line(samples, k)?, 1 << 30)
    }
}

// The real part, a comma, the imaginary part.
impl fmt::Display for Reading {
    ghost output = { λ r. Some (decimal_text r.re ++ (codes ", " ++ decimal_text r.im)) };

    fn fmt<W: fmt::Write>(&self, f: &mut fmt::Formatter<W>) -> fmt::Result {
        let Reading { re, im } = *self;
        write!(f, "{re}, {im}")
    }
}
