// Numbers to two decimals.
ghost use Rattle.std.specs.Prelude.{◌≡◌, ◌+◌, ◌*◌, ◌^◌, ◌<◌, ◌≤◌, ◌⊎◌, pos, ◌*ℤ◌, Some, IfOk, MatchOption};
ghost use Rattle.std.specs.Int.{is_negative};
ghost use Rattle.std.specs.Fmt.{sign_text, styled_text};
ghost use Rattle.std.specs.Fmt.InlineText.{inline_text};
ghost use Rattle.circle.specs.Nearest.{NearestQuotient, NearestSigned};
ghost use Rattle.report.specs.Decimal.{LeastAbove, decimal_text};

use std::fmt;
use std::fmt::{InlineText, Write};

// A whole number of hundredths.
#[derive(Clone, Copy, PartialEq, Eq, PartialOrd, Ord, Debug)]
pub struct Decimal {
    pub hundredths: i128,
}

// size/scale to the nearest whole number, halves upward.
// Kept: circle rounds so too, but in 64 bits and by a constant, so that it is total. One function for both widths would be generic over the
// integers, and this with the sign in `ratio` is eight lines of plain arithmetic: no plainer.
fn nearest(size: u128, scale: u128) -> u128
    requires positive { 0 < scale }
    requires small { size < 2 ^ 127 }
    ensures value { NearestQuotient size scale result }
    ensures bound { result ≤ size }
{
    let whole = size / scale;
    let rest = size % scale;
    if rest < scale - rest {
        whole
    } else {
        whole + 1
    }
}

impl Decimal {
    // value/scale to the nearest hundredth, halves away from zero; none where the scale is 0.
    pub fn ratio(value: i64, scale: u128) -> Option<Decimal>
        ensures { MatchOption result (scale ≡ 0) (λ d. NearestSigned (pos 100 *ℤ value) scale d.hundredths) }
    {
        if scale == 0 {
            return None;
        }
        let size = nearest(u128::from(value.unsigned_abs()) * 100, scale) as i128;
        let hundredths = if value < 0 { -size } else { size };
        Some(Decimal { hundredths })
    }

    // size/scale, up to the next hundredth; none where the scale is 0 or a hundred times the size has no room.
    pub fn at_most(size: u128, scale: u128) -> Option<Decimal>
        ensures { MatchOption result ((scale ≡ 0) ⊎ (2 ^ 127 ≤ 100 * size)) (λ d. LeastAbove size scale d.hundredths) }
    {
        if scale == 0 {
            return None;
        }
        let hundredths = i128::try_from(size.checked_mul(100)?.div_ceil(scale)).ok()?;
        Some(Decimal { hundredths })
    }

    fn sign(&self) -> &'static str
        ensures { result.now ≡ sign_text (is_negative self.now.hundredths) }
    {
        if self.hundredths < 0 { "-" } else { "" }
    }

    // A minus where it is negative, the whole part, a point, two digits.
    fn text(&self) -> Result<InlineText<48>, fmt::Error>
        ensures { IfOk result (λ t. inline_text t ≡ decimal_text self.now) }
    {
        let sign = self.sign();
        let size = self.hundredths.unsigned_abs();
        let mut text = InlineText::new();
        write!(text, "{sign}{}.{:02}", size / 100, size % 100)?;
        Ok(text)
    }
}

// Its text. A width, an alignment and a fill are kept.
impl fmt::Display for Decimal {
    ghost output = { λ d. Some (decimal_text d) };

    ghost styled_output = { λ d s. Some (styled_text s (decimal_text d)) };

    fn fmt<W: fmt::Write>(&self, f: &mut fmt::Formatter<W>) -> fmt::Result {
        f.pad(self.text()?.as_str())
    }
}
