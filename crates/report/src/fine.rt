// The fine transform of a table of samples.
ghost use Rattle.std.specs.Prelude.{◌≡◌, ◌*◌, ◌/◌, ◌^◌, ◌<◌, ◌≤◌, ◌+ℤ◌, ◌*ℤ◌, length, unsigned_abs, All, IfSome, IsSome};
ghost use Rattle.integers.specs.Complex.{◌⊕◌, ◌⊗◌, real};
ghost use Rattle.circle.specs.Near.{sizes};
ghost use Rattle.circle.specs.Fine.{fine};
ghost use Rattle.lines.specs.Lines.{fine_line_of};
ghost use Rattle.report.specs.Samples.{samples_of};

use circle::fine_twiddle;
use integers::Complex;

// sum + factor·sample; none where it has no room in 64 bits.
// Kept: the factor's bound 3·2^29 stands in the clauses of this, of `plus_multiple`, of `factor` and of circle. A type that carries it is no
// plainer: the public `fine_twiddle` answers a Complex, so the type would be made from that and taken apart again for each sum.
fn plus_product(sum: i64, factor: i64, sample: i64) -> Option<i64>
    ensures value { IfSome result (λ x. x ≡ sum +ℤ factor *ℤ sample) }
    ensures room { unsigned_abs factor ≤ 3 * 2 ^ 29 → unsigned_abs sample ≤ 2 ^ 24 → unsigned_abs sum ≤ 3 * 2 ^ 61 → IsSome result }
{
    sum.checked_add(factor.checked_mul(sample)?)
}

// sum + factor·sample; none where a component has no room in 64 bits.
fn plus_multiple(sum: Complex, factor: Complex, sample: i64) -> Option<Complex>
    ensures value { IfSome result (λ x. x ≡ sum ⊕ factor ⊗ real sample) }
    ensures room { sizes factor ≤ 3 * 2 ^ 29 → unsigned_abs sample ≤ 2 ^ 24 → unsigned_abs sum.re ≤ 3 * 2 ^ 61 → unsigned_abs sum.im ≤ 3 * 2 ^ 61 → IsSome result }
{
    let re = plus_product(sum.re, factor.re, sample)?;
    let im = plus_product(sum.im, factor.im, sample)?;
    Some(Complex { re, im })
}

// The factor of sample n in line k: the fine twiddle at n·k·256/size, which counts modulo 256, as every wrapped product does.
fn factor(n: usize, k: usize, size: usize) -> Complex
    requires { 0 < size }
    ensures value { result ≡ fine (n * k * (256 / size)) }
    ensures size { sizes result ≤ 3 * 2 ^ 29 }
{
    fine_twiddle(n.wrapping_mul(k).wrapping_mul(256 / size))
}

// The fine transform of real samples, line k: 2^30 times the exact line, but for the circle's rounding. None where a component has
// no room in 64 bits.
pub fn fine_line(samples: &[i64], k: usize) -> Option<Complex>
    ensures value { IfSome result (λ x. x ≡ fine_line_of (length samples.now) (samples_of samples.now) k) }
    ensures room { length samples.now ≤ 256 → All (λ x. unsigned_abs x ≤ 2 ^ 24) samples.now → IsSome result }
{
    let zero = Complex { re: 0, im: 0 };
    samples
        .iter()
        .enumerate()
        .try_fold(zero, |sum, (n, sample)| {
            plus_multiple(sum, factor(n, k, samples.len()), *sample)
        })
}
