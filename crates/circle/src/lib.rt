// The circle in whole numbers: cosines and sines times 2^30, twiddles of any scale, the spread of a scale.
// Angles are counted in 256ths of a turn.
#![tactic(auto)]

ghost use Rattle.std.specs.Prelude.{◌≡◌, ◌-◌, ◌*◌, ◌^◌, ◌<◌, ◌≤◌, pos, ◌*ℤ◌, unsigned_abs, cond, nat_le, Some, None};
ghost use Rattle.circle.specs.Circle.{circle, mirrored, cosine as cosine_of, sine as sine_of, in_quarter, CircleDetermined};
ghost use Rattle.circle.specs.Nearest.{NearestQuotient, NearestSigned};
ghost use Rattle.circle.specs.Near.{Near, multiple, sizes};
ghost use Rattle.integers.specs.Complex.{quarter_turn_of};
ghost use Rattle.circle.specs.Fine.{fine, FineDetermined, FineProducts};
ghost use Rattle.circle.specs.Twiddle.{twiddle as twiddle_of, TwiddlesDetermined};
ghost use Rattle.circle.specs.Figures.{CircleFigures};
ghost use Rattle.circle.specs.Spread.{spread as spread_of};

use integers::Complex;

#[cfg(test)]
mod tests;

// A point of the circle: cosine and sine times 2^30.
#[derive(Clone, Copy)]
struct Point {
    cos: u32,
    sin: u32,
}

// The first eighth of the circle, from 0 to 32: cosine and sine. Kept: points are no plainer, at four lines an entry for one of a pair.
const EIGHTH: [(u32, u32); 33] = [
    (1_073_741_824, 0),
    (1_073_418_433, 26_350_943),
    (1_072_448_455, 52_686_014),
    (1_070_832_474, 78_989_349),
    (1_068_571_464, 105_245_103),
    (1_065_666_786, 131_437_462),
    (1_062_120_190, 157_550_647),
    (1_057_933_813, 183_568_930),
    (1_053_110_176, 209_476_638),
    (1_047_652_185, 235_258_165),
    (1_041_563_127, 260_897_982),
    (1_034_846_671, 286_380_643),
    (1_027_506_862, 311_690_799),
    (1_019_548_121, 336_813_204),
    (1_010_975_242, 361_732_726),
    (1_001_793_390, 386_434_353),
    (992_008_094, 410_903_207),
    (981_625_251, 435_124_548),
    (970_651_112, 459_083_786),
    (959_092_290, 482_766_489),
    (946_955_747, 506_158_392),
    (934_248_793, 529_245_404),
    (920_979_082, 552_013_618),
    (907_154_608, 574_449_320),
    (892_783_698, 596_538_995),
    (877_875_009, 618_269_337),
    (862_437_520, 639_627_258),
    (846_480_531, 660_599_890),
    (830_013_654, 681_174_602),
    (813_046_808, 701_339_000),
    (795_590_213, 721_080_937),
    (777_654_384, 740_388_522),
    (759_250_125, 759_250_125),
];

// The point at v, in the first eighth; its mirror image stands at 64 − v.
fn eighth(v: usize) -> Point
    requires { v ≤ 32 }
    ensures value { result ≡ circle v }
    ensures image { v < 32 → mirrored result ≡ circle (64 - v) }
{
    let (cos, sin) = EIGHTH[v];
    Point { cos, sin }
}

// The point at v, in the first quarter.
fn quarter(v: usize) -> Point
    requires { v ≤ 64 }
    ensures { result ≡ circle v }
{
    if v <= 32 {
        eighth(v)
    } else {
        let image = eighth(64 - v);
        Point {
            cos: image.sin,
            sin: image.cos,
        }
    }
}

// The point at v; none past a quarter of a turn.
fn point_at(v: usize) -> Option<Point>
    ensures { result ≡ cond (nat_le v 64) (Some (circle v)) None }
{
    (v <= 64).then(|| quarter(v))
}

// The cosine at v times 2^30; none past a quarter of a turn.
pub fn cosine(v: usize) -> Option<u32>
    ensures { result ≡ in_quarter v (cosine_of v) }
{
    point_at(v).map(|p| p.cos)
}

// The sine at v times 2^30; none past a quarter of a turn.
pub fn sine(v: usize) -> Option<u32>
    ensures { result ≡ in_quarter v (sine_of v) }
{
    point_at(v).map(|p| p.sin)
}

// The rules of the circle have exactly one solution, which `cosine` and `sine` answer.
pub fn circle_is_determined()
    ensures { CircleDetermined }
{}

// x times −j: (a + jb)(−j) = b − ja. Kept: a type for the fact that sizes are at most 3·2^29, here and below, is no plainer, since what
// fine_twiddle answers is a Complex.
fn quarter_turn(x: Complex) -> Complex
    requires { sizes x ≤ 3 * 2 ^ 29 }
    ensures { result ≡ quarter_turn_of x }
{
    Complex {
        re: x.im,
        im: -x.re,
    }
}

// The fine twiddle at u: the power u of the 256th root of unity e^(−2πj/256), times 2^30; u counts modulo 256.
pub fn fine_twiddle(u: usize) -> Complex
    ensures value { result ≡ fine u }
    ensures size { sizes result ≤ 3 * 2 ^ 29 }
{
    let Point { cos, sin } = quarter(u % 64);
    let mut x = Complex {
        re: i64::from(cos),
        im: -i64::from(sin),
    };
    for _ in 0..u / 64 % 4 {
        x = quarter_turn(x);
    }
    x
}

// size/2^30 to the nearest whole number, halves upward.
fn nearest(size: u64) -> u64
    requires { size ≤ 2 ^ 63 }
    ensures { NearestQuotient size (2 ^ 30) result }
{
    (size + (1 << 29)) / (1 << 30)
}

// scale·x/2^30 to the nearest whole number, halves away from zero.
fn nearest_part(x: i64, scale: u32) -> i64
    requires { unsigned_abs x ≤ 3 * 2 ^ 29 }
    ensures { NearestSigned (pos scale *ℤ x) (2 ^ 30) result }
{
    let size = nearest(x.unsigned_abs() * u64::from(scale)) as i64;
    if x < 0 { -size } else { size }
}

// The twiddle of a scale at u: the fine twiddle brought to the scale, each component rounded to the nearest, halves away from zero.
pub fn twiddle(u: usize, scale: u32) -> Complex
    ensures value { result ≡ twiddle_of scale u }
    ensures size { sizes result ≤ spread_of scale }
    ensures near { Near (2 ^ 29) (multiple (2 ^ 30) result) (multiple scale (fine u)) }
{
    let Complex { re, im } = fine_twiddle(u);
    Complex {
        re: nearest_part(re, scale),
        im: nearest_part(im, scale),
    }
}

// The spread of a twiddle scale: 3·scale/2 rounded down, plus 1.
pub fn spread(scale: u32) -> u64
    ensures { result ≡ spread_of scale }
{
    3 * u64::from(scale) / 2 + 1
}

// The rules of the fine twiddles have exactly one solution, which `fine_twiddle` answers.
pub fn fine_twiddles_are_determined()
    ensures { FineDetermined }
{}

// The rule of the twiddles has exactly one solution at every scale, which `twiddle` answers.
pub fn twiddles_are_determined()
    ensures { TwiddlesDetermined }
{}

// Fine twiddles multiply as powers of one root: within 8·2^30 in each component.
pub fn fine_twiddles_multiply()
    ensures { FineProducts }
{}

// Worked figures of the circle, its twiddles and their spread.
pub fn figures_stand()
    ensures { CircleFigures }
{}
