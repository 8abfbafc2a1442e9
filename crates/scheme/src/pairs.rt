// Hidden complex numbers: pairs of hidden numbers, real part first, under every scheme.
//
// Kept: no plainer. Two calls, one for each component. A helper, as in `both(s, a, |s, x| hidden::multiple(s, c, x))`, would have to
// lend the scheme to its closure, since every call changes it. So its contract would need clauses on the steps of the closure: that it
// may be called at any state, and that there is a scheme between the two calls, which the first left and the second took. Each
// function would have to draw its own contract from those, to save two lines.
ghost use Rattle.std.specs.Prelude.{◌≡◌};
ghost use Rattle.integers.specs.Complex.{◌⊕◌, ◌⊖◌, ◌⊗◌, ◌⊙◌, quarter_turn_of};
ghost use Rattle.scheme.specs.Meaning.{View};
ghost use Rattle.scheme.specs.Hidden.{StandsPair, WellFormed, read_pair, well_formed};
ghost use Rattle.scheme.specs.Sealing.{SealsPair, means_pair};

use crate::calls::{Pair, Scheme};
use crate::{hidden, sealing};
use integers::Complex;
use refusal::Refusal;

// Whether both components are well formed: both are tested.
pub fn test<S: Scheme>(s: &mut S, a: Pair<S>) -> bool
    ensures value { result ≡ well_formed (S.meaning s.old) a }
    ensures frame { S.meaning s.new ≡ S.meaning s.old }
{
    let re = s.test(a.0);
    let im = s.test(a.1);
    re && im
}

// The sum: one sum for each component.
pub fn sum<S: Scheme>(s: &mut S, a: Pair<S>, b: Pair<S>) -> Pair<S>
    ensures value { WellFormed (S.meaning s.old) a → WellFormed (S.meaning s.old) b → (v : View) → StandsPair (S.meaning s.old) v (read_pair (S.meaning s.old) v a ⊕ read_pair (S.meaning s.old) v b) result }
    ensures frame { S.meaning s.new ≡ S.meaning s.old }
{
    let re = s.sum(a.0, b.0);
    let im = s.sum(a.1, b.1);
    (re, im)
}

// The difference: one opposite and one sum for each component.
pub fn difference<S: Scheme>(s: &mut S, a: Pair<S>, b: Pair<S>) -> Pair<S>
    ensures value { WellFormed (S.meaning s.old) a → WellFormed (S.meaning s.old) b → (v : View) → StandsPair (S.meaning s.old) v (read_pair (S.meaning s.old) v a ⊖ read_pair (S.meaning s.old) v b) result }
    ensures frame { S.meaning s.new ≡ S.meaning s.old }
{
    let re = hidden::difference(s, a.0, b.0);
    let im = hidden::difference(s, a.1, b.1);
    (re, im)
}

// The multiple by a whole number: one multiple for each component.
pub fn multiple<S: Scheme>(s: &mut S, c: i64, a: Pair<S>) -> Pair<S>
    ensures value { WellFormed (S.meaning s.old) a → (v : View) → StandsPair (S.meaning s.old) v (c ⊙ read_pair (S.meaning s.old) v a) result }
    ensures frame { S.meaning s.new ≡ S.meaning s.old }
{
    let re = hidden::multiple(s, c, a.0);
    let im = hidden::multiple(s, c, a.1);
    (re, im)
}

// The product by a complex whole number: four multiples, two sums, one opposite.
pub fn product<S: Scheme>(s: &mut S, w: Complex, a: Pair<S>) -> Pair<S>
    ensures value { WellFormed (S.meaning s.old) a → (v : View) → StandsPair (S.meaning s.old) v (w ⊗ read_pair (S.meaning s.old) v a) result }
    ensures frame { S.meaning s.new ≡ S.meaning s.old }
{
    let re_re = hidden::multiple(s, w.re, a.0);
    let im_im = hidden::multiple(s, w.im, a.1);
    let re = hidden::difference(s, re_re, im_im);
    let re_im = hidden::multiple(s, w.re, a.1);
    let im_re = hidden::multiple(s, w.im, a.0);
    let im = s.sum(re_im, im_re);
    (re, im)
}

// The product by −j: one opposite.
pub fn turn<S: Scheme>(s: &mut S, a: Pair<S>) -> Pair<S>
    ensures value { WellFormed (S.meaning s.old) a → (v : View) → StandsPair (S.meaning s.old) v (quarter_turn_of (read_pair (S.meaning s.old) v a)) result }
    ensures frame { S.meaning s.new ≡ S.meaning s.old }
{
    (a.1, s.opposite(a.0))
}

// Seals both components of a sample, each with a mask word of its own. Refuses with Large where either component is above the limit
// or above (N − 1)/2 in size, else with Mask where the scheme does not take one of the words, and with nothing else.
pub fn seal<S: Scheme>(
    s: &mut S,
    limit: u64,
    sample: Complex,
    words: (u64, u64),
) -> Result<Pair<S>, Refusal>
    ensures value { SealsPair (S.meaning s.old) limit sample words result }
    ensures frame { S.meaning s.new ≡ S.meaning s.old }
{
    let room = limit.min(sealing::modulus_of(s).half());
    sealing::within(sample.re, room)?;
    sealing::within(sample.im, room)?;
    let re = s.seal(sample.re, words.0)?;
    let im = s.seal(sample.im, words.1)?;
    Ok((re, im))
}

// The complex whole number that a hidden pair means.
pub fn open<S: Scheme>(s: &mut S, a: Pair<S>) -> Complex
    ensures value { WellFormed (S.meaning s.old) a → result ≡ means_pair (S.meaning s.old) a }
    ensures frame { S.meaning s.new ≡ S.meaning s.old }
{
    let re = sealing::open_centred(s, a.0);
    let im = sealing::open_centred(s, a.1);
    Complex { re, im }
}
