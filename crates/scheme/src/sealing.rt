// Sealing samples under a limit, and opening numbers as whole numbers, under every scheme.
ghost use Rattle.std.specs.Prelude.{◌≡◌, true, [], pos};
ghost use Rattle.scheme.specs.Hidden.{Stands};
ghost use Rattle.scheme.specs.Sealing.{Limits, Admits, SealsWithin, Reopens, SealedOpens, means};

use crate::calls::Scheme;
use integers::Modulus;
use refusal::Refusal;

// The modulus of a scheme.
pub fn modulus_of<S: Scheme>(s: &mut S) -> Modulus
    ensures value { result.n ≡ (S.meaning s.old).modulus }
    ensures frame { S.meaning s.new ≡ S.meaning s.old }
{
    Modulus::new(s.modulus()).unwrap()
}

// Refuses with Large where the size of m is above the limit, and with nothing else.
pub(crate) fn within(m: i64, limit: u64) -> Result<(), Refusal>
    ensures { Limits limit m result }
{
    if m.unsigned_abs() > limit {
        Err(Refusal::Large)
    } else {
        Ok(())
    }
}

// What the seal of a scheme with this modulus refuses, for a mask word that is taken or not: with Large where the size of m is above
// (N − 1)/2, else with Mask where the word is not taken, and with nothing else.
pub fn admit(modulus: Modulus, m: i64, taken: bool) -> Result<(), Refusal>
    ensures { Admits modulus.n m taken result }
{
    within(m, modulus.half())?;
    taken.then_some(()).ok_or(Refusal::Mask)
}

// Seals the sample m with a mask word. Refuses with Large where the size of m is above the limit or above (N − 1)/2, else with Mask
// where the scheme does not take the word, and with nothing else.
pub fn seal_within<S: Scheme>(
    s: &mut S,
    limit: u64,
    m: i64,
    word: u64,
) -> Result<S::Number, Refusal>
    ensures value { SealsWithin (S.meaning s.old) limit m word result }
    ensures frame { S.meaning s.new ≡ S.meaning s.old }
{
    within(m, limit)?;
    s.seal(m, word)
}

// A number that hides the residue of r: the meaning of that residue, sealed with the word 1, which no scheme refuses.
pub fn seal_residue<S: Scheme>(s: &mut S, r: u64) -> S::Number
    ensures value { Stands (S.meaning s.old) [] (pos r) result }
    ensures frame { S.meaning s.new ≡ S.meaning s.old }
{
    let modulus = modulus_of(s);
    s.seal(modulus.centred(r), 1).unwrap()
}

// The whole number that a hidden number means: the hidden residue up to (N − 1)/2 itself, above it less N.
pub fn open_centred<S: Scheme>(s: &mut S, x: S::Number) -> i64
    ensures value { (S.meaning s.old).wf x ≡ true → result ≡ means (S.meaning s.old) x }
    ensures frame { S.meaning s.new ≡ S.meaning s.old }
{
    let modulus = modulus_of(s);
    modulus.centred(s.open(x))
}

// Seals m with a mask word and opens it again: it is m.
pub fn seal_and_open<S: Scheme>(s: &mut S, m: i64, word: u64) -> Result<i64, Refusal>
    ensures value { Reopens (S.meaning s.old) m word result }
    ensures frame { S.meaning s.new ≡ S.meaning s.old }
{
    let x = s.seal(m, word)?;
    Ok(open_centred(s, x))
}

// A sealed number opens as itself.
pub fn sealed_opens<S: Scheme>()
    ensures { SealedOpens S.Number }
{}
