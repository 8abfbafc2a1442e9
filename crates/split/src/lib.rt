// The split: a scheme on top of any scheme, itself included. A number is two numbers below, each of which a party of its own may hold.
#![tactic(auto)]

ghost use Rattle.std.specs.Prelude.{◌≡◌, true, ◌&&◌};
ghost use Rattle.scheme.specs.Meaning.{Zero, Sum, Opposite, Seals, hides};
ghost use Rattle.split.specs.Shares.{split, ZeroHalves, SumHalves, OppositeHalves, SealsHalves};
ghost use Rattle.std.proofs.Common.{rules};

mod figure;
mod halves;

pub use figure::sealed_figure;
pub use halves::Halves;
use refusal::Refusal;
use scheme::{Scheme, admit, modulus_of, seal_residue};

// The split over the scheme below.
#[derive(Drop)]
pub struct Split<S> {
    pub below: S,
}

impl<S: Scheme> Split<S> {
    // The split over a scheme; it has that scheme's modulus.
    pub fn new(below: S) -> Split<S>
        ensures { result.below ≡ below }
    {
        Split { below }
    }
}

impl<S: Scheme> Scheme for Split<S> {
    type Number = Halves<S::Number>;

    ghost meaning = { λ s. split (S.meaning s.below) };

    ghost sound = { Prim.search rules };

    fn modulus(&mut self) -> u64 {
        self.below.modulus()
    }

    fn test(&mut self, x: Halves<S::Number>) -> bool {
        self.below.test(x.first) && self.below.test(x.second)
    }

    // Half by half.
    //
    // Kept: no plainer. Two lines for the two halves, here, in sum and in opposite: the form `a.map(&mut |x| below.opposite(x))` takes
    // map, zip and a third function of Halves, each with a contract on the steps of a closure, to save a line or two in each of these.
    fn zero(&mut self) -> Halves<S::Number>
        ensures value { Zero (split (S.meaning self.old.below)) result }
        ensures halves { ZeroHalves (S.meaning self.old.below) result }
        ensures frame { split (S.meaning self.new.below) ≡ split (S.meaning self.old.below) }
    {
        let first = self.below.zero();
        let second = self.below.zero();
        Halves { first, second }
    }

    // Half by half.
    fn sum(&mut self, a: Halves<S::Number>, b: Halves<S::Number>) -> Halves<S::Number>
        ensures value { (split (S.meaning self.old.below)).wf a ≡ true → (split (S.meaning self.old.below)).wf b ≡ true → Sum (split (S.meaning self.old.below)) a b result }
        ensures halves { SumHalves (S.meaning self.old.below) a b result }
        ensures frame { split (S.meaning self.new.below) ≡ split (S.meaning self.old.below) }
    {
        let first = self.below.sum(a.first, b.first);
        let second = self.below.sum(a.second, b.second);
        Halves { first, second }
    }

    // Half by half.
    fn opposite(&mut self, a: Halves<S::Number>) -> Halves<S::Number>
        ensures value { (split (S.meaning self.old.below)).wf a ≡ true → Opposite (split (S.meaning self.old.below)) a result }
        ensures halves { OppositeHalves (S.meaning self.old.below) a result }
        ensures frame { split (S.meaning self.new.below) ≡ split (S.meaning self.old.below) }
    {
        let first = self.below.opposite(a.first);
        let second = self.below.opposite(a.second);
        Halves { first, second }
    }

    // The first half hides the word, the second half the residue of m less the word; both are sealed below with the word 1.
    fn seal(&mut self, m: i64, word: u64) -> Result<Halves<S::Number>, Refusal>
        ensures value { Seals (split (S.meaning self.old.below)) m word result }
        ensures halves { SealsHalves (S.meaning self.old.below) m word result }
        ensures frame { split (S.meaning self.new.below) ≡ split (S.meaning self.old.below) }
    {
        let modulus = modulus_of(&mut self.below);
        admit(modulus, m, word < modulus.n)?;
        let rest = modulus.sum(modulus.residue(m), modulus.opposite(word));
        let first = seal_residue(&mut self.below, word);
        let second = seal_residue(&mut self.below, rest);
        Ok(Halves { first, second })
    }

    fn open(&mut self, x: Halves<S::Number>) -> u64 {
        let modulus = modulus_of(&mut self.below);
        let first = self.below.open(x.first);
        let second = self.below.open(x.second);
        modulus.sum(first, second)
    }
}

#[cfg(test)]
mod tests {
    use super::*;
    use integers::Complex;
    use plain::Plain;
    use scheme::pairs;
    use std::test::Fail;

    // (4 − 3j)·(2 + 5j), sealed, multiplied and opened: 23 + 14j.
    fn multiplied<S: Scheme>(s: &mut S, words: (u64, u64)) -> Option<Complex> {
        let pair = pairs::seal(s, 5, Complex { re: 2, im: 5 }, words).ok()?;
        let product = pairs::product(s, Complex { re: 4, im: -3 }, pair);
        Some(pairs::open(s, product))
    }

    #[test]
    fn one_function_for_every_scheme(rt: HostRuntime) -> Result<(), Fail> {
        let plain = Plain::new(81)?;
        let expected = Some(Complex { re: 23, im: 14 });
        let mut once = Split::new(plain);
        assert_eq!(rt; multiplied(&mut once, (17, 80)), expected);
        let mut twice = Split::new(Split::new(plain));
        assert_eq!(rt; multiplied(&mut twice, (33, 2)), expected);
        assert_eq!(rt; multiplied(&mut twice, (81, 2)), None);
        Ok(())
    }
}
