// The calls that every scheme has, and what each owes.
ghost use Rattle.std.specs.Prelude.{◌≡◌, true};
ghost use Rattle.scheme.specs.Meaning.{Meaning, Sound, Zero, Sum, Opposite, Seals, hides};

use refusal::Refusal;

// A scheme is one way of hiding whole numbers modulo N, which is odd, from 3 to 2^62 − 1. A number is well formed or not, and a
// well-formed number hides one residue, from 0 to N − 1. A scheme may keep books of its calls, but no call changes its meaning: N,
// the mask words that it takes, which numbers are well formed and what they hide. The answers of sum, opposite and open on numbers
// that are not well formed are free. These contracts are all that is assumed of a scheme.
//
// Kept: no plainer, here and in every function over a scheme of whatever crate. The clause `frame` stands at each, since it ties the
// scheme before the call to the scheme after it; a type's invariant speaks of one moment and cannot say it.
//
// Kept: a rule of the project needs it. `wf a ≡ true →` stands before what an answer owes. A block may hold any numbers and no public
// function has a `requires`, so a type of well-formed numbers would ask more of callers.
pub trait Scheme {
    // a hidden number
    type Number: Copy;

    ghost meaning: { Self → Meaning Self.Number };

    // The modulus N.
    fn modulus(&mut self) -> u64
        ensures value { result ≡ (meaning self.old).modulus }
        ensures frame { meaning self.new ≡ meaning self.old };

    // Whether the number is well formed.
    fn test(&mut self, x: Self::Number) -> bool
        ensures value { result ≡ (meaning self.old).wf x }
        ensures frame { meaning self.new ≡ meaning self.old };

    // A number that hides 0.
    fn zero(&mut self) -> Self::Number
        ensures value { Zero (meaning self.old) result }
        ensures frame { meaning self.new ≡ meaning self.old };

    // A number that hides the sum modulo N.
    fn sum(&mut self, a: Self::Number, b: Self::Number) -> Self::Number
        ensures value { (meaning self.old).wf a ≡ true → (meaning self.old).wf b ≡ true → Sum (meaning self.old) a b result }
        ensures frame { meaning self.new ≡ meaning self.old };

    // A number that hides the residue which brings the sum with a to 0.
    fn opposite(&mut self, a: Self::Number) -> Self::Number
        ensures value { (meaning self.old).wf a ≡ true → Opposite (meaning self.old) a result }
        ensures frame { meaning self.new ≡ meaning self.old };

    // A number that hides m modulo N. Refuses with Large where the size of m is above (N − 1)/2, else with Mask where the scheme
    // does not take the word, and with nothing else.
    fn seal(&mut self, m: i64, word: u64) -> Result<Self::Number, Refusal>
        ensures value { Seals (meaning self.old) m word result }
        ensures frame { meaning self.new ≡ meaning self.old };

    // The residue that the number hides.
    fn open(&mut self, x: Self::Number) -> u64
        ensures value { (meaning self.old).wf x ≡ true → result ≡ hides (meaning self.old) x }
        ensures frame { meaning self.new ≡ meaning self.old };

    ghost sound: { (s : Self) → Sound (meaning s) };
}

// A hidden complex number: two numbers, the real part first.
pub type Pair<S> = (<S as Scheme>::Number, <S as Scheme>::Number);
