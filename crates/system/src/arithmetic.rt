// Arithmetic on residues, one modulus at a time.
ghost use Rattle.std.specs.Prelude.{◌≡◌, ◌+◌, ◌*◌, ◌%◌, ◌^◌, ◌<◌, true};
ghost use Rattle.integers.specs.Residue.{residue as residue_of};
ghost use Rattle.system.specs.Hidden.{product, formed, hidden, raised};

use crate::residues::{Residues, SmallModulus, System};
use integers::Modulus;

// The base, raised by the multiple of `factor` that makes it leave the residue modulo `small`: one more digit in mixed radix.
fn raise(base: u64, factor: u64, small: SmallModulus, inverse: u64, residue: u64) -> u64
    requires digits { (base < factor) × (residue < small.modulus.n) }
    requires inverts { inverse < small.modulus.n }
    requires fits { factor < 2 ^ 40 }
    ensures value { result ≡ raised base factor small.modulus.n inverse residue }
    ensures below { result < factor * small.modulus.n }
{
    let lack = residue + (small.modulus.n - base % small.modulus.n);
    base + factor * (lack * inverse % small.modulus.n)
}

impl System {
    // The product of the first two moduli.
    fn pair(&self) -> u64
        ensures value { result ≡ self.now.first.modulus.n * self.now.second.modulus.n }
        ensures small { result < 2 ^ 40 }
    {
        self.first.modulus.n * self.second.modulus.n
    }

    // The modulus of the whole system: the product of the three.
    pub(crate) fn whole(&self) -> Modulus
        ensures { result.n ≡ product self.now }
    {
        Modulus {
            n: self.first.modulus.n * self.second.modulus.n * self.third.modulus.n,
        }
    }

    // Whether each residue is below its modulus.
    pub(crate) fn is_well_formed(&self, x: Residues) -> bool
        ensures { result ≡ formed self.now x }
    {
        x.first < self.first.modulus.n
            && x.second < self.second.modulus.n
            && x.third < self.third.modulus.n
    }

    // At each modulus, what the function answers for it and the two residues there.
    fn each<F: Fn(Modulus, u64, u64) -> u64>(&self, a: Residues, b: Residues, f: F) -> Residues
        requires { F.IsAlwaysCallable f }
        ensures first { F.post f self.now.first.modulus a.first b.first result.first }
        ensures second { F.post f self.now.second.modulus a.second b.second result.second }
        ensures third { F.post f self.now.third.modulus a.third b.third result.third }
    {
        Residues {
            first: f(self.first.modulus, a.first, b.first),
            second: f(self.second.modulus, a.second, b.second),
            third: f(self.third.modulus, a.third, b.third),
        }
    }

    // The sums of the residues.
    pub(crate) fn sums(&self, a: Residues, b: Residues) -> Residues
        ensures first { result.first ≡ (a.first + b.first) % self.now.first.modulus.n }
        ensures second { result.second ≡ (a.second + b.second) % self.now.second.modulus.n }
        ensures third { result.third ≡ (a.third + b.third) % self.now.third.modulus.n }
    {
        self.each(a, b, |n, x, y| n.sum(x, y))
    }

    // The residues that bring the sums to 0.
    pub(crate) fn opposites(&self, a: Residues) -> Residues
        ensures formed { formed self.now result ≡ true }
        ensures first { (a.first + result.first) % self.now.first.modulus.n ≡ 0 }
        ensures second { (a.second + result.second) % self.now.second.modulus.n ≡ 0 }
        ensures third { (a.third + result.third) % self.now.third.modulus.n ≡ 0 }
    {
        self.each(a, a, |n, x, _| n.opposite(x))
    }

    // The residues of a whole number.
    pub(crate) fn remainders(&self, m: i64) -> Residues
        ensures first { result.first ≡ residue_of m self.now.first.modulus.n }
        ensures second { result.second ≡ residue_of m self.now.second.modulus.n }
        ensures third { result.third ≡ residue_of m self.now.third.modulus.n }
    {
        let zero = Residues::default();
        self.each(zero, zero, |n, _, _| n.residue(m))
    }

    // The number that well-formed residues hide, digit by digit in mixed radix.
    pub(crate) fn combine(&self, x: Residues) -> u64
        requires { formed self.now x ≡ true }
        ensures { result ≡ hidden self.now x }
    {
        let first = self.first.modulus.n;
        let low = raise(x.first, first, self.second, self.inverse, x.second);
        raise(low, self.pair(), self.third, self.joint, x.third)
    }
}
