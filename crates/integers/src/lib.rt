// Whole numbers: complex ones, and residues modulo an odd number.
#![tactic(auto)]

ghost use Rattle.std.specs.Prelude.{◌≡◌, ◌+◌, ◌%◌, ◌<◌};
ghost use Rattle.integers.specs.Residue.{residue, centred, half as half_of, ResidueStands, CentredStands};
ghost use Rattle.integers.specs.Modulus.{Made};

mod modulus;

pub use modulus::Modulus;

// A complex whole number, real part first.
#[derive(Clone, Copy, PartialEq, Eq, Debug)]
pub struct Complex {
    pub re: i64,
    pub im: i64,
}

impl Modulus {
    // The modulus n; none where n is even or lies outside 3 to 2^62 − 1.
    pub fn new(n: u64) -> Option<Modulus>
        ensures { Made n result }
    {
        // Kept: no plainer with `then`, whose closure would have to repeat the three facts of the type.
        if n % 2 == 1 && (3..1 << 62).contains(&n) {
            Some(Modulus { n })
        } else {
            None
        }
    }

    // The greatest size of a whole number that a residue means, (n − 1)/2.
    pub fn half(self) -> u64
        ensures { result ≡ half_of self.n }
    {
        (self.n - 1) / 2
    }

    // The residue of a whole number.
    pub fn residue(self, m: i64) -> u64
        ensures { result ≡ residue m self.n }
    {
        m.rem_euclid(self.n as i64) as u64
    }

    // The whole number that the residue of r means.
    pub fn centred(self, r: u64) -> i64
        ensures { result ≡ centred (r % self.n) self.n }
    {
        let r = r % self.n;
        if r <= self.half() {
            r as i64
        } else {
            r as i64 - self.n as i64
        }
    }

    // The residue of the sum of a and b.
    pub fn sum(self, a: u64, b: u64) -> u64
        ensures { result ≡ (a + b) % self.n }
    {
        (a % self.n + b % self.n) % self.n
    }

    // The residue that brings the sum with a to 0.
    pub fn opposite(self, a: u64) -> u64
        ensures below { result < self.n }
        ensures cancels { (a + result) % self.n ≡ 0 }
    {
        (self.n - a % self.n) % self.n
    }
}

// A whole number has one residue and no other.
pub fn residues_stand()
    ensures { ResidueStands }
{}

// The meaning of a residue is the one whole number within half of the modulus that has this residue.
pub fn meanings_stand()
    ensures { CentredStands }
{}

#[cfg(test)]
mod tests {
    use super::*;
    use std::test::Fail;

    #[test]
    fn residues_at_the_ends(rt: HostRuntime) -> Result<(), Fail> {
        let n = Modulus::new(4611686018427387903).ok_or("2^62 - 1 is a modulus")?;
        assert_eq!(rt; n.half(), 2305843009213693951);
        assert_eq!(rt; n.residue(i64::MIN), 4611686018427387901);
        assert_eq!(rt; n.residue(i64::MAX), 1);
        assert_eq!(rt; n.centred(u64::MAX), 3);
        assert_eq!(rt; n.sum(u64::MAX, u64::MAX), 6);
        assert_eq!(rt; n.opposite(u64::MAX), 4611686018427387900);
        Ok(())
    }

    #[test]
    fn moduli(rt: HostRuntime) {
        assert_eq!(rt; Modulus::new(1), None);
        assert_eq!(rt; Modulus::new(4611686018427387904), None);
        assert_eq!(rt; Modulus::new(4611686018427387905), None);
        assert_ne!(rt; Modulus::new(3), None);
    }
}
