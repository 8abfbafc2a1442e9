// Plain residues: the scheme whose numbers are the residues themselves. Other schemes stand on it.
#![tactic(auto)]

ghost use Rattle.std.specs.Prelude.{◌≡◌};
ghost use Rattle.plain.specs.Made.{Makes};
ghost use Rattle.plain.specs.Residues.{residues};
ghost use Rattle.std.proofs.Common.{rules};

use integers::Modulus;
use refusal::Refusal;
use scheme::{Scheme, admit};

// The residues modulo one number.
#[derive(Clone, Copy)]
pub struct Plain {
    modulus: Modulus,
}

impl Plain {
    // The plain residues modulo n. Refuses with Modulus where n is even or lies outside 3 to 2^62 − 1, and by nothing else.
    pub fn new(n: u64) -> Result<Plain, Refusal>
        ensures { Makes n result }
    {
        let modulus = Modulus::new(n).ok_or(Refusal::Modulus)?;
        Ok(Plain { modulus })
    }
}

impl Scheme for Plain {
    type Number = u64;

    ghost meaning = { λ s. residues s.modulus.n };

    ghost sound = { Prim.search rules };

    fn modulus(&mut self) -> u64 {
        self.modulus.n
    }

    fn test(&mut self, x: u64) -> bool {
        x < self.modulus.n
    }

    fn zero(&mut self) -> u64 {
        0
    }

    fn sum(&mut self, a: u64, b: u64) -> u64 {
        self.modulus.sum(a, b)
    }

    fn opposite(&mut self, a: u64) -> u64 {
        self.modulus.opposite(a)
    }

    fn seal(&mut self, m: i64, word: u64) -> Result<u64, Refusal> {
        admit(self.modulus, m, word < self.modulus.n)?;
        Ok(self.modulus.residue(m))
    }

    fn open(&mut self, x: u64) -> u64 {
        x
    }
}

#[cfg(test)]
mod tests {
    use super::*;
    use scheme::seal_and_open;
    use std::test::Fail;

    #[test]
    fn residues_modulo_81(rt: HostRuntime) -> Result<(), Fail> {
        let mut s = Plain::new(81)?;
        assert_eq!(rt; s.seal(-5, 70), Ok(76));
        assert_eq!(rt; s.seal(41, 81), Err(Refusal::Large));
        assert_eq!(rt; s.seal(-40, 81), Err(Refusal::Mask));
        assert_eq!(rt; s.sum(80, 80), 79);
        assert_eq!(rt; s.opposite(0), 0);
        assert!(rt; !s.test(81));
        assert_eq!(rt; seal_and_open(&mut s, -40, 80), Ok(-40));
        Ok(())
    }
}
