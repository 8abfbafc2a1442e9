// The calls of a scheme, for the residue system.
ghost use Rattle.system.specs.Meant.{meant};
ghost use Rattle.system.specs.Laws;

use crate::residues::{Residues, System};
use refusal::Refusal;
use scheme::{Scheme, admit};

impl Scheme for System {
    type Number = Residues;

    ghost meaning = { meant };

    ghost sound = { λ s. Laws.sound s };

    fn modulus(&mut self) -> u64 {
        self.whole().n
    }

    fn test(&mut self, x: Residues) -> bool {
        self.is_well_formed(x)
    }

    fn zero(&mut self) -> Residues {
        Residues::default()
    }

    fn sum(&mut self, a: Residues, b: Residues) -> Residues {
        self.sums(a, b)
    }

    fn opposite(&mut self, a: Residues) -> Residues {
        self.opposites(a)
    }

    fn seal(&mut self, m: i64, word: u64) -> Result<Residues, Refusal> {
        let whole = self.whole();
        admit(whole, m, word < whole.n)?;
        Ok(self.remainders(m))
    }

    // On residues that are not well formed the answer is 0.
    fn open(&mut self, x: Residues) -> u64 {
        if self.is_well_formed(x) {
            self.combine(x)
        } else {
            0
        }
    }
}
