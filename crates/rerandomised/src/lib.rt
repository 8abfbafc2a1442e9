// A scheme as a customer might write one, outside the library: it keeps books and answers another
// number for the same sum every second time.
#![tactic(auto)]

ghost use Rattle.std.specs.Prelude.{◌≡◌};
ghost use Rattle.rerandomised.specs.Twofold.{twofold, Makes};
ghost use Rattle.std.proofs.Common.{rules};

use integers::Modulus;
use refusal::Refusal;
use scheme::{Scheme, admit};

// Numbers below twice the modulus hide what they leave modulo it; odd mask words are taken. The
// calls of sum are counted, and the count says which of the two numbers a sum answers.
#[derive(Clone, Copy)]
pub struct Rerandomised {
    modulus: Modulus,
    sums: u64,
}

impl Rerandomised {
    // The scheme modulo n, with no sum counted; refuses with Modulus where n is no modulus.
    pub fn new(n: u64) -> Result<Rerandomised, Refusal>
        ensures { Makes n result }
    {
        let modulus = Modulus::new(n).ok_or(Refusal::Modulus)?;
        Ok(Rerandomised { modulus, sums: 0 })
    }
}

impl Scheme for Rerandomised {
    type Number = u64;

    ghost meaning = { λ s. twofold s.modulus.n };

    ghost sound = { Prim.search rules };

    fn modulus(&mut self) -> u64 {
        self.modulus.n
    }

    fn test(&mut self, x: u64) -> bool {
        x < 2 * self.modulus.n
    }

    fn zero(&mut self) -> u64 {
        self.modulus.n
    }

    fn sum(&mut self, a: u64, b: u64) -> u64 {
        let sum = self.modulus.sum(a, b);
        self.sums = self.sums.wrapping_add(1);
        if self.sums % 2 == 0 {
            sum
        } else {
            sum + self.modulus.n
        }
    }

    fn opposite(&mut self, a: u64) -> u64 {
        self.modulus.opposite(a)
    }

    fn seal(&mut self, m: i64, word: u64) -> Result<u64, Refusal> {
        admit(self.modulus, m, word % 2 == 1)?;
        Ok(self.modulus.residue(m))
    }

    fn open(&mut self, x: u64) -> u64 {
        x % self.modulus.n
    }
}
