// Making a residue system.
ghost use Rattle.std.specs.Prelude.{◌≡◌};
ghost use Rattle.system.specs.Making.{Found, Made, MadeSmall};

use crate::euclid::{inverse, joint_inverse};
use crate::residues::{SmallModulus, System};
use integers::Modulus;
use refusal::Refusal;

impl SmallModulus {
    // The modulus n; none where n is even or lies outside 3 to 1,048,575.
    pub(crate) fn new(n: u64) -> Option<SmallModulus>
        ensures { MadeSmall n result }
    {
        let modulus = Modulus::new(n).filter(|modulus| modulus.n <= 1_048_575)?;
        Some(SmallModulus { modulus })
    }
}

impl System {
    // The system of three moduli. Each must be odd and from 3 to 1,048,575, and no two may have a common factor: else refuses with
    // Modulus.
    pub fn new(first: u64, second: u64, third: u64) -> Result<System, Refusal>
        ensures { Made first second third result }
    {
        System::of(first, second, third).ok_or(Refusal::Modulus)
    }

    // The system of three moduli; none where they break that rule.
    fn of(first: u64, second: u64, third: u64) -> Option<System>
        ensures { Found first second third result }
    {
        let first = SmallModulus::new(first)?;
        let second = SmallModulus::new(second)?;
        let third = SmallModulus::new(third)?;
        let first_to_second = inverse(first, second)?;
        let first_to_third = inverse(first, third)?;
        let second_to_third = inverse(second, third)?;
        let joint = joint_inverse(first, second, third, first_to_third, second_to_third);
        Some(System {
            first,
            second,
            third,
            inverse: first_to_second,
            joint,
        })
    }
}
