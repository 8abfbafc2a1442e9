// Inverses modulo a number, by extended Euclid's algorithm.
ghost use Rattle.std.specs.Prelude.{◌≡◌, ◌*◌, ◌%◌, ◌<◌};
ghost use Rattle.system.specs.Moduli.{Inverse};

use crate::residues::SmallModulus;

// A row of the algorithm: `rest` and `number * factor` leave one remainder modulo `small`.
#[derive(Clone, Copy)]
struct Row {
    rest: u64,
    factor: u64,
}

// The number below `small` whose product with `number` leaves 1, or none where a number other than 1 divides both.
pub(crate) fn inverse(number: SmallModulus, small: SmallModulus) -> Option<u64>
    ensures { Inverse number.modulus.n small.modulus.n result }
{
    let mut row = Row {
        rest: small.modulus.n,
        factor: 0,
    };
    let mut next = Row {
        rest: number.modulus.n % small.modulus.n,
        factor: 1,
    };
    while next.rest != 0 {
        let factor = row.factor + (small.modulus.n - next.factor) * (row.rest / next.rest);
        let last = Row {
            rest: row.rest % next.rest,
            factor: factor % small.modulus.n,
        };
        (row, next) = (next, last);
    }
    (row.rest == 1).then_some(row.factor)
}

// An inverse of the product a · b modulo `small`, from an inverse of a and one of b.
pub(crate) fn joint_inverse(
    a: SmallModulus,
    b: SmallModulus,
    small: SmallModulus,
    of_a: u64,
    of_b: u64,
) -> u64
    requires factors { (of_a < small.modulus.n) × (of_b < small.modulus.n) }
    requires inverts { ((a.modulus.n * of_a) % small.modulus.n ≡ 1) × ((b.modulus.n * of_b) % small.modulus.n ≡ 1) }
    ensures below { result < small.modulus.n }
    ensures inverts { (a.modulus.n * b.modulus.n * result) % small.modulus.n ≡ 1 }
{
    of_a * of_b % small.modulus.n
}
