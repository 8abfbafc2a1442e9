// Three residues and the system of moduli that they belong to.
ghost use Rattle.std.specs.Prelude.{◌≡◌, ◌*◌, ◌%◌, ◌<◌, ◌≤◌};

use integers::Modulus;

// Three residues, one for each modulus. They are a number of the system where each is below its modulus.
#[derive(Clone, Copy, PartialEq, Eq, Debug, Default)]
pub struct Residues {
    pub first: u64,
    pub second: u64,
    pub third: u64,
}

// One of the three moduli: a modulus, so odd and at least 3, of at most 1,048,575.
#[derive(Clone, Copy)]
pub(crate) struct SmallModulus {
    pub(crate) modulus: Modulus,
    ghost most: { modulus.n ≤ 1_048_575 },
}

// A residue system: three odd moduli, no two with a common factor.
#[derive(Clone, Copy)]
pub struct System {
    pub(crate) first: SmallModulus,
    pub(crate) second: SmallModulus,
    pub(crate) third: SmallModulus,
    // an inverse of the first modulus, modulo the second
    pub(crate) inverse: u64,
    // an inverse of the product of the first two moduli, modulo the third
    pub(crate) joint: u64,
    ghost inverse_below: { inverse < second.modulus.n },
    ghost joint_below: { joint < third.modulus.n },
    ghost inverts: { (first.modulus.n * inverse) % second.modulus.n ≡ 1 },
    ghost joint_inverts: { (first.modulus.n * second.modulus.n * joint) % third.modulus.n ≡ 1 },
}
