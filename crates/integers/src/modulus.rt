// The modulus of residues.
ghost use Rattle.std.specs.Prelude.{◌≡◌, ◌%◌, ◌^◌, ◌<◌, ◌≤◌};

// An odd number from 3 to 2^62 − 1.
#[derive(Clone, Copy, PartialEq, Eq, Debug)]
pub struct Modulus {
    pub n: u64,
    ghost odd: { n % 2 ≡ 1 },
    ghost least: { 3 ≤ n },
    ghost most: { n < 2 ^ 62 },
}
