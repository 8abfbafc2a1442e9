// The numbers of this example.
use plan::Method;
use split::Halves;

// The modulus of the houses, a prime.
pub const MODULUS: u64 = 999_999_999_989;

// The samples of one cycle.
pub const SIZE: u64 = 64;

// The largest size of a sample, in hundredths of an ampere.
pub const SAMPLE_SCALE: u64 = 1000;

// What stands for 1 in a twiddle.
pub const TWIDDLE_SCALE: u64 = 512;

// The method of the houses, and its stages at this size.
pub const METHOD: Method = Method::Radix4;

pub const STAGES: usize = 3;

// A hidden sample or line: its real and its imaginary part, each split between the two houses.
pub(crate) type Pair = (Halves<u64>, Halves<u64>);
