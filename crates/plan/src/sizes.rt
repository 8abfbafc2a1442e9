// What is said of a method: its sizes and its name.
ghost use Rattle.std.specs.Prelude.{◌≡◌, Some};
ghost use Rattle.plan.specs.Methods.{base, name, sized};

use super::method::Method;
use std::fmt;

impl Method {
    // Whether the method has transforms of this size. Kept: the definition lists the sizes too, and as a test it is no plainer: beside
    // `size.is_power_of_two() && size <= 256` radix 4 needs `&& size.trailing_zeros() % 2 == 0`.
    pub fn allows(self, size: u64) -> bool
        ensures { result ≡ sized self size }
    {
        match self {
            Method::Direct | Method::Radix2 => {
                matches!(size, 1 | 2 | 4 | 8 | 16 | 32 | 64 | 128 | 256)
            }
            Method::Radix4 => matches!(size, 1 | 4 | 16 | 64 | 256),
        }
    }

    // Into how many parts a stage splits the samples; 2 where there is no stage. Kept: an Option is no plainer, since only plans of a radix
    // ask, and the base whose powers are the sizes is 2 for direct plans too.
    pub(crate) fn parts(self) -> usize
        ensures { result ≡ base self }
    {
        match self {
            Method::Direct | Method::Radix2 => 2,
            Method::Radix4 => 4,
        }
    }
}

impl fmt::Display for Method {
    ghost output = { λ m. Some (name m) };

    fn fmt<W: fmt::Write>(&self, f: &mut fmt::Formatter<W>) -> fmt::Result {
        match self {
            Method::Direct => f.write_str("direct"),
            Method::Radix2 => f.write_str("radix 2"),
            Method::Radix4 => f.write_str("radix 4"),
        }
    }
}
