// The methods of the transform.

// How a transform is worked out.
#[derive(Clone, Copy, PartialEq, Eq, Debug)]
pub enum Method {
    // each line is one sum over all samples
    Direct,
    // stages that halve the size
    Radix2,
    // stages that quarter the size
    Radix4,
}
