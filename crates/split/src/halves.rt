// A number of the split: two numbers of the scheme below.
#[derive(Clone, Copy)]
pub struct Halves<N> {
    pub first: N,
    pub second: N,
}
