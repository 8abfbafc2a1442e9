// What the lines of a plan mean.

// The scale, the bound and the distance of a plan's lines: a line is the fine transform times the
// scale, to within the distance, and no component of a line is larger than the bound.
#[derive(Clone, Copy, PartialEq, Eq, Debug)]
pub struct Figures {
    pub scale: u128,
    pub bound: u128,
    pub distance: u128,
}
