// What the houses and the reader work on.
use crate::example::Pair;
use plain::Plain;
use split::Split;

// Where the lines are printed, the scheme of the houses, and the cycle as the meter sealed it.
#[derive(Drop)]
pub(crate) struct Cycle<'a, P> {
    pub(crate) rt: &'a P,
    pub(crate) s: &'a mut Split<Plain>,
    pub(crate) sealed: &'a [Pair],
}
