// A worked figure of the split.
ghost use Rattle.split.specs.Figure.{SealedFigure};

use crate::{Halves, Split};
use plain::Plain;
use refusal::Refusal;
use scheme::Scheme;

// −5, sealed with the mask word 70 under the split over the plain residues modulo 81: the halves are 70 and 6.
pub fn sealed_figure() -> Result<Halves<u64>, Refusal>
    ensures { SealedFigure result }
{
    let mut s = Split::new(Plain::new(81)?);
    s.seal(-5, 70)
}
