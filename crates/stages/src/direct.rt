// One direct line.
ghost use Rattle.std.specs.Prelude.{◌≡◌, ℕ, ◌*◌, ◌/◌, ◌<◌, ◌≤◌, length};
ghost use Rattle.integers.specs.Complex.{◌⊗◌};
ghost use Rattle.integers.specs.declared.Complex.{Complex as Value};
ghost use Rattle.circle.specs.Twiddle.{twiddle as twiddle_of};
ghost use Rattle.scheme.specs.Meaning.{View};
ghost use Rattle.scheme.specs.Hidden.{StandsPair};
ghost use Rattle.lines.specs.Lines.{direct_line_of};
ghost use Rattle.stages.specs.Direct.{DirectAnswer, Samples};

use crate::search::all_well_formed;
use circle::twiddle;
use plan::Plan;
use refusal::Refusal;
use scheme::{Scheme, pairs};

// Line k of a size.
#[derive(Clone, Copy)]
struct Line {
    scale: u32,
    size: usize,
    k: usize,
    ghost below: { k < size },
    ghost small: { size ≤ 256 },
}

impl Line {
    // Sample n times its twiddle.
    fn product<S: Scheme>(
        self,
        s: &mut S,
        n: usize,
        sample: (S::Number, S::Number),
    ) -> (S::Number, S::Number)
        requires { n < self.size }
        ensures value { (v : View) (z : Value) → StandsPair (S.meaning s.old) v z sample → StandsPair (S.meaning s.old) v (twiddle_of self.scale (n * self.k * (256 / self.size)) ⊗ z) result }
        ensures frame { S.meaning s.new ≡ S.meaning s.old }
    {
        let factor = twiddle(n * self.k * (256 / self.size), self.scale);
        pairs::product(s, factor, sample)
    }

    // The line over all samples: the first product, then one product and one sum for each further sample.
    fn sum<S: Scheme>(self, s: &mut S, samples: &[(S::Number, S::Number)]) -> (S::Number, S::Number)
        requires { length samples.now ≡ self.size }
        ensures value { (v : View) (x : ℕ → Value) → Samples (S.meaning s.old) v self.size x samples.now → StandsPair (S.meaning s.old) v (direct_line_of self.scale self.size x self.k) result }
        ensures frame { S.meaning s.new ≡ S.meaning s.old }
    {
        let mut total = self.product(s, 0, samples[0]);
        for (n, sample) in samples.iter().enumerate().skip(1) {
            let next = self.product(s, n, *sample);
            total = pairs::sum(s, total, next);
        }
        total
    }
}

// Direct line k over the first M places, M being the plan's size: M products and M − 1 sums. Refuses with Block where the block has
// fewer than M pairs, else with Place where k is not below M, else with Malformed at the first of the M places that holds a malformed
// pair.
pub fn direct_line<S: Scheme>(
    s: &mut S,
    plan: &Plan,
    k: usize,
    block: &[(S::Number, S::Number)],
) -> Result<(S::Number, S::Number), Refusal>
    ensures value { DirectAnswer (S.meaning s.old) plan.now k block.now result }
    ensures frame { S.meaning s.new ≡ S.meaning s.old }
{
    let size = plan.size();
    let samples = block.get(..size).ok_or(Refusal::Block)?;
    if k >= size {
        return Err(Refusal::Place);
    }
    all_well_formed(s, samples)?;
    let line = Line {
        scale: plan.twiddle_scale(),
        size,
        k,
    };
    Ok(line.sum(s, samples))
}
