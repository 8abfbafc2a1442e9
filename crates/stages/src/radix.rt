// The stages of radix 2 and 4, in place.
ghost use Rattle.std.specs.Prelude.{◌≡◌, ℕ, ◌+◌, ◌*◌, ◌^◌, ◌<◌, ◌≤◌, length};
ghost use Rattle.plan.specs.Methods.{base};
ghost use Rattle.lines.specs.Lines.{stage_count as stage_count_of};
ghost use Rattle.stages.specs.Stage.{Making, PowerBelow, StageAnswer, stages_in};

use crate::butterfly::{Butterfly, Radix};
use crate::search::all_well_formed;
use plan::{Method, Plan};
use refusal::Refusal;
use scheme::Scheme;

// The number of stages of a plan: none for direct lines, else the exponent of its size as a power of the radix.
pub fn stage_count(plan: &Plan) -> usize
    ensures { result ≡ stage_count_of plan.now.method plan.now.size }
{
    match plan.method() {
        Method::Direct => 0,
        Method::Radix2 => plan.size().trailing_zeros() as usize,
        Method::Radix4 => plan.size().trailing_zeros() as usize / 2,
    }
}

// Every butterfly of a stage, group after group.
fn cross_all<S: Radix<R>, const R: usize>(
    s: &mut S,
    scale: u32,
    span: usize,
    groups: usize,
    block: &mut [(S::Number, S::Number)],
)
    requires some { 0 < R }
    requires small { groups * (R * span) ≤ 256 }
    requires within { groups * (R * span) ≤ length block.old }
    ensures made { (t : ℕ) → span ≡ R ^ t → Making (S.meaning s.old) scale R t groups (groups * span) block.old block.new }
    ensures frame { S.meaning s.new ≡ S.meaning s.old }
{
    // Kept: tried with chunks_exact_mut, and the proof didn't close, since after it no pair of the block is known.
    for group in 0..groups {
        for k in 0..span {
            let butterfly = Butterfly::<R> {
                scale,
                span,
                group,
                k,
            };
            butterfly.cross(s, block);
        }
    }
}

// radix^t where it lies below the size.
fn power_below(radix: usize, t: usize, size: usize) -> Option<usize>
    requires { (1 < radix) × (size ≤ 256) }
    ensures { PowerBelow radix t size result }
{
    let power = radix.checked_pow(u32::try_from(t).ok()?)?;
    (power < size).then_some(power)
}

// Stage t + 1 of a plan of radix R, on a block of at least M pairs.
fn stage_of_radix<S: Radix<R>, const R: usize>(
    s: &mut S,
    plan: &Plan,
    t: usize,
    block: &mut [(S::Number, S::Number)],
) -> Result<(), Refusal>
    requires radix { R ≡ base plan.now.method }
    requires powers { plan.now.size ≡ R ^ stages_in plan.now }
    requires long { plan.now.size ≤ length block.old }
    ensures value { StageAnswer (S.meaning s.old) plan.now t block.old block.new result }
    ensures frame { S.meaning s.new ≡ S.meaning s.old }
{
    let size = plan.size();
    let span = power_below(R, t, size).ok_or(Refusal::Moment)?;
    all_well_formed(s, &block[..size])?;
    let groups = size / (R * span);
    cross_all(s, plan.twiddle_scale(), span, groups, block);
    Ok(())
}

// Stage t + 1 of a plan in place: from lines of size r^t to lines of size r^(t + 1), r being the radix, on the first M places, M being
// the size. Refuses, with the block as it was, with Block where it has fewer than M pairs, else with Moment where t is not below the
// number of stages (direct plans have none), else with Malformed at the first of the M places that holds a malformed pair.
pub fn stage<S: Scheme>(
    s: &mut S,
    plan: &Plan,
    t: usize,
    block: &mut [(S::Number, S::Number)],
) -> Result<(), Refusal>
    ensures value { StageAnswer (S.meaning s.old) plan.now t block.old block.new result }
    ensures frame { S.meaning s.new ≡ S.meaning s.old }
{
    if block.len() < plan.size() {
        return Err(Refusal::Block);
    }
    match plan.method() {
        Method::Direct => Err(Refusal::Moment),
        Method::Radix2 => stage_of_radix::<S, 2>(s, plan, t, block),
        Method::Radix4 => stage_of_radix::<S, 4>(s, plan, t, block),
    }
}
