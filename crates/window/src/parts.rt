// The parts of the calls: what each does to the block, and why it is declined.
// Kept: `kept` beside `block`, and in four contracts the fact that the block has a pair for every place of the plan. A struct of the
// two would be no plainer: a loan stands in it, so each method that writes would say `lender` of it in place of this fact.
ghost use Rattle.std.specs.Prelude.{◌≡◌, ◌<◌, ◌≤◌, length};
ghost use Rattle.states.specs.Step.{progress as progress_of, stages_for};
ghost use Rattle.window.specs.Parts.{Planning, Same, Checking, Loading, Advancing, Reading, Opening};

use plan::{Method, Plan};
use refusal::Refusal;
use scheme::{Scheme, pairs};
use stages::{direct_line, place_of, stage, stage_count};
use states::{Kept, Line, State};

// The state after so many stages.
pub(crate) fn progress(kept: Kept, done: usize) -> State
    ensures { result ≡ progress_of kept done }
{
    if done == stage_count(&kept.plan) {
        State::Finished { kept }
    } else {
        State::Running { kept, done }
    }
}

// The plan of these numbers and the scheme's modulus, or why they are declined.
// Kept: four numbers as they are asked for. A struct of them would be no plainer: a second `Plan`, of which nothing holds.
pub(crate) fn plan_for<S: Scheme>(
    s: &mut S,
    block: &[(S::Number, S::Number)],
    method: Method,
    size: u64,
    sample_scale: u64,
    twiddle_scale: u64,
) -> Result<Kept, Refusal>
    ensures value { Planning (S.meaning s.old) block.now method size sample_scale twiddle_scale result }
    ensures frame { S.meaning s.new ≡ S.meaning s.old }
{
    let plan = Plan::new(method, size, sample_scale, twiddle_scale)?;
    if block.len() < plan.size() {
        return Err(Refusal::Block);
    }
    let modulus = s.modulus();
    plan.fits(modulus)?;
    Ok(Kept { plan, modulus })
}

// Refuses with Strange where the scheme has another modulus than the plan was made for.
fn same_modulus<S: Scheme>(s: &mut S, kept: &Kept) -> Result<(), Refusal>
    ensures value { Same (S.meaning s.old) kept.now result }
    ensures frame { S.meaning s.new ≡ S.meaning s.old }
{
    if s.modulus() != kept.modulus {
        return Err(Refusal::Strange);
    }
    Ok(())
}

// Why loading the pair as sample n, with `count` samples loaded, is declined.
fn check_load<S: Scheme>(
    s: &mut S,
    kept: &Kept,
    count: usize,
    n: usize,
    pair: (S::Number, S::Number),
) -> Result<(), Refusal>
    ensures value { Checking (S.meaning s.old) kept.now count n pair result }
    ensures frame { S.meaning s.new ≡ S.meaning s.old }
{
    // Kept: the session asks the same before it seals. A method of `Kept` would be no plainer: its contract would say this line again.
    if n > count || n >= kept.plan.size() {
        return Err(Refusal::Place);
    }
    same_modulus(s, kept)?;
    if !pairs::test(s, pair) {
        return Err(Refusal::Malformed(n));
    }
    Ok(())
}

// Puts a pair to the place of sample n, with `count` samples loaded.
pub(crate) fn load_at<S: Scheme>(
    s: &mut S,
    kept: &Kept,
    count: usize,
    n: usize,
    pair: (S::Number, S::Number),
    block: &mut [(S::Number, S::Number)],
) -> Result<(), Refusal>
    requires { kept.now.plan.size ≤ length block.old }
    ensures value { Loading (S.meaning s.old) kept.now count n pair block.old block.new result }
    ensures frame { S.meaning s.new ≡ S.meaning s.old }
{
    check_load(s, kept, count, n, pair)?;
    let place = place_of(&kept.plan, n)?;
    block[place] = pair;
    Ok(())
}

// Stage t + 1.
pub(crate) fn advance_at<S: Scheme>(
    s: &mut S,
    kept: &Kept,
    t: usize,
    block: &mut [(S::Number, S::Number)],
) -> Result<(), Refusal>
    requires long { kept.now.plan.size ≤ length block.old }
    requires due { t < stages_for kept.now.plan }
    ensures value { Advancing (S.meaning s.old) kept.now t block.old block.new result }
    ensures frame { S.meaning s.new ≡ S.meaning s.old }
{
    same_modulus(s, kept)?;
    stage(s, &kept.plan, t, block)
}

// A hidden pair that stands for line k: a direct line is worked out, a radix line stands at place k.
// Kept: a program chooses so too, and tests no pair. A function for both would be no plainer: it would have to ask for a long enough
// block or refuse one.
fn read_line<S: Scheme>(
    s: &mut S,
    plan: &Plan,
    k: usize,
    block: &[(S::Number, S::Number)],
) -> Result<(S::Number, S::Number), Refusal>
    requires { (k < plan.now.size) × (plan.now.size ≤ length block.now) }
    ensures value { Reading (S.meaning s.old) plan.now k block.now result }
    ensures frame { S.meaning s.new ≡ S.meaning s.old }
{
    match plan.method() {
        Method::Direct => direct_line(s, plan, k, block),
        Method::Radix2 | Method::Radix4 => {
            let pair = block[k];
            if pairs::test(s, pair) {
                Ok(pair)
            } else {
                Err(Refusal::Malformed(k))
            }
        }
    }
}

// Line k of a finished window, opened.
pub(crate) fn line_at<S: Scheme>(
    s: &mut S,
    kept: &Kept,
    k: usize,
    block: &[(S::Number, S::Number)],
) -> Result<Line, Refusal>
    requires { kept.now.plan.size ≤ length block.now }
    ensures value { Opening (S.meaning s.old) kept.now k block.now result }
    ensures frame { S.meaning s.new ≡ S.meaning s.old }
{
    if k >= kept.plan.size() {
        return Err(Refusal::Place);
    }
    same_modulus(s, kept)?;
    let pair = read_line(s, &kept.plan, k, block)?;
    let value = pairs::open(s, pair);
    let figures = kept.plan.figures();
    Ok(Line {
        index: k,
        re: value.re,
        im: value.im,
        scale: figures.scale,
        distance: figures.distance,
    })
}
