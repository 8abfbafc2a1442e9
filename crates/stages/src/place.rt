// The place of a sample.
ghost use Rattle.std.specs.Prelude.{◌≡◌, ℕ, ◌-◌, ◌^◌, ◌<◌, ◌≤◌};
ghost use Rattle.lines.specs.Places.{reversed as reversed_of};
ghost use Rattle.stages.specs.Place.{Placed};

use plan::{Method, Plan};
use refusal::Refusal;

// The digits of n to the base `radix` reversed, as many as the size, a power of the radix, has zeros.
// Kept: tried with the radix as a const parameter, and the proof didn't close: a recursion over one gets none.
fn reversed(radix: usize, size: usize, n: usize) -> usize
    requires { 1 < radix }
    ensures value { (u : ℕ) → size ≡ radix ^ u → result ≡ reversed_of radix u n }
    ensures below { result ≤ size - 1 }
{
    if size <= 1 {
        return 0;
    }
    let part = size / radix;
    n % radix * part + reversed(radix, part, n / radix)
}

// The place at which sample n starts: n for direct lines, n with its binary or base-4 digits reversed for radix 2 or 4. Refuses with
// Place where n is not below the size.
pub fn place_of(plan: &Plan, n: usize) -> Result<usize, Refusal>
    ensures { Placed plan.now n result }
{
    if n >= plan.size() {
        return Err(Refusal::Place);
    }
    match plan.method() {
        Method::Direct => Ok(n),
        Method::Radix2 => Ok(reversed(2, plan.size(), n)),
        Method::Radix4 => Ok(reversed(4, plan.size(), n)),
    }
}
