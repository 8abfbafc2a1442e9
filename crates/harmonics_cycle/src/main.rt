// One cycle of a tenant's current on its whole way: the meter hides the samples, two analysis houses transform what they cannot
// read, and the tenant's reader opens the lines and divides by the scale that each is stated with.
#![tactic(auto)]

mod cards;
mod cycle;
mod example;
mod houses;
mod masks;
mod meter;
mod reader;
mod scales;
mod schemes;
mod session;
mod spectrum;

use cards::print_cards;
use cycle::Cycle;
use example::MODULUS;
use meter::{print_meter, seal_cycle};
use plain::Plain;
use schemes::print_schemes;
use spectrum::print_spectrum;
use split::Split;

// The whole way, from the plan to the reader.
fn print_all(rt: &(impl Print + AllocGlobal)) -> anyhow::Result<()> {
    let mut s = Split::new(Plain::new(MODULUS)?);
    let sealed = seal_cycle(&mut s, rt.alloc())?;
    print_cards(rt)?;
    print_meter(rt, sealed.as_slice())?;
    let mut cycle = Cycle {
        rt,
        s: &mut s,
        sealed: sealed.as_slice(),
    };
    cycle.print_calls()?;
    cycle.print_held()?;
    let lines = cycle.print_reader()?;
    print_spectrum(rt, lines.as_slice())?;
    cycle.print_scales(lines.as_slice())?;
    cycle.print_masks()?;
    print_schemes(rt, lines.as_slice())
}

// Prints it, or says what failed.
fn main(rt: HostRuntime) -> anyhow::Result<()> {
    print_all(&rt)
}
