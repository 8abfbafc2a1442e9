// The real task, as far as it goes: prints what the lines of some plans mean before a meter is
// fitted, shows one sample on its way, takes one cycle of a feeder current through the window while it
// stays hidden, and prints the masks under which a house would have seen the same for another curve.
#![tactic(auto)]

mod cards;
mod cycle;
mod sample;

use cards::{MODULUS, print_cards};
use cycle::{WIDE, print_cycle, print_unknown, seal_cycle};
use plain::Plain;
use sample::{print_split_sample, print_system_sample};
use split::Split;

fn main(rt: HostRuntime) -> anyhow::Result<()> {
    print_cards(&rt)?;
    println!(rt; "\nOne sample on its way\n")?;
    print_split_sample(&rt, -57, 123_456)?;
    print_split_sample(&rt, -57, MODULUS)?;
    print_split_sample(&rt, 270_401, 1)?;
    print_system_sample(&rt, -57)?;
    let mut s = Split::new(Plain::new(WIDE)?);
    let sealed = seal_cycle(&mut s, rt.alloc())?;
    println!(rt; "\nOne cycle of a feeder current\n")?;
    print_cycle(&rt, &mut s, sealed.as_slice())?;
    println!(rt; "\nWhat the houses cannot tell\n")?;
    print_unknown(&rt, &mut s, sealed.as_slice())
}
