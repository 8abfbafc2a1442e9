// The same cycle under the other schemes.
use crate::example::MODULUS;
use crate::meter::seal_cycle;
use crate::reader::HARMONICS;
use crate::session::{Request, transform};
use plain::Plain;
use scheme::Scheme;
use states::Line;
use system::System;

// Whether the scheme opens the same lines.
fn print_same<S: Scheme>(
    rt: &(impl Print + AllocGlobal),
    name: &str,
    s: &mut S,
    lines: &[Line],
) -> anyhow::Result<()> {
    let heap = rt.alloc();
    let sealed = seal_cycle(s, heap)?;
    let outcome = transform(heap, s, Request::lines(&HARMONICS), sealed.as_slice())?;
    let same = if outcome.lines.as_slice() == lines {
        "yes"
    } else {
        "no"
    };
    println!(rt; "by {name}: {same}")?;
    Ok(())
}

// The lines under plain residues and under a residue system, compared with those of the split.
pub(crate) fn print_schemes(rt: &(impl Print + AllocGlobal), lines: &[Line]) -> anyhow::Result<()> {
    println!(rt; "\nThe same lines under the other schemes\n")?;
    let mut plain = Plain::new(MODULUS)?;
    print_same(rt, "plain residues", &mut plain, lines)?;
    let mut system = System::new(10_007, 10_009, 10_037)?;
    print_same(
        rt,
        "the residue system 10007, 10009, 10037",
        &mut system,
        lines,
    )
}
