// The console: commands from standard input, one reply a line to standard output.
#![tactic(auto)]

mod help;

use anyhow::ensure;
use session::{LIMIT, reply};
use std::env;
use std::io::Read;

// Reads the whole input, as far as it can be served, and writes the replies.
fn serve(rt: &HostRuntime) -> anyhow::Result<()> {
    let heap = rt.alloc();
    let mut input = Vec::new(heap);
    // Kept: `as`, since no From leads from usize to u64. A try_from is no plainer: it would answer an error that cannot come.
    rt.stdin().take(LIMIT as u64 + 1).read_to_end(&mut input)?;
    let output = reply(input.as_slice(), heap)?;
    print!(rt; "{output}")?;
    Ok(())
}

// Serves the input, or does what the arguments ask for.
fn run(rt: &HostRuntime) -> anyhow::Result<()> {
    let mut arguments = env::args(rt)?.skip(1);
    let Some(first) = arguments.next() else {
        return serve(rt);
    };
    ensure!(
        first.as_str() == "--help" && arguments.next().is_none(),
        "console takes no arguments but --help, alone; commands are read from standard input"
    );
    help::print(rt)
}

fn main(rt: HostRuntime) -> anyhow::Result<()> {
    run(&rt)
}
