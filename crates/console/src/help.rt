// What --help prints.
use refusal::Refusal;
use session::reply;
use std::io;

const COMMANDS: &str = "console: harmonic lines from hidden samples, by commands on standard input

One command a line, fields parted by commas, no spaces. At most 65536 bytes in all.

  s,r,N               a new window over plain residues modulo N
  s,y,m1,m2,m3        a new window over the residue system of three moduli
  s,p,N               a new window over the split over plain residues modulo N
  p,method,M,Q1,Q2    plan: method d (direct), 2 (radix 2) or 4 (radix 4), size,
                      sample scale, twiddle scale
  l,n,re,im,w1,w2     seal re + im*j under the limit Q1 with the mask words w1
                      and w2, and load it as sample n
  b                   begin
  a                   advance by one stage
  g,k                 open line k
  r                   restart under the same plan

A number has 1 to 19 digits and is at most 2^62; re and im may carry a minus.

Each command is answered by one line:

  ok                  accepted
  g,k,re,im,D,e       the opened line: its index, components, scale, distance
  no,NUMBER           declined, and nothing has changed
";

// The session that is shown.
const SESSION: &str = "s,r,81
p,2,4,10,5
l,0,1,0,0,0
l,1,2,0,0,0
l,2,3,0,0,0
l,3,4,0,0,0
b
a
a
g,1
";

// Each refusal and when it is answered, by number.
const REFUSALS: [(Refusal, &str); 15] = [
    (Refusal::Size, "p: M is not a size of the method"),
    (Refusal::SampleScale, "p: Q1 is not from 1 to 32767"),
    (Refusal::TwiddleScale, "p: Q2 is not from 1 to 32768"),
    (Refusal::Block, "never here: the block has 256 pairs"),
    (Refusal::Narrow, "p: 2B + 1 is above N"),
    (
        Refusal::Moment,
        "the state does not allow it, or no scheme yet",
    ),
    (
        Refusal::Place,
        "l: n above the count or not below M; g: k not below M",
    ),
    (Refusal::Strange, "never here: a window has one scheme"),
    (
        Refusal::Malformed(0),
        "never here: samples are sealed by the console",
    ),
    (Refusal::Short, "b: fewer samples than M"),
    (
        Refusal::Large,
        "l: a component above Q1 or (N - 1)/2 in size",
    ),
    (Refusal::Mask, "l: a mask word of N or more"),
    (
        Refusal::Modulus,
        "s: the moduli break the rule of the scheme",
    ),
    (Refusal::Garbled, "the line is no command"),
    (
        Refusal::Long,
        "more than 65536 bytes of input, no other reply",
    ),
];

fn print_refusals(rt: &impl Print) -> io::Result<()> {
    println!(rt; "Refusals, the earliest that applies:\n")?;
    for (refusal, when) in REFUSALS {
        println!(rt; "  {:>2}  {:<14}  {when}", refusal.number(), refusal.word())?;
    }
    Ok(())
}

// The session, each line with the reply to it.
fn print_session(rt: &HostRuntime) -> anyhow::Result<()> {
    println!(rt; "\nA session, each command with its reply:\n")?;
    let replies = reply(SESSION.as_bytes(), rt.alloc())?;
    for (line, answer) in SESSION.lines().zip(replies.as_str().lines()) {
        println!(rt; "  {line:<18}  {answer}")?;
    }
    Ok(())
}

// The commands, the refusals and a worked session.
pub(crate) fn print(rt: &HostRuntime) -> anyhow::Result<()> {
    println!(rt; "{COMMANDS}")?;
    print_refusals(rt)?;
    print_session(rt)
}
