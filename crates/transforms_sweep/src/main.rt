// Transforms hidden samples by every method at every lawful size and prints each opened line, to be
// compared with an independent calculation.
#![tactic(auto)]

use integers::Complex;
use plain::Plain;
use plan::{Method, Plan};
use refusal::Refusal;
use rerandomised::Rerandomised;
use scheme::{Scheme, pairs};
use split::Split;
use stages::{direct_line, place_of, stage, stage_count};
use system::System;

// Which samples are transformed.
#[derive(Clone, Copy)]
enum Kind {
    // spread over the whole range by a generator
    Spread,
    // each component at one end of the range
    Ends,
}

// A number that looks drawn at random, from the place and the component.
fn drawn(n: usize, component: u64) -> u64 {
    let x = (n as u64)
        .wrapping_mul(6364136223846793005)
        .wrapping_add(component)
        .wrapping_mul(1442695040888963407);
    (x ^ (x >> 29)).wrapping_mul(3202034522624059733) >> 33
}

// Component `component` of sample n, at most `scale` in size.
fn component(kind: Kind, scale: u32, n: usize, component: u64) -> i64 {
    let scale = i64::from(scale);
    let drawn = drawn(n, component);
    match kind {
        Kind::Spread => (drawn % 65_535) as i64 % (scale + 1)
            - (drawn / 65_535 % 65_535) as i64 % (scale + 1),
        Kind::Ends if drawn % 2 == 0 => scale,
        Kind::Ends => -scale,
    }
}

// A scheme that is swept, a block of its hidden pairs, where the lines are printed and the name that they come under.
#[derive(Drop)]
struct Sweep<'a, P, S: Scheme> {
    rt: &'a P,
    name: &'a str,
    s: &'a mut S,
    block: &'a mut [(S::Number, S::Number)],
}

impl<'a, P: Print, S: Scheme> Sweep<'a, P, S> {
    fn new(
        rt: &'a P,
        name: &'a str,
        s: &'a mut S,
        block: &'a mut [(S::Number, S::Number)],
    ) -> Sweep<'a, P, S> {
        Sweep { rt, name, s, block }
    }

    // Seals every sample and puts it at its place.
    // Kept: beside the load of bench, which takes other samples. One for both would be a public function of stages, the library that knows
    // the places, with a contract on every place of the block: no plainer than these six lines.
    fn load(&mut self, plan: &Plan, kind: Kind) -> Result<(), Refusal> {
        let scale = plan.sample_scale();
        for n in 0..plan.size() {
            let sample = Complex {
                re: component(kind, scale, n, 1),
                im: component(kind, scale, n, 2),
            };
            let pair = pairs::seal(self.s, u64::from(scale), sample, (1, 1))?;
            let place = place_of(plan, n)?;
            *self.block.get_mut(place).ok_or(Refusal::Block)? = pair;
        }
        Ok(())
    }

    // Line k: worked out here by the direct method, read off the block by the others.
    // Kept: window chooses so too, of a plan whose lines it knows to stand in its block. One for both would be a public function of stages
    // with a contract for each method: no plainer than this match.
    fn line(&mut self, plan: &Plan, k: usize) -> Result<Complex, Refusal> {
        let block = &mut *self.block;
        let pair = match plan.method() {
            Method::Direct => direct_line(self.s, plan, k, block)?,
            Method::Radix2 | Method::Radix4 => *block.get(k).ok_or(Refusal::Block)?,
        };
        Ok(pairs::open(self.s, pair))
    }

    // Loads, does every stage and prints every line.
    fn print_transform(&mut self, plan: &Plan, kind: Kind) -> anyhow::Result<()> {
        self.load(plan, kind)?;
        for t in 0..stage_count(plan) {
            stage(self.s, plan, t, self.block)?;
        }
        let name = self.name;
        let method = plan.method();
        let size = plan.size();
        println!(self.rt; "{name} {method} {size}")?;
        for k in 0..size {
            let Complex { re, im } = self.line(plan, k)?;
            println!(self.rt; "{k} {re} {im}")?;
        }
        Ok(())
    }

    // Every method at every lawful size for which the block has room.
    fn print_methods(&mut self, kind: Kind) -> anyhow::Result<()> {
        let most = self.block.len() as u64;
        for method in [Method::Direct, Method::Radix2, Method::Radix4] {
            for size in [1, 2, 4, 8, 16, 32, 64, 128, 256] {
                if size <= most && method.allows(size) {
                    let plan = Plan::new(method, size, 1000, 100)?;
                    self.print_transform(&plan, kind)?;
                }
            }
        }
        Ok(())
    }
}

// Plain residues, and splits over them.
fn print_plain(rt: &impl Print) -> anyhow::Result<()> {
    let mut plain = Plain::new((1 << 62) - 1)?;
    let mut block = [(0, 0); 256];
    let mut sweep = Sweep::new(rt, "plain", &mut plain, &mut block);
    for kind in [Kind::Spread, Kind::Ends] {
        sweep.print_methods(kind)?;
    }
    let mut once = Split::new(plain);
    let zero = once.zero();
    let mut block = [(zero, zero); 16];
    Sweep::new(rt, "split", &mut once, &mut block).print_methods(Kind::Spread)?;
    let mut twice = Split::new(once);
    let zero = twice.zero();
    let mut block = [(zero, zero); 16];
    Sweep::new(rt, "split twice", &mut twice, &mut block).print_methods(Kind::Ends)
}

// The largest residue system, and the split over it.
fn print_system(rt: &impl Print) -> anyhow::Result<()> {
    let mut system = System::new(1_048_575, 1_048_573, 1_048_571)?;
    let zero = system.zero();
    let mut block = [(zero, zero); 16];
    Sweep::new(rt, "system", &mut system, &mut block).print_methods(Kind::Spread)?;
    let mut split = Split::new(system);
    let zero = split.zero();
    let mut block = [(zero, zero); 16];
    Sweep::new(rt, "split system", &mut split, &mut block).print_methods(Kind::Ends)
}

// A scheme from outside the library.
fn print_rerandomised(rt: &impl Print) -> anyhow::Result<()> {
    let mut scheme = Rerandomised::new((1 << 62) - 1)?;
    let mut block = [(0, 0); 16];
    Sweep::new(rt, "rerandomised", &mut scheme, &mut block).print_methods(Kind::Spread)
}

fn main(rt: HostRuntime) -> anyhow::Result<()> {
    print_plain(&rt)?;
    print_system(&rt)?;
    print_rerandomised(&rt)
}
