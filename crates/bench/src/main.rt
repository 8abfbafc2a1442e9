// Times a whole 256-point radix-4 transform on hidden samples. Without an argument it does one
// transform under each scheme and prints a checksum; with a number of rounds it prints times too.
#![tactic(auto)]

use integers::Complex;
use plain::Plain;
use plan::{Method, Plan};
use refusal::Refusal;
use scheme::{Scheme, pairs};
use split::Split;
use stages::{place_of, stage, stage_count};
use std::env;
use std::time::Instant;

// Sample n: n² modulo 2001, less 1000, and the opposite.
fn sample(n: usize) -> Complex {
    let re = (n.wrapping_mul(n) % 2001) as i64 - 1000;
    Complex { re, im: -re }
}

// A scheme, a plan that is timed under it, and a block of the scheme's hidden pairs.
#[derive(Drop)]
struct Bench<'a, S: Scheme> {
    s: &'a mut S,
    plan: &'a Plan,
    block: &'a mut [(S::Number, S::Number)],
}

impl<'a, S: Scheme> Bench<'a, S> {
    fn new(s: &'a mut S, plan: &'a Plan, block: &'a mut [(S::Number, S::Number)]) -> Bench<'a, S> {
        Bench { s, plan, block }
    }

    // Seals every sample and puts it at its place.
    // Kept: beside the load of transforms_sweep, which draws other samples. One for both would be a public function of stages, the library
    // that knows the places, with a contract on every place of the block: no plainer than these six lines.
    fn load(&mut self) -> Result<(), Refusal> {
        for n in 0..self.plan.size() {
            let pair = pairs::seal(self.s, 1000, sample(n), (1, 1))?;
            let place = place_of(self.plan, n)?;
            *self.block.get_mut(place).ok_or(Refusal::Block)? = pair;
        }
        Ok(())
    }

    // One whole transform: every stage of the plan.
    fn transform(&mut self) -> Result<(), Refusal> {
        for t in 0..stage_count(self.plan) {
            stage(self.s, self.plan, t, self.block)?;
        }
        Ok(())
    }

    // The exclusive or of the two components of every line.
    fn checksum(&mut self) -> i64 {
        let block = &mut *self.block;
        block.iter().fold(0, |sum, pair| {
            let Complex { re, im } = pairs::open(self.s, *pair);
            sum ^ re ^ im
        })
    }

    // Loads and transforms so many times; the checksum of the last transform.
    fn rounds(&mut self, count: u64) -> Result<i64, Refusal> {
        for _ in 0..count {
            self.load()?;
            self.transform()?;
        }
        Ok(self.checksum())
    }

    // The checksum, and with a number of rounds their time.
    fn report(&mut self, rt: &HostRuntime, name: &str, count: Option<u64>) -> anyhow::Result<()> {
        let start = Instant::now(rt)?;
        let sum = self.rounds(count.unwrap_or(1))?;
        let time = start.elapsed(rt)?.as_micros();
        println!(rt; "{name}: checksum {sum}")?;
        if let Some(count) = count {
            println!(rt; "{name}: {count} transforms in {time} microseconds")?;
        }
        Ok(())
    }
}

fn main(rt: HostRuntime) -> anyhow::Result<()> {
    let count = env::args(&rt)?
        .nth(1)
        .map(|text| text.as_str().parse::<u64>())
        .transpose()?;
    let plan = Plan::new(Method::Radix4, 256, 1000, 100)?;
    let mut plain = Plain::new((1 << 61) - 1)?;
    let mut block = [(0, 0); 256];
    Bench::new(&mut plain, &plan, &mut block).report(&rt, "plain", count)?;
    let mut split = Split::new(plain);
    let zero = split.zero();
    let mut block = [(zero, zero); 256];
    Bench::new(&mut split, &plan, &mut block).report(&rt, "split", count)
}
