// Prints what each scheme answers at the ends of its range, one call a line, to be compared with an
// independent calculation. One generic struct serves every scheme.
#![tactic(auto)]

use plain::Plain;
use rerandomised::Rerandomised;
use scheme::{Scheme, difference, modulus_of, multiple, open_centred, seal_and_open, seal_within};
use split::{Halves, Split};
use std::io;
use system::{Residues, System};

// A scheme that is swept, where its lines are printed and the name that they begin with.
#[derive(Drop)]
struct Sweep<'a, P, S> {
    rt: &'a P,
    name: &'a str,
    s: &'a mut S,
}

impl<'a, P: Print, S: Scheme> Sweep<'a, P, S> {
    fn new(rt: &'a P, name: &'a str, s: &'a mut S) -> Sweep<'a, P, S> {
        Sweep { rt, name, s }
    }

    // Seals and opens, with words and limits on both sides of each edge.
    fn print_seals(&mut self, m: i64) -> io::Result<()> {
        let name = self.name;
        let n = self.s.modulus();
        for word in [0, 1, n.wrapping_sub(1), n, u64::MAX] {
            match seal_and_open(self.s, m, word) {
                Ok(opened) => println!(self.rt; "{name} seal {m} {word}: {opened}")?,
                Err(refusal) => println!(self.rt; "{name} seal {m} {word}: {refusal}")?,
            }
        }
        let size = m.unsigned_abs();
        for limit in [0, size.wrapping_sub(1), size, u64::MAX] {
            match seal_within(self.s, limit, m, 1) {
                Ok(x) => {
                    let opened = open_centred(self.s, x);
                    println!(self.rt; "{name} within {limit} {m}: {opened}")?;
                }
                Err(refusal) => println!(self.rt; "{name} within {limit} {m}: {refusal}")?,
            }
        }
        Ok(())
    }

    // The sum, the difference and the opposite of two hidden numbers.
    fn print_sums(&mut self, x: S::Number, y: S::Number) -> io::Result<()> {
        let name = self.name;
        let sum = self.s.sum(x, y);
        let less = difference(self.s, x, y);
        let opposite = self.s.opposite(x);
        let formed = self.s.test(sum) && self.s.test(less) && self.s.test(opposite);
        let sum = open_centred(self.s, sum);
        let less = open_centred(self.s, less);
        let opposite = open_centred(self.s, opposite);
        println!(self.rt; "{name} sum {sum} {less} {opposite} {formed}")
    }

    // Multiples of a hidden number.
    fn print_multiples(&mut self, x: S::Number) -> io::Result<()> {
        let name = self.name;
        for c in [0, 1, -1, 2, 3, -7, 1000, i64::MAX, i64::MIN] {
            let times = multiple(self.s, c, x);
            let opened = open_centred(self.s, times);
            println!(self.rt; "{name} times {c}: {opened}")?;
        }
        Ok(())
    }

    // Sums of two numbers that can be sealed, multiples of the first.
    fn print_sealed(&mut self, a: i64, b: i64) -> io::Result<()> {
        println!(self.rt; "{} numbers {a} {b}", self.name)?;
        if let (Ok(x), Ok(y)) = (self.s.seal(a, 1), self.s.seal(b, 1)) {
            self.print_sums(x, y)?;
            self.print_multiples(x)?;
        }
        Ok(())
    }

    // All of it, at the ends of the scheme's range.
    fn print_all(&mut self) -> io::Result<()> {
        let name = self.name;
        let n = self.s.modulus();
        println!(self.rt; "{name} modulus {n}")?;
        let zero = self.s.zero();
        let opened = self.s.open(zero);
        println!(self.rt; "{name} zero {opened}")?;
        // Kept: no plainer. `as`, since no From leads from u64 to i64, and a try_from would answer an error that cannot come.
        let half = modulus_of(self.s).half() as i64;
        for m in [0, 1, -1, half, -half, half + 1, !half] {
            self.print_seals(m)?;
            self.print_sealed(m, half)?;
        }
        self.print_seals(i64::MAX)?;
        self.print_seals(i64::MIN)
    }

    // Hands a number that need not be well formed to every call that takes one; only the test's
    // answer is fixed, the others have to return.
    fn print_any(&mut self, x: S::Number) -> io::Result<()> {
        let formed = self.s.test(x);
        let sum = self.s.sum(x, x);
        let opposite = self.s.opposite(x);
        let _ = self.s.open(sum);
        let _ = self.s.open(opposite);
        let _ = open_centred(self.s, x);
        let _ = multiple(self.s, i64::MIN, x);
        println!(self.rt; "{} any {formed}", self.name)
    }
}

// Kept: no plainer. A match, in this and in the next two: a scheme that is refused is a line of the sweep, and not its end, as it would
// be with `?`.
fn print_plain(rt: &impl Print, n: u64) -> io::Result<()> {
    let mut s = match Plain::new(n) {
        Ok(s) => s,
        Err(refusal) => return println!(rt; "plain {n}: {refusal}"),
    };
    let mut plain = Sweep::new(rt, "plain", &mut s);
    plain.print_all()?;
    for x in [0, n - 1, n, u64::MAX] {
        plain.print_any(x)?;
    }
    let mut once = Split::new(s);
    let mut split = Sweep::new(rt, "split", &mut once);
    split.print_all()?;
    for (first, second) in [(0, n - 1), (n, 0), (0, n), (u64::MAX, u64::MAX)] {
        split.print_any(Halves { first, second })?;
    }
    Sweep::new(rt, "split twice", &mut Split::new(Split::new(s))).print_all()
}

fn print_system(rt: &impl Print, first: u64, second: u64, third: u64) -> io::Result<()> {
    let mut s = match System::new(first, second, third) {
        Ok(s) => s,
        Err(refusal) => return println!(rt; "system {first} {second} {third}: {refusal}"),
    };
    let mut system = Sweep::new(rt, "system", &mut s);
    system.print_all()?;
    let least = Residues::default();
    let most = Residues {
        first: u64::MAX,
        second: u64::MAX,
        third: u64::MAX,
    };
    for x in [
        least,
        Residues { first, ..least },
        Residues { second, ..least },
        Residues { third, ..least },
        most,
    ] {
        system.print_any(x)?;
    }
    Sweep::new(rt, "split system", &mut Split::new(s)).print_all()
}

fn print_rerandomised(rt: &impl Print, n: u64) -> io::Result<()> {
    let mut s = match Rerandomised::new(n) {
        Ok(s) => s,
        Err(refusal) => return println!(rt; "rerandomised {n}: {refusal}"),
    };
    Sweep::new(rt, "rerandomised", &mut s).print_all()?;
    Sweep::new(rt, "split rerandomised", &mut Split::new(s)).print_all()
}

fn main(rt: HostRuntime) -> io::Result<()> {
    for n in [
        0,
        1,
        2,
        3,
        4,
        81,
        (1 << 62) - 1,
        1 << 62,
        (1 << 62) + 1,
        u64::MAX,
    ] {
        print_plain(&rt, n)?;
    }
    for (first, second, third) in [
        (3, 5, 7),
        (1_048_575, 1_048_573, 1_048_571),
        (1, 5, 7),
        (3, 5, 8),
        (3, 1_048_577, 7),
        (9, 5, 15),
        (5, 21, 9),
        (7, 7, 9),
        (0, u64::MAX, 3),
    ] {
        print_system(&rt, first, second, third)?;
    }
    for n in [2, 3, 540_801, (1 << 62) - 1] {
        print_rerandomised(&rt, n)?;
    }
    Ok(())
}
