// Prints the circle, twiddles at several scales, and the figures of every lawful size at the ends of
// both scales, one number set a line, to be compared with an independent calculation.
#![tactic(auto)]

use circle::{cosine, fine_twiddle, sine, spread, twiddle};
use integers::Complex;
use plan::{Figures, Method, Plan};
use std::io;

fn print_circle(rt: &impl Print) -> io::Result<()> {
    for v in 0..66 {
        match cosine(v).zip(sine(v)) {
            Some((c, s)) => println!(rt; "circle {v} {c} {s}")?,
            None => println!(rt; "circle {v} none")?,
        }
    }
    for u in 0..260 {
        let Complex { re, im } = fine_twiddle(u);
        println!(rt; "fine {u} {re} {im}")?;
    }
    Ok(())
}

fn print_twiddles(rt: &impl Print, scale: u32) -> io::Result<()> {
    let spread = spread(scale);
    println!(rt; "spread {scale} {spread}")?;
    for u in 0..256 {
        let Complex { re, im } = twiddle(u, scale);
        println!(rt; "twiddle {scale} {u} {re} {im}")?;
    }
    Ok(())
}

// A plan and its figures, in one write.
fn print_figures(rt: &impl Print, plan: Plan) -> io::Result<()> {
    let Figures {
        scale,
        bound,
        distance,
    } = plan.figures();
    let least = plan.least_modulus();
    println!(rt;
        "{} {} {} {}: {scale} {bound} {distance} {least}",
        plan.method(),
        plan.size(),
        plan.sample_scale(),
        plan.twiddle_scale()
    )
}

fn print_scales(rt: &impl Print, method: Method, size: u64) -> io::Result<()> {
    for sample in [0, 1, 32_767, 32_768] {
        for twiddle in [0, 1, 32_768, 32_769] {
            match Plan::new(method, size, sample, twiddle) {
                Ok(plan) => print_figures(rt, plan)?,
                Err(refusal) => println!(rt; "{method} {size} {sample} {twiddle}: {refusal}")?,
            }
        }
    }
    Ok(())
}

fn print_sizes(rt: &impl Print, method: Method) -> io::Result<()> {
    for size in [
        0,
        1,
        2,
        3,
        4,
        8,
        15,
        16,
        17,
        32,
        64,
        128,
        255,
        256,
        257,
        512,
        u64::MAX,
    ] {
        print_scales(rt, method, size)?;
    }
    Ok(())
}

fn main(rt: HostRuntime) -> io::Result<()> {
    print_circle(&rt)?;
    for scale in [0, 1, 2, 10, 12_345, 32_768, u32::MAX] {
        print_twiddles(&rt, scale)?;
    }
    for method in [Method::Direct, Method::Radix2, Method::Radix4] {
        print_sizes(&rt, method)?;
    }
    Ok(())
}
