// Plan cards: what the lines of a plan will mean.
use card::Card;
use plan::{Method, Plan};
use std::io;

// The modulus that the houses of this example work with.
pub const MODULUS: u64 = 540_801;

// A few plans, lawful and not: method, size, sample scale, twiddle scale.
const PLANS: [(Method, u64, u64, u64); 10] = [
    (Method::Direct, 4, 10, 5),
    (Method::Direct, 16, 100, 10),
    (Method::Radix2, 16, 100, 10),
    (Method::Radix4, 16, 100, 10),
    (Method::Radix2, 32, 100, 10),
    (Method::Radix4, 64, 10, 4),
    (Method::Radix2, 256, 32_767, 32_768),
    (Method::Radix4, 8, 100, 10),
    (Method::Radix2, 16, 32_768, 10),
    (Method::Direct, 16, 100, 0),
];

// The card of each plan, or its refusal.
pub(crate) fn print_cards(rt: &impl Print) -> io::Result<()> {
    println!(rt; "Plan cards for the modulus {MODULUS}\n")?;
    for (method, size, sample_scale, twiddle_scale) in PLANS {
        match Plan::new(method, size, sample_scale, twiddle_scale) {
            Ok(plan) => rt.println(Card::new(plan, MODULUS))?,
            Err(refusal) => println!(rt;
                "{method}, size {size}, sample scale {sample_scale}, twiddle scale {twiddle_scale}\n  refused, {refusal}"
            )?,
        }
    }
    Ok(())
}
