// Plan cards: what the lines of a plan will mean.
use crate::example::{MODULUS, SAMPLE_SCALE, SIZE, TWIDDLE_SCALE};
use card::Card;
use plan::{Method, Plan};

// The card of the example's plan with this method and twiddle scale.
pub(crate) fn print_card(
    rt: &impl Print,
    method: Method,
    twiddle_scale: u64,
) -> anyhow::Result<()> {
    let plan = Plan::new(method, SIZE, SAMPLE_SCALE, twiddle_scale)?;
    rt.println(Card::new(plan, MODULUS))?;
    Ok(())
}

// The cards of the example's plan by each method.
pub(crate) fn print_cards(rt: &impl Print) -> anyhow::Result<()> {
    println!(rt; "The plan by each method, modulus {MODULUS}\n")?;
    for method in [Method::Direct, Method::Radix2, Method::Radix4] {
        print_card(rt, method, TWIDDLE_SCALE)?;
    }
    Ok(())
}
