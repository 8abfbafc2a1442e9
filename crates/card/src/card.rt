// The card of a plan beside a modulus.
use plan::{Figures, Plan};
use refusal::Refusal;

// The least modulus of a plan, a modulus, and whether the plan fits it.
#[derive(Clone, Copy)]
pub struct Verdict {
    pub least_modulus: u128,
    pub modulus: u64,
    pub fit: Result<(), Refusal>,
}

// What a card says: the plan, its figures, and whether it fits a modulus.
#[derive(Clone, Copy)]
pub struct Card {
    pub plan: Plan,
    pub figures: Figures,
    pub verdict: Verdict,
}
