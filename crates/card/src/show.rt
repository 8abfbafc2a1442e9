// Making a card and writing it.
ghost use Rattle.std.specs.Prelude.{◌≡◌, Some};
ghost use Rattle.card.specs.Text.{CardOf, card_text, verdict_text};

use super::card::{Card, Verdict};
use plan::Plan;
use std::fmt;

impl Card {
    // The card of a plan and a modulus.
    pub fn new(plan: Plan, modulus: u64) -> Card
        ensures { CardOf plan modulus result }
    {
        Card {
            plan,
            figures: plan.figures(),
            verdict: Verdict {
                least_modulus: plan.least_modulus(),
                modulus,
                fit: plan.fits(modulus),
            },
        }
    }
}

// The least modulus, and whether the modulus fits or by which refusal it does not.
impl fmt::Display for Verdict {
    ghost output = { λ v. Some (verdict_text v) };

    fn fmt<W: fmt::Write>(&self, f: &mut fmt::Formatter<W>) -> fmt::Result {
        let Verdict {
            least_modulus: least,
            modulus,
            fit,
        } = *self;
        match fit {
            Ok(()) => write!(f, "least modulus {least}: fits {modulus}"),
            Err(refusal) => write!(f, "least modulus {least}: {modulus} is refused, {refusal}"),
        }
    }
}

// The plan, its figures, and the verdict, a line each.
impl fmt::Display for Card {
    ghost output = { λ c. Some (card_text c) };

    fn fmt<W: fmt::Write>(&self, f: &mut fmt::Formatter<W>) -> fmt::Result {
        let Card {
            plan,
            figures,
            verdict,
        } = *self;
        write!(f, "{plan}\n  {figures}\n  {verdict}")
    }
}
