// Making the scheme that a command chooses.
ghost use Rattle.session.specs.Serving.{MakesOr};

use crate::schemes::Chosen;
use command::Choice;
use plain::Plain;
use refusal::Refusal;
use system::System;

// The chosen scheme. Refuses with Modulus where its moduli break its rule, and with nothing else.
impl TryFrom<Choice> for Chosen {
    type Error = Refusal;

    ghost try_from_gives = { MakesOr };

    fn try_from(choice: Choice) -> Result<Chosen, Refusal> {
        match choice {
            Choice::Plain { modulus } => Plain::new(modulus).map(Chosen::Plain),
            Choice::System {
                first,
                second,
                third,
            } => System::new(first, second, third).map(Chosen::System),
            Choice::Split { modulus } => Plain::new(modulus).map(Chosen::Split),
        }
    }
}
