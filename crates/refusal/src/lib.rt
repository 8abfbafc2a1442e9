// Every refusal of the product, with its number, its word and the value that it carries.
#![tactic(auto)]

ghost use Rattle.std.specs.Prelude.{◌≡◌, Some};
ghost use Rattle.refusal.specs.Row.{row, text, Distinct};

mod kinds;

pub use kinds::Refusal;
use std::error::Error;
use std::fmt;

impl Refusal {
    // The number and the word, in one table. Kept: numbers by `as` are no plainer: it takes no enum with a variant that carries a place.
    fn number_and_word(&self) -> (u8, &'static str)
        ensures number { result.0 ≡ (row self.now).number }
        ensures word { result.1.now ≡ (row self.now).word }
    {
        match self {
            Refusal::Size => (1, "size"),
            Refusal::SampleScale => (2, "sample scale"),
            Refusal::TwiddleScale => (3, "twiddle scale"),
            Refusal::Block => (4, "block"),
            Refusal::Narrow => (5, "narrow"),
            Refusal::Moment => (6, "moment"),
            Refusal::Place => (7, "place"),
            Refusal::Strange => (8, "strange"),
            Refusal::Malformed(_) => (9, "malformed"),
            Refusal::Short => (10, "short"),
            Refusal::Large => (11, "large"),
            Refusal::Mask => (12, "mask"),
            Refusal::Modulus => (13, "modulus"),
            Refusal::Garbled => (14, "garbled"),
            Refusal::Long => (15, "long"),
        }
    }

    // The number of the refusal, from 1 to 15.
    pub fn number(&self) -> u8
        ensures { result ≡ (row self.now).number }
    {
        self.number_and_word().0
    }

    // The word of the refusal, in lower case.
    pub fn word(&self) -> &'static str
        ensures { result.now ≡ (row self.now).word }
    {
        self.number_and_word().1
    }

    // The place that the refusal tells, if it tells one.
    pub fn place(&self) -> Option<usize>
        ensures { result ≡ (row self.now).place }
    {
        match self {
            Refusal::Malformed(place) => Some(*place),
            _ => None,
        }
    }
}

// The number, the word and, where there is one, the place: '11 large', '9 malformed at 3'.
impl fmt::Display for Refusal {
    ghost output = { λ r. Some (text (row r)) };

    fn fmt<W: fmt::Write>(&self, f: &mut fmt::Formatter<W>) -> fmt::Result {
        let (number, word) = self.number_and_word();
        match self.place() {
            None => write!(f, "{number} {word}"),
            Some(place) => write!(f, "{number} {word} at {place}"),
        }
    }
}

// A refusal is an error: a program passes it on with `?`.
impl Error for Refusal {}

// No two refusals are told by one number and place, and every number is from 1 to 15.
pub fn refusals_are_distinct()
    ensures { Distinct }
{}

#[cfg(test)]
mod tests {
    use super::*;
    use std::test::Fail;

    #[test]
    fn shows_number_word_and_place(rt: HostRuntime) -> Result<(), Fail> {
        let heap = rt.alloc();
        assert_eq!(rt; Refusal::Large.to_string(heap)?.as_str(), "11 large");
        assert_eq!(rt;
            Refusal::SampleScale.to_string(heap)?.as_str(),
            "2 sample scale"
        );
        assert_eq!(rt;
            Refusal::Malformed(30).to_string(heap)?.as_str(),
            "9 malformed at 30"
        );
        assert_eq!(rt; Refusal::Malformed(30).place(), Some(30));
        assert_eq!(rt; Refusal::Long.place(), None);
        Ok(())
    }
}
