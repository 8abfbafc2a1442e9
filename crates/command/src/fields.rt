// Fields of a line and the numbers in them.
ghost use Rattle.std.specs.Prelude.{◌≡◌, ◌+◌, ◌-◌, ◌*◌, ◌^◌, ◌<◌, ◌≤◌, ℕ, true, List, Option, IfSome};
ghost use Rattle.std.specs.Char.{is_ascii_digit};
ghost use Rattle.std.specs.Option.{option_map};
ghost use Rattle.command.specs.Fields.{cut_at, letter_of, digit_after, digit_after_modulo, numeral_of, whole_of, heading};

// The largest number of a command, 2^62.
const LARGEST: u64 = 4_611_686_018_427_387_904;

// The bytes before the first separator and those after it, or none where there is no separator.
pub(crate) fn cut(text: &[u8], separator: u8) -> Option<(&[u8], &[u8])>
    ensures { option_map (λ x. (x.0.now, x.1.now)) result ≡ cut_at separator text.now }
{
    let at = text.iter().position(|b| *b == separator)?;
    Some((&text[..at], &text[at + 1..]))
}

// n with one more decimal digit, or none where the byte is no digit. The number is taken modulo 2^64: it is the number itself where that
// lies below 2^64, as every number of up to 19 digits does.
fn with_digit(n: u64, byte: &u8) -> Option<u64>
    ensures modulo { result ≡ digit_after_modulo n byte.now }
    ensures fitting { (is_ascii_digit byte.now ≡ true → n * 10 + (byte.now - 48) < 2 ^ 64) → result ≡ digit_after n byte.now }
{
    if !byte.is_ascii_digit() {
        return None;
    }
    Some(n.wrapping_mul(10).wrapping_add(u64::from(*byte - b'0')))
}

// A value that a field can write.
pub(crate) trait FromField: Sized {
    ghost value_of: { List ℕ → Option Self };

    // The value that the field writes, where it writes one.
    fn from_field(field: &[u8]) -> Option<Self>
        ensures { result ≡ value_of field.now };
}

// The one character of a field.
impl FromField for char {
    ghost value_of = { letter_of };

    fn from_field(field: &[u8]) -> Option<char> {
        match field {
            [b] => Some(char::from(*b)),
            _ => None,
        }
    }
}

// A numeral: 1 to 19 decimal digits that write a number up to 2^62.
impl FromField for u64 {
    ghost value_of = { numeral_of };

    fn from_field(field: &[u8]) -> Option<u64>
        ensures value { result ≡ numeral_of field.now }
        ensures bound { IfSome result (λ n. n ≤ 2 ^ 62) }
    {
        if field.is_empty() || field.len() > 19 {
            return None;
        }
        field
            .iter()
            .try_fold(0, with_digit)
            .filter(|n| *n <= LARGEST)
    }
}

// A whole number: a numeral, or a minus sign and a numeral.
impl FromField for i64 {
    ghost value_of = { whole_of };

    fn from_field(field: &[u8]) -> Option<i64> {
        // Kept: `as`, since no From leads from u64 to i64. A try_from is no plainer: it would answer an error that the limit rules out.
        match field {
            [b'-', digits @ ..] => u64::from_field(digits).map(|n| -(n as i64)),
            _ => u64::from_field(field).map(|n| n as i64),
        }
    }
}

// A value, a comma and the rest.
pub(crate) fn value_then<T: FromField>(text: &[u8]) -> Option<(T, &[u8])>
    ensures { option_map (λ x. (x.0, x.1.now)) result ≡ heading T.value_of (cut_at 44 text.now) }
{
    let (field, rest) = cut(text, b',')?;
    Some((T::from_field(field)?, rest))
}

#[cfg(test)]
mod tests {
    use super::with_digit;

    // A number with a digit written behind it, by hand. 2^64 is 18,446,744,073,709,551,616.
    #[test]
    fn one_more_digit(rt: HostRuntime) {
        assert_eq!(rt; with_digit(0, &b'0'), Some(0));
        assert_eq!(rt; with_digit(12, &b'3'), Some(123));
        assert_eq!(rt;
            with_digit(999_999_999_999_999_999, &b'9'),
            Some(9_999_999_999_999_999_999)
        );
        assert_eq!(rt;
            with_digit(1_844_674_407_370_955_161, &b'5'),
            Some(18_446_744_073_709_551_615)
        );
        assert_eq!(rt; with_digit(1_844_674_407_370_955_161, &b'6'), Some(0));
        assert_eq!(rt; with_digit(12, &b'/'), None);
        assert_eq!(rt; with_digit(12, &b':'), None);
        assert_eq!(rt; with_digit(18_446_744_073_709_551_615, &b'-'), None);
    }
}
