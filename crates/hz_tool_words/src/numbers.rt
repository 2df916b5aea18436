//! Numbers among the words.

ghost use Rattle.std.specs.Prelude.{◌≡◌};
ghost use Rattle.std.specs.Option.{option_map};
ghost use Rattle.hz_base_model.specs.Lines.{number_of};
ghost use Rattle.hz_tool_words.specs.Numbers.{capped};
ghost use Rattle.hz_words_model.specs.Words as model;

/// The digits of a number, at most.
const DIGIT_LIMIT: usize = 10;

/// More than any number of 32 bits.
const CAP: u64 = 4_294_967_296;

/// The number of one or more decimal digits, or the cap where it is greater; None for any other bytes.
fn number_of(digits: &[u8]) -> Option<u64>
    ensures { result ≡ option_map capped (number_of digits.now) }
{
    if digits.is_empty() {
        return None;
    }
    let mut value = 0;
    for digit in digits {
        if !digit.is_ascii_digit() {
            return None;
        }
        value = (value * 10 + u64::from(*digit - b'0')).min(CAP);
    }
    Some(value)
}

/// The number of a word of 1 to 10 decimal digits, where it is at most so much; None for any other word. Leading zeros are allowed.
pub fn number_in(most: u32, word: &str) -> Option<u32>
    ensures { result ≡ model.number_in most word.now }
{
    if word.len() > DIGIT_LIMIT {
        return None;
    }
    let number = number_of(word.as_bytes())?;
    if number > u64::from(most) {
        return None;
    }
    Some(number as u32)
}
