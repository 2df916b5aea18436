//! Words: atoms and numbers.

ghost use Rattle.std.specs.Prelude.{◌≡◌, ◌≤◌, ◌<◌, ◌^◌, ◌∷◌, length, take, drop, IsTrue, SomeIff, neg_ℤ, pos};
ghost use Rattle.std.specs.List.{list_all};
ghost use Rattle.std.specs.Str.Parse.{digits_value};
ghost use Rattle.hz_base_model.specs.Forms.Forms as model;
ghost use Rattle.hz_base_model.specs.Forms.Forms.{Word};
ghost use Rattle.hz_sexp.specs.Steps.{IsSpelled};

use crate::byte::is_letter;
use crate::place::begins_with;

/// What a word is: a number in the range, a number outside it, or no number.
pub enum Spelled {
    Other,
    Number(i128),
    TooLarge,
}

/// Whether a word goes on: at a letter where no comment begins.
fn goes_on(text: &[u8]) -> bool
    ensures { result ≡ model.goes_on text.now }
{
    match text.first() {
        Some(b) => is_letter(*b) && !begins_with(text, b'/', b'*'),
        None => false,
    }
}

/// How many bytes the word at the front of a text has.
pub fn word_length(text: &[u8]) -> usize
    ensures within { result ≤ length text.now }
    ensures word { Word text.now (take result text.now) (drop result text.now) }
{
    let mut count = 0;
    while goes_on(&text[count..]) {
        count += 1;
    }
    count
}

/// Whether each byte is a digit.
fn all_digits(bytes: &[u8]) -> bool
    ensures { result ≡ list_all model.is_digit bytes.now }
{
    bytes.iter().all(|b| 48 <= *b && *b <= 57)
}

/// Whether these are one digit or more.
fn is_digits(bytes: &[u8]) -> bool
    ensures { result ≡ model.is_digits bytes.now }
{
    !bytes.is_empty() && all_digits(bytes)
}

/// The number that digits spell, if it is below 2^64.
fn magnitude(digits: &[u8]) -> Option<u64>
    requires { IsTrue (model.is_digits digits.now) }
    ensures { SomeIff result (digits_value 10 digits.now < 2 ^ 64) (digits_value 10 digits.now) }
{
    let mut value: u64 = 0;
    for digit in digits {
        value = value.checked_mul(10)?.checked_add(u64::from(*digit - 48))?;
    }
    Some(value)
}

/// What a minus and these digits are.
fn below_zero(digits: &[u8]) -> Spelled
    requires { IsTrue (model.is_digits digits.now) }
    ensures { IsSpelled (45 ∷ digits.now) result }
{
    let Some(value) = magnitude(digits) else {
        return Spelled::TooLarge;
    };
    if value <= 1 << 63 {
        Spelled::Number(-i128::from(value))
    } else {
        Spelled::TooLarge
    }
}

/// What these digits are.
fn above_zero(digits: &[u8]) -> Spelled
    requires { IsTrue (model.is_digits digits.now) }
    ensures { IsSpelled digits.now result }
{
    match magnitude(digits) {
        Some(value) => Spelled::Number(i128::from(value)),
        None => Spelled::TooLarge,
    }
}

/// What a word is.
pub fn value_of(word: &[u8]) -> Spelled
    ensures { IsSpelled word.now result }
{
    if let Some((first, digits)) = word.split_first()
        && *first == b'-'
        && is_digits(digits)
    {
        return below_zero(digits);
    }
    if is_digits(word) {
        return above_zero(word);
    }
    Spelled::Other
}
