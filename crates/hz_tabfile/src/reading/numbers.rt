//! Numbers of fields.

ghost use Rattle.std.specs.Prelude.{◌≡◌, ◌<◌};
ghost use Rattle.hz_tabtext_model.specs.Fields as model;
ghost use Rattle.hz_tabfile.specs.Judged.{Judges};
ghost use Rattle.hz_tabfile.specs.Numbers.{begins_right, digits_in};

use super::cutting::is_word;
use super::wrong::Wrong;

/// The first number that is out of every range.
const TOO_LARGE: u64 = 4_294_967_296;

/// Whether a field has a first byte, which is no zero that others follow.
fn begins_right(field: &[u8]) -> bool
    ensures { result ≡ begins_right field.now }
{
    match field {
        [] => false,
        [first, rest @ ..] => *first != b'0' || rest.is_empty(),
    }
}

/// The number that digits spell, or 2^32 if it is greater. Other bytes spell none.
fn digits(field: &[u8]) -> Option<u64>
    ensures { result ≡ digits_in field.now }
{
    let mut value: u64 = 0;
    for byte in field {
        if !byte.is_ascii_digit() {
            return None;
        }
        value = (value * 10 + u64::from(*byte - b'0')).min(TOO_LARGE);
    }
    Some(value)
}

/// The number below 2^32 that digits without a leading zero spell.
#[tactic(auto, using(crate::proofs::Numbers::number_by), unfolding(hz_tabtext_model::specs::Fields::number_in))]
pub fn number(field: &[u8]) -> Result<u32, Wrong>
    ensures { Judges (λ n. n) result (model.number_in field.now) }
{
    if !begins_right(field) {
        return Err(Wrong::BadNumber);
    }
    match digits(field) {
        None => Err(Wrong::BadNumber),
        Some(value) if value < TOO_LARGE => Ok(value as u32),
        Some(_) => Err(Wrong::OutOfRange),
    }
}

/// The number below a limit that digits spell.
#[tactic(auto, unfolding(hz_tabtext_model::specs::Fields::number_below))]
pub fn number_below(field: &[u8], limit: u32) -> Result<u32, Wrong>
    ensures { Judges (λ n. n) result (model.number_below limit field.now) }
{
    let number = number(field)?;
    if number < limit {
        Ok(number)
    } else {
        Err(Wrong::OutOfRange)
    }
}

/// An entry of a table of so many states: one of them, or none for `-`.
#[tactic(auto, unfolding(hz_tabtext_model::specs::Fields::entry_in))]
pub fn entry(field: &[u8], states: u32) -> Result<Option<u32>, Wrong>
    ensures { Judges (λ e. e) result (model.entry_in states field.now) }
{
    if is_word(field, b"-") {
        return Ok(None);
    }
    let state = number_below(field, states)?;
    Ok(Some(state))
}

/// An entry of an ask in the row of this number: that number, or none for `-`.
#[tactic(auto, unfolding(hz_tabtext_model::specs::Fields::ask_entry_in))]
pub fn ask_entry(field: &[u8], row: u32) -> Result<Option<u32>, Wrong>
    ensures { Judges (λ e. e) result (model.ask_entry_in row field.now) }
{
    if is_word(field, b"-") {
        return Ok(None);
    }
    if number(field)? == row {
        Ok(Some(row))
    } else {
        Err(Wrong::OutOfRange)
    }
}

/// The advance of a table of so many states: one of them.
#[tactic(auto, unfolding(hz_tabtext_model::specs::Fields::advance_in))]
pub fn advance(field: &[u8], states: u32) -> Result<Option<u32>, Wrong>
    ensures { Judges (λ e. e) result (model.advance_in states field.now) }
{
    let state = number_below(field, states)?;
    Ok(Some(state))
}
