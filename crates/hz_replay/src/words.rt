//! What a line says.

ghost use Rattle.std.specs.Prelude.{◌≡◌};
ghost use Rattle.std.specs.Option.{option_map};
ghost use Rattle.hz_base_model.specs.Lines.{number_of};
ghost use Rattle.hz_pipeline_model.specs.Traces.Traces as model;
ghost use Rattle.hz_replay.specs.Lines.{capped, said, capped_line};

use super::event::What;
use super::lines::{split_words, without_margin};
use super::names::Names;
use hz_regexp::is_name;

/// The advances of a trace sum to at most this.
pub const ADVANCE_LIMIT: u32 = 16_777_216;

/// What is wrong with a line.
#[derive(Clone, Copy, Debug)]
pub enum Wrong {
    BadLine,
    UnknownClass,
    AdvanceLimit,
    UnknownUnit,
}

/// What a line says by itself.
#[derive(Clone, Copy, Debug)]
pub enum Said {
    Nothing,
    Event(What),
    Wrong(Wrong),
}

/// The number of one or more decimal digits, or the limit and one more where it is greater.
fn number(digits: &[u8]) -> Option<u32>
    ensures { result ≡ option_map capped (number_of digits.now) }
{
    if digits.is_empty() {
        return None;
    }
    let mut value = 0;
    for digit in digits {
        if !digit.is_ascii_digit() {
            return None;
        }
        value = (value * 10 + u32::from(*digit - b'0')).min(ADVANCE_LIMIT + 1);
    }
    Some(value)
}

/// `issue NAME`.
fn says_issue(names: &Names, name: &[u8]) -> Said
    ensures { said result ≡ model.says_issue names.now.classes name.now }
{
    if !is_name(name) {
        return Said::Wrong(Wrong::BadLine);
    }
    match names.class(name) {
        Some(class) => Said::Event(What::Issue(class)),
        None => Said::Wrong(Wrong::UnknownClass),
    }
}

/// `advance N`, a number above the limit cut to the limit and one more.
fn says_advance(digits: &[u8]) -> Said
    ensures { said result ≡ capped_line (model.says_advance digits.now) }
{
    match number(digits) {
        Some(cycles) => Said::Event(What::Advance(cycles)),
        None => Said::Wrong(Wrong::BadLine),
    }
}

/// `ask UNIT`.
fn says_ask(names: &Names, name: &[u8]) -> Said
    ensures { said result ≡ model.says_ask names.now name.now }
{
    if !is_name(name) {
        return Said::Wrong(Wrong::BadLine);
    }
    match names.unit(name) {
        Some((part, ask)) => Said::Event(What::Ask { part, ask }),
        None => Said::Wrong(Wrong::UnknownUnit),
    }
}

/// What a line says, a number above the limit cut to the limit and one more.
pub fn line_says(names: &Names, line: &[u8]) -> Said
    ensures { said result ≡ capped_line (model.line_says names.now line.now) }
{
    let content = without_margin(line);
    if content.is_empty() || content[0] == b';' {
        return Said::Nothing;
    }
    let (word, operand) = split_words(content);
    if word == b"issue".as_slice() {
        says_issue(names, operand)
    } else if word == b"advance".as_slice() {
        says_advance(operand)
    } else if word == b"ask".as_slice() {
        says_ask(names, operand)
    } else {
        Said::Wrong(Wrong::BadLine)
    }
}
