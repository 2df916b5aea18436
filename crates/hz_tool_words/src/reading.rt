//! Reading the words.

ghost use Rattle.std.specs.Prelude.{◌≡◌, IfOk, drop, false};
ghost use Rattle.std.specs.Option.{option_map};
ghost use Rattle.hz_tool_words.specs.Shape.{IsFew, command_in, order_in, words_in};
ghost use Rattle.hz_words_model.specs.Words as model;

use super::arguments::make_order;
use super::operands::{found, make_command, read_arguments};
use super::order::Order;
use super::table::{Row, find_row};
use std::alloc::{AllocError, Global};

/// Whether the word begins with `-`, as an option would.
fn begins_with_dash(word: &str) -> bool
    ensures { result ≡ model.begins_with_dash word.now }
{
    match word.as_bytes().first() {
        Some(byte) => *byte == b'-',
        None => false,
    }
}

/// Whether one of the words begins with `-`, as an option would.
pub fn has_option(words: &[String]) -> bool
    ensures { result ≡ model.has_option (words_in words.now) }
{
    words.iter().any(|word| begins_with_dash(word.as_str()))
}

/// What a command asks for with the words after the first, None where they are not its operands.
fn read_order<'a>(
    alloc: Global,
    row: Row,
    words: &'a [String],
) -> Result<Option<Order<'a>>, AllocError>
    requires few { IsFew row.operands.now }
    requires plain { model.has_option (drop 1 (words_in words.now)) ≡ false }
    ensures { IfOk result (λ order. option_map order_in order ≡ model.asked_by (drop 1 (words_in words.now)) (command_in row)) }
{
    let command = make_command(alloc, row.name, row.operands.len())?;
    let Some(matches) = found(command, words)? else {
        return Ok(None);
    };
    match read_arguments(alloc, &matches, row.operands)? {
        Some(arguments) => Ok(make_order(row.verb, arguments.as_slice())),
        None => Ok(None),
    }
}

/// What the words ask for, which do not hold the program's own name: None where they are no command with its operands,
/// or one of them begins with `-`. Source: this profile, docs/FORMATS.md, 'Words'.
pub fn order_of<'a>(alloc: Global, words: &'a [String]) -> Result<Option<Order<'a>>, AllocError>
    ensures { IfOk result (λ order. option_map order_in order ≡ model.order_of (words_in words.now)) }
{
    let Some((command, given)) = words.split_first() else {
        return Ok(None);
    };
    if has_option(given) {
        return Ok(None);
    }
    let Some(row) = find_row(command.as_str()) else {
        return Ok(None);
    };
    read_order(alloc, *row, words)
}
