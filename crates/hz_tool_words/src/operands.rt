//! The operands after a command, read with `clap`.

ghost use Rattle.std.specs.Prelude.{◌≡◌, IfOk, map};
ghost use Rattle.std.specs.Option.{option_and_then, option_map};
ghost use Rattle.clap.specs.Words.{app_of, with_rule};
ghost use Rattle.hz_tool_words.specs.Shape.{argument_in, operand_in, words_in};
ghost use Rattle.hz_tool_words.specs.Operands.{Finds, IsRefusal, app_with, arguments_at, id_at, operand, value_of};
ghost use Rattle.hz_words_model.specs.Words as model;

use super::arguments::{Argument, read_argument};
use super::table::Operand;
use clap::error::ErrorKind;
use clap::{Arg, ArgMatches, Command};
use std::alloc::{AllocError, Global};

/// What `clap` calls the operand at a place.
fn id_at(place: usize) -> &'static str
    ensures { result.now ≡ id_at place }
{
    match place {
        0 => "first",
        1 => "second",
        _ => "third",
    }
}

/// The command with an operand more, the one at this place.
fn add_operand<'a>(
    alloc: Global,
    command: Command<'a>,
    place: usize,
) -> Result<Command<'a>, AllocError>
    ensures { IfOk result (λ more. app_of more ≡ with_rule (app_of command.entry) (operand (id_at place))) }
{
    let id: &'a str = id_at(place);
    command.arg(Arg::new(alloc, id).required(true))
}

/// A command with so many operands, each of which is required.
pub fn make_command<'a>(
    alloc: Global,
    name: &'a str,
    operands: usize,
) -> Result<Command<'a>, AllocError>
    ensures { IfOk result (λ command. app_of command ≡ app_with name.entry.now operands) }
{
    let mut command = Command::new(alloc, name);
    for place in 0..operands {
        command = add_operand(alloc, command, place)?;
    }
    Ok(command)
}

/// What is reported of words that `clap` refuses: nothing is found in them, or memory ran out.
fn refused<'a>(kind: ErrorKind) -> Result<Option<ArgMatches<'a>>, AllocError>
    ensures { IsRefusal kind result }
{
    match kind {
        ErrorKind::InvalidValue
        | ErrorKind::UnknownArgument
        | ErrorKind::InvalidSubcommand
        | ErrorKind::NoEquals
        | ErrorKind::ValueValidation
        | ErrorKind::TooManyValues
        | ErrorKind::TooFewValues
        | ErrorKind::WrongNumberOfValues
        | ErrorKind::ArgumentConflict
        | ErrorKind::MissingRequiredArgument
        | ErrorKind::MissingSubcommand
        | ErrorKind::DisplayHelp
        | ErrorKind::DisplayHelpOnMissingArgumentOrSubcommand
        | ErrorKind::DisplayVersion
        | ErrorKind::Io
        | ErrorKind::Format => Ok(None),
        ErrorKind::OutOfMemory => Err(AllocError),
    }
}

/// What `clap` finds in the words, None where it refuses them.
pub fn found<'a>(
    mut command: Command<'a>,
    words: &'a [String],
) -> Result<Option<ArgMatches<'a>>, AllocError>
    ensures { IfOk result (Finds (app_of command.entry) (words_in words.now)) }
{
    match command.try_get_matches_from_mut(words) {
        Ok(matches) => Ok(Some(matches)),
        Err(error) => refused(error.kind()),
    }
}

/// The argument for the operand at a place, None where nothing was found there, or no number where one is wanted.
fn read_argument_at<'a>(
    matches: &ArgMatches<'a>,
    place: usize,
    operand: Operand,
) -> Option<Argument<'a>>
    ensures { option_map argument_in result ≡ option_and_then (model.argument_of (operand_in operand)) (value_of matches.now place) }
{
    read_argument(operand, matches.get_str(id_at(place))?)
}

/// The arguments for the operands, None where one is missing or is no number where one is wanted.
pub fn read_arguments<'a>(
    alloc: Global,
    matches: &ArgMatches<'a>,
    operands: &[Operand],
) -> Result<Option<Vec<Argument<'a>>>, AllocError>
    ensures { IfOk result (λ arguments. option_map (λ all. map argument_in all.items) arguments ≡ arguments_at (value_of matches.now) 0 operands.now) }
{
    let mut arguments = Vec::new(alloc);
    for (place, operand) in operands.iter().enumerate() {
        let Some(argument) = read_argument_at(matches, place, *operand) else {
            return Ok(None);
        };
        arguments.push(argument)?;
    }
    Ok(Some(arguments))
}
