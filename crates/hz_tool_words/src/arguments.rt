//! The arguments of a command, and what it asks for with them.

ghost use Rattle.std.specs.Prelude.{◌≡◌, map};
ghost use Rattle.std.specs.Option.{option_map};
ghost use Rattle.hz_tool_words.specs.Shape.{argument_in, make_of, operand_in, order_in, pair_in, three_in, triple_in};
ghost use Rattle.hz_words_model.specs.Words as model;

use super::numbers::number_in;
use super::order::{
    BoundOrder, CompileOrder, DrillOrder, DuoOrder, EvalOrder, ModuloOrder, Order, ReplayOrder,
    ScheduleOrder, TimedOrder, WalkOrder,
};
use super::table::{Operand, Verb};

/// The greatest number that a drill draws from.
const NUMBER_LIMIT: u32 = 2_147_483_647;

/// The turns of a drill, at most.
const TURN_LIMIT: u32 = 1_000_000;

/// What is given for an operand: the name of a file, or a number.
#[derive(Clone, Copy)]
pub enum Argument<'a> {
    File(&'a str),
    Value(u32),
}

/// The argument that a word is for an operand: None where it should be a number and is none in its range.
pub fn read_argument<'a>(operand: Operand, word: &'a str) -> Option<Argument<'a>>
    ensures { option_map argument_in result ≡ model.argument_of (operand_in operand) word.entry.now }
{
    match operand {
        Operand::Description | Operand::Trace | Operand::Tables | Operand::Block | Operand::State =>
            Some(Argument::File(word)),
        Operand::Number => Some(Argument::Value(number_in(NUMBER_LIMIT, word)?)),
        Operand::Turns => Some(Argument::Value(number_in(TURN_LIMIT, word)?)),
    }
}

/// The name of one file.
fn one_file<'a>(arguments: &[Argument<'a>]) -> Option<&'a str>
    ensures { option_map (λ name. name.now) result ≡ model.one_file (map argument_in arguments.now) }
{
    match arguments {
        [Argument::File(first)] => Some(*first),
        _ => None,
    }
}

/// The names of two files.
fn two_files<'a>(arguments: &[Argument<'a>]) -> Option<(&'a str, &'a str)>
    ensures { option_map pair_in result ≡ model.two_files (map argument_in arguments.now) }
{
    match arguments {
        [Argument::File(first), Argument::File(second)] => Some((*first, *second)),
        _ => None,
    }
}

/// The names of three files.
fn three_files<'a>(arguments: &[Argument<'a>]) -> Option<(&'a str, &'a str, &'a str)>
    ensures { option_map three_in result ≡ model.three_files (map argument_in arguments.now) }
{
    match arguments {
        [
            Argument::File(first),
            Argument::File(second),
            Argument::File(third),
        ] => { Some((*first, *second, *third)) }
        _ => None,
    }
}

/// The name of a file, and two numbers.
fn file_and_numbers<'a>(arguments: &[Argument<'a>]) -> Option<(&'a str, u32, u32)>
    ensures { option_map triple_in result ≡ model.file_and_numbers (map argument_in arguments.now) }
{
    match arguments {
        [
            Argument::File(file),
            Argument::Value(first),
            Argument::Value(second),
        ] => { Some((*file, *first, *second)) }
        _ => None,
    }
}

/// What a command asks for with its arguments: None where they are not those of its operands.
pub fn make_order<'a>(verb: Verb, arguments: &[Argument<'a>]) -> Option<Order<'a>>
    ensures { option_map order_in result ≡ make_of verb (map argument_in arguments.now) }
{
    match verb {
        Verb::Compile => {
            let description = one_file(arguments)?;
            Some(Order::Compile(CompileOrder { description }))
        }
        Verb::Replay => {
            let (description, trace) = two_files(arguments)?;
            Some(Order::Replay(ReplayOrder { description, trace }))
        }
        Verb::Walk => {
            let (tables, trace) = two_files(arguments)?;
            Some(Order::Walk(WalkOrder { tables, trace }))
        }
        Verb::Schedule => {
            let (description, block) = two_files(arguments)?;
            Some(Order::Schedule(ScheduleOrder { description, block }))
        }
        Verb::Eval => {
            let (block, state) = two_files(arguments)?;
            Some(Order::Eval(EvalOrder { block, state }))
        }
        Verb::Drill => {
            let (description, number, turns) = file_and_numbers(arguments)?;
            Some(Order::Drill(DrillOrder {
                description,
                number,
                turns,
            }))
        }
        Verb::Timed => {
            let (description, block, state) = three_files(arguments)?;
            Some(Order::Timed(TimedOrder {
                description,
                block,
                state,
            }))
        }
        Verb::Bound => {
            let (description, block) = two_files(arguments)?;
            Some(Order::Bound(BoundOrder { description, block }))
        }
        Verb::Duo => {
            let (description, first, second) = three_files(arguments)?;
            Some(Order::Duo(DuoOrder {
                description,
                first,
                second,
            }))
        }
        Verb::Modulo => {
            let (description, block) = two_files(arguments)?;
            Some(Order::Modulo(ModuloOrder { description, block }))
        }
    }
}
