//! The table of commands.

ghost use Rattle.std.specs.Prelude.{◌≡◌, IfSome};
ghost use Rattle.std.specs.Option.{option_map};
ghost use Rattle.hz_tool_words.specs.Shape.{IsFew, command_in};
ghost use Rattle.hz_words_model.specs.Words as model;

/// The kinds of operands. The first five are files.
#[derive(Clone, Copy)]
pub enum Operand {
    Description,
    Trace,
    Tables,
    Block,
    State,
    Number,
    Turns,
}

/// The commands.
#[derive(Clone, Copy)]
pub enum Verb {
    Compile,
    Replay,
    Walk,
    Schedule,
    Eval,
    Drill,
    Timed,
    Bound,
    Duo,
    Modulo,
}

/// A row of the table: the name of a command, its operands in their order, and which command it is.
#[derive(Clone, Copy)]
pub struct Row {
    pub name: &'static str,
    pub operands: &'static [Operand],
    pub verb: Verb,
}

/// The commands, in the order of the usage line. A command has one to three operands.
const COMMANDS: [Row; 10] = [
    Row {
        name: "compile",
        operands: &[Operand::Description],
        verb: Verb::Compile,
    },
    Row {
        name: "replay",
        operands: &[Operand::Description, Operand::Trace],
        verb: Verb::Replay,
    },
    Row {
        name: "walk",
        operands: &[Operand::Tables, Operand::Trace],
        verb: Verb::Walk,
    },
    Row {
        name: "schedule",
        operands: &[Operand::Description, Operand::Block],
        verb: Verb::Schedule,
    },
    Row {
        name: "eval",
        operands: &[Operand::Block, Operand::State],
        verb: Verb::Eval,
    },
    Row {
        name: "drill",
        operands: &[Operand::Description, Operand::Number, Operand::Turns],
        verb: Verb::Drill,
    },
    Row {
        name: "timed",
        operands: &[Operand::Description, Operand::Block, Operand::State],
        verb: Verb::Timed,
    },
    Row {
        name: "bound",
        operands: &[Operand::Description, Operand::Block],
        verb: Verb::Bound,
    },
    Row {
        name: "duo",
        operands: &[Operand::Description, Operand::Block, Operand::Block],
        verb: Verb::Duo,
    },
    Row {
        name: "modulo",
        operands: &[Operand::Description, Operand::Block],
        verb: Verb::Modulo,
    },
];

/// The row of the command of this name.
pub fn find_row(name: &str) -> Option<&'static Row>
    ensures named { option_map (λ row. command_in row.now) result ≡ model.command_named name.now }
    ensures few { IfSome result (λ row. IsFew row.now.operands.now) }
{
    COMMANDS.iter().find(|row| row.name == name)
}

/// The line that answers words which are no command. Source: this profile, docs/FORMATS.md, 'Words'.
pub fn usage() -> &'static str
    ensures { result.now ≡ model.usage_line }
{
    "usage: hz compile DESC | replay DESC TRACE | walk TABLES TRACE | schedule DESC BLOCK | eval BLOCK STATE | drill DESC NUMBER COUNT | timed DESC BLOCK STATE | bound DESC BLOCK | duo DESC BLOCK BLOCK | modulo DESC BLOCK\n"
}
