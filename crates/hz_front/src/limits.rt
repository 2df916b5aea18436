//! Writing the lines of limits, and those of memory and of a file.

ghost use Rattle.std.specs.Prelude.{◌-◌, ◌^◌, ◌<◌};
ghost use Rattle.hz_io.specs.Sink.{Writes};
ghost use Rattle.hz_front_model.specs.Texts as model;
ghost use Rattle.hz_check.specs.Faults.{limit_of};
ghost use Rattle.hz_description_model.specs.Check.CheckFaults.{limit_word};

use hz_check::LimitName;
use hz_io::{Failed, Sink, put_all};
use hz_regexp::Name;
use itoa::Buffer;

/// Writes the line of a file that is too long.
pub fn put_bytes<S: Sink>(out: &mut S, file: &str) -> Result<(), Failed>
    requires { S.faults out.old < 2 ^ 64 - 1 }
    ensures { Writes S.written S.room S.faults out.old out.new (model.limit_line file.now) result }
{
    put_all(out, &[b"limit ", file.as_bytes(), b" bytes\n"])
}

/// Writes the line of a block that has too many instructions.
pub fn put_insns<S: Sink>(out: &mut S, file: &str) -> Result<(), Failed>
    requires { S.faults out.old < 2 ^ 64 - 1 }
    ensures { Writes S.written S.room S.faults out.old out.new (model.insns_line file.now) result }
{
    put_all(out, &[b"limit ", file.as_bytes(), b" insns\n"])
}

/// Writes the line of a limit of a description that is passed.
pub fn put_checked<'a, S: Sink>(
    out: &mut S,
    file: &'a str,
    line: u32,
    what: LimitName,
    name: &'a Name,
) -> Result<(), Failed>
    requires { S.faults out.old < 2 ^ 64 - 1 }
    ensures { Writes S.written S.room S.faults out.old out.new (model.passed_line file.now line (limit_word (limit_of what)) name.now) result }
{
    let word: &'a str = what.word();
    let mut digits = Buffer::new();
    put_all(
        out,
        &[
            b"limit ",
            file.as_bytes(),
            b" line ",
            digits.format(line).as_bytes(),
            b" ",
            word.as_bytes(),
            b" ",
            name.bytes(),
            b"\n",
        ],
    )
}

/// Writes the line of an automaton that has too many states.
pub fn put_automaton<S: Sink>(out: &mut S, file: &str, name: &Name) -> Result<(), Failed>
    requires { S.faults out.old < 2 ^ 64 - 1 }
    ensures { Writes S.written S.room S.faults out.old out.new (model.states_line file.now name.now) result }
{
    put_all(
        out,
        &[
            b"limit ",
            file.as_bytes(),
            b" automaton ",
            name.bytes(),
            b"\n",
        ],
    )
}

/// Writes the line of memory that ran out.
pub fn put_memory<S: Sink>(out: &mut S) -> Result<(), Failed>
    requires { S.faults out.old < 2 ^ 64 - 1 }
    ensures { Writes S.written S.room S.faults out.old out.new model.memory_line result }
{
    put_all(out, &[b"memory\n"])
}

/// Writes the line of a file that could not be read.
pub fn put_file<S: Sink>(out: &mut S, file: &str) -> Result<(), Failed>
    requires { S.faults out.old < 2 ^ 64 - 1 }
    ensures { Writes S.written S.room S.faults out.old out.new (model.file_line file.now) result }
{
    put_all(out, &[b"file ", file.as_bytes(), b" could not be read\n"])
}
