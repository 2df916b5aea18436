//! What is refused, before it is written.

ghost use Rattle.std.specs.Prelude.{◌≡◌, ◌≤◌, ◌<◌, ◌^◌, ◌-◌};
ghost use Rattle.hz_io.specs.Sink.{Writes};
ghost use Rattle.hz_front.specs.Refusals.{status_of, text_of};

use crate::faults::put_fault;
use crate::limits::{put_automaton, put_bytes, put_checked, put_file, put_insns, put_memory};
use hz_check::LimitName;
use hz_io::{Failed, Sink};
use hz_regexp::Name;

/// Why nothing is done. A file goes by the word that names it, lines are counted from 1. Source: this profile, docs/FORMATS.md,
/// 'Answers'.
#[derive(Drop)]
pub enum Refusal<'a> {
    /// A fault of a text: the word of its kind, and after it the number of an instruction, one name or two, and of an expression the
    /// word of its fault with a byte of its string, counted from 0.
    Fault {
        file: &'a str,
        line: u32,
        kind: &'static str,
        insn: Option<u32>,
        first: Option<Name>,
        second: Option<Name>,
        at: Option<(&'static str, u32)>,
    },
    /// A limit of a description is passed at this line, by what has this name.
    Limit {
        file: &'a str,
        line: u32,
        what: LimitName,
        name: Name,
    },
    /// The automaton of this name has too many states.
    Automaton {
        file: &'a str,
        name: Name,
    },
    /// The file has more bytes than it may have.
    Bytes {
        file: &'a str,
    },
    /// A block has more instructions than it may have, or two have together; then the second is the file.
    Insns {
        file: &'a str,
    },
    /// The words are none that the program takes: its usage line.
    Usage {
        line: &'static str,
    },
    /// Memory ran out.
    Memory,
    /// The file could not be opened or read.
    File {
        name: &'a str,
    },
}

impl Refusal<'_> {
    /// The status of the refusal, if its line is written whole.
    pub fn status(&self) -> u8
        ensures value { result ≡ status_of self.now }
    {
        match self {
            Refusal::Fault { .. } => 2,
            Refusal::Limit { .. }
            | Refusal::Automaton { .. }
            | Refusal::Bytes { .. }
            | Refusal::Insns { .. } => 3,
            Refusal::Usage { .. } => 4,
            Refusal::Memory => 5,
            Refusal::File { .. } => 6,
        }
    }

    /// Writes the line of the refusal: all of it, or a front of it if the sink failed, with one more fault. It takes no memory.
    pub fn write<S: Sink>(&self, out: &mut S) -> Result<(), Failed>
        requires { S.faults out.old < 2 ^ 64 - 1 }
        ensures { Writes S.written S.room S.faults out.old out.new (text_of self.now) result }
    {
        match self {
            Refusal::Fault {
                file,
                line,
                kind,
                insn,
                first,
                second,
                at,
            } => put_fault(
                out,
                file,
                *line,
                kind,
                *insn,
                first.as_ref(),
                second.as_ref(),
                *at,
            ),
            Refusal::Limit {
                file,
                line,
                what,
                name,
            } => put_checked(out, file, *line, *what, name),
            Refusal::Automaton { file, name } => put_automaton(out, file, name),
            Refusal::Bytes { file } => put_bytes(out, file),
            Refusal::Insns { file } => put_insns(out, file),
            Refusal::Usage { line } => out.put(line.as_bytes()),
            Refusal::Memory => put_memory(out),
            Refusal::File { name } => put_file(out, name),
        }
    }
}
