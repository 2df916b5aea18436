//! The refusals of automata and instructions, by what the crates below report: one function a report.

ghost use Rattle.std.specs.Prelude.{◌≡◌};
ghost use Rattle.hz_tool.specs.Refusing as refusing;

use hz_auto::AutoFault;
use hz_front::refusal::Refusal;
use hz_regexp::{Name, NoMemory};
use hz_rtl::Insn;

/// The refusal of an instruction that is wrong, by the word of its fault.
pub fn refuse_insn<'a>(
    file: &'a str,
    insn: &Insn,
    kind: &'static str,
    first: Option<Name>,
    second: Option<Name>,
) -> Refusal<'a>
    ensures { result ≡ refusing.refuse_insn file.entry insn.now kind.entry first second }
{
    Refusal::Fault {
        file,
        line: insn.line,
        kind,
        insn: Some(insn.number),
        first,
        second,
        at: None,
    }
}

/// The refusal of an instruction of two classes, by the copies of their names.
pub fn refuse_ambiguous<'a>(
    file: &'a str,
    insn: &Insn,
    kind: &'static str,
    copied: Result<(Name, Name), NoMemory>,
) -> Refusal<'a>
    ensures { result ≡ refusing.refuse_ambiguous file.entry insn.now kind.entry copied }
{
    match copied {
        Ok((first, second)) => refuse_insn(file, insn, kind, Some(first), Some(second)),
        Err(_) => Refusal::Memory,
    }
}

/// The number of the automaton that has a count above its limit, None where memory ran out.
pub fn limited(fault: AutoFault) -> Option<u32>
    ensures { result ≡ refusing.limited fault }
{
    match fault {
        AutoFault::Limit { automaton, kind: _ } => Some(automaton),
        AutoFault::NoMemory => None,
    }
}

/// The refusal of an automaton that has a count above its limit, by the copy of its name.
pub fn refuse_states<'a>(file: &'a str, copied: Result<Name, NoMemory>) -> Refusal<'a>
    ensures { result ≡ refusing.refuse_states file.entry copied }
{
    match copied {
        Ok(name) => Refusal::Automaton { file, name },
        Err(_) => Refusal::Memory,
    }
}
