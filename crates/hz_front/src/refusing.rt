//! The refusals of files and texts, by what the crates below report: one function a report.

ghost use Rattle.std.specs.Prelude.{◌≡◌};
ghost use Rattle.hz_check.specs.Faults.{IsReportedAt, Tells};
ghost use Rattle.hz_description_model.specs.Reading.Descriptions.{Description};
ghost use Rattle.hz_front_model.specs.Descriptions.{TellsCheck};
ghost use Rattle.hz_front.specs.Refusals.{Agrees, IsJudged};
ghost use Rattle.hz_front.specs.Refusing as refusing;

use crate::refusal::Refusal;
use hz_check::{CheckFault, LimitName};
use hz_io::SlurpFault;
use hz_regexp::Name;

/// The refusal of a file that was not read whole.
pub fn refuse_slurp<'a>(file: &'a str, fault: SlurpFault) -> Refusal<'a>
    ensures { result ≡ refusing.refuse_slurp file.entry fault }
{
    match fault {
        SlurpFault::Failed => Refusal::File { name: file },
        SlurpFault::Long { read: _ } => Refusal::Bytes { file },
        SlurpFault::NoMemory => Refusal::Memory,
    }
}

/// The refusal of a fault that has a word and a line, with what is wrong in an expression; None is want of memory.
pub fn refuse_fault<'a>(
    file: &'a str,
    reported: Option<(&'static str, u32)>,
    at: Option<(&'static str, u32)>,
) -> Refusal<'a>
    ensures kind { IsJudged result }
    ensures value { result ≡ refusing.refuse_fault file.entry reported.entry at.entry }
{
    match reported {
        Some((kind, line)) => Refusal::Fault {
            file,
            line,
            kind,
            insn: None,
            first: None,
            second: None,
            at,
        },
        None => Refusal::Memory,
    }
}

/// The refusal of a fault or a limit of the check, with the name that is wrong.
fn refuse_named<'a>(
    file: &'a str,
    reported: Option<(&'static str, u32)>,
    limit: Option<LimitName>,
    name: Option<Name>,
) -> Refusal<'a>
    ensures kind { IsJudged result }
    ensures value { result ≡ refusing.refuse_check file.entry reported.entry limit name }
{
    let Some((kind, line)) = reported else {
        return Refusal::Memory;
    };
    let Some(name) = name else {
        return Refusal::Memory;
    };
    match limit {
        Some(what) => Refusal::Limit {
            file,
            line,
            what,
            name,
        },
        None => Refusal::Fault {
            file,
            line,
            kind,
            insn: None,
            first: Some(name),
            second: None,
            at: None,
        },
    }
}

/// The refusal of a fault or a limit of the check.
pub fn refuse_check<'a>(file: &'a str, fault: CheckFault) -> Refusal<'a>
    ensures kind { IsJudged result }
    ensures answer { (d : Description) → Tells (IsReportedAt d) fault → Agrees (TellsCheck file.entry.now d) result }
{
    let reported = fault.reported();
    let limit = fault.limit();
    refuse_named(file, reported, limit, fault.into_name())
}
