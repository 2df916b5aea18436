//! Checks of descriptions, and what is reported of them.

ghost use Rattle.std.specs.Prelude.{◌<◌, ◌^◌, length};

use crate::texts::forms::MOST_BYTES;
use crate::written::text_of;
use hz_check::{CheckFault, check};
use hz_checked::Checked;
use hz_mdread::read_description;
use hz_regexp::Name;
use hz_sexp::read_forms;
use std::alloc::{AllocError, Global};

/// What the check of a text answers, where the text is a description.
pub fn checked_of(alloc: Global, text: &[u8]) -> Option<Result<Checked, CheckFault>>
    requires { length text.now < 2 ^ 32 }
{
    match read_forms(alloc, text) {
        Ok(forms) => match read_description(alloc, &forms) {
            Ok(description) => Some(check(alloc, description)),
            Err(_) => None,
        },
        Err(_) => None,
    }
}

/// The name that is wrong.
fn name_in(fault: &CheckFault) -> Option<&Name> {
    match fault {
        CheckFault::TwiceDefined { line: _, name }
        | CheckFault::ReservedName { line: _, name }
        | CheckFault::UnknownName { line: _, name }
        | CheckFault::UnknownAutomaton { line: _, name }
        | CheckFault::UnitNeedsAutomaton { line: _, name }
        | CheckFault::CircularReservation { line: _, name }
        | CheckFault::SelfExclusion { line: _, name }
        | CheckFault::SetAcrossAutomata { line: _, name }
        | CheckFault::AlternationOfTwoAutomata { line: _, name }
        | CheckFault::AlternationOfTwoLengths { line: _, name }
        | CheckFault::BypassTwice { line: _, name }
        | CheckFault::QueryUnderNdfa { line: _, name } => Some(name),
        CheckFault::Limit {
            what: _,
            line: _,
            name,
        } => Some(name),
        CheckFault::NoMemory => None,
    }
}

/// A fault as it is reported, before its name, and before that what a limit counts.
fn reported(alloc: Global, fault: &CheckFault) -> Result<String, AllocError> {
    let name = match name_in(fault) {
        Some(name) => text_of(name.bytes()),
        None => "no name",
    };
    match fault {
        CheckFault::Limit {
            what,
            line: _,
            name: _,
        } => format!(in alloc; "{fault} {what:?} {name}"),
        _ => format!(in alloc; "{fault} {name}"),
    }
}

/// What is reported of a description, or `right`.
pub fn answer(alloc: Global, text: &[u8]) -> Result<String, AllocError> {
    if text.len() > MOST_BYTES {
        return String::from_str(alloc, "too long");
    }
    match checked_of(alloc, text) {
        Some(Ok(_)) => String::from_str(alloc, "right"),
        Some(Err(fault)) => reported(alloc, &fault),
        None => String::from_str(alloc, "no description"),
    }
}

/// What is reported of a description as less and less counts before the others, each fault once: so the names that are too much
/// come in the order in which they count. In the text `##` stands for the cycles that count before, 256 to 249.
pub fn answer_order(alloc: Global, text: &[u8]) -> Result<String, AllocError> {
    let mut out = String::new(alloc);
    let mut last = String::new(alloc);
    for cycles in (249..257u32).rev() {
        let cycles = cycles.to_string(alloc)?;
        let filled = text_of(text).replace(alloc, "##", cycles.as_str())?;
        let reported = answer(alloc, filled.as_bytes())?;
        if reported != last {
            out.push_str("; ")?;
            out.push_str(reported.as_str())?;
            last = reported;
        }
    }
    String::from_str(alloc, out.trim_start_matches("; "))
}
