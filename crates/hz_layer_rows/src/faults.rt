//! How faults are reported that no other row meets, most of them want of memory.

use hz_altern::AlternFault;
use hz_auto::AutoFault;
use hz_check::CheckFault;
use hz_depend::DependFault;
use hz_duo::DuoFault;
use hz_io::{Failed, SlurpFault};
use hz_mdread::MdFault;
use hz_regexp::{ExprFault, NamesFault};
use hz_replay::TraceFault;
use hz_rtl::RtlFault;
use hz_sched::SchedFault;
use hz_sexp::SexpFault;
use hz_states::StateFault;
use hz_tabfile::TabFault;
use std::alloc::{AllocError, Global};
use std::fmt::Write;

/// What is reported where forms, an expression, names, a description, a block, a check, a graph or a file want memory, and of
/// a call that failed.
pub fn answer_texts(alloc: Global) -> Result<String, AllocError> {
    format!(in alloc;
        "{}; {}; {}; {}; {}; {}; {}; {}; {}",
        SexpFault::NoMemory,
        ExprFault::NoMemory,
        NamesFault::NoMemory,
        MdFault::NoMemory,
        RtlFault::NoMemory,
        CheckFault::NoMemory,
        DependFault::NoMemory,
        SlurpFault::NoMemory,
        Failed
    )
}

/// The faults of a trace.
const TRACES: [TraceFault; 5] = [
    TraceFault::BadLine { line: 1 },
    TraceFault::UnknownClass { line: 2 },
    TraceFault::AdvanceLimit { line: 3 },
    TraceFault::UnknownUnit { line: 4 },
    TraceFault::NoMemory,
];

/// What is reported where alternatives and states want memory, and of each fault of a trace.
pub fn answer_automata(alloc: Global) -> Option<String> {
    let (alternatives, states) = (AlternFault::NoMemory, StateFault::NoMemory);
    let mut out = format!(in alloc; "{alternatives}; {states}").ok()?;
    for fault in &TRACES {
        write!(out, "; {fault}").ok()?;
    }
    Some(out)
}

/// What is reported where a machine and a text of tables want memory.
pub fn answer_tables(alloc: Global) -> Option<String> {
    let (machine, tables) = (AutoFault::NoMemory, TabFault::NoMemory);
    format!(in alloc; "{machine}; {tables}").ok()
}

/// What is reported of an instruction of a second context that can't be issued, and where schedules of one and of two contexts
/// want memory.
pub fn answer_schedules(alloc: Global) -> Option<String> {
    let second = DuoFault::CannotStartAlone {
        context: 2,
        place: 0,
    };
    let (one, two) = (SchedFault::NoMemory, DuoFault::NoMemory);
    format!(in alloc; "{second}; {one}; {two}").ok()
}
