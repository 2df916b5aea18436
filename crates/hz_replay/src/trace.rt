//! The reader of traces.

ghost use Rattle.std.specs.Prelude.{◌≡◌, ◌<◌, ◌^◌, length, IfOk, OnOk, IfErr};
ghost use Rattle.std.specs.Option.{option_map};
ghost use Rattle.hz_base_model.specs.Lines.{lines_of};
ghost use Rattle.hz_pipeline_model.specs.Traces.Traces.{Trace, event_lines};
ghost use Rattle.hz_pipeline_model.specs.Tables.MachineNames.{names_of_machine};
ghost use Rattle.hz_tables.specs.Machines.{machine_of};
ghost use Rattle.hz_replay.specs.Lines.{event_of};
ghost use Rattle.hz_replay.specs.Traces.{events_in, lines_in, IsTraceFault, IsFaultOfLine, placed_in, noted, cycles_in};

use super::event::{Event, What};
use super::fault::TraceFault;
use super::lines::line_end;
use super::names::Names;
use super::reading::Reading;
use super::words::Wrong;
use hz_tables::Machine;
use std::alloc::Global;

/// The fault of a line of this number.
fn fault_at(line: u32, wrong: Wrong) -> TraceFault
    ensures { IsFaultOfLine line wrong result }
{
    match wrong {
        Wrong::BadLine => TraceFault::BadLine { line },
        Wrong::UnknownClass => TraceFault::UnknownClass { line },
        Wrong::AdvanceLimit => TraceFault::AdvanceLimit { line },
        Wrong::UnknownUnit => TraceFault::UnknownUnit { line },
    }
}

/// Adds the event of a line, if it has one, and gives the cycles that it advances.
fn note(events: &mut Vec<Event>, line: u32, what: Option<What>) -> Result<u32, TraceFault>
    ensures cycles { IfOk result (λ cycles. cycles ≡ cycles_in (option_map event_of what)) }
    ensures noted { OnOk result (placed_in events.new.items ≡ noted (placed_in events.old.items) line (option_map event_of what)) }
    ensures fault { IfErr result (λ fault. fault ≡ TraceFault.NoMemory) }
{
    let Some(what) = what else {
        return Ok(0);
    };
    events.push(Event { line, what })?;
    match what {
        What::Issue(_) => Ok(0),
        What::Advance(cycles) => Ok(cycles),
        What::Ask { part: _, ask: _ } => Ok(0),
    }
}

/// The events of a text, each with its line, where these are the names; or the fault of the first wrong line. Source: this profile,
/// docs/FORMATS.md, 'Trace'.
pub fn read_events(alloc: Global, names: &Names, text: &[u8]) -> Result<Vec<Event>, TraceFault>
    requires { length text.now < 2 ^ 32 }
    ensures ok { IfOk result (λ events. Trace names.now text.now (events_in events.items)) }
    ensures lines { IfOk result (λ events. lines_in events.items ≡ event_lines names.now 1 (lines_of text.now)) }
    ensures err { IfErr result (IsTraceFault names.now text.now) }
{
    let mut reading = Reading::new(alloc, names, text)?;
    let mut events = Vec::new(alloc);
    let mut advanced = 0;
    let mut number = 0;
    let mut at = 0;
    while at < text.len() {
        let end = line_end(text, at);
        number += 1;
        let what = match reading.judge(advanced, at, end) {
            Ok(what) => what,
            Err(wrong) => return Err(fault_at(number, wrong)),
        };
        advanced += note(&mut events, number, what)?;
        at = end + 1;
    }
    Ok(events)
}

/// The events of a text, each with its line, where the classes and the units that are asked for are those of the machine;
/// or the fault of the first wrong line. Source: this profile, docs/FORMATS.md, 'Trace'.
pub fn read_trace(alloc: Global, bytes: &[u8], machine: &Machine) -> Result<Vec<Event>, TraceFault>
    requires { length bytes.now < 2 ^ 32 }
    ensures ok { IfOk result (λ events. Trace (names_of_machine (machine_of machine.now)) bytes.now (events_in events.items)) }
    ensures lines { IfOk result (λ events. lines_in events.items ≡ event_lines (names_of_machine (machine_of machine.now)) 1 (lines_of bytes.now)) }
    ensures err { IfErr result (IsTraceFault (names_of_machine (machine_of machine.now)) bytes.now) }
{
    let names = Names::of(alloc, machine)?;
    read_events(alloc, &names, bytes)
}
