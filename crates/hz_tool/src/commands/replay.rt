//! The phases of `replay`, in their order: the description, its machine, the trace and its replay.

ghost use Rattle.std.specs.Prelude.{◌≡◌, ◌<◌, ◌≤◌, ◌^◌, IfOk, IfErr, length, All};
ghost use Rattle.hz_pipeline_model.specs.Traces.TraceLimits.{advance_limit};
ghost use Rattle.hz_pipeline_model.specs.Accepting.Asking.{IsOfQuery};
ghost use Rattle.hz_pipeline_model.specs.Accepting.Events.{cycles_of, IsOfClass};
ghost use Rattle.hz_answer_model.specs.Answers.{Judges};
ghost use Rattle.hz_answer_model.specs.TableAnswers.{WalksTrace};
ghost use Rattle.hz_pipeline_model.specs.Tables.MachineNames.{names_of_machine};
ghost use Rattle.hz_base_model.specs.Lines.{lines_of};
ghost use Rattle.hz_front.specs.Refusals.{Agrees, IsJudged};
ghost use Rattle.hz_front_model.specs.Phases.{TellsFault};
ghost use Rattle.hz_pipeline_model.specs.Traces.Traces.{Trace, event_lines, TraceFaultAt, trace_word};
ghost use Rattle.hz_replay.specs.Replaying.{IsOutcome};
ghost use Rattle.hz_replay.specs.Traces.{events_in, lines_in};
ghost use Rattle.hz_tables.specs.Machines.{machine_of};
ghost use Rattle.hz_tool.specs.Deciding.{Decides};

use crate::done::Done;
use crate::phases::compiling::judge_compiled;
use hz_front::refusal::Refusal;
use hz_front::refusing::refuse_fault;
use hz_replay::{Event, Outcome, read_trace, replay};
use hz_tables::{Machine, Steps};
use hz_tool_words::order::ReplayOrder;
use std::alloc::Global;
use std::marker::Brand;
use std::sync::ledger::{Blank, Ledger};

/// The outcome of events over a machine, whose steps nobody counts.
fn outcome_of<L: Ledger>(
    alloc: Global,
    machine: &Machine,
    events: &[Event],
    blank: Blank,
) -> Outcome
    requires name { blank.name ≡ L.name }
    requires parts { blank.parts ≡ L.parts }
    requires some { 0 < blank.parts }
    requires classes { All (IsOfClass (length machine.now.classes.items)) (events_in events.now) }
    requires asks { All (IsOfQuery (names_of_machine (machine_of machine.now)).queries) (events_in events.now) }
    requires short { cycles_of (events_in events.now) ≤ advance_limit }
    requires few { length events.now < 2 ^ 32 }
    ensures { IsOutcome (machine_of machine.now) (events_in events.now) result }
{
    let mut steps = Steps::<L>::new(blank);
    replay(alloc, machine, events, &mut steps)
}

/// The events of a trace over the names of a machine, or the refusal of its first wrong line.
fn judge_trace<'a>(
    alloc: Global,
    file: &'a str,
    machine: &Machine,
    text: &[u8],
) -> Result<Vec<Event>, Refusal<'a>>
    requires { length text.now < 2 ^ 32 }
    ensures ok { IfOk result (λ events. Trace (names_of_machine (machine_of machine.now)) text.now (events_in events.items)) }
    ensures lines { IfOk result (λ events. lines_in events.items ≡ event_lines (names_of_machine (machine_of machine.now)) 1 (lines_of text.now)) }
    ensures kind { IfErr result IsJudged }
    ensures err { IfErr result (Agrees (TellsFault trace_word (TraceFaultAt (names_of_machine (machine_of machine.now)) text.now) file.entry.now)) }
{
    match read_trace(alloc, text, machine) {
        Ok(events) => Ok(events),
        Err(fault) => Err(refuse_fault(file, fault.reported(), None)),
    }
}

/// The replay of a trace over a machine, or a refusal.
pub fn walk_trace<'a>(
    alloc: Global,
    file: &'a str,
    machine: Machine,
    trace: &[u8],
) -> Result<Done, Refusal<'a>>
    requires { length trace.now < 2 ^ 32 }
    ensures { Decides (WalksTrace file.entry.now trace.now (machine_of machine)) result }
{
    let events = judge_trace(alloc, file, &machine, trace)?;
    let outcome = outcome_of::<Brand>(alloc, &machine, &events, Blank::new(1));
    Ok(Done::Replayed {
        machine,
        events,
        outcome,
    })
}

/// The replay of a trace by both texts, the description judged first, or a refusal.
pub fn judge_replay<'a>(
    alloc: Global,
    order: &ReplayOrder<'a>,
    described: &[u8],
    trace: &[u8],
) -> Result<Done, Refusal<'a>>
    requires described { length described.now < 2 ^ 32 }
    requires trace { length trace.now < 2 ^ 32 }
    ensures { Decides (Judges order.now.description.now described.now order.now.trace.now trace.now) result }
{
    let front = judge_compiled(alloc, order.description, described)?;
    let compiled = front.compiled;
    walk_trace(alloc, order.trace, compiled.machine, trace)
}
