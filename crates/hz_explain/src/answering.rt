//! What `replay` answers of a trace, by what was issued of it.

ghost use Rattle.std.specs.Prelude.{◌≡◌, ◌++◌, ◌<◌, ◌≤◌, ◌^◌, [], OnOk, IfOk, codes, decimal, length, slice_index_or, if◌then◌else◌};
ghost use Rattle.std.specs.List.{flat_map};
ghost use Rattle.hz_front_model.specs.Asks.{held_in, trace_names};
ghost use Rattle.hz_front_model.specs.Replays.{Replays};
ghost use Rattle.hz_front_model.specs.Texts.{accepted_line, refused_line};
ghost use Rattle.hz_description_model.specs.Check.Places.{Known};
ghost use Rattle.hz_description_model.specs.Reading.Descriptions.{Description};
ghost use Rattle.hz_pipeline_model.specs.Accepting.Events.{issues_of, cycles_of};
ghost use Rattle.hz_pipeline_model.specs.Pipelines.Pipelines.{pipeline_with};
ghost use Rattle.hz_pipeline_model.specs.Traces.TraceLimits.{advance_limit};
ghost use Rattle.hz_replay.specs.Lines.{event_of};
ghost use Rattle.hz_replay.specs.Replaying.{issues_in, cycles_of_one};
ghost use Rattle.hz_replay.specs.Traces.{events_in, lines_in};
ghost use Rattle.hz_explain.specs.Answering.{names_at, unit_name, asked_line, issued_name, refused_by, end_line, replay_text, status_of, queries_of, IsTraceOf};
ghost use Rattle.hz_reasons.specs.Frontiers.{AreEntriesOf};
ghost use Rattle.hz_reasons.specs.Walking.{taken, AreAsked, ChoosesAll};
ghost use Rattle.hz_reasons.specs.declared.plan.Plan.{Plan};

use crate::drawing::{add, add_number};
use hz_grid::NoMemory;
use hz_reasons::{Asked, Walked};
use hz_regexp::Name;
use hz_replay::{Event, What};
use itoa::Buffer;
use std::alloc::Global;

/// The name of a query unit; an empty one where there is no such unit. It takes no memory.
fn unit_name(units: &[Vec<Name>], part: u32, ask: u32) -> &[u8]
    ensures { result.now ≡ unit_name (names_at units.now) part ask }
{
    match units.get(part as usize) {
        Some(names) => match names.get(ask as usize) {
            Some(name) => name.bytes(),
            None => &[],
        },
        None => &[],
    }
}

/// The end of the line of an ask.
fn reported<'a>(reserved: bool) -> &'a [u8]
    ensures { result.now ≡ if reserved then codes " reserved\n" else codes " free\n" }
{
    if reserved { b" reserved\n" } else { b" free\n" }
}

/// Adds the line of an ask.
fn add_ask(text: &mut Vec<u8>, units: &[Vec<Name>], asked: Asked) -> Result<(), NoMemory>
    ensures { OnOk result (text.new.items ≡ text.old.items ++ asked_line (names_at units.now) asked) }
{
    add(text, b"ask line ")?;
    add_number(text, asked.line)?;
    add(text, b" ")?;
    add(text, unit_name(units, asked.part, asked.ask))?;
    add(text, reported(asked.reserved))
}

/// Adds the lines of asks.
fn add_asks(text: &mut Vec<u8>, units: &[Vec<Name>], asked: &[Asked]) -> Result<(), NoMemory>
    ensures { OnOk result (text.new.items ≡ text.old.items ++ flat_map (asked_line (names_at units.now)) asked.now) }
{
    for ask in asked {
        add_ask(text, units, *ask)?;
    }
    Ok(())
}

/// The name of the class that an event issues; an empty one where there is no such class. It takes no memory.
fn class_name(classes: &[Name], what: What) -> &[u8]
    ensures { result.now ≡ issued_name classes.now (event_of what) }
{
    match what {
        What::Issue(class) => match classes.get(class as usize) {
            Some(name) => name.bytes(),
            None => &[],
        },
        What::Advance(_) => &[],
        What::Ask { part: _, ask: _ } => &[],
    }
}

/// Adds the line of an issue that is refused.
fn add_refused(text: &mut Vec<u8>, line: u32, class: &[u8]) -> Result<(), NoMemory>
    ensures { OnOk result (text.new.items ≡ text.old.items ++ refused_line line class.now) }
{
    add(text, b"refused line ")?;
    add_number(text, line)?;
    add(text, b" ")?;
    add(text, class)?;
    add(text, b"\n")
}

/// Adds a count.
fn add_sum(text: &mut Vec<u8>, count: u64) -> Result<(), NoMemory>
    ensures { OnOk result (text.new.items ≡ text.old.items ++ decimal count) }
{
    add(text, Buffer::new().format(count).as_bytes())
}

/// Adds the line of a trace that is accepted.
fn add_accepted(text: &mut Vec<u8>, issues: u64, cycles: u64) -> Result<(), NoMemory>
    ensures { OnOk result (text.new.items ≡ text.old.items ++ accepted_line issues cycles) }
{
    add(text, b"accepted ")?;
    add_sum(text, issues)?;
    add(text, b" issues ")?;
    add_sum(text, cycles)?;
    add(text, b" cycles\n")
}

/// 1 for an issue, and 0 for advances and asks.
fn issues_at(what: What) -> u64
    ensures { result ≡ issues_in (event_of what) }
{
    match what {
        What::Issue(_) => 1,
        What::Advance(_) => 0,
        What::Ask { part: _, ask: _ } => 0,
    }
}

/// The cycles that an event advances.
fn cycles_at(what: What) -> u64
    ensures { result ≡ cycles_of_one (event_of what) }
{
    match what {
        What::Issue(_) => 0,
        What::Advance(cycles) => u64::from(cycles),
        What::Ask { part: _, ask: _ } => 0,
    }
}

/// How many issues there are.
fn count_issues(events: &[Event]) -> u64
    ensures { result ≡ issues_of (events_in events.now) }
{
    let mut issues = 0;
    for event in events {
        issues += issues_at(event.what);
    }
    issues
}

/// How many cycles are advanced.
fn count_cycles(events: &[Event]) -> u64
    requires { cycles_of (events_in events.now) ≤ advance_limit }
    ensures { result ≡ cycles_of (events_in events.now) }
{
    let mut cycles = 0;
    for event in events {
        cycles += cycles_at(event.what);
    }
    cycles
}

/// Adds the line that ends what is reported of a trace.
fn add_end(
    text: &mut Vec<u8>,
    classes: &[Name],
    events: &[Event],
    refused: Option<usize>,
) -> Result<(), NoMemory>
    requires { cycles_of (events_in events.now) ≤ advance_limit }
    ensures { OnOk result (text.new.items ≡ text.old.items ++ end_line classes.now events.now refused) }
{
    match refused {
        None => add_accepted(text, count_issues(events), count_cycles(events)),
        Some(place) => match events.get(place) {
            None => Ok(()),
            Some(event) => add_refused(text, event.line, class_name(classes, event.what)),
        },
    }
}

/// What `replay` answers of events, where these are the names of the classes, and those of the query units automaton by automaton: the
/// line of each ask before the first event that is refused, or of all, and then the line that tells how the trace ends. `NoMemory`
/// where there was none.
pub fn answer_replay(
    alloc: Global,
    classes: &[Name],
    units: &[Vec<Name>],
    events: &[Event],
    walked: &Walked,
) -> Result<Vec<u8>, NoMemory>
    requires { cycles_of (events_in events.now) ≤ advance_limit }
    ensures text { IfOk result (λ text. text.items ≡ replay_text classes.now (names_at units.now) events.now walked.now.refused walked.now.asked.items) }
    ensures replays { IfOk result (λ text. (d : Description) (known : Known) (plan : Plan) → IsTraceOf d classes.now (names_at units.now) (events_in events.now) → AreEntriesOf plan walked.now.frontier → ChoosesAll (pipeline_with d known) (events_in events.now) walked.now.frontier walked.now.refused → AreAsked (pipeline_with d known) (queries_of d) [] (lines_in (taken walked.now.refused events.now)) (events_in (taken walked.now.refused events.now)) walked.now.asked.items → Replays (pipeline_with d known) (held_in d known) (trace_names d) (lines_in events.now) (events_in events.now) (status_of walked.now.refused) text.items) }
{
    let mut text = Vec::new(alloc);
    add_asks(&mut text, units, &walked.asked)?;
    add_end(&mut text, classes, events, walked.refused)?;
    Ok(text)
}

/// The status that `replay` answers: 0 if all events are accepted, 1 if one is refused.
pub fn status(refused: Option<usize>) -> u8
    ensures { result ≡ status_of refused }
{
    match refused {
        None => 0,
        Some(_) => 1,
    }
}
