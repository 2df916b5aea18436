//! Events of the symbols that two machines have in common.

ghost use Rattle.std.specs.Prelude.{◌≡◌, ◌≤◌, ◌++◌, ◌∷◌, [], if◌then◌else◌, length, map, filter, OnOk, IfOk};
ghost use Rattle.hz_base_model.specs.Limits.{class_limit};
ghost use Rattle.hz_base_model.specs.Lines as model;
ghost use Rattle.hz_pipeline_model.specs.Accepting.Events.{advance};
ghost use Rattle.hz_pipeline_model.specs.Tables.Machines.{names_of};
ghost use Rattle.hz_tables.specs.Machines.{machine_of};
ghost use Rattle.hz_tables.specs.Parts.{part_of};
ghost use Rattle.hz_same_model.specs.Common as common;
ghost use Rattle.hz_product.specs.Symbols.{event_of};

use hz_regexp::Name;
use hz_tables::{Machine, NoMemory, Part};
use std::alloc::Global;

/// The event of a symbol in a machine.
#[derive(Clone, Copy)]
pub(crate) enum What {
    /// The issue of a class.
    Issue(u32),
    /// The advance of one cycle.
    Advance,
    /// The ask of a query unit, by its part and its number there.
    Ask(u32, u32),
}

// The place of a name among names.
fn place_of(names: &[Name], name: &Name) -> Option<u32>
    requires { length names.now ≤ class_limit }
    ensures { result ≡ model.place_of name.now names.now }
{
    for (place, other) in names.iter().enumerate() {
        if name == other {
            return Some(place as u32);
        }
    }
    None
}

// The class of a name.
fn class_of(machine: &Machine, name: &Name) -> Option<u32>
    ensures { result ≡ model.place_of name.now (machine_of machine.now).classes }
{
    place_of(&machine.classes, name)
}

/// Whether a machine has a class of a name.
pub fn has_class(machine: &Machine, name: &Name) -> bool
    ensures { result ≡ common.has_class (machine_of machine.now) name.now }
{
    class_of(machine, name).is_some()
}

/// Whether a machine has a query unit of a name.
pub fn has_ask(machine: &Machine, name: &Name) -> bool
    ensures { result ≡ common.has_ask (machine_of machine.now) name.now }
{
    machine.find_ask(name).is_some()
}

// The issue of the class of a name.
fn issue_of(machine: &Machine, name: &Name) -> What
    ensures { event_of result ≡ common.issue_of (machine_of machine.now) name.now }
{
    match class_of(machine, name) {
        Some(class) => What::Issue(class),
        None => What::Issue(machine.classes.len() as u32),
    }
}

// The ask of the query unit of a name.
fn ask_of(machine: &Machine, name: &Name) -> What
    ensures { event_of result ≡ common.ask_of (machine_of machine.now) name.now }
{
    match machine.find_ask(name) {
        Some((part, query)) => What::Ask(part, query),
        None => What::Ask(machine.parts.len() as u32, 0),
    }
}

// Adds an event.
#[tactic(auto, using(crate::proofs::EventLists::pushed_event))]
fn push_event(events: &mut Vec<What>, what: What) -> Result<(), NoMemory>
    ensures { OnOk result (map event_of events.new.items ≡ map event_of events.old.items ++ event_of what ∷ []) }
{
    events.push(what)?;
    Ok(())
}

// Adds the issue of a class, if the second machine has it too.
fn add_issue(
    machine: &Machine,
    second: &Machine,
    name: &Name,
    events: &mut Vec<What>,
) -> Result<(), NoMemory>
    ensures { OnOk result (map event_of events.new.items ≡ map event_of events.old.items ++ (if common.has_class (machine_of second.now) name.now then common.issue_of (machine_of machine.now) name.now ∷ [] else [])) }
{
    if !has_class(second, name) {
        return Ok(());
    }
    push_event(events, issue_of(machine, name))
}

// Adds the issues of these classes that the second machine has too.
fn add_issues(
    machine: &Machine,
    classes: &[Name],
    second: &Machine,
    events: &mut Vec<What>,
) -> Result<(), NoMemory>
    ensures { OnOk result (map event_of events.new.items ≡ map event_of events.old.items ++ map (common.issue_of (machine_of machine.now)) (filter (common.has_class (machine_of second.now)) classes.now)) }
{
    for name in classes {
        add_issue(machine, second, name, events)?;
    }
    Ok(())
}

// Adds the ask of a query unit, if the second machine has it too.
fn add_ask(
    machine: &Machine,
    second: &Machine,
    name: &Name,
    events: &mut Vec<What>,
) -> Result<(), NoMemory>
    ensures { OnOk result (map event_of events.new.items ≡ map event_of events.old.items ++ (if common.has_ask (machine_of second.now) name.now then common.ask_of (machine_of machine.now) name.now ∷ [] else [])) }
{
    if !has_ask(second, name) {
        return Ok(());
    }
    push_event(events, ask_of(machine, name))
}

// Adds the asks of these query units that the second machine has too.
fn add_asks(
    machine: &Machine,
    asks: &[Name],
    second: &Machine,
    events: &mut Vec<What>,
) -> Result<(), NoMemory>
    ensures { OnOk result (map event_of events.new.items ≡ map event_of events.old.items ++ map (common.ask_of (machine_of machine.now)) (filter (common.has_ask (machine_of second.now)) asks.now)) }
{
    for name in asks {
        add_ask(machine, second, name, events)?;
    }
    Ok(())
}

/// Adds the asks of the query units of these parts that the second machine has too.
pub(crate) fn add_all_asks(
    machine: &Machine,
    parts: &[Part],
    second: &Machine,
    events: &mut Vec<What>,
) -> Result<(), NoMemory>
    ensures { OnOk result (map event_of events.new.items ≡ map event_of events.old.items ++ map (common.ask_of (machine_of machine.now)) (filter (common.has_ask (machine_of second.now)) (names_of (map part_of parts.now)))) }
{
    for part in parts {
        add_asks(machine, &part.asks, second, events)?;
    }
    Ok(())
}

/// The events of the symbols that lead on, in one of two machines: the issues of the classes that both have, and the advance.
pub(crate) fn leading_events(
    alloc: Global,
    machine: &Machine,
    first: &Machine,
    second: &Machine,
) -> Result<Vec<What>, NoMemory>
    ensures { IfOk result (λ events. map event_of events.items ≡ map (common.issue_of (machine_of machine.now)) (filter (common.has_class (machine_of second.now)) first.now.classes.items) ++ advance 1 ∷ []) }
{
    let mut events = Vec::new(alloc);
    add_issues(machine, &first.classes, second, &mut events)?;
    push_event(&mut events, What::Advance)?;
    Ok(events)
}
