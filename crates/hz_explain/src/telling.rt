//! The lines that tell why an issue is refused.

ghost use Rattle.std.specs.Prelude.{◌≡◌, ◌<◌, ◌++◌, Some, false, OnOk, IfOk, decimal, length, vec_len};
ghost use Rattle.hz_description_model.specs.Reservations.Automata.{UnitPlace};
ghost use Rattle.hz_mdread.specs.Shape.{set_kind};
ghost use Rattle.hz_pipeline_model.specs.Accepting.Replay.{Pipeline, State};
ghost use Rattle.hz_why_model.specs.Answers.{set_word};
ghost use Rattle.hz_why_model.specs.Explanations.{held_word, wait_line};
ghost use Rattle.hz_reasons.specs.Plans.{unit_of, AreFuture, IsPlanOf};
ghost use Rattle.hz_explain.specs.Telling as reported;
ghost use Rattle.hz_explain.specs.Telling.{AreReasons, wording_in, holder_in, pattern_in, pattern_numbered, pair_reported, holder_reported, units_reported, pattern_reported, broken_reported, reason_reported, choice_reported, later_reported};
ghost use Rattle.hz_reasons.specs.declared.reasons.Reason.TheVariants.{Taken};

use crate::drawing::{add, add_number};
use hz_check::Parts;
use hz_grid::NoMemory;
use hz_mdread::{Description, SetForm};
use hz_reasons::{
    AutomatonUnit, Break, Calendar, Holder, Place, Plan, Reason, SetStatement, first_holder,
};
use itoa::Buffer;
use std::alloc::Global;

/// The name of a unit; an empty one where there is no such unit. It takes no memory.
pub(crate) fn unit_name(parts: &Parts, unit: AutomatonUnit) -> &[u8]
    ensures { result.now ≡ reported.unit_name parts.now (unit_of unit) }
{
    match parts.automata.get(usize::from(unit.automaton)) {
        Some(automaton) => match automaton.units.get(usize::from(unit.unit)) {
            Some(name) => name.bytes(),
            None => &[],
        },
        None => &[],
    }
}

/// The name of a class; an empty one where there is no such class. It takes no memory.
pub(crate) fn class_name(desc: &Description, class: u32) -> &[u8]
    ensures { result.now ≡ reported.class_name desc.now class }
{
    match desc.classes.get(class as usize) {
        Some(item) => item.name.bytes(),
        None => &[],
    }
}

/// The line of a set statement; 0 where there is no such statement. It takes no memory.
fn statement_line(desc: &Description, statement: usize) -> u32
    ensures { result ≡ reported.statement_line desc.now statement }
{
    match desc.sets.get(statement) {
        Some(item) => item.line,
        None => 0,
    }
}

/// Adds the word of a form.
fn add_form(text: &mut Vec<u8>, form: SetForm) -> Result<(), NoMemory>
    ensures { OnOk result (text.new.items ≡ text.old.items ++ set_word (set_kind form)) }
{
    match form {
        SetForm::Exclusion => add(text, b"exclusion_set"),
        SetForm::Presence => add(text, b"presence_set"),
        SetForm::FinalPresence => add(text, b"final_presence_set"),
        SetForm::Absence => add(text, b"absence_set"),
        SetForm::FinalAbsence => add(text, b"final_absence_set"),
    }
}

/// Adds the word of a set statement; nothing where there is no such statement.
fn add_statement(text: &mut Vec<u8>, desc: &Description, statement: usize) -> Result<(), NoMemory>
    ensures { OnOk result (text.new.items ≡ text.old.items ++ reported.statement_word desc.now statement) }
{
    match desc.sets.get(statement) {
        Some(item) => add_form(text, item.kind),
        None => Ok(()),
    }
}

/// Adds a count.
pub(crate) fn add_count(text: &mut Vec<u8>, count: usize) -> Result<(), NoMemory>
    ensures { OnOk result (text.new.items ≡ text.old.items ++ decimal count) }
{
    add(text, Buffer::new().format(count).as_bytes())
}

/// Which issue holds the unit in a cycle, which is counted from the present one; None if it is free. It takes no memory.
pub(crate) fn holder(
    plan: &Plan,
    issues: &[Holder],
    unit: AutomatonUnit,
    cycle: u16,
) -> Option<Holder>
    ensures { result ≡ holder_in plan.now issues.now (unit_of unit) cycle }
{
    if usize::from(unit.automaton) < plan.rules.len() {
        return first_holder(plan, issues, unit, cycle);
    }
    None
}

/// The pattern of this number; an empty one where there is none. It takes no memory.
pub(crate) fn numbered(patterns: &[Vec<AutomatonUnit>], number: Option<usize>) -> &[AutomatonUnit]
    ensures { result.now ≡ pattern_numbered patterns.now number }
{
    match number {
        Some(number) => match patterns.get(number) {
            Some(pattern) => pattern,
            None => &[],
        },
        None => &[],
    }
}

/// The pattern by which a statement is broken; an empty one where a pattern is missed. It takes no memory.
pub(crate) fn pattern(sets: &[SetStatement], broken: Break) -> &[AutomatonUnit]
    ensures { result.now ≡ pattern_in sets.now broken }
{
    match sets.get(broken.statement) {
        Some(set) => numbered(&set.patterns, broken.pattern),
        None => numbered(&[], broken.pattern),
    }
}

/// Adds a unit in a cycle.
fn add_pair(
    text: &mut Vec<u8>,
    desc: &Description,
    parts: &Parts,
    unit: AutomatonUnit,
    cycle: u16,
) -> Result<(), NoMemory>
    ensures { OnOk result (text.new.items ≡ text.old.items ++ pair_reported (wording_in desc.now parts.now) unit cycle) }
{
    add(text, unit_name(parts, unit))?;
    add(text, b" in cycle ")?;
    add_number(text, u32::from(cycle))
}

/// Adds the name of a class.
pub(crate) fn add_class(text: &mut Vec<u8>, desc: &Description, class: u32) -> Result<(), NoMemory>
    ensures { OnOk result (text.new.items ≡ text.old.items ++ reported.class_name desc.now class) }
{
    add(text, class_name(desc, class))
}

/// Adds whether something is held in the present cycle, or planned for a later one.
pub(crate) fn add_held(text: &mut Vec<u8>, present: bool) -> Result<(), NoMemory>
    ensures { OnOk result (text.new.items ≡ text.old.items ++ held_word present) }
{
    if present {
        return add(text, b" is held from line ");
    }
    add(text, b" is planned by line ")
}

/// Adds which issue holds something in a cycle.
pub(crate) fn add_since(
    text: &mut Vec<u8>,
    desc: &Description,
    parts: &Parts,
    cycle: u16,
    holder: Holder,
) -> Result<(), NoMemory>
    ensures { OnOk result (text.new.items ≡ text.old.items ++ holder_reported (wording_in desc.now parts.now) cycle (Some holder)) }
{
    add_held(text, cycle == 0)?;
    add_number(text, holder.line)?;
    add(text, b", ")?;
    add_class(text, desc, holder.class)?;
    Ok(())
}

/// Adds which issue holds something in a cycle, if one does.
pub(crate) fn add_holder(
    text: &mut Vec<u8>,
    desc: &Description,
    parts: &Parts,
    cycle: u16,
    holder: Option<Holder>,
) -> Result<(), NoMemory>
    ensures { OnOk result (text.new.items ≡ text.old.items ++ holder_reported (wording_in desc.now parts.now) cycle holder) }
{
    match holder {
        Some(holder) => add_since(text, desc, parts, cycle, holder),
        None => Ok(()),
    }
}

/// Adds units, each after a blank.
pub(crate) fn add_units(
    text: &mut Vec<u8>,
    desc: &Description,
    parts: &Parts,
    units: &[AutomatonUnit],
) -> Result<(), NoMemory>
    ensures { OnOk result (text.new.items ≡ text.old.items ++ units_reported (wording_in desc.now parts.now) units.now) }
{
    for unit in units {
        add(text, b" ")?;
        add(text, unit_name(parts, *unit))?;
    }
    Ok(())
}

/// Adds the pattern by which a statement is broken.
fn add_pattern(
    text: &mut Vec<u8>,
    desc: &Description,
    parts: &Parts,
    pattern: &[AutomatonUnit],
) -> Result<(), NoMemory>
    ensures { OnOk result (text.new.items ≡ text.old.items ++ pattern_reported (wording_in desc.now parts.now) pattern.now) }
{
    if pattern.is_empty() {
        return add(text, b" without a pattern");
    }
    add(text, b" with")?;
    add_units(text, desc, parts, pattern)
}

/// Adds a pair that stands reserved, and who holds it.
fn add_taken(
    text: &mut Vec<u8>,
    desc: &Description,
    parts: &Parts,
    plan: &Plan,
    issues: &[Holder],
    pair: Place,
) -> Result<(), NoMemory>
    ensures { OnOk result (text.new.items ≡ text.old.items ++ reason_reported (wording_in desc.now parts.now) plan.now issues.now (Taken pair)) }
{
    let unit = AutomatonUnit {
        automaton: pair.automaton,
        unit: pair.unit,
    };
    add_pair(text, desc, parts, unit, pair.cycle)?;
    let holder = holder(plan, issues, unit, pair.cycle);
    add_holder(text, desc, parts, pair.cycle, holder)
}

/// Adds a set statement that is broken.
fn add_broken(
    text: &mut Vec<u8>,
    desc: &Description,
    parts: &Parts,
    plan: &Plan,
    broken: Break,
) -> Result<(), NoMemory>
    ensures { OnOk result (text.new.items ≡ text.old.items ++ broken_reported (wording_in desc.now parts.now) plan.now broken) }
{
    add_statement(text, desc, broken.statement)?;
    add(text, b" line ")?;
    add_number(text, statement_line(desc, broken.statement))?;
    add(text, b", ")?;
    add_pair(text, desc, parts, broken.unit, broken.cycle)?;
    add_pattern(text, desc, parts, pattern(&plan.sets, broken))
}

/// Adds what forbids an alternative.
pub(crate) fn add_reason(
    text: &mut Vec<u8>,
    desc: &Description,
    parts: &Parts,
    plan: &Plan,
    issues: &[Holder],
    reason: Reason,
) -> Result<(), NoMemory>
    ensures { OnOk result (text.new.items ≡ text.old.items ++ reason_reported (wording_in desc.now parts.now) plan.now issues.now reason) }
{
    match reason {
        Reason::Taken(pair) => add_taken(text, desc, parts, plan, issues, pair),
        Reason::Broken(broken) => add_broken(text, desc, parts, plan, broken),
    }
}

/// What forbids each alternative of a class, in their order.
pub(crate) fn reasons(
    alloc: Global,
    calendar: &Calendar,
    plan: &Plan,
    class: u32,
) -> Result<Vec<Option<Reason>>, NoMemory>
    requires class { class < vec_len plan.now.classes }
    requires each { vec_len calendar.now.grids ≡ vec_len plan.now.rules }
    ensures { IfOk result (λ reasons. (m : Pipeline UnitPlace) (s : State UnitPlace) → IsPlanOf m plan.now → AreFuture calendar.now.grids.items s → AreReasons m s class reasons.items) }
{
    let count = plan.classes[class as usize].len();
    let mut reasons = Vec::with_capacity(alloc, count)?;
    for number in 0..count {
        reasons.push(calendar.reason(plan, class, number))?;
    }
    Ok(reasons)
}

/// Adds that the issues go by one of the choices, where they may take any alternative that fits.
pub(crate) fn add_choice(text: &mut Vec<u8>, any_fit: bool) -> Result<(), NoMemory>
    ensures { OnOk result (text.new.items ≡ text.old.items ++ choice_reported any_fit) }
{
    if any_fit {
        return add(text, b"by one of the choices\n");
    }
    Ok(())
}

/// Adds that a class fits so many cycles later.
fn add_many(text: &mut Vec<u8>, cycles: u32) -> Result<(), NoMemory>
    ensures { OnOk result (text.new.items ≡ text.old.items ++ later_reported cycles false) }
{
    add(text, b"fits ")?;
    add_number(text, cycles)?;
    add(text, b" cycles later\n")?;
    Ok(())
}

/// Adds after how many cycles a class fits, and it is reported whether this is one.
fn add_later(text: &mut Vec<u8>, cycles: u32, one: bool) -> Result<(), NoMemory>
    ensures { OnOk result (text.new.items ≡ text.old.items ++ later_reported cycles one) }
{
    if one {
        return add(text, b"fits 1 cycle later\n");
    }
    add_many(text, cycles)
}

/// Adds after how many cycles a class fits.
fn add_cycles_later(text: &mut Vec<u8>, cycles: u32) -> Result<(), NoMemory>
    ensures { OnOk result (text.new.items ≡ text.old.items ++ wait_line (Some cycles)) }
{
    add_later(text, cycles, cycles == 1)
}

/// Adds when a class fits; None if it fits in no cycle.
pub(crate) fn add_wait(text: &mut Vec<u8>, wait: Option<u32>) -> Result<(), NoMemory>
    ensures { OnOk result (text.new.items ≡ text.old.items ++ wait_line wait) }
{
    match wait {
        Some(cycles) => add_cycles_later(text, cycles),
        None => add(text, b"fits in no later cycle\n"),
    }
}
