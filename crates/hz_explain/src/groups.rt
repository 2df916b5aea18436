//! The lines of alternatives by what forbids them, those that are forbidden for the same reason together.

ghost use Rattle.std.specs.Prelude.{◌≡◌, ◌<◌, ◌==◌, ◌++◌, ◌∷◌, [], Some, OnOk, IfOk, codes, length, slice_index, if◌then◌else◌};
ghost use Rattle.std.specs.List.{concat};
ghost use Rattle.hz_why_model.specs.Groups as model;
ghost use Rattle.hz_why_model.specs.Groups.{first_place, groups_from};
ghost use Rattle.hz_why_model.specs.Lists.{narrow};
ghost use Rattle.hz_why_model.specs.Reasons.{same_pattern};
ghost use Rattle.hz_explain.specs.Detailing.{detail_reported};
ghost use Rattle.hz_explain.specs.Grouping.{same_unit, same_place_in, same_break, same_reason_in, alike_in, line_reported, group_reported, alternatives_reported};
ghost use Rattle.hz_explain.specs.Telling.{wording_in, reason_reported};

use crate::details::add_detail;
use crate::drawing::add;
use crate::lists::{add_narrow, alternatives};
use crate::telling::{add_reason, pattern};
use hz_check::Parts;
use hz_grid::NoMemory;
use hz_mdread::Description;
use hz_reasons::{AutomatonUnit, Break, Holder, Place, Plan, Reason, SetStatement};
use std::alloc::Global;

/// Whether two units are the same.
fn is_same_unit(a: AutomatonUnit, b: AutomatonUnit) -> bool
    ensures { result ≡ same_unit a b }
{
    a.automaton == b.automaton && a.unit == b.unit
}

/// Whether two pairs are the same.
fn is_same_place(a: Place, b: Place) -> bool
    ensures { result ≡ same_place_in a b }
{
    a.automaton == b.automaton && a.unit == b.unit && a.cycle == b.cycle
}

/// Whether two patterns are the same. It takes no memory.
fn is_same_pattern(a: &[AutomatonUnit], b: &[AutomatonUnit]) -> bool
    ensures { result ≡ same_pattern same_unit a.now b.now }
{
    if a.len() != b.len() {
        return false;
    }
    for place in 0..a.len() {
        if !is_same_unit(a[place], b[place]) {
            return false;
        }
    }
    true
}

/// Whether two statements are broken in the same way. It takes no memory.
fn is_same_break(sets: &[SetStatement], a: Break, b: Break) -> bool
    ensures { result ≡ same_break sets.now a b }
{
    if a.statement != b.statement || a.cycle != b.cycle {
        return false;
    }
    is_same_unit(a.unit, b.unit) && is_same_pattern(pattern(sets, a), pattern(sets, b))
}

/// Whether two reasons are the same. It takes no memory.
fn is_same_reason(sets: &[SetStatement], a: Reason, b: Reason) -> bool
    ensures { result ≡ same_reason_in sets.now a b }
{
    match a {
        Reason::Taken(a) => match b {
            Reason::Taken(b) => is_same_place(a, b),
            Reason::Broken(_) => false,
        },
        Reason::Broken(a) => match b {
            Reason::Taken(_) => false,
            Reason::Broken(b) => is_same_break(sets, a, b),
        },
    }
}

/// Whether two alternatives are forbidden for the same reason; for none both, if they are not forbidden. It takes no memory.
fn are_alike(sets: &[SetStatement], a: Option<Reason>, b: Option<Reason>) -> bool
    ensures { result ≡ alike_in sets.now a b }
{
    match a {
        Some(a) => match b {
            Some(b) => is_same_reason(sets, a, b),
            None => false,
        },
        None => match b {
            Some(_) => false,
            None => true,
        },
    }
}

/// How many alternatives come before the first that is forbidden for this reason. It takes no memory.
fn leader(sets: &[SetStatement], reasons: &[Option<Reason>], reason: Option<Reason>) -> usize
    ensures { result ≡ first_place (alike_in sets.now reason) reasons.now }
{
    for place in 0..reasons.len() {
        if are_alike(sets, reason, reasons[place]) {
            return place;
        }
    }
    reasons.len()
}

/// For each alternative the place of the first that is forbidden for the same reason.
fn leaders(
    alloc: Global,
    sets: &[SetStatement],
    reasons: &[Option<Reason>],
) -> Result<Vec<usize>, NoMemory>
    ensures { IfOk result (λ leaders. leaders.items ≡ model.leaders (alike_in sets.now) reasons.now) }
{
    let mut leaders = Vec::with_capacity(alloc, reasons.len())?;
    for reason in reasons {
        leaders.push(leader(sets, reasons, *reason))?;
    }
    Ok(leaders)
}

/// Adds a number, if its leader is this place.
fn add_if_led(
    numbers: &mut Vec<usize>,
    place: usize,
    leader: usize,
    number: usize,
) -> Result<(), NoMemory>
    ensures { OnOk result (numbers.new.items ≡ numbers.old.items ++ (if leader == place then number ∷ [] else [])) }
{
    if leader == place {
        numbers.push(number)?;
    }
    Ok(())
}

/// The numbers, which begin with 1, of those that this place leads.
pub(crate) fn led_by(alloc: Global, leaders: &[usize], place: usize) -> Result<Vec<usize>, NoMemory>
    ensures { IfOk result (λ numbers. numbers.items ≡ model.led_by place 1 leaders.now) }
{
    let mut numbers = Vec::new(alloc);
    for other in 0..leaders.len() {
        add_if_led(&mut numbers, place, leaders[other], other + 1)?;
    }
    Ok(numbers)
}

/// Adds what forbids the alternatives of these numbers to a line.
fn add_reason_of(
    line: &mut Vec<u8>,
    desc: &Description,
    parts: &Parts,
    plan: &Plan,
    issues: &[Holder],
    reason: Reason,
) -> Result<(), NoMemory>
    ensures { OnOk result (line.new.items ≡ line.old.items ++ (codes ": " ++ reason_reported (wording_in desc.now parts.now) plan.now issues.now reason)) }
{
    add(line, b": ")?;
    add_reason(line, desc, parts, plan, issues, reason)?;
    Ok(())
}

/// The line of the alternatives of these numbers, which are forbidden for this reason.
fn reason_line(
    alloc: Global,
    desc: &Description,
    parts: &Parts,
    plan: &Plan,
    issues: &[Holder],
    numbers: &[usize],
    reason: Reason,
) -> Result<Vec<u8>, NoMemory>
    ensures { IfOk result (λ line. line.items ≡ line_reported (wording_in desc.now parts.now) plan.now issues.now numbers.now reason) }
{
    let mut line = alternatives(alloc, numbers)?;
    add_reason_of(&mut line, desc, parts, plan, issues, reason)?;
    Ok(line)
}

/// Adds a line, and below it that of the details of a reason.
fn add_lines(
    alloc: Global,
    text: &mut Vec<u8>,
    desc: &Description,
    parts: &Parts,
    plan: &Plan,
    issues: &[Holder],
    line: &[u8],
    reason: Reason,
) -> Result<(), NoMemory>
    ensures { OnOk result (text.new.items ≡ text.old.items ++ concat (narrow line.now ∷ codes "\n" ∷ detail_reported (wording_in desc.now parts.now) plan.now issues.now reason ∷ [])) }
{
    add_narrow(text, line)?;
    add(text, b"\n")?;
    add_detail(alloc, text, desc, parts, plan, issues, reason)?;
    Ok(())
}

/// Adds the lines of the alternatives of these numbers, which are forbidden for this reason.
fn add_forbidden(
    alloc: Global,
    text: &mut Vec<u8>,
    desc: &Description,
    parts: &Parts,
    plan: &Plan,
    issues: &[Holder],
    numbers: &[usize],
    reason: Reason,
) -> Result<(), NoMemory>
    ensures { OnOk result (text.new.items ≡ text.old.items ++ group_reported (wording_in desc.now parts.now) plan.now issues.now numbers.now (Some reason)) }
{
    let line = reason_line(alloc, desc, parts, plan, issues, numbers, reason)?;
    add_lines(alloc, text, desc, parts, plan, issues, &line, reason)?;
    Ok(())
}

/// Adds the lines of the alternatives that this place leads.
fn add_led(
    alloc: Global,
    text: &mut Vec<u8>,
    desc: &Description,
    parts: &Parts,
    plan: &Plan,
    issues: &[Holder],
    leaders: &[usize],
    place: usize,
    reason: Reason,
) -> Result<(), NoMemory>
    ensures { OnOk result (text.new.items ≡ text.old.items ++ group_reported (wording_in desc.now parts.now) plan.now issues.now (model.led_by place 1 leaders.now) (Some reason)) }
{
    let numbers = led_by(alloc, leaders, place)?;
    add_forbidden(alloc, text, desc, parts, plan, issues, &numbers, reason)?;
    Ok(())
}

/// Adds the lines of the alternatives that this place leads; none if nothing forbids them.
fn add_group(
    alloc: Global,
    text: &mut Vec<u8>,
    desc: &Description,
    parts: &Parts,
    plan: &Plan,
    issues: &[Holder],
    leaders: &[usize],
    place: usize,
    reason: Option<Reason>,
) -> Result<(), NoMemory>
    ensures { OnOk result (text.new.items ≡ text.old.items ++ group_reported (wording_in desc.now parts.now) plan.now issues.now (model.led_by place 1 leaders.now) reason) }
{
    match reason {
        Some(reason) => add_led(
            alloc, text, desc, parts, plan, issues, leaders, place, reason,
        ),
        None => Ok(()),
    }
}

/// Adds the lines of the alternatives that this place leads; none if another place leads it.
fn add_if_leader(
    alloc: Global,
    text: &mut Vec<u8>,
    desc: &Description,
    parts: &Parts,
    plan: &Plan,
    issues: &[Holder],
    leaders: &[usize],
    place: usize,
    reason: Option<Reason>,
) -> Result<(), NoMemory>
    requires { place < length leaders.now }
    ensures { OnOk result (text.new.items ≡ text.old.items ++ (if slice_index leaders.now place == place then group_reported (wording_in desc.now parts.now) plan.now issues.now (model.led_by place 1 leaders.now) reason else [])) }
{
    if leaders[place] == place {
        return add_group(
            alloc, text, desc, parts, plan, issues, leaders, place, reason,
        );
    }
    Ok(())
}

/// Adds the lines of alternatives by their leaders.
fn add_groups(
    alloc: Global,
    text: &mut Vec<u8>,
    desc: &Description,
    parts: &Parts,
    plan: &Plan,
    issues: &[Holder],
    leaders: &[usize],
    reasons: &[Option<Reason>],
) -> Result<(), NoMemory>
    requires { length leaders.now ≡ length reasons.now }
    ensures { OnOk result (text.new.items ≡ text.old.items ++ groups_from (group_reported (wording_in desc.now parts.now) plan.now issues.now) leaders.now 0 reasons.now) }
{
    for place in 0..reasons.len() {
        let reason = reasons[place];
        add_if_leader(
            alloc, text, desc, parts, plan, issues, leaders, place, reason,
        )?;
    }
    Ok(())
}

/// Adds the lines of alternatives by what forbids them, those that are forbidden for the same reason together, in the order of the
/// first of each.
pub(crate) fn add_alternatives(
    alloc: Global,
    text: &mut Vec<u8>,
    desc: &Description,
    parts: &Parts,
    plan: &Plan,
    issues: &[Holder],
    reasons: &[Option<Reason>],
) -> Result<(), NoMemory>
    ensures { OnOk result (text.new.items ≡ text.old.items ++ alternatives_reported (wording_in desc.now parts.now) plan.now issues.now reasons.now) }
{
    let leaders = leaders(alloc, &plan.sets, reasons)?;
    add_groups(alloc, text, desc, parts, plan, issues, &leaders, reasons)?;
    Ok(())
}
