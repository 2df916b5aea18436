//! The line below a set statement that is broken: who holds its units, or which patterns it wants.

ghost use Rattle.std.specs.Prelude.{◌≡◌, ◌∷◌, ◌++◌, List, OnOk, IfOk, map, slice_get, take};
ghost use Rattle.hz_explain.specs.Detailing.{texts_of, standing_reported, wanted_reported, wants_reported, part_reported, parts_reported, broken_with_reported, detail_reported};
ghost use Rattle.hz_explain.specs.Telling.{wording_in, patterns_or_none, pattern_in};

use crate::drawing::{LINE, add};
use crate::lists::add_listed;
use crate::telling::{add_since, add_units, holder, pattern, unit_name};
use hz_check::Parts;
use hz_grid::NoMemory;
use hz_mdread::Description;
use hz_reasons::{AutomatonUnit, Break, Holder, Plan, Reason, SetStatement};
use std::alloc::Global;

/// Adds who holds a unit in a cycle, or that it is asked for.
fn add_standing(
    text: &mut Vec<u8>,
    desc: &Description,
    parts: &Parts,
    cycle: u16,
    holder: Option<Holder>,
) -> Result<(), NoMemory>
    ensures { OnOk result (text.new.items ≡ text.old.items ++ standing_reported (wording_in desc.now parts.now) cycle holder) }
{
    match holder {
        Some(holder) => add_since(text, desc, parts, cycle, holder),
        None => add(text, b" is asked for"),
    }
}

/// Adds a unit of a statement that is broken in a cycle, and who holds it.
fn add_part(
    text: &mut Vec<u8>,
    desc: &Description,
    parts: &Parts,
    plan: &Plan,
    issues: &[Holder],
    cycle: u16,
    unit: AutomatonUnit,
) -> Result<(), NoMemory>
    ensures { OnOk result (text.new.items ≡ text.old.items ++ part_reported (wording_in desc.now parts.now) plan.now issues.now cycle unit) }
{
    add(text, unit_name(parts, unit))?;
    let holder = holder(plan, issues, unit, cycle);
    add_standing(text, desc, parts, cycle, holder)
}

/// The text of a unit of a statement that is broken in a cycle.
fn part_text(
    alloc: Global,
    desc: &Description,
    parts: &Parts,
    plan: &Plan,
    issues: &[Holder],
    cycle: u16,
    unit: AutomatonUnit,
) -> Result<Vec<u8>, NoMemory>
    ensures { IfOk result (λ text. text.items ≡ part_reported (wording_in desc.now parts.now) plan.now issues.now cycle unit) }
{
    let mut text = Vec::new(alloc);
    add_part(&mut text, desc, parts, plan, issues, cycle, unit)?;
    Ok(text)
}

/// Adds the texts of units of a statement that is broken in a cycle.
fn add_part_texts(
    alloc: Global,
    texts: &mut Vec<Vec<u8>>,
    desc: &Description,
    parts: &Parts,
    plan: &Plan,
    issues: &[Holder],
    cycle: u16,
    units: &[AutomatonUnit],
) -> Result<(), NoMemory>
    ensures { OnOk result (texts_of texts.new.items ≡ texts_of texts.old.items ++ map (part_reported (wording_in desc.now parts.now) plan.now issues.now cycle) units.now) }
{
    for unit in units {
        let text = part_text(alloc, desc, parts, plan, issues, cycle, *unit)?;
        texts.push(text)?;
    }
    Ok(())
}

/// The texts of a unit and of the units of the pattern by which a statement is broken in a cycle: so many as a line may show.
fn part_texts(
    alloc: Global,
    desc: &Description,
    parts: &Parts,
    plan: &Plan,
    issues: &[Holder],
    broken: Break,
    pattern: &[AutomatonUnit],
) -> Result<Vec<Vec<u8>>, NoMemory>
    ensures { IfOk result (λ texts. texts_of texts.items ≡ map (part_reported (wording_in desc.now parts.now) plan.now issues.now broken.cycle) (broken.unit ∷ take 80 pattern.now)) }
{
    let mut texts = Vec::new(alloc);
    let shown = &pattern[..LINE.min(pattern.len())];
    let cycle = broken.cycle;
    let unit = [broken.unit];
    add_part_texts(alloc, &mut texts, desc, parts, plan, issues, cycle, &unit)?;
    add_part_texts(alloc, &mut texts, desc, parts, plan, issues, cycle, shown)?;
    Ok(texts)
}

/// Adds the line of a unit and of a pattern by which a statement is broken: who holds each unit, and which of them are asked for.
fn add_parts(
    alloc: Global,
    text: &mut Vec<u8>,
    desc: &Description,
    parts: &Parts,
    plan: &Plan,
    issues: &[Holder],
    broken: Break,
    pattern: &[AutomatonUnit],
) -> Result<(), NoMemory>
    ensures { OnOk result (text.new.items ≡ text.old.items ++ parts_reported (wording_in desc.now parts.now) plan.now issues.now broken.cycle (broken.unit ∷ pattern.now)) }
{
    let texts = part_texts(alloc, desc, parts, plan, issues, broken, pattern)?;
    add(text, b" ")?;
    add_listed(text, LINE - 1, b" ", b"; ", &texts)?;
    add(text, b"\n")?;
    Ok(())
}

/// Adds a pattern that a statement wants.
fn add_wanted(
    text: &mut Vec<u8>,
    desc: &Description,
    parts: &Parts,
    pattern: &[AutomatonUnit],
) -> Result<(), NoMemory>
    ensures { OnOk result (text.new.items ≡ text.old.items ++ wanted_reported (wording_in desc.now parts.now) pattern.now) }
{
    if pattern.is_empty() {
        return Ok(());
    }
    add(text, unit_name(parts, pattern[0]))?;
    add_units(text, desc, parts, &pattern[1..])
}

/// The text of a pattern that a statement wants.
fn wanted_text(
    alloc: Global,
    desc: &Description,
    parts: &Parts,
    pattern: &[AutomatonUnit],
) -> Result<Vec<u8>, NoMemory>
    ensures { IfOk result (λ text. text.items ≡ wanted_reported (wording_in desc.now parts.now) pattern.now) }
{
    let mut text = Vec::new(alloc);
    add_wanted(&mut text, desc, parts, pattern)?;
    Ok(text)
}

/// The texts of patterns that a statement wants.
fn wanted_texts(
    alloc: Global,
    desc: &Description,
    parts: &Parts,
    patterns: &[Vec<AutomatonUnit>],
) -> Result<Vec<Vec<u8>>, NoMemory>
    ensures { IfOk result (λ texts. texts_of texts.items ≡ map (λ pattern. wanted_reported (wording_in desc.now parts.now) pattern.items) patterns.now) }
{
    let mut texts = Vec::new(alloc);
    for pattern in patterns {
        texts.push(wanted_text(alloc, desc, parts, pattern)?)?;
    }
    Ok(texts)
}

/// Adds the line of the patterns that a statement wants.
fn add_wants(
    alloc: Global,
    text: &mut Vec<u8>,
    desc: &Description,
    parts: &Parts,
    patterns: &[Vec<AutomatonUnit>],
) -> Result<(), NoMemory>
    ensures { OnOk result (text.new.items ≡ text.old.items ++ wants_reported (wording_in desc.now parts.now) patterns.now) }
{
    let shown = &patterns[..LINE.min(patterns.len())];
    let texts = wanted_texts(alloc, desc, parts, shown)?;
    add(text, b"  wants")?;
    add_listed(text, LINE - 7, b" ", b"; ", &texts)?;
    add(text, b"\n")?;
    Ok(())
}

/// The patterns of a set statement; none where there is no such statement. It takes no memory.
fn patterns(sets: &[SetStatement], statement: usize) -> &[Vec<AutomatonUnit>]
    ensures { result.now ≡ patterns_or_none (slice_get sets.now statement) }
{
    match sets.get(statement) {
        Some(set) => &set.patterns,
        None => &[],
    }
}

/// Adds the line of a statement that is broken with a pattern, which is an empty one where a pattern is missed.
fn add_broken(
    alloc: Global,
    text: &mut Vec<u8>,
    desc: &Description,
    parts: &Parts,
    plan: &Plan,
    issues: &[Holder],
    broken: Break,
    pattern: &[AutomatonUnit],
) -> Result<(), NoMemory>
    ensures { OnOk result (text.new.items ≡ text.old.items ++ broken_with_reported (wording_in desc.now parts.now) plan.now issues.now broken pattern.now) }
{
    if pattern.is_empty() {
        let wanted = patterns(&plan.sets, broken.statement);
        return add_wants(alloc, text, desc, parts, wanted);
    }
    add_parts(alloc, text, desc, parts, plan, issues, broken, pattern)
}

/// Adds the line below what forbids an alternative: of a statement that misses a pattern, which it wants; of another that is broken, who
/// holds each of the units, and which of them are asked for. None of a pair that stands reserved.
pub(crate) fn add_detail(
    alloc: Global,
    text: &mut Vec<u8>,
    desc: &Description,
    parts: &Parts,
    plan: &Plan,
    issues: &[Holder],
    reason: Reason,
) -> Result<(), NoMemory>
    ensures { OnOk result (text.new.items ≡ text.old.items ++ detail_reported (wording_in desc.now parts.now) plan.now issues.now reason) }
{
    match reason {
        Reason::Taken(_) => Ok(()),
        Reason::Broken(broken) => {
            let pattern = pattern(&plan.sets, broken);
            add_broken(alloc, text, desc, parts, plan, issues, broken, pattern)
        }
    }
}
