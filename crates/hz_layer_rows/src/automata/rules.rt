//! Set statements, and what fits beside what stands reserved.
//!
//! A statement is its kind, units, and after a `/` patterns with a bar between them: `presence 1 / 0 3 | 4`. Statements have
//! a semicolon between them.

ghost use Rattle.std.specs.Prelude.{◌<◌, All, IsTrue};
ghost use Rattle.hz_unitsets.specs.SetRules.{IsInRange};

use crate::automata::texts::{grid_of, units_of};
use hz_grid::UNITS;
use hz_unitsets::{Rules, SetKind, SetRule};
use std::alloc::Global;

/// The kind of a word.
fn kind_of(word: &str) -> Option<SetKind> {
    match word {
        "exclusion" => Some(SetKind::Exclusion),
        "presence" => Some(SetKind::Presence),
        "final_presence" => Some(SetKind::FinalPresence),
        "absence" => Some(SetKind::Absence),
        "final_absence" => Some(SetKind::FinalAbsence),
        _ => None,
    }
}

/// The patterns of a text.
fn patterns_of(alloc: Global, text: &str) -> Option<Vec<Vec<u8>>> {
    let mut patterns = Vec::new(alloc);
    for one in text.split('|') {
        patterns.push(units_of(alloc, one)?).ok()?;
    }
    Some(patterns)
}

/// The statement of a text.
fn set_of(alloc: Global, text: &str) -> Option<SetRule> {
    let (kind, rest) = text.trim().split_once(' ')?;
    let (units, patterns) = rest.split_once('/')?;
    Some(SetRule {
        kind: kind_of(kind)?,
        units: units_of(alloc, units)?,
        patterns: patterns_of(alloc, patterns)?,
    })
}

/// The statements of a text: none of an empty one.
fn sets_of(alloc: Global, text: &str) -> Option<Vec<SetRule>> {
    let mut sets = Vec::new(alloc);
    if text.is_empty() {
        return Some(sets);
    }
    for one in text.split(';') {
        sets.push(set_of(alloc, one)?).ok()?;
    }
    Some(sets)
}

/// Whether all units are units of an automaton.
fn small(units: &[u8]) -> bool
    ensures { IsTrue result → All (λ unit. unit < UNITS) units.now }
{
    units.iter().all(|unit| usize::from(*unit) < UNITS)
}

/// Whether the statement's units are units of an automaton.
fn in_range(set: &SetRule) -> bool
    ensures { IsTrue result → IsInRange set.now }
{
    small(&set.units) && set.patterns.iter().all(|pattern| small(pattern))
}

/// The rules of the statements of a text.
pub fn rules_of(alloc: Global, text: &str) -> Option<Rules> {
    let sets = sets_of(alloc, text)?;
    if sets.iter().all(|set| in_range(set)) {
        return Rules::build(alloc, &sets).ok();
    }
    None
}

/// Whether the grid after a `/` fits the one before it under rules.
fn judge(alloc: Global, rules: &Rules, text: &str) -> Option<bool> {
    let (source, added) = text.split_once('/')?;
    Some(rules.fits(&grid_of(alloc, source)?, &grid_of(alloc, added)?))
}

/// Whether the grid after a `/` fits the one before it under the statements beside.
pub fn answer(alloc: Global, text: &str, beside: &str) -> Option<String> {
    let fits = judge(alloc, &rules_of(alloc, beside)?, text)?;
    let word = if fits { "fits" } else { "does not fit" };
    String::from_str(alloc, word).ok()
}
