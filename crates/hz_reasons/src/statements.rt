//! How a set statement is broken by what an alternative adds.

ghost use Rattle.std.specs.Prelude.{◌≡◌, ◌<◌, ℕ, Bool, length, IfSome, map, slice_get};
ghost use Rattle.std.specs.List.{find, list_all};
ghost use Rattle.std.specs.Option.{option_map, option_and_then};
ghost use Rattle.hz_description_model.specs.Reservations.Automata.{UnitPlace};
ghost use Rattle.hz_why_model.specs.Reasons.{breaking, breaking_pattern};
ghost use Rattle.hz_unitsets.specs.SetRules.{kind_of};
ghost use Rattle.hz_reasons.specs.Breaking.{seen, seen_in, is_held_with, pattern_at, broken_with, looked_in, wants, breaks, is_broken_by, broken_by, broken_first_by, first_broken_by, reason_at, first_number_from, number_in, HasPatternNumber};
ghost use Rattle.hz_reasons.specs.Plans.{unit_of, statement_of};
ghost use Rattle.hz_reasons.specs.Taken.{is_held};
ghost use Rattle.hz_reasons.specs.declared.reasons.Reason.TheVariants.{Broken};

use crate::plan::{AutomatonUnit, Place, SetStatement};
use crate::reasons::Break;
use hz_grid::{Grid, Usage};
use hz_unitsets::SetKind;

/// Which units of a cycle are looked at: those that stand there, those that are added, or all of them.
#[derive(Clone, Copy)]
pub(crate) enum Seen {
    Standing,
    Added,
    Both,
}

/// Whether the unit stands reserved in the cycle. It takes no memory.
pub(crate) fn stands(grids: &[Grid], unit: AutomatonUnit, cycle: u16) -> bool
    ensures { result ≡ is_held grids.now cycle (unit_of unit) }
{
    match grids.get(usize::from(unit.automaton)) {
        Some(grid) => grid.holds(unit.unit, cycle),
        None => false,
    }
}

/// Whether the unit is added in the cycle. It takes no memory.
pub fn adds(parts: &[Usage], unit: AutomatonUnit, cycle: u16) -> bool
    ensures { result ≡ is_held parts.now cycle (unit_of unit) }
{
    match parts.get(usize::from(unit.automaton)) {
        Some(part) => part.grid().holds(unit.unit, cycle),
        None => false,
    }
}

/// Whether the unit is among those that are looked at in the cycle. It takes no memory.
fn sees(which: Seen, grids: &[Grid], parts: &[Usage], cycle: u16, unit: AutomatonUnit) -> bool
    ensures { result ≡ seen_in which grids.now parts.now cycle (unit_of unit) }
{
    match which {
        Seen::Standing => stands(grids, unit, cycle),
        Seen::Added => adds(parts, unit, cycle),
        Seen::Both => stands(grids, unit, cycle) || adds(parts, unit, cycle),
    }
}

/// The first of these units that is among those that are looked at in the cycle. It takes no memory.
fn first_seen(
    which: Seen,
    grids: &[Grid],
    parts: &[Usage],
    cycle: u16,
    units: &[AutomatonUnit],
) -> Option<AutomatonUnit>
    ensures { result ≡ find (λ u. seen_in which grids.now parts.now cycle (unit_of u)) units.now }
{
    units
        .iter()
        .copied()
        .find(|unit| sees(which, grids, parts, cycle, *unit))
}

/// Whether all units of the pattern are among those that are looked at in the cycle. It takes no memory.
fn is_whole(
    which: Seen,
    grids: &[Grid],
    parts: &[Usage],
    cycle: u16,
    pattern: &[AutomatonUnit],
) -> bool
    ensures { result ≡ list_all (λ u. seen_in which grids.now parts.now cycle (unit_of u)) pattern.now }
{
    pattern
        .iter()
        .all(|unit| sees(which, grids, parts, cycle, *unit))
}

/// The number of the first of the patterns that is wholly among what is looked at in the cycle. It takes no memory.
fn first_whole(
    which: Seen,
    grids: &[Grid],
    parts: &[Usage],
    cycle: u16,
    patterns: &[Vec<AutomatonUnit>],
) -> Option<usize>
    ensures within { IfSome result (λ number. number < length patterns.now) }
    ensures number { result ≡ first_number_from (λ pattern. list_all (λ u. seen_in which grids.now parts.now cycle (unit_of u)) pattern.items) 0 patterns.now }
{
    for (number, pattern) in patterns.iter().enumerate() {
        if is_whole(which, grids, parts, cycle, pattern) {
            return Some(number);
        }
    }
    None
}

/// The units by which a statement of this kind is broken: of an exclusion all, of another kind those that are added.
fn breaking_units(kind: SetKind) -> Seen
    ensures { (source added result_there : UnitPlace → Bool) → seen result source added result_there ≡ breaking (kind_of kind) added result_there }
{
    match kind {
        SetKind::Exclusion => Seen::Both,
        _ => Seen::Added,
    }
}

/// Where a statement of this kind looks for a pattern: in what stands there, or in all.
fn pattern_units(kind: SetKind) -> Seen
    ensures { (source added result_there : UnitPlace → Bool) → seen result source added result_there ≡ looked_in (kind_of kind) source result_there }
{
    match kind {
        SetKind::Presence => Seen::Standing,
        SetKind::Absence => Seen::Standing,
        _ => Seen::Both,
    }
}

/// Whether a statement of this kind is broken where a pattern is missed, and not where one is there.
fn wants_pattern(kind: SetKind) -> bool
    ensures { result ≡ wants (kind_of kind) }
{
    match kind {
        SetKind::Presence => true,
        SetKind::FinalPresence => true,
        _ => false,
    }
}

/// Whether a statement is broken that wants a pattern or not, by whether a unit of it is there and whether a pattern is.
fn is_break(wanted: bool, unit: bool, whole: bool) -> bool
    ensures { result ≡ breaks wanted unit whole }
{
    if wanted {
        unit && !whole
    } else {
        unit && whole
    }
}

/// The first unit by which the statement is broken in the cycle, if it is. It takes no memory.
fn breaking_unit(
    set: &SetStatement,
    grids: &[Grid],
    parts: &[Usage],
    cycle: u16,
) -> Option<AutomatonUnit>
    ensures { option_map unit_of result ≡ find (breaking (kind_of set.now.kind) (is_held parts.now cycle) (is_held_with grids.now parts.now cycle)) (statement_of set.now).units }
{
    first_seen(breaking_units(set.kind), grids, parts, cycle, &set.units)
}

/// The number of the first pattern that the statement finds in the cycle, where it looks for one. It takes no memory.
fn found_pattern(set: &SetStatement, grids: &[Grid], parts: &[Usage], cycle: u16) -> Option<usize>
    ensures within { IfSome result (λ number. number < length (statement_of set.now).patterns) }
    ensures number { result ≡ first_number_from (list_all (looked_in (kind_of set.now.kind) (is_held grids.now cycle) (is_held_with grids.now parts.now cycle))) 0 (statement_of set.now).patterns }
{
    first_whole(pattern_units(set.kind), grids, parts, cycle, &set.patterns)
}

/// Whether the statement is broken in the cycle. It takes no memory.
fn is_broken(set: &SetStatement, grids: &[Grid], parts: &[Usage], cycle: u16) -> bool
    ensures { result ≡ is_broken_by (is_held grids.now) (is_held parts.now) (is_held_with grids.now parts.now) (statement_of set.now) cycle }
{
    let wanted = wants_pattern(set.kind);
    let unit = breaking_unit(set, grids, parts, cycle);
    let pattern = found_pattern(set, grids, parts, cycle);
    is_break(wanted, unit.is_some(), pattern.is_some())
}

/// The number of the first pattern by which the statement is broken in the cycle, if it is: None where one is missed. It takes no
/// memory.
fn breaking_number(set: &SetStatement, grids: &[Grid], parts: &[Usage], cycle: u16) -> Option<usize>
    ensures number { result ≡ number_in (statement_of set.now) grids.now parts.now cycle }
    ensures pattern { pattern_at (statement_of set.now).patterns result ≡ breaking_pattern (kind_of set.now.kind) (statement_of set.now).patterns (is_held grids.now cycle) (is_held_with grids.now parts.now cycle) }
{
    if wants_pattern(set.kind) {
        return None;
    }
    found_pattern(set, grids, parts, cycle)
}

/// How the statement of this number is broken in the cycle, if it is. It takes no memory.
fn break_in(
    statement: usize,
    set: &SetStatement,
    grids: &[Grid],
    parts: &[Usage],
    cycle: u16,
) -> Option<Break>
    ensures number { IfSome result (λ b. b.statement ≡ statement) }
    ensures pattern { IfSome result (λ b. b.pattern ≡ number_in (statement_of set.now) grids.now parts.now b.cycle) }
    ensures broken { (now : ℕ) → option_map (broken_with (statement_of set.now).patterns now) result ≡ broken_by (is_held grids.now) (is_held parts.now) (is_held_with grids.now parts.now) now statement (statement_of set.now) cycle }
{
    match breaking_unit(set, grids, parts, cycle) {
        Some(unit) => Some(Break {
            statement,
            cycle,
            unit,
            pattern: breaking_number(set, grids, parts, cycle),
        }),
        None => None,
    }
}

/// The first of these pairs in whose cycle the statement is broken. It takes no memory.
fn first_broken_pair(
    set: &SetStatement,
    grids: &[Grid],
    parts: &[Usage],
    pairs: &[Place],
) -> Option<Place>
    ensures { result ≡ find (λ p. is_broken_by (is_held grids.now) (is_held parts.now) (is_held_with grids.now parts.now) (statement_of set.now) p.cycle) pairs.now }
{
    pairs
        .iter()
        .copied()
        .find(|pair| is_broken(set, grids, parts, pair.cycle))
}

/// How the statement of this number is broken in the first cycle of these pairs in which it is; None if it is in none. It takes no
/// memory.
fn first_break(
    statement: usize,
    set: &SetStatement,
    grids: &[Grid],
    parts: &[Usage],
    pairs: &[Place],
) -> Option<Break>
    ensures number { IfSome result (λ b. b.statement ≡ statement) }
    ensures pattern { IfSome result (λ b. b.pattern ≡ number_in (statement_of set.now) grids.now parts.now b.cycle) }
    ensures broken { (now : ℕ) → option_map (broken_with (statement_of set.now).patterns now) result ≡ broken_first_by (is_held grids.now) (is_held parts.now) (is_held_with grids.now parts.now) now statement (statement_of set.now) pairs.now }
{
    match first_broken_pair(set, grids, parts, pairs) {
        Some(pair) => break_in(statement, set, grids, parts, pair.cycle),
        None => None,
    }
}

/// How the first of the statements is broken that is, by what is added at these pairs; None if none is. It takes no memory.
pub(crate) fn first_broken(
    sets: &[SetStatement],
    grids: &[Grid],
    parts: &[Usage],
    pairs: &[Place],
) -> Option<Break>
    ensures pattern { IfSome result (HasPatternNumber (map statement_of sets.now) grids.now parts.now) }
    ensures broken { (now : ℕ) → option_map (λ b. reason_at (map statement_of sets.now) now (Broken b)) result ≡ first_broken_by (is_held grids.now) (is_held parts.now) (is_held_with grids.now parts.now) now 0 (map statement_of sets.now) pairs.now }
{
    for (number, set) in sets.iter().enumerate() {
        match first_break(number, set, grids, parts, pairs) {
            Some(broken) => return Some(broken),
            None => {}
        }
    }
    None
}
