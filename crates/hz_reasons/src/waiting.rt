//! How many cycles later a class fits, by any choices.

ghost use Rattle.std.specs.Prelude.{◌≡◌, ◌<◌, ℕ, length, vec_len, IsTrue, All, None, false};
ghost use Rattle.hz_reasons.specs.Calendars.{at, AreUnbroken, IsFirstOf, AreLaterBy};
ghost use Rattle.hz_reasons.specs.Plans.{choices_at};
ghost use Rattle.hz_reasons.specs.Waiting.{EndBefore, AreWithin, IsSteady, AreSteady, FitsSome, FitsAny, GoesOn, IsLeastOf};

use crate::calendar::first_fitting;
use crate::plan::{Choice, Plan};
use crate::reserved::{Reserved, pass};
use hz_grid::{Grid, Row, Usage};

/// The cycles up to the last that these parts take; 0 if they take nothing.
fn cycles_of_parts(parts: &[Usage]) -> u16
    ensures { EndBefore result parts.now }
{
    let mut cycles = 0;
    for part in parts {
        cycles = part.grid().length().max(cycles);
    }
    cycles
}

/// The cycles up to the last that these alternatives take; 0 if they take nothing.
fn cycles_of_choices(choices: &[Choice]) -> u16
    ensures { AreWithin result choices.now }
{
    let mut cycles = 0;
    for choice in choices {
        cycles = cycles_of_parts(&choice.parts).max(cycles);
    }
    cycles
}

/// The cycles up to the last in which something is reserved; 0 if nothing is.
fn cycles_of_grids(grids: &[Grid]) -> u16
    ensures { EndBefore result grids.now }
{
    let mut cycles = 0;
    for grid in grids {
        cycles = grid.length().max(cycles);
    }
    cycles
}

/// The same in any entry.
fn cycles_of_entries(entries: &[Reserved]) -> u16
    ensures { All (EndBefore result) entries.now }
{
    let mut cycles = 0;
    for entry in entries {
        let calendar = entry.calendar();
        cycles = cycles_of_grids(&calendar.grids).max(cycles);
    }
    cycles
}

/// Whether two cycles have the same units.
fn has_same_units(one: Row<4>, other: Row<4>) -> bool
    ensures { IsTrue result → one ≡ other }
{
    one == other
}

/// Whether in each of so many cycles the same units are held as in the next.
fn is_steady(grid: &Grid, cycles: u16) -> bool
    ensures { IsTrue result → IsSteady cycles grid.now }
{
    for cycle in 0..grid.length().min(cycles) {
        if !has_same_units(grid.row(cycle), grid.row(cycle + 1)) {
            return false;
        }
    }
    true
}

/// The same in each automaton.
fn are_steady(grids: &[Grid], cycles: u16) -> bool
    ensures { IsTrue result → AreSteady cycles grids.now }
{
    for grid in grids {
        if !is_steady(grid, cycles) {
            return false;
        }
    }
    true
}

/// The same of an entry.
fn stays_alike(entry: &Reserved, cycles: u16) -> bool
    ensures { IsTrue result → AreSteady cycles entry.now }
{
    let calendar = entry.calendar();
    are_steady(&calendar.grids, cycles)
}

/// Whether some alternative fits in an entry. It takes no memory.
fn fits_some(plan: &Plan, choices: &[Choice], entry: &Reserved) -> bool
    requires parts { All (λ choice. length choice.parts.items ≡ length plan.now.rules.items) choices.now }
    requires each { length entry.now ≡ length plan.now.rules.items }
    requires unbroken { AreUnbroken plan.now.rules.items entry.now }
    ensures { FitsSome plan.now.rules.items choices.now entry.now result }
{
    let calendar = entry.calendar();
    first_fitting(&plan.rules, &calendar.grids, choices).is_some()
}

/// Whether some alternative fits in some entry. It takes no memory.
fn fits_any(plan: &Plan, choices: &[Choice], entries: &[Reserved]) -> bool
    requires parts { All (λ choice. length choice.parts.items ≡ length plan.now.rules.items) choices.now }
    requires each { All (λ grids. length grids ≡ length plan.now.rules.items) entries.now }
    requires unbroken { All (AreUnbroken plan.now.rules.items) entries.now }
    ensures { FitsAny plan.now.rules.items choices.now entries.now result }
{
    for entry in entries {
        if fits_some(plan, choices, entry) {
            return true;
        }
    }
    false
}

/// Goes a cycle on with an entry in which no alternative fits: whether one fits then. The alternatives take cycles below `seen`; they are
/// not tried again where these stay alike. It takes no memory.
fn fits_next(plan: &Plan, choices: &[Choice], seen: u16, entry: &mut Reserved) -> bool
    requires parts { All (λ choice. length choice.parts.items ≡ length plan.now.rules.items) choices.now }
    requires within { AreWithin seen choices.now }
    requires each { length entry.old ≡ length plan.now.rules.items }
    requires unbroken { AreUnbroken plan.now.rules.items entry.old }
    requires none { IsFirstOf plan.now.rules.items entry.old choices.now None }
    ensures moves { AreLaterBy 1 entry.old entry.new }
    ensures fits { FitsSome plan.now.rules.items choices.now entry.new result }
{
    let stays = stays_alike(entry, seen);
    pass(entry, 1);
    !stays && fits_some(plan, choices, entry)
}

/// Goes a cycle on with entries in which no alternative fits: whether one fits in any then; if so, some entries stay. It takes no memory.
fn fits_any_next(plan: &Plan, choices: &[Choice], seen: u16, entries: &mut [Reserved]) -> bool
    requires parts { All (λ choice. length choice.parts.items ≡ length plan.now.rules.items) choices.now }
    requires within { AreWithin seen choices.now }
    requires each { All (λ grids. length grids ≡ length plan.now.rules.items) entries.old }
    requires unbroken { All (AreUnbroken plan.now.rules.items) entries.old }
    requires none { All (λ grids. FitsSome plan.now.rules.items choices.now grids false) entries.old }
    ensures { GoesOn plan.now.rules.items choices.now entries.old entries.new result }
{
    for entry in entries.iter_mut() {
        if fits_next(plan, choices, seen, entry) {
            return true;
        }
    }
    false
}

/// The least number of cycles after which some alternative of a class fits in some entry; None if none does in any cycle. It goes on
/// with the entries, up to the last cycle in which something is reserved. It takes no memory.
pub(crate) fn least_wait(
    plan: &Plan,
    class: u32,
    choices: &[Choice],
    entries: &mut [Reserved],
) -> Option<u32>
    requires choices { choices_at plan.now class ≡ choices.now }
    requires parts { All (λ choice. length choice.parts.items ≡ length plan.now.rules.items) choices.now }
    requires each { All (λ grids. length grids ≡ length plan.now.rules.items) entries.old }
    requires unbroken { All (AreUnbroken plan.now.rules.items) entries.old }
    ensures { IsLeastOf plan.now class entries.old result }
{
    if fits_any(plan, choices, entries) {
        return Some(0);
    }
    let seen = cycles_of_choices(choices);
    let last = cycles_of_entries(entries);
    for cycle in 0..last {
        if fits_any_next(plan, choices, seen, entries) {
            return Some(u32::from(cycle) + 1);
        }
    }
    None
}
