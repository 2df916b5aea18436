//! What stands reserved from the present cycle on, automaton by automaton.

ghost use Rattle.std.specs.Prelude.{◌≡◌, ◌↔◌, ◌<◌, ℕ, List, [], replicate, length, vec_len, IsTrue, IfOk, IfSome, OnOk, All};
ghost use Rattle.hz_description_model.specs.Reservations.Automata.{UnitPlace};
ghost use Rattle.hz_description_model.specs.Reservations.Sets.{Fits};
ghost use Rattle.hz_pipeline_model.specs.Accepting.Fitting.{IsUnbroken};
ghost use Rattle.hz_pipeline_model.specs.Accepting.Replay.{Pipeline, State, start};
ghost use Rattle.hz_unitsets.specs.RowRules.{FitsRow};
ghost use Rattle.hz_why_model.specs.Waits.{after};
ghost use Rattle.hz_reasons.specs.Plans.{choices_at, IsWide, IsPlanOf, Stands, Issues};
ghost use Rattle.hz_reasons.specs.Calendars.{at, AllFit, AreUnbroken, IsFirstOf, AreUnited, Takes, IsLaterBy, AreLaterBy};

use crate::plan::{Choice, Plan};
use hz_grid::{Grid, NoMemory, Row, Usage, UsedRow};
use hz_unitsets::Rules;
use std::alloc::Global;

/// What stands reserved from the present cycle on: a grid for each automaton of a plan.
#[derive(Drop)]
pub struct Calendar {
    pub grids: Vec<Grid>,
}

/// Whether two cycles have the same rows: what is reserved there, and what is added.
fn has_same_rows(here: Row<4>, added: Row<4>, there: Row<4>, units: Row<4>) -> bool
    ensures { IsTrue result → (here ≡ there) × (added ≡ units) }
{
    here == there && added == units
}

/// Whether the units of each cycle of a part fit what is reserved where no exclusion is broken. A cycle with the rows of the one before
/// is not asked of the rules again. It takes no memory.
fn fits_rows(rules: &Rules, grid: &Grid, rows: &[UsedRow]) -> bool
    requires { IsUnbroken rules.now grid.now }
    ensures { IsTrue result ↔ All (λ row. FitsRow rules.now grid.now row.cycle row.units) rows.now }
{
    let mut there = Row::empty();
    let mut units = Row::empty();
    for used in rows {
        let here = grid.row(used.cycle);
        if !has_same_rows(here, used.units, there, units) {
            if !rules.fits_row(grid, used.cycle, used.units) {
                return false;
            }
            there = here;
            units = used.units;
        }
    }
    true
}

/// Whether a part fits what is reserved in an automaton where no exclusion is broken. It takes no memory.
fn fits_part(rules: &Rules, grid: &Grid, part: &Usage) -> bool
    requires { IsUnbroken rules.now grid.now }
    ensures { IsTrue result ↔ Fits rules.now grid.now part.now 0 }
{
    !part.meets(grid) && fits_rows(rules, grid, part.rows())
}

/// Whether in each automaton the added pairs fit what stands reserved there. It takes no memory.
fn all_fit(rules: &[Rules], grids: &[Grid], parts: &[Usage]) -> bool
    requires grids { length grids.now ≡ length rules.now }
    requires parts { length parts.now ≡ length rules.now }
    requires unbroken { AreUnbroken rules.now grids.now }
    ensures { IsTrue result ↔ AllFit rules.now grids.now parts.now }
{
    for automaton in 0..rules.len() {
        if !fits_part(&rules[automaton], &grids[automaton], &parts[automaton]) {
            return false;
        }
    }
    true
}

/// The first of the alternatives that fits, by its number; None if none does. It takes no memory.
pub(crate) fn first_fitting(rules: &[Rules], grids: &[Grid], choices: &[Choice]) -> Option<usize>
    requires grids { length grids.now ≡ length rules.now }
    requires parts { All (λ choice. length choice.parts.items ≡ length rules.now) choices.now }
    requires unbroken { AreUnbroken rules.now grids.now }
    ensures { IsFirstOf rules.now grids.now choices.now result }
{
    for (number, choice) in choices.iter().enumerate() {
        if all_fit(rules, grids, &choice.parts) {
            return Some(number);
        }
    }
    None
}

/// Adds the parts of the first of the alternatives that fits, whose number is answered. Where none fits all stays as it was, and where
/// memory ran out some parts are added.
pub(crate) fn take_first(
    alloc: Global,
    rules: &[Rules],
    grids: &mut Vec<Grid>,
    choices: &[Choice],
) -> Result<Option<usize>, NoMemory>
    requires grids { length grids.old.items ≡ length rules.now }
    requires parts { All (λ choice. length choice.parts.items ≡ length rules.now) choices.now }
    requires unbroken { AreUnbroken rules.now grids.old.items }
    ensures unbroken { OnOk result (AreUnbroken rules.now grids.new.items) }
    ensures each { OnOk result (length grids.new.items ≡ length grids.old.items) }
    ensures first { IfOk result (IsFirstOf rules.now grids.old.items choices.now) }
    ensures takes { IfOk result (Takes grids.old.items choices.now grids.new.items) }
{
    match first_fitting(rules, grids, choices) {
        None => Ok(None),
        Some(number) => {
            reserve(alloc, grids, &choices[number].parts)?;
            Ok(Some(number))
        }
    }
}

/// A grid with no pair for each of so many automata.
pub(crate) fn empty_grids(alloc: Global, automata: usize) -> Result<Vec<Grid>, NoMemory>
    ensures { IfOk result (λ grids. grids.items ≡ replicate automata []) }
{
    let mut grids = Vec::with_capacity(alloc, automata)?;
    for _automaton in 0..automata {
        grids.push(Grid::empty(alloc))?;
    }
    Ok(grids)
}

/// Adds the parts of an alternative, each in its automaton. Where memory ran out some of them are added.
pub(crate) fn reserve(alloc: Global, grids: &mut Vec<Grid>, parts: &[Usage]) -> Result<(), NoMemory>
    requires parts { length parts.now ≡ vec_len grids.old }
    ensures each { OnOk result (vec_len grids.new ≡ vec_len grids.old) }
    ensures united { OnOk result (AreUnited grids.old.items parts.now grids.new.items) }
{
    for automaton in 0..parts.len() {
        grids[automaton].join(alloc, parts[automaton].grid())?;
    }
    Ok(())
}

/// Goes so many cycles on. It takes no memory.
fn advance_grid(grid: &mut Grid, cycles: u32)
    ensures { IsLaterBy cycles grid.old grid.new }
{
    for _cycle in 0..cycles {
        if grid.length() == 0 {
            return;
        }
        grid.advance();
    }
}

/// Goes so many cycles on in each automaton. It takes no memory.
pub(crate) fn advance_grids(grids: &mut [Grid], cycles: u32)
    ensures { AreLaterBy cycles grids.old grids.new }
{
    for grid in grids.iter_mut() {
        advance_grid(grid, cycles);
    }
}
