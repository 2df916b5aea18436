//! Lines of what each state is.

ghost use Rattle.std.specs.Prelude.{◌≡◌, ◌-◌, ◌^◌, ◌<◌, ◌≤◌, [], ◌∷◌, if◌then◌else◌, map, length, All, codes, decimal, slice_index_or};
ghost use Rattle.std.specs.List.{flat_map, range_with_len};
ghost use Rattle.hz_base_model.specs.Limits.{unit_limit};
ghost use Rattle.hz_grid.specs.Rows.{has_unit};
ghost use Rattle.hz_tabtext_model.specs.Texts.{line_text, origin_line, pair_field, grid_line, shown_lines};
ghost use Rattle.hz_tabtext_model.specs.Said.{named_grid, origin_said, shown_said};
ghost use Rattle.hz_auto.specs.Reports.{shown_of};
ghost use Rattle.hz_io.specs.Pages.{Adds};
ghost use Rattle.hz_tabfile.specs.Spaced.{spaced, unit_text, pairs_text};

use hz_auto::Shown;
use hz_grid::{Grid, Row};
use hz_io::page::{Page, add, add_all, end_line};
use hz_io::{Failed, Sink};
use hz_regexp::Name;
use itoa::Buffer;

/// The place where a state is read first: none for the start.
fn origin_of(shown: &Shown, state: u32) -> Option<(u32, u32)>
    requires { state < length shown.now.parents.items }
    ensures { result ≡ origin_said shown.now.parents.items state }
{
    if state == 0 {
        return None;
    }
    Some(shown.parents[state as usize])
}

/// The grids of a state.
fn grids_of(shown: &Shown, state: u32) -> &[Grid]
    requires { state < length shown.now.grids.items }
    ensures { result.now ≡ slice_index_or (shown_of shown.now).states state [] }
{
    &shown.grids[state as usize]
}

/// Adds the line of the place where a state is read first.
fn add_origin<S: Sink>(
    out: &mut S,
    page: &mut Page,
    origin: Option<(u32, u32)>,
) -> Result<(), Failed>
    requires { S.faults out.old < 2 ^ 64 - 1 }
    ensures { Adds S.written S.room S.faults out.old out.new page.old.items page.new.items (line_text (origin_line origin)) result }
{
    match origin {
        Some(place) => add_place(out, page, place.0, place.1),
        None => add(out, page, b"from -\n"),
    }
}

/// Adds the line of a place where a state is read first.
fn add_place<S: Sink>(out: &mut S, page: &mut Page, row: u32, column: u32) -> Result<(), Failed>
    requires { S.faults out.old < 2 ^ 64 - 1 }
    ensures { Adds S.written S.room S.faults out.old out.new page.old.items page.new.items (line_text (codes "from" ∷ decimal row ∷ decimal column ∷ [])) result }
{
    let mut row_digits = Buffer::new();
    let mut column_digits = Buffer::new();
    add_all(
        out,
        page,
        &[
            b"from ",
            row_digits.format(row).as_bytes(),
            b" ",
            column_digits.format(column).as_bytes(),
            b"\n",
        ],
    )
}

/// Adds a pair of a grid after a space.
fn add_pair<S: Sink>(out: &mut S, page: &mut Page, cycle: u16, unit: &Name) -> Result<(), Failed>
    requires { S.faults out.old < 2 ^ 64 - 1 }
    ensures { Adds S.written S.room S.faults out.old out.new page.old.items page.new.items (spaced (pair_field (cycle, unit.now))) result }
{
    let mut digits = Buffer::new();
    add_all(
        out,
        page,
        &[b" ", digits.format(cycle).as_bytes(), b":", unit.bytes()],
    )
}

/// Adds a unit of this number after a space, where the row has it.
fn add_unit<S: Sink>(
    out: &mut S,
    page: &mut Page,
    cycle: u16,
    row: Row<4>,
    number: u8,
    unit: &Name,
) -> Result<(), Failed>
    requires { S.faults out.old < 2 ^ 64 - 1 }
    ensures { Adds S.written S.room S.faults out.old out.new page.old.items page.new.items (if has_unit row number then spaced (pair_field (cycle, unit.now)) else []) result }
{
    if row.holds(number) {
        add_pair(out, page, cycle, unit)
    } else {
        Ok(())
    }
}

/// Adds the pairs of a cycle.
fn add_cycle<S: Sink>(
    out: &mut S,
    page: &mut Page,
    cycle: u16,
    row: Row<4>,
    units: &[Name],
) -> Result<(), Failed>
    requires faults { S.faults out.old < 2 ^ 64 - 1 }
    requires few { length units.now ≤ unit_limit }
    ensures { Adds S.written S.room S.faults out.old out.new page.old.items page.new.items (flat_map (unit_text units.now cycle row) (range_with_len 0 (length units.now))) result }
{
    for (number, unit) in units.iter().enumerate() {
        match add_unit(out, page, cycle, row, number as u8, unit) {
            Ok(()) => {}
            Err(failed) => return Err(failed),
        }
    }
    Ok(())
}

/// Adds the pairs of a grid, each after a space.
fn add_pairs<S: Sink>(
    out: &mut S,
    page: &mut Page,
    grid: &Grid,
    units: &[Name],
) -> Result<(), Failed>
    requires faults { S.faults out.old < 2 ^ 64 - 1 }
    requires few { length units.now ≤ unit_limit }
    requires units { All (λ pair. pair.unit < length units.now) grid.now }
    ensures { Adds S.written S.room S.faults out.old out.new page.old.items page.new.items (pairs_text units.now grid.now) result }
{
    for cycle in 0..grid.length() {
        match add_cycle(out, page, cycle, grid.row(cycle), units) {
            Ok(()) => {}
            Err(failed) => return Err(failed),
        }
    }
    Ok(())
}

/// Adds the line of a grid.
fn add_grid<S: Sink>(
    out: &mut S,
    page: &mut Page,
    grid: &Grid,
    units: &[Name],
) -> Result<(), Failed>
    requires faults { S.faults out.old < 2 ^ 64 - 1 }
    requires few { length units.now ≤ unit_limit }
    requires units { All (λ pair. pair.unit < length units.now) grid.now }
    ensures { Adds S.written S.room S.faults out.old out.new page.old.items page.new.items (line_text (grid_line (named_grid units.now grid.now))) result }
{
    add(out, page, b"grid")?;
    add_pairs(out, page, grid, units)?;
    end_line(out, page)
}

/// Adds the lines of grids.
fn add_grids<S: Sink>(
    out: &mut S,
    page: &mut Page,
    grids: &[Grid],
    units: &[Name],
) -> Result<(), Failed>
    requires faults { S.faults out.old < 2 ^ 64 - 1 }
    requires few { length units.now ≤ unit_limit }
    requires units { All (All (λ pair. pair.unit < length units.now)) grids.now }
    ensures { Adds S.written S.room S.faults out.old out.new page.old.items page.new.items (flat_map line_text (map grid_line (map (named_grid units.now) grids.now))) result }
{
    for grid in grids {
        match add_grid(out, page, grid, units) {
            Ok(()) => {}
            Err(failed) => return Err(failed),
        }
    }
    Ok(())
}

/// Adds the lines of what a state is.
pub fn add_shown<S: Sink>(
    out: &mut S,
    page: &mut Page,
    state: u32,
    shown: &Shown,
    units: &[Name],
) -> Result<(), Failed>
    requires faults { S.faults out.old < 2 ^ 64 - 1 }
    requires few { length units.now ≤ unit_limit }
    requires parents { state < length shown.now.parents.items }
    requires grids { state < length shown.now.grids.items }
    requires units { All (All (All (λ pair. pair.unit < length units.now))) (shown_of shown.now).states }
    ensures { Adds S.written S.room S.faults out.old out.new page.old.items page.new.items (flat_map line_text (shown_lines (Some (shown_said units.now state (shown_of shown.now))))) result }
{
    add_origin(out, page, origin_of(shown, state))?;
    add_grids(out, page, grids_of(shown, state), units)
}
