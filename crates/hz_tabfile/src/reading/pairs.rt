//! Fields of a grid: a cycle, a colon and a unit.

ghost use Rattle.std.specs.Prelude.{◌≡◌};
ghost use Rattle.std.specs.List.{before_first, after_first};
ghost use Rattle.hz_tabtext_model.specs.Fields as model;
ghost use Rattle.hz_tabfile.specs.Judged.{Judges};

use super::cutting::place;
use super::numbers::number_below;
use super::wrong::Wrong;
use hz_grid::CYCLES;
use hz_regexp::is_name;

/// What stands before the first colon, or all where there is none.
fn before_colon(field: &[u8]) -> &[u8]
    ensures { result.now ≡ before_first model.is_colon field.now }
{
    match place(field, b':') {
        Some(end) => &field[..end],
        None => field,
    }
}

/// What comes after the first colon, or nothing where there is none.
fn after_colon(field: &[u8]) -> &[u8]
    ensures { result.now ≡ after_first model.is_colon field.now }
{
    match place(field, b':') {
        Some(end) => &field[end + 1..],
        None => &[],
    }
}

/// Whether a field has a colon, and a name after the first one.
pub fn has_unit(field: &[u8]) -> bool
    ensures { result ≡ model.has_unit field.now }
{
    is_name(after_colon(field))
}

/// The cycle of a field, which is dropped.
#[tactic(auto, unfolding(hz_tabtext_model::specs::Fields::cycle_in))]
pub fn cycle(field: &[u8]) -> Result<u32, Wrong>
    ensures { Judges (λ cycle. cycle) result (model.cycle_in field.now) }
{
    number_below(before_colon(field), CYCLES as u32)
}
