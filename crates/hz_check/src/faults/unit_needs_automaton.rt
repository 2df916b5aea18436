//! Units that name no automaton, though one is defined.

ghost use Rattle.std.specs.Prelude.{◌≡◌};
ghost use Rattle.hz_mdread.specs.Shape.{description, unit_item};
ghost use Rattle.hz_check_reservations.specs.Places.{reported};
ghost use Rattle.hz_description_model.specs.Check.CheckFaults.{units_without_automaton, homeless};
ghost use Rattle.hz_description_model.specs.Check.Sites.{earliest};

use crate::names::items::Defines;
use crate::names::site::{Site, earlier};
use hz_mdread::{Description, UnitItem};

/// Where a unit names no automaton.
fn homeless(unit: &UnitItem) -> Option<Site<'_>>
    ensures { reported result ≡ homeless (unit_item unit.now) }
{
    unit.automaton.is_none().then_some(unit.site())
}

/// Where a unit names no automaton, though one is defined.
pub(crate) fn unit_without_automaton(desc: &Description) -> Option<Site<'_>>
    ensures { reported result ≡ earliest (units_without_automaton (description desc.now)) }
{
    if desc.automata.is_empty() {
        return None;
    }
    let mut first = None;
    for unit in &desc.units {
        first = earlier(first, homeless(unit));
    }
    first
}
