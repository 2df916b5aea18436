//! The places of units in their automata.

ghost use Rattle.std.specs.Prelude.{◌≡◌, ◌≤◌, IfOk, map, length, []};
ghost use Rattle.std.specs.List.{AllPairs};
ghost use Rattle.hz_mdread.specs.Shape.{description};
ghost use Rattle.hz_check_reservations.specs.Places.{reported};
ghost use Rattle.hz_check.specs.Faults.PastUnits.{ArePlaces};
ghost use Rattle.hz_description_model.specs.Check.CheckFaults.{past_units};
ghost use Rattle.hz_description_model.specs.Check.Places.{unit_places};
ghost use Rattle.hz_description_model.specs.Check.Sites.{earliest};
ghost use Rattle.hz_check_reservations.specs.Shape.{place_of};
ghost use Rattle.hz_base_model.specs.Limits as limits;

use crate::faults::limits::AUTOMATA;
use crate::names::Names;
use crate::names::items::Defines;
use crate::names::site::Site;
use hz_check_reservations::UnitPlace;
use hz_grid::UNITS;
use hz_regexp::NoMemory;
use std::alloc::Global;

/// The first unit past the limit of its automaton.
pub(crate) fn past_unit<'a>(names: &Names<'a>) -> Option<Site<'a>>
    requires few { length (description names.now.desc.now).automata ≤ limits.automaton_limit }
    requires ordered { AllPairs (λ earlier later. earlier.form ≤ later.form) (description names.now.desc.now).units }
    ensures { reported result ≡ earliest (past_units (description names.now.desc.now).units (unit_places (description names.now.desc.now))) }
{
    let desc = names.desc;
    let mut counts = [0u16; AUTOMATA];
    for unit in &desc.units {
        let number = names.automaton_number(unit);
        let before = counts[number];
        if usize::from(before) >= UNITS {
            return Some(unit.site());
        }
        counts[number] = before + 1;
    }
    None
}

/// The places of all units in the order of the file, of which none is past the limit of its automaton.
pub(crate) fn unit_places(alloc: Global, names: &Names<'_>) -> Result<Vec<UnitPlace>, NoMemory>
    requires few { length (description names.now.desc.now).automata ≤ limits.automaton_limit }
    requires within { past_units (description names.now.desc.now).units (unit_places (description names.now.desc.now)) ≡ [] }
    ensures { IfOk result (λ places. ArePlaces (description names.now.desc.now) places.items) }
{
    let desc = names.desc;
    let mut counts = [0u16; AUTOMATA];
    let mut places = Vec::new(alloc);
    for unit in &desc.units {
        let number = names.automaton_number(unit);
        let count = counts[number];
        places.push(UnitPlace {
            automaton: number as u32,
            unit: u32::from(count),
        })?;
        counts[number] = count + 1;
    }
    Ok(places)
}
