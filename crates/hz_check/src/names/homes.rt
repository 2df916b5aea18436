//! The automata of units, by their forms: a name is looked up once for each form, since units of one form have one automaton.

ghost use Rattle.std.specs.Prelude.{◌≡◌, ℕ, List, IfOk, map};
ghost use Rattle.std.specs.List.{AllPairs};
ghost use Rattle.hz_base_model.specs.Lines.{place_of};
ghost use Rattle.hz_mdread.specs.Shape.{description};
ghost use Rattle.hz_description_model.specs.Reading.DescriptionShape.{SharesAutomaton};
ghost use Rattle.hz_description_model.specs.Reading.Descriptions as model;
ghost use Rattle.hz_check.specs.Names.{HoldsPlaces};
ghost use Rattle.hz_check.specs.Names.Homes.{AreHomes, automaton_place};

use crate::names::by_name::ByName;
use hz_mdread::{Description, UnitItem};
use hz_regexp::NoMemory;
use std::alloc::Global;
use std::collections::BTreeMap;

/// The number of the automaton that a unit names, where it is defined.
fn home_of<'a>(automata: &ByName<'a, usize>, unit: &'a UnitItem) -> Option<usize>
    ensures { (d : model.Description) → HoldsPlaces automata.now (map (λ a. a.name) d.automata) → result ≡ automaton_place d unit.now.automaton }
{
    match &unit.automaton {
        Some(name) => automata.find(name).copied(),
        None => None,
    }
}

/// For the form of each unit the number of its automaton.
pub(crate) fn homes_of<'a>(
    alloc: Global,
    desc: &'a Description,
    automata: &ByName<'a, usize>,
) -> Result<BTreeMap<u32, Option<usize>>, NoMemory>
    requires shared { AllPairs SharesAutomaton (description desc.now).units }
    requires placed { HoldsPlaces automata.now (map (λ a. a.name) (description desc.now).automata) }
    ensures { IfOk result (AreHomes (description desc.now)) }
{
    let mut homes = BTreeMap::new(alloc);
    for unit in &desc.units {
        if !homes.contains_key(&unit.form) {
            homes.insert(unit.form, home_of(automata, unit))?;
        }
    }
    Ok(homes)
}
