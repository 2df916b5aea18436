//! The names of a description, with what they stand for.

ghost use Rattle.std.specs.Prelude.{◌≡◌, map, List, ℕ};
ghost use Rattle.hz_mdread.specs.Shape.{description};
ghost use Rattle.hz_check.specs.Names.Held.{held};
ghost use Rattle.hz_check.specs.Names.{HoldsPlaces, test_by, test_of};
ghost use Rattle.hz_check.specs.Names.Homes.{AreHomes};
ghost use Rattle.hz_description_model.specs.Check.CheckFaults.{values_of};
ghost use Rattle.hz_description_model.specs.Check.Places.{class_names};

use crate::names::by_name::ByName;
use crate::names::homes::homes_of;
use crate::names::tables::{first_missing, places_of, values_of};
use hz_mdread::{Description, UnitItem};
use hz_regexp::{Name, NoMemory};
use std::alloc::Global;
use std::collections::BTreeMap;

pub(crate) mod by_name;
pub(crate) mod class_numbers;
pub(crate) mod homes;
pub(crate) mod items;
pub(crate) mod site;
pub(crate) mod tables;

/// A description with tables of its names.
#[derive(Drop)]
pub(crate) struct Names<'a> {
    pub desc: &'a Description,
    /// The number of each automaton.
    pub automata: ByName<'a, usize>,
    /// The number of the automaton of each unit, by the form of the unit.
    pub homes: BTreeMap<u32, Option<usize>>,
    /// The place of each unit in the file.
    pub units: ByName<'a, usize>,
    /// The place of each reservation in the file.
    pub reservations: ByName<'a, usize>,
    /// The number of each class.
    pub classes: ByName<'a, usize>,
    /// For each attribute its values.
    pub values: ByName<'a, ByName<'a, ()>>,
    ghost automata_placed: { HoldsPlaces automata (map (λ a. a.name) (description desc.now).automata) },
    ghost homes_right: { AreHomes (description desc.now) homes },
    ghost units_placed: { HoldsPlaces units (map (λ u. u.name) (description desc.now).units) },
    ghost reservations_placed: { HoldsPlaces reservations (map (λ r. r.name) (description desc.now).reservations) },
    ghost classes_placed: { HoldsPlaces classes (class_names (description desc.now)) },
    ghost values_right: { (name : List ℕ) → test_by (held values name) ≡ test_of (values_of (description desc.now).attributes name) },
}

impl<'a> Names<'a> {
    ghost use Rattle.std.specs.Prelude.{◌≡◌, IfOk, Contains, map, filter, not, List, ℕ};
    ghost use Rattle.std.specs.List.{AllPairs};
    ghost use Rattle.std.specs.Option.{option_copied};
    ghost use Rattle.hz_check.specs.Names.First.{first_of};
    ghost use Rattle.hz_mdread.specs.Shape.{description, unit_item};
    ghost use Rattle.hz_description_model.specs.Reading.DescriptionShape.{SharesAutomaton};
    ghost use Rattle.hz_check.specs.Names.Held.{held};
    ghost use Rattle.hz_check.specs.Names.{HoldsPlaces, test_by, test_of};
    ghost use Rattle.hz_check.specs.Names.Homes.{AreHomes, automaton_place};
    ghost use Rattle.hz_description_model.specs.Check.CheckFaults.{is_unit, is_reservable, is_class, values_of, home};
    ghost use Rattle.hz_description_model.specs.Check.Places.{class_names, automaton_number};

    /// The names of a description.
    pub fn of(alloc: Global, desc: &'a Description) -> Result<Names<'a>, NoMemory>
        requires { AllPairs SharesAutomaton (description desc.now).units }
        ensures { IfOk result (λ names. names.desc.now ≡ desc.now) }
    {
        let automata = places_of(alloc, &desc.automata)?;
        let homes = homes_of(alloc, desc, &automata)?;
        let units = places_of(alloc, &desc.units)?;
        let reservations = places_of(alloc, &desc.reservations)?;
        let classes = places_of(alloc, &desc.classes)?;
        let values = values_of(alloc, &desc.attributes)?;
        Ok(Names {
            desc,
            automata,
            homes,
            units,
            reservations,
            classes,
            values,
        })
    }

    /// Whether the name is that of a unit or of a reservation.
    pub fn is_reservable(&self, name: &'a Name) -> bool
        ensures { result ≡ is_reservable (description self.now.desc.now) name.now }
    {
        self.units.holds(name) || self.reservations.holds(name)
    }

    /// The first of the names that is not that of a unit.
    pub fn unknown_unit(&self, units: &'a [Name]) -> Option<&'a Name>
        ensures { option_copied result ≡ first_of (filter (λ name. not (is_unit (description self.now.desc.now) name)) units.now) }
    {
        first_missing(&self.units, units)
    }

    /// The first of the names that is not that of a class.
    pub fn unknown_class(&self, classes: &'a [Name]) -> Option<&'a Name>
        ensures { option_copied result ≡ first_of (filter (λ name. not (is_class (description self.now.desc.now) name)) classes.now) }
    {
        first_missing(&self.classes, classes)
    }

    /// The number of a unit's automaton: none where it names none, or one that is not defined.
    pub fn automaton_place(&self, unit: &UnitItem) -> Option<usize>
        requires { Contains (description self.now.desc.now).units (unit_item unit.now) }
        ensures { result ≡ automaton_place (description self.now.desc.now) unit.now.automaton }
    {
        match self.homes.get(&unit.form) {
            Some(place) => *place,
            None => unreachable!(),
        }
    }

    /// The number of a unit's automaton: 0 where it names none, or one that is not defined.
    pub fn automaton_number(&self, unit: &UnitItem) -> usize
        requires { Contains (description self.now.desc.now).units (unit_item unit.now) }
        ensures { result ≡ automaton_number (description self.now.desc.now) unit.now.automaton }
    {
        self.automaton_place(unit).unwrap_or(0)
    }

    /// The number of the automaton of the unit of this name.
    pub fn home(&self, unit: &'a Name) -> Option<usize>
        ensures { result ≡ home (description self.now.desc.now) unit.now }
    {
        let place = *self.units.find(unit)?;
        let unit = self.desc.units.get(place)?;
        Some(self.automaton_number(unit))
    }
}
