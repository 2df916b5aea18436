//! The alternatives of all classes.

ghost use Rattle.std.specs.Prelude.{◌≡◌, ◌<◌, None, All, IfErr, IfOk, map};
ghost use Rattle.std.specs.List.{Contains};
ghost use Rattle.hz_altern.specs.Tables.{alternatives_in};
ghost use Rattle.hz_check_reservations.specs.Answers.{AreExpanded, Refuses};
ghost use Rattle.hz_check_reservations.specs.Past.{AreWithinExtents};
ghost use Rattle.hz_check_reservations.specs.Shape.{place_of};
ghost use Rattle.hz_check_reservations.specs.Tables.{HasAlternatives, Holds, IsAfter, unit_names};
ghost use Rattle.hz_mdread.specs.Shape.{description};
ghost use Rattle.hz_description_model.specs.Check.CheckFaults.{faults_of_names};
ghost use Rattle.hz_description_model.specs.Check.FirstReported.{first_reported};
ghost use Rattle.hz_description_model.specs.Reading.DescriptionShape.{IsCheckable};
ghost use Rattle.hz_base_model.specs.Limits.{automaton_limit, unit_limit};
ghost use Rattle.hz_description_model.specs.Check.Places.{unit_places};
ghost use Rattle.hz_check_reservations.specs.Orders.{IsOrder, reservings};

use crate::listing::reserving::reserving_at;
use crate::listing::state::Expansion;
use crate::listing::unexpanded::Unexpanded;
use crate::listing::unit_place::UnitPlace;
use hz_altern::{Alt, Known};
use hz_mdread::Description;
use hz_regexp::NoMemory;
use std::alloc::Global;

/// The alternatives of all units, where their places are given in the order of the file.
fn known_units(alloc: Global, desc: &Description, places: &[UnitPlace]) -> Result<Known, NoMemory>
    requires named { first_reported (faults_of_names (description desc.now)) ≡ None }
    requires formed { IsCheckable (description desc.now) }
    requires places { map place_of places.now ≡ unit_places (description desc.now) }
    requires automata { All (λ place. place.automaton < automaton_limit) places.now }
    requires units { All (λ place. place.unit < unit_limit) places.now }
    ensures { IfOk result (λ known. Holds (HasAlternatives (description desc.now)) (Contains (unit_names (description desc.now))) (alternatives_in known)) }
{
    let mut known = Known::new(alloc);
    for i in 0..places.len() {
        let place = places[i];
        known.add_unit(&desc.units[i].name, place.automaton as u8, place.unit as u8)?;
    }
    Ok(known)
}

/// The alternatives of each class, in the order of the file, after units that are known.
fn expand_after<'a>(
    alloc: Global,
    desc: &'a Description,
    known: Known,
    order: &[usize],
) -> Result<Vec<Vec<Alt>>, Unexpanded<'a>>
    requires named { first_reported (faults_of_names (description desc.now)) ≡ None }
    requires formed { IsCheckable (description desc.now) }
    requires order { IsOrder (description desc.now) order.now }
    requires extents { AreWithinExtents (description desc.now) (reservings (description desc.now) order.now) }
    requires known { Holds (HasAlternatives (description desc.now)) (Contains (unit_names (description desc.now))) (alternatives_in known) }
    ensures ok { IfOk result (λ lists. AreExpanded (description desc.now) (reservings (description desc.now) order.now) lists.items) }
    ensures err { IfErr result (Refuses (description desc.now) (reservings (description desc.now) order.now)) }
{
    let mut expansion = Expansion {
        known,
        size: 0,
        lists: Vec::new(alloc),
    };
    for i in 0..order.len() {
        expansion.add(alloc, reserving_at(desc, order[i]))?;
    }
    let Expansion {
        known: _,
        size: _,
        lists,
    } = expansion;
    Ok(lists)
}

/// The alternatives of each class, in the order of the file: each list in its order, each alternative with its pairs in
/// ascending order and each once. `places` has the units in the order of the file, and the numbers of the order are
/// places of reservations, and after them places of classes. `Unexpanded::Size` tells the first of the order at which the
/// sizes, known only as alternatives are made, pass 2,097,152 together, each once: what is left is asked before a list of
/// alternatives grows. This profile, docs/RULES.md, 'Limits'.
pub fn expand_all<'a>(
    alloc: Global,
    desc: &'a Description,
    places: &[UnitPlace],
    order: &[usize],
) -> Result<Vec<Vec<Alt>>, Unexpanded<'a>>
    requires named { first_reported (faults_of_names (description desc.now)) ≡ None }
    requires formed { IsCheckable (description desc.now) }
    requires order { IsOrder (description desc.now) order.now }
    requires extents { AreWithinExtents (description desc.now) (reservings (description desc.now) order.now) }
    requires places { map place_of places.now ≡ unit_places (description desc.now) }
    requires automata { All (λ place. place.automaton < automaton_limit) places.now }
    requires units { All (λ place. place.unit < unit_limit) places.now }
    ensures ok { IfOk result (λ lists. AreExpanded (description desc.now) (reservings (description desc.now) order.now) lists.items) }
    ensures err { IfErr result (Refuses (description desc.now) (reservings (description desc.now) order.now)) }
{
    let known = known_units(alloc, desc, places)?;
    expand_after(alloc, desc, known, order)
}
