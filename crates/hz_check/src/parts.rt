//! What is made of a description without a fault while it is still whole.

ghost use Rattle.std.specs.Prelude.{◌≡◌, All, IfOk, IfErr, None, map};
ghost use Rattle.std.specs.List.{AllPairs};
ghost use Rattle.hz_mdread.specs.Shape.{description};
ghost use Rattle.hz_check.specs.Faults.PastUnits.{ArePlaces};
ghost use Rattle.hz_check.specs.Faults.Steps.{IsOrdered, AreWithin, AreLists};
ghost use Rattle.hz_check.specs.Faults.{Tells, IsReportedAt};
ghost use Rattle.hz_check.specs.Parts.{IsPartsOf};
ghost use Rattle.hz_check.specs.Parts.Assembly.{placed_statement, IsPlaced};
ghost use Rattle.hz_checked.specs.Shape.{automaton_of, bypass_of};
ghost use Rattle.hz_description_model.specs.Check.CheckFaults.{faults_of_names};
ghost use Rattle.hz_description_model.specs.Check.CheckedParts.{automata_of, bypass_parts};
ghost use Rattle.hz_description_model.specs.Check.FirstReported.{first_reported};
ghost use Rattle.hz_description_model.specs.Check.Places.{statement_of};
ghost use Rattle.hz_description_model.specs.Reading.DescriptionShape.{IsCheckable, SharesAutomaton};

use crate::fault::CheckFault;
use crate::faults::alternations::unbroken;
use crate::faults::bypass_twice::second_number;
use crate::faults::past_expansions::expanded;
use crate::faults::query_under_ndfa::query_under_ndfa;
use crate::faults::reported::{Wrong, refused};
use crate::faults::steps::{named, ordered, placed};
use crate::names::Names;
use crate::parts::assembly::{automata, bypasses};
use crate::parts::placed_sets::{PlacedSet, placed_sets};
use hz_altern::Alt;
use hz_check_reservations::UnitPlace;
use hz_checked::{CheckedAutomaton, CheckedBypass};
use hz_mdread::Description;
use hz_regexp::NoMemory;
use std::alloc::Global;

pub(crate) mod assembly;
pub(crate) mod classes;
pub(crate) mod placed_sets;
pub(crate) mod rules;

/// The automata, the places of the units, the bypasses, the set statements, and for each class its alternatives, all in the order of
/// the file.
#[derive(Drop)]
pub struct Parts {
    pub automata: Vec<CheckedAutomaton>,
    /// For each unit its automaton and its number there.
    pub places: Vec<UnitPlace>,
    pub bypasses: Vec<CheckedBypass>,
    /// The statements on units of all automata.
    pub sets: Vec<PlacedSet>,
    /// The alternatives as they are, not cut down to an automaton.
    pub lists: Vec<Vec<Alt>>,
}

/// The alternatives of the classes, where no fault that is reported of them, of the bypasses or of query units stands. The units have these
/// places, and the numbers of the order are places of reservations, and after them places of classes.
fn class_lists(
    alloc: Global,
    names: &Names<'_>,
    places: &[UnitPlace],
    order: &[usize],
) -> Result<Vec<Vec<Alt>>, CheckFault>
    requires ordered { IsOrdered (description names.now.desc.now) order.now }
    requires within { AreWithin (description names.now.desc.now) }
    requires places { ArePlaces (description names.now.desc.now) places.now }
    ensures ok { IfOk result (λ lists. AreLists (description names.now.desc.now) order.now lists.items) }
    ensures err { IfErr result (Tells (IsReportedAt (description names.now.desc.now))) }
{
    let desc = names.desc;
    let expanded = match expanded(alloc, desc, places, order) {
        Ok(lists) => lists,
        Err(fault) => return Err(fault),
    };
    let lists = match unbroken(alloc, desc, places, order, expanded) {
        Ok(lists) => lists,
        Err(fault) => return Err(fault),
    };
    if let Some(site) = second_number(alloc, names)? {
        return Err(refused(Wrong::BypassTwice, site));
    }
    if let Some(site) = query_under_ndfa(desc) {
        return Err(refused(Wrong::QueryUnderNdfa, site));
    }
    Ok(lists)
}

/// The automata, the set statements and the bypasses, with the places of the units and the alternatives of the classes as they are.
fn assemble(
    alloc: Global,
    names: &Names<'_>,
    places: Vec<UnitPlace>,
    lists: Vec<Vec<Alt>>,
) -> Result<Parts, NoMemory>
    requires within { AreWithin (description names.now.desc.now) }
    requires places { ArePlaces (description names.now.desc.now) places.items }
    ensures automata { IfOk result (λ parts. map automaton_of parts.automata.items ≡ automata_of (description names.now.desc.now)) }
    ensures bypasses { IfOk result (λ parts. map bypass_of parts.bypasses.items ≡ map (bypass_parts (description names.now.desc.now)) (description names.now.desc.now).bypasses) }
    ensures sets { IfOk result (λ parts. map placed_statement parts.sets.items ≡ map (statement_of (description names.now.desc.now)) (description names.now.desc.now).sets) }
    ensures placed { IfOk result (λ parts. All IsPlaced parts.sets.items) }
    ensures places { IfOk result (λ parts. parts.places.items ≡ places.items) }
    ensures lists { IfOk result (λ parts. parts.lists.items ≡ lists.items) }
{
    let sets = placed_sets(alloc, names, &places)?;
    let automata = automata(alloc, names, &sets)?;
    let bypasses = bypasses(alloc, names)?;
    Ok(Parts {
        automata,
        places,
        bypasses,
        sets,
        lists,
    })
}

/// The parts of a description whose names are right, or the fault that is reported. The numbers of the order are places of
/// reservations, and after them places of classes.
fn ordered_parts(alloc: Global, names: &Names<'_>, order: &[usize]) -> Result<Parts, CheckFault>
    requires { IsOrdered (description names.now.desc.now) order.now }
    ensures ok { IfOk result (IsPartsOf (description names.now.desc.now)) }
    ensures err { IfErr result (Tells (IsReportedAt (description names.now.desc.now))) }
{
    let places = match placed(alloc, names, order) {
        Ok(places) => places,
        Err(fault) => return Err(fault),
    };
    let lists = match class_lists(alloc, names, &places, order) {
        Ok(lists) => lists,
        Err(fault) => return Err(fault),
    };
    Ok(assemble(alloc, names, places, lists)?)
}

/// The parts of a description of which no fault of names stands, or the fault that is reported.
fn named_parts(alloc: Global, names: &Names<'_>) -> Result<Parts, CheckFault>
    requires free { first_reported (faults_of_names (description names.now.desc.now)) ≡ None }
    requires formed { IsCheckable (description names.now.desc.now) }
    ensures ok { IfOk result (IsPartsOf (description names.now.desc.now)) }
    ensures err { IfErr result (Tells (IsReportedAt (description names.now.desc.now))) }
{
    match ordered(alloc, names.desc) {
        Ok(order) => ordered_parts(alloc, names, &order.numbers),
        Err(fault) => Err(fault),
    }
}

/// What is made of a description without a fault, or the fault that is reported, as of `check`: the alternatives of the classes and the
/// set statements as they are, before these are cut down to automata. The description stays. `check` says what it must be.
pub fn parts_of(alloc: Global, desc: &Description) -> Result<Parts, CheckFault>
    requires formed { IsCheckable (description desc.now) }
    requires shared { AllPairs SharesAutomaton (description desc.now).units }
    ensures ok { IfOk result (IsPartsOf (description desc.now)) }
    ensures err { IfErr result (Tells (IsReportedAt (description desc.now))) }
{
    match named(alloc, desc) {
        Ok(names) => named_parts(alloc, &names),
        Err(fault) => Err(fault),
    }
}
