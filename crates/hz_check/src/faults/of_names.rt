//! Faults of names.

ghost use Rattle.std.specs.Prelude.{◌≡◌, IfOk};
ghost use Rattle.std.specs.Option.{option_map};
ghost use Rattle.hz_mdread.specs.Shape.{description};
ghost use Rattle.hz_check.specs.Faults.{reported_of};
ghost use Rattle.hz_description_model.specs.Check.CheckFaults.{faults_of_names};
ghost use Rattle.hz_description_model.specs.Check.FirstReported.{first_reported};

use crate::faults::reported::{Reported, Wrong, at};
use crate::faults::reserved_name::reserved_name;
use crate::faults::twice_defined::second_definition;
use crate::faults::unit_needs_automaton::unit_without_automaton;
use crate::faults::unknown_automaton::unknown_automaton;
use crate::faults::unknown_name::unknown_name;
use crate::names::Names;
use hz_regexp::NoMemory;
use std::alloc::Global;

/// The first fault of names, if there is one.
pub(crate) fn fault_of_names<'a>(
    alloc: Global,
    names: &Names<'a>,
) -> Result<Option<Reported<'a>>, NoMemory>
    ensures { IfOk result (λ reported. option_map reported_of reported ≡ first_reported (faults_of_names (description names.now.desc.now))) }
{
    let desc = names.desc;
    let twice = at(Wrong::TwiceDefined, second_definition(alloc, desc)?);
    let reserved = at(Wrong::ReservedName, reserved_name(desc));
    let unknown = at(Wrong::UnknownName, unknown_name(names));
    let automaton = at(Wrong::UnknownAutomaton, unknown_automaton(names));
    let unit = at(Wrong::UnitNeedsAutomaton, unit_without_automaton(desc));
    Ok(twice.or(reserved.or(unknown.or(automaton.or(unit)))))
}
