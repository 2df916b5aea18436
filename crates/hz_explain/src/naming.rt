//! The names that the lines of a trace say, and the numbers of query units, by the parts of a description.

ghost use Rattle.std.specs.Prelude.{◌≡◌, ◌<◌, All, IfOk, length, map};
ghost use Rattle.hz_front_model.specs.Asks.{trace_names};
ghost use Rattle.hz_check.specs.Parts.{IsPartsOf};
ghost use Rattle.hz_checked.specs.Shape.{automaton_of};
ghost use Rattle.hz_description_model.specs.Check.CheckedShape.{ask_names};
ghost use Rattle.hz_description_model.specs.Check.Places.{class_names};
ghost use Rattle.hz_description_model.specs.Reading.DescriptionShape.{IsCheckable};
ghost use Rattle.hz_mdread.specs.Shape.{description};
ghost use Rattle.hz_reasons.specs.Walking.{numbers_of};
ghost use Rattle.hz_explain.specs.Answering.{names_at};
ghost use Rattle.hz_explain.specs.Naming.{AsksUnits};

use hz_check::Parts;
use hz_checked::CheckedAutomaton;
use hz_grid::NoMemory;
use hz_mdread::Description;
use hz_regexp::Name;
use hz_replay::Names;
use std::alloc::Global;

/// The names of the classes, in the order of the file.
pub(crate) fn class_names(alloc: Global, desc: &Description) -> Result<Vec<Name>, NoMemory>
    ensures { IfOk result (λ names. names.items ≡ class_names (description desc.now)) }
{
    let mut names = Vec::with_capacity(alloc, desc.classes.len())?;
    for class in &desc.classes {
        names.push(class.name.copy()?)?;
    }
    Ok(names)
}

/// The names of the query units of an automaton, in their order.
fn ask_names(alloc: Global, automaton: &CheckedAutomaton) -> Result<Vec<Name>, NoMemory>
    requires { All (λ unit. unit < length automaton.now.units.items) automaton.now.queries.items }
    ensures { IfOk result (λ names. names.items ≡ ask_names (automaton_of automaton.now)) }
{
    let mut names = Vec::with_capacity(alloc, automaton.queries.len())?;
    for unit in &automaton.queries {
        names.push(automaton.units[*unit as usize].copy()?)?;
    }
    Ok(names)
}

/// The names of the query units, automaton by automaton.
pub(crate) fn query_names(
    alloc: Global,
    automata: &[CheckedAutomaton],
) -> Result<Vec<Vec<Name>>, NoMemory>
    requires { All AsksUnits automata.now }
    ensures { IfOk result (λ names. names_at names.items ≡ map ask_names (map automaton_of automata.now)) }
{
    let mut all = Vec::with_capacity(alloc, automata.len())?;
    for automaton in automata {
        all.push(ask_names(alloc, automaton)?)?;
    }
    Ok(all)
}

/// The numbers of the query units, automaton by automaton.
pub(crate) fn query_numbers(
    alloc: Global,
    automata: &[CheckedAutomaton],
) -> Result<Vec<Vec<u8>>, NoMemory>
    ensures { IfOk result (λ numbers. numbers_of numbers.items ≡ map (λ a. a.queries.items) automata.now) }
{
    let mut all = Vec::with_capacity(alloc, automata.len())?;
    for automaton in automata {
        let numbers = Vec::from_slice(alloc, &automaton.queries)?;
        all.push(numbers)?;
    }
    Ok(all)
}

/// The names that the lines of a trace say: those of the classes, and automaton by automaton those of the query units, of a description
/// without a fault and its parts. `NoMemory` where there was none.
pub fn trace_names(alloc: Global, desc: &Description, parts: &Parts) -> Result<Names, NoMemory>
    requires formed { IsCheckable (description desc.now) }
    requires parts { IsPartsOf (description desc.now) parts.now }
    ensures { IfOk result (λ names. names ≡ trace_names (description desc.now)) }
{
    let classes = class_names(alloc, desc)?;
    let mut names = Names::of_classes(alloc, &classes)?;
    for automaton in &parts.automata {
        let asks = ask_names(alloc, automaton)?;
        names = names.with_units(alloc, &asks)?;
    }
    Ok(names)
}
