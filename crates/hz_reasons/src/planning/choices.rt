//! Alternatives of a description, as they are issued.

ghost use Rattle.std.specs.Prelude.{◌≡◌, ◌≤◌, IfOk, All, map};
ghost use Rattle.std.specs.List.{range_with_len};
ghost use Rattle.hz_altern.specs.Shapes.{alternative_of, alternatives, pair_of, pairs_of};
ghost use Rattle.hz_base_model.specs.Limits.{automaton_limit};
ghost use Rattle.hz_description_model.specs.Reservations.AlternativeLists.{IsCuttable};
ghost use Rattle.hz_description_model.specs.Reservations.Automata.{cut};
ghost use Rattle.hz_reasons.specs.Planning.{parts_in, in_parts, classes_in, in_classes};
ghost use Rattle.hz_reasons.specs.Plans.{place_of};

use crate::plan::{Choice, Place};
use hz_altern::{Alt, Pair, part_in};
use hz_grid::{NoMemory, Usage};
use std::alloc::Global;

/// A pair of an alternative.
fn place(pair: &Pair) -> Place
    ensures { place_of result ≡ pair_of pair.now }
{
    Place {
        automaton: pair.automaton,
        unit: pair.unit,
        cycle: pair.cycle,
    }
}

/// The pairs of an alternative.
fn places(alloc: Global, pairs: &[Pair]) -> Result<Vec<Place>, NoMemory>
    ensures { IfOk result (λ places. map place_of places.items ≡ pairs_of pairs.now) }
{
    let mut places = Vec::with_capacity(alloc, pairs.len())?;
    for pair in pairs {
        let one = place(pair);
        places.push(one)?;
    }
    Ok(places)
}

/// What an alternative takes in each of so many automata.
fn usages(alloc: Global, alt: &Alt, automata: usize) -> Result<Vec<Usage>, NoMemory>
    requires cuttable { IsCuttable (alternative_of alt.now) }
    requires few { automata ≤ automaton_limit }
    ensures { IfOk result (λ usages. usages.items ≡ map (λ a. cut a (alternative_of alt.now).pairs) (range_with_len 0 automata)) }
{
    let mut usages = Vec::with_capacity(alloc, automata)?;
    for automaton in 0..automata {
        let grid = part_in(alloc, alt, automaton as u8)?;
        usages.push(Usage::of(alloc, grid)?)?;
    }
    Ok(usages)
}

/// An alternative over so many automata.
fn choice(alloc: Global, alt: &Alt, automata: usize) -> Result<Choice, NoMemory>
    requires cuttable { IsCuttable (alternative_of alt.now) }
    requires few { automata ≤ automaton_limit }
    ensures { IfOk result (λ choice. parts_in choice ≡ in_parts automata (alternative_of alt.now)) }
{
    let parts = usages(alloc, alt, automata)?;
    let pairs = places(alloc, &alt.pairs)?;
    Ok(Choice { parts, pairs })
}

/// The alternatives of a class, in their order.
fn choices(alloc: Global, alts: &[Alt], automata: usize) -> Result<Vec<Choice>, NoMemory>
    requires cuttable { All IsCuttable (alternatives alts.now) }
    requires few { automata ≤ automaton_limit }
    ensures { IfOk result (λ choices. map parts_in choices.items ≡ map (in_parts automata) (alternatives alts.now)) }
{
    let mut choices = Vec::with_capacity(alloc, alts.len())?;
    for alt in alts {
        let choice = choice(alloc, alt, automata)?;
        choices.push(choice)?;
    }
    Ok(choices)
}

/// The alternatives of the classes, in their order, over so many automata.
pub(crate) fn classes(
    alloc: Global,
    lists: &[Vec<Alt>],
    automata: usize,
) -> Result<Vec<Vec<Choice>>, NoMemory>
    requires cuttable { All (λ list. All IsCuttable (alternatives list.items)) lists.now }
    requires few { automata ≤ automaton_limit }
    ensures { IfOk result (λ classes. classes_in classes.items ≡ in_classes automata lists.now) }
{
    let mut classes = Vec::with_capacity(alloc, lists.len())?;
    for list in lists {
        let choices = choices(alloc, list, automata)?;
        classes.push(choices)?;
    }
    Ok(classes)
}
