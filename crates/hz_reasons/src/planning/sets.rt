//! Set statements of a description, in the order of the file and automaton by automaton.

ghost use Rattle.std.specs.Prelude.{◌≡◌, IfOk, All, map, length};
ghost use Rattle.hz_check.specs.Faults.PastUnits.{IsWithin};
ghost use Rattle.hz_check.specs.Parts.Assembly.{placed_statement, IsPlaced};
ghost use Rattle.hz_check_reservations.specs.Shape.{place_of};
ghost use Rattle.hz_unitsets.specs.SetRules.{IsInRange};
ghost use Rattle.hz_reasons.specs.Planning.{AreRulesUpTo};
ghost use Rattle.hz_reasons.specs.Plans.{unit_of, statement_of};

use crate::plan::{AutomatonUnit, SetStatement};
use hz_check::PlacedSet;
use hz_check_reservations::UnitPlace;
use hz_checked::CheckedAutomaton;
use hz_grid::NoMemory;
use hz_unitsets::Rules;
use std::alloc::Global;

/// A unit by its place.
fn unit(place: &UnitPlace) -> AutomatonUnit
    requires { IsWithin place.now }
    ensures { unit_of result ≡ place_of place.now }
{
    AutomatonUnit {
        automaton: place.automaton as u8,
        unit: place.unit as u8,
    }
}

/// Units by their places.
fn units(alloc: Global, places: &[UnitPlace]) -> Result<Vec<AutomatonUnit>, NoMemory>
    requires { All IsWithin places.now }
    ensures { IfOk result (λ units. map unit_of units.items ≡ map place_of places.now) }
{
    let mut units = Vec::with_capacity(alloc, places.len())?;
    for place in places {
        let one = unit(place);
        units.push(one)?;
    }
    Ok(units)
}

/// Patterns by the places of their units.
fn patterns(alloc: Global, placed: &[Vec<UnitPlace>]) -> Result<Vec<Vec<AutomatonUnit>>, NoMemory>
    requires { All (λ pattern. All IsWithin pattern.items) placed.now }
    ensures { IfOk result (λ patterns. map (λ pattern. map unit_of pattern.items) patterns.items ≡ map (λ pattern. map place_of pattern.items) placed.now) }
{
    let mut patterns = Vec::with_capacity(alloc, placed.len())?;
    for pattern in placed {
        let pattern = units(alloc, pattern)?;
        patterns.push(pattern)?;
    }
    Ok(patterns)
}

/// A set statement by the places of its units.
fn set(alloc: Global, placed: &PlacedSet) -> Result<SetStatement, NoMemory>
    requires { IsPlaced placed.now }
    ensures { IfOk result (λ set. statement_of set ≡ placed_statement placed.now) }
{
    let kind = placed.kind;
    let units = units(alloc, &placed.units)?;
    let patterns = patterns(alloc, &placed.patterns)?;
    Ok(SetStatement {
        kind,
        units,
        patterns,
    })
}

/// The set statements, in their order.
pub(crate) fn sets(alloc: Global, placed: &[PlacedSet]) -> Result<Vec<SetStatement>, NoMemory>
    requires { All IsPlaced placed.now }
    ensures { IfOk result (λ sets. map statement_of sets.items ≡ map placed_statement placed.now) }
{
    let mut sets = Vec::with_capacity(alloc, placed.len())?;
    for one in placed {
        let set = set(alloc, one)?;
        sets.push(set)?;
    }
    Ok(sets)
}

/// The set statements of the automata, in their order.
pub(crate) fn rules(alloc: Global, automata: &[CheckedAutomaton]) -> Result<Vec<Rules>, NoMemory>
    requires { All (λ automaton. All IsInRange automaton.sets.items) automata.now }
    ensures { IfOk result (λ rules. AreRulesUpTo (length automata.now) automata.now rules.items) }
{
    let mut rules = Vec::with_capacity(alloc, automata.len())?;
    for automaton in automata {
        let built = Rules::build(alloc, &automaton.sets)?;
        rules.push(built)?;
    }
    Ok(rules)
}
