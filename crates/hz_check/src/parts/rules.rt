//! The set statements of one automaton as rules.

ghost use Rattle.std.specs.Prelude.{◌≡◌, ◌==◌, All, IfOk, map, filter};
ghost use Rattle.std.specs.List.{list_all};
ghost use Rattle.hz_check.specs.Parts.Assembly.{placed_statement, IsPlaced};
ghost use Rattle.hz_check.specs.Faults.PastUnits.{IsWithin};
ghost use Rattle.hz_check_reservations.specs.Shape.{place_of};
ghost use Rattle.hz_description_model.specs.Reservations.Inside.{inside_statement, is_inside, unit_numbers};
ghost use Rattle.hz_unitsets.specs.SetRules.{statement_of, statements_of};

use crate::parts::placed_sets::PlacedSet;
use hz_check_reservations::UnitPlace;
use hz_regexp::NoMemory;
use hz_unitsets::SetRule;
use std::alloc::Global;

/// Whether all units are of the automaton.
fn all_of(units: &[UnitPlace], automaton: u32) -> bool
    ensures { result ≡ list_all (λ unit. unit.automaton == automaton) units.now }
{
    units.iter().all(|unit| unit.automaton == automaton)
}

/// Whether all units of patterns are of the automaton.
fn all_of_patterns(patterns: &[Vec<UnitPlace>], automaton: u32) -> bool
    ensures { result ≡ list_all (λ pattern. list_all (λ unit. unit.automaton == automaton) pattern.items) patterns.now }
{
    patterns.iter().all(|pattern| all_of(pattern, automaton))
}

/// Whether all units of a statement are of the automaton.
fn is_inside(set: &PlacedSet, automaton: u32) -> bool
    ensures { result ≡ is_inside automaton (placed_statement set.now) }
{
    all_of(&set.units, automaton) && all_of_patterns(&set.patterns, automaton)
}

/// The numbers of units in their automata.
fn numbers(alloc: Global, places: &[UnitPlace]) -> Result<Vec<u8>, NoMemory>
    requires { All IsWithin places.now }
    ensures { IfOk result (λ numbers. numbers.items ≡ unit_numbers (map place_of places.now)) }
{
    let mut numbers = Vec::new(alloc);
    for place in places {
        numbers.push(place.unit as u8)?;
    }
    Ok(numbers)
}

/// The numbers of the units of patterns.
fn numbers_of(alloc: Global, patterns: &[Vec<UnitPlace>]) -> Result<Vec<Vec<u8>>, NoMemory>
    requires { All (λ pattern. All IsWithin pattern.items) patterns.now }
    ensures { IfOk result (λ found. map (λ p. p.items) found.items ≡ map (λ p. unit_numbers (map place_of p.items)) patterns.now) }
{
    let mut found = Vec::new(alloc);
    for pattern in patterns {
        let units = numbers(alloc, pattern)?;
        found.push(units)?;
    }
    Ok(found)
}

/// The statement by the numbers of its units alone.
fn rule(alloc: Global, set: &PlacedSet) -> Result<SetRule, NoMemory>
    requires { IsPlaced set.now }
    ensures { IfOk result (λ rule. statement_of rule ≡ inside_statement (placed_statement set.now)) }
{
    let kind = set.kind;
    let units = numbers(alloc, &set.units)?;
    let patterns = numbers_of(alloc, &set.patterns)?;
    Ok(SetRule {
        kind,
        units,
        patterns,
    })
}

/// The statements on the units of an automaton.
pub(crate) fn rules(
    alloc: Global,
    sets: &[PlacedSet],
    automaton: u32,
) -> Result<Vec<SetRule>, NoMemory>
    requires { All IsPlaced sets.now }
    ensures { IfOk result (λ rules. statements_of rules.items ≡ map inside_statement (filter (is_inside automaton) (map placed_statement sets.now))) }
{
    let mut rules = Vec::new(alloc);
    for set in sets {
        if is_inside(set, automaton) {
            let rule = rule(alloc, set)?;
            rules.push(rule)?;
        }
    }
    Ok(rules)
}
