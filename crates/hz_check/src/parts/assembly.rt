//! What a description without a fault gives, put together.

ghost use Rattle.std.specs.Prelude.{◌≡◌, ◌<◌, ◌≤◌, ℕ, All, IfOk, codes, length, map};
ghost use Rattle.hz_mdread.specs.Shape.{description, bypass_item};
ghost use Rattle.hz_check.specs.Parts.Assembly.{placed_statement, IsPlaced};
ghost use Rattle.hz_checked.specs.Shape.{automaton_of, bypass_of, attribute_of};
ghost use Rattle.hz_description_model.specs.Check.CheckedParts.{units_in, queries_in, automaton_parts, automata_from, automata_of, bypass_parts, class_numbers};
ghost use Rattle.hz_base_model.specs.Limits as limits;
ghost use Rattle.hz_description_model.specs.Check.Places.{statement_of};

use crate::names::Names;
use crate::names::class_numbers::class_numbers;
use crate::parts::placed_sets::PlacedSet;
use crate::parts::rules::rules;
use hz_checked::{CheckedAutomaton, CheckedBypass};
use hz_mdread::{AttrItem, BypassItem};
use hz_regexp::{Name, NoMemory};
use std::alloc::Global;

/// The names of the units of an automaton, in the order of the file.
fn units_in<'a>(alloc: Global, names: &Names<'a>, automaton: usize) -> Result<Vec<Name>, NoMemory>
    ensures { IfOk result (λ units. units.items ≡ units_in (description names.now.desc.now) automaton) }
{
    let desc = names.desc;
    let mut units = Vec::new(alloc);
    for unit in &desc.units {
        if names.automaton_number(unit) == automaton {
            units.push(unit.name.copy()?)?;
        }
    }
    Ok(units)
}

/// The query units of an automaton by their numbers in it, in the order of the file.
fn queries_in<'a>(alloc: Global, names: &Names<'a>, automaton: usize) -> Result<Vec<u8>, NoMemory>
    requires { length (units_in (description names.now.desc.now) automaton) ≤ limits.unit_limit }
    ensures { IfOk result (λ queries. queries.items ≡ queries_in (description names.now.desc.now) automaton) }
{
    let desc = names.desc;
    let mut queries = Vec::new(alloc);
    let mut number = 0usize;
    for unit in &desc.units {
        if names.automaton_number(unit) == automaton {
            if unit.query {
                queries.push(number as u8)?;
            }
            number += 1;
        }
    }
    Ok(queries)
}

/// The automaton of a number and its name.
fn automaton<'a>(
    alloc: Global,
    names: &Names<'a>,
    sets: &[PlacedSet],
    number: usize,
    name: Name,
) -> Result<CheckedAutomaton, NoMemory>
    requires few { number < limits.automaton_limit }
    requires small { (n : ℕ) → length (units_in (description names.now.desc.now) n) ≤ limits.unit_limit }
    requires sets { map placed_statement sets.now ≡ map (statement_of (description names.now.desc.now)) (description names.now.desc.now).sets }
    requires placed { All IsPlaced sets.now }
    ensures { IfOk result (λ a. automaton_of a ≡ automaton_parts (description names.now.desc.now) number name) }
{
    let units = units_in(alloc, names, number)?;
    let queries = queries_in(alloc, names, number)?;
    let sets = rules(alloc, sets, number as u32)?;
    Ok(CheckedAutomaton {
        name,
        units,
        queries,
        sets,
    })
}

/// The name of the nameless automaton.
fn nameless(alloc: Global) -> Result<Name, NoMemory>
    ensures { IfOk result (λ name. name ≡ codes "-") }
{
    match Name::of(alloc, b"-")? {
        Some(name) => Ok(name),
        None => unreachable!(),
    }
}

/// The automata that are defined.
fn defined_automata<'a>(
    alloc: Global,
    names: &Names<'a>,
    sets: &[PlacedSet],
) -> Result<Vec<CheckedAutomaton>, NoMemory>
    requires few { length (description names.now.desc.now).automata ≤ limits.automaton_limit }
    requires small { (n : ℕ) → length (units_in (description names.now.desc.now) n) ≤ limits.unit_limit }
    requires sets { map placed_statement sets.now ≡ map (statement_of (description names.now.desc.now)) (description names.now.desc.now).sets }
    requires placed { All IsPlaced sets.now }
    ensures { IfOk result (λ automata. map automaton_of automata.items ≡ automata_from (description names.now.desc.now) 0 (map (λ a. a.name) (description names.now.desc.now).automata)) }
{
    let desc = names.desc;
    let mut automata = Vec::new(alloc);
    for (number, item) in desc.automata.iter().enumerate() {
        let name = item.name.copy()?;
        let automaton = automaton(alloc, names, sets, number, name)?;
        automata.push(automaton)?;
    }
    Ok(automata)
}

/// The automata, in the order of the file.
pub(crate) fn automata<'a>(
    alloc: Global,
    names: &Names<'a>,
    sets: &[PlacedSet],
) -> Result<Vec<CheckedAutomaton>, NoMemory>
    requires few { length (description names.now.desc.now).automata ≤ limits.automaton_limit }
    requires small { (n : ℕ) → length (units_in (description names.now.desc.now) n) ≤ limits.unit_limit }
    requires sets { map placed_statement sets.now ≡ map (statement_of (description names.now.desc.now)) (description names.now.desc.now).sets }
    requires placed { All IsPlaced sets.now }
    ensures { IfOk result (λ automata. map automaton_of automata.items ≡ automata_of (description names.now.desc.now)) }
{
    if !names.desc.automata.is_empty() {
        return defined_automata(alloc, names, sets);
    }
    let name = nameless(alloc)?;
    let one = automaton(alloc, names, sets, 0, name)?;
    let automata = vec![in alloc; one]?;
    Ok(automata)
}

/// Numbers of classes, which are few.
fn small(alloc: Global, numbers: &[usize]) -> Result<Vec<u32>, NoMemory>
    requires { All (λ number. number < limits.class_limit) numbers.now }
    ensures { IfOk result (λ small. small.items ≡ numbers.now) }
{
    let mut small = Vec::new(alloc);
    for number in numbers {
        small.push(*number as u32)?;
    }
    Ok(small)
}

/// The numbers of the classes of these names.
fn numbers<'a>(alloc: Global, names: &Names<'a>, classes: &'a [Name]) -> Result<Vec<u32>, NoMemory>
    requires { length (description names.now.desc.now).classes ≤ limits.class_limit }
    ensures { IfOk result (λ numbers. numbers.items ≡ class_numbers (description names.now.desc.now) classes.now) }
{
    let numbers = class_numbers(alloc, names, classes)?;
    small(alloc, &numbers)
}

/// A bypass by the numbers of classes.
fn bypass<'a>(
    alloc: Global,
    names: &Names<'a>,
    item: &'a BypassItem,
) -> Result<CheckedBypass, NoMemory>
    requires { length (description names.now.desc.now).classes ≤ limits.class_limit }
    ensures { IfOk result (λ bypass. bypass_of bypass ≡ bypass_parts (description names.now.desc.now) (bypass_item item.now)) }
{
    let outs = numbers(alloc, names, &item.outs)?;
    let ins = numbers(alloc, names, &item.ins)?;
    Ok(CheckedBypass {
        number: item.number,
        outs,
        ins,
        guard: item.guard,
    })
}

/// The bypasses, in the order of the file.
pub(crate) fn bypasses<'a>(alloc: Global, names: &Names<'a>) -> Result<Vec<CheckedBypass>, NoMemory>
    requires { length (description names.now.desc.now).classes ≤ limits.class_limit }
    ensures { IfOk result (λ bypasses. map bypass_of bypasses.items ≡ map (bypass_parts (description names.now.desc.now)) (description names.now.desc.now).bypasses) }
{
    let desc = names.desc;
    let mut bypasses = Vec::new(alloc);
    for item in &desc.bypasses {
        let bypass = bypass(alloc, names, item)?;
        bypasses.push(bypass)?;
    }
    Ok(bypasses)
}

/// The attributes with their values, and their defaults.
#[derive(Drop)]
pub(crate) struct CheckedAttributes {
    pub values: Vec<(Name, Vec<Name>)>,
    pub defaults: Vec<(Name, Name)>,
}

/// The attributes, in the order of the file.
pub(crate) fn attributes(alloc: Global, items: Vec<AttrItem>) -> Result<CheckedAttributes, NoMemory>
    ensures values { IfOk result (λ a. map attribute_of a.values.items ≡ map (λ i. (i.name, i.values.items)) items.items) }
    ensures defaults { IfOk result (λ a. a.defaults.items ≡ map (λ i. (i.name, i.fallback)) items.items) }
{
    let mut values = Vec::new(alloc);
    let mut defaults = Vec::new(alloc);
    for item in items {
        let name = item.name.copy()?;
        values.push((name, item.values))?;
        defaults.push((item.name, item.fallback))?;
    }
    Ok(CheckedAttributes { values, defaults })
}
