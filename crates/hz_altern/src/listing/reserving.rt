//! The pairs of names from the cycles on in which they begin.

ghost use Rattle.std.specs.Prelude.{◌≡◌, ◌↔◌, ◌⊎◌, ◌<◌, ◌≤◌, ◌∷◌, [], ℕ, All, IfOk, OnOk};
ghost use Rattle.std.specs.List.{Contains};
ghost use Rattle.hz_altern.specs.Leaves.{Takes, TakesIn, EndsBy, AllEndBy};
ghost use Rattle.hz_altern.specs.Reserved.{IsReserved, AreUnits, IsOfPairs, ReservesToo, IsOfUnit, IsOfUnits};
ghost use Rattle.hz_altern.specs.Shapes.{pairs_of};
ghost use Rattle.hz_description_model.specs.Reservations.AlternativeLists.{IsAscending};
ghost use Rattle.hz_description_model.specs.Reservations.Automata.{UnitPlace};
ghost use Rattle.hz_base_model.specs.Limits.{automaton_limit, cycle_limit, unit_limit};
ghost use Rattle.hz_base_model.specs.Pairs.{Pair as model_pair};
ghost use Rattle.hz_grid.specs.Sets.{HasCycle};

use crate::alternative::Pair;
use crate::fault::NoMemory;
use crate::known::Known;
use crate::listing::leaves::Leaves;
use hz_grid::{Cycles, ReservationTable};
use hz_regexp::Name;
use std::alloc::Global;

/// A reservation table, and the units that are taken in some cycle.
#[derive(Drop)]
pub struct Reserved {
    table: ReservationTable,
    units: Vec<(u8, u8)>,
}

impl Reserved {
    ghost use Rattle.std.specs.Prelude.{◌≡◌, ◌<◌, ◌∷◌, [], ℕ, All, IfOk, OnOk};
    ghost use Rattle.hz_altern.specs.Leaves.{TakesIn, EndsBy};
    ghost use Rattle.hz_altern.specs.Reserved.{IsReserved, AreUnits, IsOfPairs, ReservesToo};
    ghost use Rattle.hz_altern.specs.Shapes.{pairs_of};
    ghost use Rattle.hz_description_model.specs.Reservations.Automata.{UnitPlace};
    ghost use Rattle.hz_base_model.specs.Limits.{automaton_limit, cycle_limit, unit_limit};
    ghost use Rattle.hz_base_model.specs.Pairs.{Pair as model_pair};
    ghost use Rattle.hz_grid.specs.Sets.{HasCycle};

    /// Nothing is reserved.
    fn new(alloc: Global) -> Result<Reserved, NoMemory>
        ensures none { IfOk result (λ reserved. (p : model_pair UnitPlace) → ¬ IsReserved reserved p) }
        ensures units { IfOk result AreUnits }
    {
        Ok(Reserved {
            table: ReservationTable::new(alloc)?,
            units: Vec::new(alloc),
        })
    }

    /// Reserves a unit in these cycles too.
    fn take(&mut self, automaton: u8, unit: u8, cycles: Cycles) -> Result<(), NoMemory>
        requires automaton { automaton < automaton_limit }
        requires unit { unit < unit_limit }
        ensures { OnOk result (ReservesToo (λ p. (p.unit.automaton ≡ automaton) × (p.unit.unit ≡ unit) × HasCycle cycles p.cycle) self.old self.new) }
    {
        if self.table.cycles_of(automaton, unit).is_empty() {
            self.units.push((automaton, unit))?;
        }
        self.table.take(automaton, unit, cycles);
        Ok(())
    }

    /// Reserves the units of pairs, each in its cycle from each of these cycles on.
    fn take_pairs(&mut self, pairs: &[Pair], starts: Cycles) -> Result<(), NoMemory>
        requires automata { All (λ p. p.automaton < automaton_limit) pairs.now }
        requires units { All (λ p. p.unit < unit_limit) pairs.now }
        ensures { OnOk result (ReservesToo (IsOfPairs (pairs_of pairs.now) starts) self.old self.new) }
    {
        for pair in pairs {
            self.take(pair.automaton, pair.unit, starts.later(pair.cycle as u32))?;
        }
        Ok(())
    }

    /// Reserves what a name stands for, from each of these cycles on.
    fn take_name(&mut self, name: &Name, starts: Cycles, known: &Known) -> Result<(), NoMemory>
        requires { (start : ℕ) → HasCycle starts start → EndsBy known.now cycle_limit name.now start }
        ensures { OnOk result (ReservesToo (TakesIn known.now ((name.now, starts) ∷ [])) self.old self.new) }
    {
        match known.find(name) {
            Some(entry) => self.take_pairs(&entry.alts[0].pairs, starts)?,
            None => {}
        }
        Ok(())
    }
}

/// What names reserve, from each cycle on in which they begin.
fn reserve_all(alloc: Global, leaves: &Leaves, known: &Known) -> Result<Reserved, NoMemory>
    requires { AllEndBy known.now cycle_limit leaves.now }
    ensures same { IfOk result (λ reserved. (p : model_pair UnitPlace) → IsReserved reserved p ↔ Takes known.now leaves.now p) }
    ensures units { IfOk result AreUnits }
{
    let mut reserved = Reserved::new(alloc)?;
    for place in 0..leaves.len() {
        let (name, starts) = leaves.at(place);
        reserved.take_name(name, starts, known)?;
    }
    Ok(reserved)
}

/// Adds the pairs of a unit in the cycles below a length.
fn push_unit(
    automaton: u8,
    unit: u8,
    cycles: Cycles,
    length: u32,
    pairs: &mut Vec<Pair>,
) -> Result<(), NoMemory>
    requires { length ≤ cycle_limit }
    ensures { OnOk result ((p : model_pair UnitPlace) → Contains (pairs_of pairs.new.items) p ↔ (Contains (pairs_of pairs.old.items) p ⊎ IsOfUnit automaton unit cycles length p)) }
{
    for cycle in 0..length {
        if cycles.holds(cycle) {
            let cycle = cycle as u16;
            pairs.push(Pair {
                automaton,
                unit,
                cycle,
            })?;
        }
    }
    Ok(())
}

/// The pairs of what is reserved in the cycles below a length, in no order.
fn listed(alloc: Global, reserved: &Reserved, length: u32) -> Result<Vec<Pair>, NoMemory>
    requires units { AreUnits reserved.now }
    requires short { length ≤ cycle_limit }
    ensures { IfOk result (λ pairs. (p : model_pair UnitPlace) → Contains (pairs_of pairs.items) p ↔ IsOfUnits reserved.now reserved.now.units.items length p) }
{
    let mut pairs = Vec::new(alloc);
    for (automaton, unit) in &reserved.units {
        let cycles = reserved.table.cycles_of(*automaton, *unit);
        push_unit(*automaton, *unit, cycles, length, &mut pairs)?;
    }
    Ok(pairs)
}

/// Puts pairs in the order of cycles, automata and units, each once.
fn put_in_order(pairs: &mut Vec<Pair>)
    ensures ascending { IsAscending (pairs_of pairs.new.items) }
    ensures same { (p : model_pair UnitPlace) → Contains (pairs_of pairs.new.items) p ↔ Contains (pairs_of pairs.old.items) p }
{
    pairs.sort_unstable_by_key(|pair| (pair.cycle, pair.automaton, pair.unit));
    pairs.dedup();
}

/// The pairs of what names stand for, from each cycle on in which they begin, each once and ascending. None is as late as
/// the length.
pub fn pairs(
    alloc: Global,
    leaves: &Leaves,
    length: u32,
    known: &Known,
) -> Result<Vec<Pair>, NoMemory>
    requires ends { AllEndBy known.now cycle_limit leaves.now }
    requires within { (p : model_pair UnitPlace) → Takes known.now leaves.now p → p.cycle < length }
    requires short { length ≤ cycle_limit }
    ensures ascending { IfOk result (λ pairs. IsAscending (pairs_of pairs.items)) }
    ensures same { IfOk result (λ pairs. (p : model_pair UnitPlace) → Contains (pairs_of pairs.items) p ↔ Takes known.now leaves.now p) }
{
    let reserved = reserve_all(alloc, leaves, known)?;
    let mut pairs = listed(alloc, &reserved, length)?;
    put_in_order(&mut pairs);
    Ok(pairs)
}
