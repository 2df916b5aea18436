//! The load of the greatest value.

ghost use Rattle.std.specs.Prelude.{◌≡◌, ◌<◌, ◌≤◌, length, map, All, IfOk, slice_index_or, []};
ghost use Rattle.std.specs.Option.{option_map, option_map_or};
ghost use Rattle.hz_block_model.specs.Running.Limits.{instruction_limit};
ghost use Rattle.hz_measure_model.specs.Bounds.Bounds as model;
ghost use Rattle.hz_measure_model.specs.Bounds.Loads.{ways_by};
ghost use Rattle.hz_bound.specs.Shape.{names_of, lists_in, load_of};
ghost use Rattle.hz_bound.specs.Tallies.{AreMasks};
ghost use Rattle.hz_bound.specs.Sums.{AreTimes, load_by, shown};

use crate::loads::{Total, load_from, times_of, totals_of};
use crate::parts::Load;
use crate::tallies::masks_of;
use hz_checked::Checked;
use hz_depend::GraphInsn;
use hz_grid::Row;
use hz_regexp::NoMemory;
use std::alloc::Global;

/// The load of the greater value, of equal ones the first.
fn heavier(first: Option<Load>, second: Option<Load>) -> Option<Load>
    ensures { option_map load_of result ≡ model.heavier (option_map load_of first) (option_map load_of second) }
{
    match first {
        None => second,
        Some(a) => match second {
            None => Some(a),
            Some(b) => { if a.value < b.value { Some(b) } else { Some(a) } }
        },
    }
}

/// The value of a load, 0 where there is none.
pub fn value_of(load: Option<Load>) -> u32
    ensures { result ≡ option_map_or (λ l. l.load.value) (option_map load_of load) 0 }
{
    match load {
        None => 0,
        Some(load) => load.value,
    }
}

/// The load of a unit of an automaton by its total, if there is one.
fn load_at(total: Total, automaton: usize, unit: usize) -> Option<Load>
    requires automaton { automaton < 4294967296 }
    requires unit { unit < 256 }
    ensures { option_map load_of result ≡ option_map (λ l. record { unit = record { automaton = automaton; unit = unit }; load = l }) (option_map shown (load_by total)) }
{
    match load_from(total) {
        None => None,
        Some(load) => Some(Load {
            automaton: automaton as u32,
            unit: unit as u32,
            count: load.count,
            span: load.span,
            value: load.value,
        }),
    }
}

/// How many units an automaton has.
fn unit_count(checked: &Checked, automaton: usize) -> usize
    requires { automaton < length checked.now.automata.items }
    ensures count { result ≡ length (slice_index_or (names_of checked.now) automaton []) }
    ensures few { result ≤ 256 }
{
    checked.automata[automaton].units.len()
}

/// The load of the greatest value of the units of an automaton.
fn heaviest_in(
    alloc: Global,
    checked: &Checked,
    masks: &[Row<4>],
    times: &[u32],
    insns: &[GraphInsn],
    automaton: usize,
) -> Result<Option<Load>, NoMemory>
    requires few { length insns.now ≤ instruction_limit }
    requires classes { All (λ i. i.class < length checked.now.classes.items) insns.now }
    requires size { length masks.now ≡ 16 }
    requires masks { AreMasks masks.now }
    requires times { AreTimes (map (λ i. i.class) insns.now) (length checked.now.classes.items) times.now }
    requires automaton { automaton < length checked.now.automata.items }
    ensures { IfOk result (λ load. option_map load_of load ≡ model.heaviest (model.loads_of (ways_by (lists_in checked.now.classes.items)) (model.units_of automaton (length (slice_index_or (names_of checked.now) automaton []))) (map (λ i. i.class) insns.now))) }
{
    let units = unit_count(checked, automaton);
    let totals = totals_of(alloc, &checked.classes, masks, times, automaton, units)?;
    let mut most = None;
    for unit in 0..units {
        most = heavier(most, load_at(totals[unit], automaton, unit));
    }
    Ok(most)
}

/// The load of the greatest value of all units, of the least automaton and unit among equals; none where no instruction needs a
/// unit in all its alternatives.
pub fn heaviest_of(
    alloc: Global,
    checked: &Checked,
    insns: &[GraphInsn],
) -> Result<Option<Load>, NoMemory>
    requires few { length insns.now ≤ instruction_limit }
    requires classes { All (λ i. i.class < length checked.now.classes.items) insns.now }
    ensures { IfOk result (λ load. option_map load_of load ≡ model.heaviest (model.loads_of (ways_by (lists_in checked.now.classes.items)) (model.units_from 0 (names_of checked.now)) (map (λ i. i.class) insns.now))) }
{
    let times = times_of(alloc, insns, checked.classes.len())?;
    let masks = masks_of(alloc)?;
    let mut most = None;
    for automaton in 0..checked.automata.len() {
        let load = heaviest_in(alloc, checked, &masks, &times, insns, automaton)?;
        most = heavier(most, load);
    }
    Ok(most)
}
