//! Alternatives cut down to one automaton.

ghost use Rattle.std.specs.Prelude.{◌≡◌, ◌↔◌, ◌++◌, ◌∷◌, ℕ, [], All, Contains, IfOk, OnOk, not, filter, map, if◌then◌else◌};
ghost use Rattle.std.specs.List.{list_any};
ghost use Rattle.std.specs.Ordering.{nat_cmp};
ghost use Rattle.hz_base_model.specs.Pairs.{IsAscendingBy, grid_eq};
ghost use Rattle.hz_altern.specs.Cuts.{within_pairs, cuts_of};
ghost use Rattle.hz_altern.specs.Shapes.{alternative_of, alternatives, pairs_of};
ghost use Rattle.hz_description_model.specs.Reservations.AlternativeLists.{IsCuttable};
ghost use Rattle.hz_description_model.specs.Reservations.Automata.{cut, inside, is_of, list_in};

use crate::alternative::{Alt, Pair};
use crate::fault::NoMemory;
use hz_grid::Grid;
use indexmap::IndexSet;
use std::alloc::Global;

/// The unit and the cycle of each pair of the automaton.
fn within(alloc: Global, pairs: &[Pair], automaton: u8) -> Result<Vec<(u8, u16)>, NoMemory>
    ensures { IfOk result (λ within. within_pairs within.items ≡ map inside (filter (is_of automaton) (pairs_of pairs.now))) }
{
    let mut within = Vec::new(alloc);
    for pair in pairs {
        if pair.automaton == automaton {
            within.push((pair.unit, pair.cycle))?;
        }
    }
    Ok(within)
}

/// Puts pairs of a unit and a cycle in the order of cycles and then of units, each once.
fn put_in_order(pairs: &mut Vec<(u8, u16)>)
    ensures ascending { IsAscendingBy nat_cmp (within_pairs pairs.new.items) }
    ensures same { (pair : ℕ × ℕ) → Contains pairs.new.items pair ↔ Contains pairs.old.items pair }
{
    pairs.sort_unstable_by_key(|pair| (pair.1, pair.0));
    pairs.dedup();
}

/// What an alternative takes of the units of an automaton, as pairs and as a grid.
fn cut(alloc: Global, alt: &Alt, automaton: u8) -> Result<(Vec<(u8, u16)>, Grid), NoMemory>
    requires { IsCuttable (alternative_of alt.now) }
    ensures pairs { IfOk result (λ taken. within_pairs taken.0.items ≡ cut automaton (alternative_of alt.now).pairs) }
    ensures grid { IfOk result (λ taken. taken.1 ≡ cut automaton (alternative_of alt.now).pairs) }
{
    let mut pairs = within(alloc, &alt.pairs, automaton)?;
    put_in_order(&mut pairs);
    let grid = Grid::of(alloc, &pairs)?;
    Ok((pairs, grid))
}

/// What an alternative takes of the units of an automaton. Units are below `UNITS` and cycles below `CYCLES` of `hz_grid`; pairs may
/// stand in any order. `NoMemory` where there was none.
pub fn part_in(alloc: Global, alt: &Alt, automaton: u8) -> Result<Grid, NoMemory>
    requires { IsCuttable (alternative_of alt.now) }
    ensures { IfOk result (λ grid. grid ≡ cut automaton (alternative_of alt.now).pairs) }
{
    let (_pairs, grid) = cut(alloc, alt, automaton)?;
    Ok(grid)
}

/// Adds pairs that are not among those that were seen, and says whether they were new.
fn is_new(seen: &mut IndexSet<Vec<(u8, u16)>>, pairs: Vec<(u8, u16)>) -> Result<bool, NoMemory>
    ensures new { IfOk result (λ new. new ≡ not (list_any (grid_eq (within_pairs pairs.items)) (cuts_of seen.old.keys))) }
    ensures seen { IfOk result (λ new. cuts_of seen.new.keys ≡ (if new then cuts_of seen.old.keys ++ within_pairs pairs.items ∷ [] else cuts_of seen.old.keys)) }
{
    let new = seen.insert(pairs)?;
    Ok(new)
}

/// Adds a grid after the others, where it is new.
fn keep_new(grids: &mut Vec<Grid>, grid: Grid, new: bool) -> Result<(), NoMemory>
    ensures { OnOk result (grids.new.items ≡ (if new then grids.old.items ++ grid ∷ [] else grids.old.items)) }
{
    if new {
        grids.push(grid)?;
    }
    Ok(())
}

/// What alternatives take of the units of an automaton, in their order, each later equal grid dropped. Units are below
/// `UNITS` and cycles below `CYCLES` of `hz_grid`; pairs may stand in any order. `NoMemory` where there was none.
pub fn project(alloc: Global, alts: &[Alt], automaton: u8) -> Result<Vec<Grid>, NoMemory>
    requires { All IsCuttable (alternatives alts.now) }
    ensures { IfOk result (λ grids. grids.items ≡ list_in automaton (alternatives alts.now)) }
{
    let mut seen = IndexSet::new(alloc);
    let mut grids = Vec::new(alloc);
    for alt in alts {
        let (pairs, grid) = cut(alloc, alt, automaton)?;
        let new = is_new(&mut seen, pairs)?;
        keep_new(&mut grids, grid, new)?;
    }
    Ok(grids)
}
