//! The columns of an automaton: classes with equal lists share one.

ghost use Rattle.std.specs.Prelude.{◌≡◌, ◌<◌, ◌≤◌, ℕ, length, map, All, IfOk, OnOk};
ghost use Rattle.hz_base_model.specs.Limits.{class_limit};
ghost use Rattle.hz_pipeline_model.specs.Compiling.AutomatonPipelines.{lists_at};
ghost use Rattle.hz_pipeline_model.specs.Compiling.ClassColumns.{IsColumns};
ghost use Rattle.hz_checked.specs.Shape.{class_of};
ghost use Rattle.hz_determ.specs.Spaces.{lists_of};
ghost use Rattle.hz_states.specs.Interned.{IsAdded};

use hz_checked::CheckedClass;
use hz_grid::Grid;
use hz_states::NoMemory;
use indexmap::IndexSet;
use std::alloc::Global;
use std::hash::{Hash, Hasher};
use std::marker::Model;

/// The lists of the columns, each different list once, and the column of each class.
#[derive(Drop)]
pub(crate) struct Columns {
    pub lists: Vec<Vec<Grid>>,
    pub map: Vec<u32>,
}

// A list of grids, which contracts see as that list.
#[derive(Drop)]
struct GridList {
    grids: Vec<Grid>,
}

impl Model for GridList {
    ghost use Rattle.std.specs.Prelude.{List, ℕ};
    ghost use Rattle.hz_base_model.specs.Pairs.{Pair};

    ghost Value = { List (List (Pair ℕ)) };

    ghost view = { λ list. list.grids.items };
}

impl GridList {
    // The list itself.
    fn into_grids(self) -> Vec<Grid>
        ensures { result.items ≡ self }
    {
        let GridList { grids } = self;
        grids
    }
}

impl PartialEq for GridList {
    ghost use Rattle.std.specs.Prelude.{◌≡◌};
    ghost use Rattle.std.specs.Cmp.{partial_equiv_from_equiv};
    ghost use Rattle.std.specs.Cmp.Lexicographic.{pointwise};
    ghost use Rattle.hz_base_model.specs.Pairs.{grid_eq};
    ghost use Rattle.hz_auto.specs.GridLists.{lists_eq-laws};

    ghost eq = { pointwise grid_eq };

    ghost laws = { partial_equiv_from_equiv lists_eq-laws };

    fn eq(&self, other: &GridList) -> bool
        ensures { result ≡ pointwise grid_eq self.now other.now }
    {
        self.grids == other.grids
    }
}

impl Eq for GridList {
    ghost use Rattle.hz_auto.specs.GridLists.{lists_eq-laws};

    ghost laws = { lists_eq-laws };
}

impl Hash for GridList {
    ghost use Rattle.std.specs.Hash as fed;
    ghost use Rattle.hz_grid.specs.Hashes.{fed_for};
    ghost use Rattle.hz_auto.specs.GridLists.{lists_eq-Decides};

    ghost hash_input = { fed.slice fed_for };

    ghost respects_eq = { (fed.same_Alike (fed.slice fed_for) lists_eq-Decides).fed };

    fn hash<H: Hasher>(&self, state: &mut H) {
        self.grids.hash(state);
    }
}

// A copy of a list of grids.
fn copied(alloc: Global, grids: &[Grid]) -> Result<GridList, NoMemory>
    ensures { IfOk result (λ list. list ≡ grids.now) }
{
    let mut copies = Vec::with_capacity(alloc, grids.len())?;
    for grid in grids {
        copies.push(grid.copy(alloc)?)?;
    }
    Ok(GridList { grids: copies })
}

// The number of a list: that of an equal one, else the next.
fn number_of(lists: &mut IndexSet<GridList>, list: GridList) -> Result<usize, NoMemory>
    ensures { IfOk result (λ id. IsAdded lists.old.keys list id lists.new.keys) }
{
    let (index, _) = lists.insert_full(list)?;
    Ok(index)
}

// The lists in the order of their numbers. None is copied.
fn lists_in(alloc: Global, lists: IndexSet<GridList>) -> Result<Vec<Vec<Grid>>, NoMemory>
    ensures { IfOk result (λ all. lists_of all.items ≡ lists.keys) }
{
    let mut all = Vec::with_capacity(alloc, lists.len())?;
    for list in lists {
        all.push(list.into_grids())?;
    }
    Ok(all)
}

/// The columns of the automaton of this number.
pub(crate) fn columns_of(
    alloc: Global,
    classes: &[CheckedClass],
    automaton: usize,
) -> Result<Columns, NoMemory>
    requires lists { All (λ c. automaton < length c.lists.items) classes.now }
    requires few { length classes.now ≤ class_limit }
    ensures { IfOk result (λ all. IsColumns (lists_at (map class_of classes.now) automaton) (lists_of all.lists.items) all.map.items) }
{
    let mut lists = IndexSet::new(alloc);
    let mut map = Vec::with_capacity(alloc, classes.len())?;
    for class in classes {
        let list = copied(alloc, &class.lists[automaton])?;
        let column = number_of(&mut lists, list)?;
        map.push(column as u32)?;
    }
    Ok(Columns {
        lists: lists_in(alloc, lists)?,
        map,
    })
}
