//! A grid: the pairs of a unit and a cycle that are reserved, with the cycles counted from the present one, in rows of the
//! width that its units need.
ghost use Rattle.std.specs.Prelude.{◌≡◌, ◌↔◌, ◌<◌, ◌-◌, ℕ, [], All, IsTrue, IfOk, OnOk, OnErr, false};
ghost use Rattle.hz_grid.specs.Rows.{HasUnit};
ghost use Rattle.hz_grid.specs.Grids.{Holds, IsGrid, HoldsJust, Meets, IsUnion, IsAdvanced, Unites, Advances};
ghost use Rattle.hz_grid.specs.Used.{MeetsIn};
ghost use Rattle.hz_grid.specs.Widths.{pairs_of, AreBelow, IsLeast};

use crate::grid_of::{CYCLES, GridOf, NoMemory};
use crate::rows::{Row, UNITS};
use std::alloc::Global;
use std::cmp::Ordering;
use std::hash::{Hash, Hasher};
use std::marker::Model;

/// A set of pairs (unit, cycle), with units below `UNITS` and cycles below `CYCLES`.
/// It is equal to another grid exactly where the sets are.
#[derive(Drop)]
pub struct Grid {
    width: Width,
}

/// A grid whose rows have one word, two or four.
#[derive(Drop)]
pub(crate) enum Width {
    One(GridOf<1>),
    Two(GridOf<2>),
    Four(GridOf<4>),
}

impl Model for Grid {
    ghost use Rattle.std.specs.Prelude.{List, ℕ};
    ghost use Rattle.hz_base_model.specs.Pairs.{Pair};
    ghost use Rattle.hz_grid.specs.Grids.{IsGrid};
    ghost use Rattle.hz_grid.specs.Widths.{pairs_of};

    ghost Value = { List (Pair ℕ) };

    ghost view = { λ grid. pairs_of grid.width };

    ghost invariant = { λ grid. IsGrid (pairs_of grid.width) };
}

// What is done with a grid, whatever its width.
macro_rules! in_width {
    ($width:expr, $grid:ident => $body:expr) => {
        match $width {
            Width::One($grid) => $body,
            Width::Two($grid) => $body,
            Width::Four($grid) => $body,
        }
    };
}

// What is made of a grid, of the same width.
macro_rules! of_width {
    ($width:expr, $grid:ident => $body:expr) => {
        match $width {
            Width::One($grid) => Width::One($body),
            Width::Two($grid) => Width::Two($body),
            Width::Four($grid) => Width::Four($body),
        }
    };
}

impl Width {
    // The grid of these pairs, of the least width.
    fn of(alloc: Global, pairs: &[(u8, u16)]) -> Result<Width, NoMemory>
        requires units { All (λ pair. pair.0 < UNITS) pairs.now }
        requires cycles { All (λ pair. pair.1 < CYCLES) pairs.now }
        ensures grid { IfOk result (λ width. IsGrid (pairs_of width)) }
        ensures pairs { IfOk result (λ width. HoldsJust pairs.now (pairs_of width)) }
        ensures least { IfOk result (IsLeast pairs.now) }
    {
        if are_below(pairs, 64) {
            return Ok(Width::One(GridOf::of(alloc, pairs)?));
        }
        if are_below(pairs, 128) {
            return Ok(Width::Two(GridOf::of(alloc, pairs)?));
        }
        Ok(Width::Four(GridOf::of(alloc, pairs)?))
    }

    // The grid with the pairs of both, of the greater width.
    fn with(&self, alloc: Global, other: &Width) -> Result<Width, NoMemory>
        ensures grid { IfOk result (λ width. IsGrid (pairs_of width)) }
        ensures pairs { IfOk result (λ width. Unites (pairs_of self.now) (pairs_of other.now) (pairs_of width)) }
    {
        match self {
            Width::One(first) => match other {
                Width::One(second) => Ok(Width::One(first.with(alloc, second)?)),
                Width::Two(second) => Ok(Width::Two(first.with(alloc, second)?)),
                Width::Four(second) => Ok(Width::Four(first.with(alloc, second)?)),
            },
            Width::Two(first) => match other {
                Width::One(second) => Ok(Width::Two(first.with(alloc, second)?)),
                Width::Two(second) => Ok(Width::Two(first.with(alloc, second)?)),
                Width::Four(second) => Ok(Width::Four(first.with(alloc, second)?)),
            },
            Width::Four(first) => match other {
                Width::One(second) => Ok(Width::Four(first.with(alloc, second)?)),
                Width::Two(second) => Ok(Width::Four(first.with(alloc, second)?)),
                Width::Four(second) => Ok(Width::Four(first.with(alloc, second)?)),
            },
        }
    }

    // Adds the pairs of a grid that is no wider, and answers whether it is. Where memory ran out all is as it was.
    fn join_narrow(&mut self, other: &Width) -> Result<bool, NoMemory>
        ensures grid { IsGrid (pairs_of self.new) }
        ensures pairs { IfOk result (λ done. IsTrue done → Unites (pairs_of self.old) (pairs_of other.now) (pairs_of self.new)) }
        ensures wider { IfOk result (λ done. done ≡ false → pairs_of self.new ≡ pairs_of self.old) }
        ensures same { OnErr result (pairs_of self.new ≡ pairs_of self.old) }
    {
        match self {
            Width::One(first) => match other {
                Width::One(second) => first.join(second)?,
                Width::Two(_) | Width::Four(_) => {
                    first.kept();
                    return Ok(false);
                }
            },
            Width::Two(first) => match other {
                Width::One(second) => first.join(second)?,
                Width::Two(second) => first.join(second)?,
                Width::Four(_) => {
                    first.kept();
                    return Ok(false);
                }
            },
            Width::Four(first) => in_width!(other, second => first.join(second)?),
        }
        Ok(true)
    }

    // Adds the pairs of a grid. Where memory ran out all is as it was.
    fn join(&mut self, alloc: Global, other: &Width) -> Result<(), NoMemory>
        ensures grid { IsGrid (pairs_of self.new) }
        ensures pairs { OnOk result (Unites (pairs_of self.old) (pairs_of other.now) (pairs_of self.new)) }
        ensures same { OnErr result (pairs_of self.new ≡ pairs_of self.old) }
    {
        if !self.join_narrow(other)? {
            let wide = self.with(alloc, other)?;
            *self = wide;
        }
        Ok(())
    }

    // Whether both have the same pairs, whatever their widths.
    fn same(&self, other: &Width) -> bool
        ensures { IsTrue result ↔ (pairs_of self.now ≡ pairs_of other.now) }
    {
        in_width!(self, first => in_width!(other, second => first.same(second)))
    }

    // Goes one cycle on.
    fn advance(&mut self)
        ensures grid { IsGrid (pairs_of self.new) }
        ensures pairs { Advances (pairs_of self.old) (pairs_of self.new) }
    {
        in_width!(self, grid => grid.advance())
    }

    // One more than the greatest cycle of a pair, and 0 for the grid with no pair.
    fn length(&self) -> u16
        ensures above { (unit cycle : ℕ) → Holds (pairs_of self.now) unit cycle → cycle < result }
        ensures reached { 0 < result → (unit : ℕ) × Holds (pairs_of self.now) unit (result - 1) }
    {
        in_width!(self, grid => grid.length())
    }
}

// Whether the units of these pairs are below a number.
fn are_below(pairs: &[(u8, u16)], most: u8) -> bool
    ensures { IsTrue result ↔ AreBelow most pairs.now }
{
    pairs.iter().all(|pair| pair.0 < most)
}

impl Grid {
    /// The grid with no pair. It takes no memory.
    pub fn empty(alloc: Global) -> Grid
        ensures empty { result ≡ [] }
        ensures grid { IsGrid result }
    {
        Grid {
            width: Width::One(GridOf::empty(alloc)),
        }
    }

    /// The grid of these pairs of a unit and a cycle. A pair may stand twice.
    pub fn of(alloc: Global, pairs: &[(u8, u16)]) -> Result<Grid, NoMemory>
        requires units { All (λ pair. pair.0 < UNITS) pairs.now }
        requires cycles { All (λ pair. pair.1 < CYCLES) pairs.now }
        ensures grid { IfOk result IsGrid }
        ensures pairs { IfOk result (HoldsJust pairs.now) }
    {
        Ok(Grid {
            width: Width::of(alloc, pairs)?,
        })
    }

    /// Whether some pair is in both grids. It takes no memory.
    pub fn meets(&self, other: &Grid) -> bool
        ensures meets { IsTrue result ↔ Meets self.now other.now }
        ensures grid { IsGrid self.now }
        ensures other { IsGrid other.now }
    {
        in_width!(&self.width, first => in_width!(&other.width, second => first.meets(second)))
    }

    /// The grid with the pairs of both.
    pub fn with(&self, alloc: Global, other: &Grid) -> Result<Grid, NoMemory>
        requires { ¬ Meets self.now other.now }
        ensures grid { IfOk result IsGrid }
        ensures pairs { IfOk result (IsUnion self.now other.now) }
    {
        Ok(Grid {
            width: self.width.with(alloc, &other.width)?,
        })
    }

    /// Adds the pairs of another grid. Where memory ran out the grid is as it was.
    pub fn join(&mut self, alloc: Global, other: &Grid) -> Result<(), NoMemory>
        ensures grid { IsGrid self.new }
        ensures pairs { OnOk result (IsUnion self.old other.now self.new) }
        ensures same { OnErr result (self.new ≡ self.old) }
    {
        self.width.join(alloc, &other.width)?;
        Ok(())
    }

    /// An equal grid.
    pub fn copy(&self, alloc: Global) -> Result<Grid, NoMemory>
        ensures grid { IfOk result IsGrid }
        ensures same { IfOk result (λ grid. grid ≡ self.now) }
    {
        let width = of_width!(&self.width, grid => grid.copy(alloc)?);
        Ok(Grid { width })
    }

    /// Goes one cycle on: the pairs of cycle 0 are dropped, and the others' cycles are lowered by one.
    /// It takes no memory.
    pub fn advance(&mut self)
        ensures grid { IsGrid self.new }
        ensures pairs { IsAdvanced self.old self.new }
    {
        self.width.advance();
    }

    /// One more than the greatest cycle of a pair, and 0 for the grid with no pair. It takes no memory.
    pub fn length(&self) -> u16
        ensures above { (unit cycle : ℕ) → Holds self.now unit cycle → cycle < result }
        ensures reached { 0 < result → (unit : ℕ) × Holds self.now unit (result - 1) }
        ensures grid { IsGrid self.now }
    {
        self.width.length()
    }

    /// What holds of every grid: its pairs ascend by cycle and unit, which are in their range. It does nothing.
    pub fn kept(&self)
        ensures { IsGrid self.now }
    {
        let _ = &self.width;
    }

    /// The units of the pairs of that cycle: none past the greatest one. It takes no memory.
    pub fn row(&self, cycle: u16) -> Row<4>
        ensures { (unit : ℕ) → HasUnit result unit ↔ Holds self.now unit cycle }
    {
        in_width!(&self.width, grid => grid.row(cycle))
    }

    /// Whether the grid has a unit of the row in that cycle. It takes no memory.
    pub(crate) fn meets_in(&self, cycle: u16, units: Row<4>) -> bool
        ensures { IsTrue result ↔ MeetsIn self.now cycle units }
    {
        in_width!(&self.width, grid => grid.meets_in(cycle, units))
    }

    /// Whether the pair is in the grid. It takes no memory.
    pub fn holds(&self, unit: u8, cycle: u16) -> bool
        ensures { IsTrue result ↔ Holds self.now unit cycle }
    {
        in_width!(&self.width, grid => grid.holds(unit, cycle))
    }
}

impl PartialEq for Grid {
    ghost use Rattle.std.specs.Prelude.{◌≡◌, ◌↔◌, IsTrue, nat_eq};
    ghost use Rattle.std.specs.Cmp.{partial_equiv_from_equiv};
    ghost use Rattle.hz_grid.specs.Grids.{grid_eq-laws};
    ghost use Rattle.hz_base_model.specs.Pairs.{SamePairs, grid_eq};

    ghost eq = { grid_eq };

    ghost laws = { partial_equiv_from_equiv grid_eq-laws };

    fn eq(&self, other: &Grid) -> bool
        ensures same { result ≡ grid_eq self.now other.now }
        ensures equal { IsTrue result ↔ (self.now ≡ other.now) }
        ensures pairs { IsTrue result ↔ SamePairs self.now other.now }
    {
        self.width.same(&other.width)
    }
}

impl Eq for Grid {
    ghost use Rattle.hz_grid.specs.Grids.{grid_eq-laws};

    ghost laws = { grid_eq-laws };
}

impl PartialOrd for Grid {
    ghost use Rattle.std.specs.Ordering.{as_partial_cmp};
    ghost use Rattle.hz_base_model.specs.Pairs.{grid_cmp};
    ghost use Rattle.hz_grid.specs.Orders.{grid_cmp-partial};

    ghost partial_cmp = { as_partial_cmp grid_cmp };

    ghost laws = { grid_cmp-partial };

    fn partial_cmp(&self, other: &Grid) -> Option<Ordering> {
        Some(self.cmp(other))
    }
}

impl Ord for Grid {
    ghost use Rattle.std.specs.Prelude.{◌≡◌, refl};
    ghost use Rattle.hz_base_model.specs.Pairs.{grid_cmp};
    ghost use Rattle.hz_grid.specs.Orders.{grid_total, grid_eq-cmp};

    ghost cmp = { grid_cmp };

    ghost total = { grid_total };

    ghost matches_partial_cmp = { λ a b. refl };

    ghost matches_eq = { grid_eq-cmp };

    fn cmp(&self, other: &Grid) -> Ordering
        ensures { result ≡ grid_cmp self.now other.now }
    {
        in_width!(&self.width, first => in_width!(&other.width, second => first.compare(second)))
    }
}

impl Hash for Grid {
    ghost use Rattle.hz_grid.specs.Hashes.{fed_for, same_grids_are_fed_alike};

    ghost hash_input = { fed_for };

    ghost respects_eq = { same_grids_are_fed_alike.fed };

    fn hash<H: Hasher>(&self, state: &mut H) {
        in_width!(&self.width, grid => grid.feed(state))
    }
}
