//! Minimisation: the least table that walks what a table walks.
#![tactic(auto)]

ghost use Rattle.std.specs.Prelude.{◌≡◌, ◌≤◌, IfOk, length};
ghost use Rattle.hz_pipeline_model.specs.Tables.Tables.{IsTable};
ghost use Rattle.hz_pipeline_model.specs.Tables.Apart.{WalkTheSame};
ghost use Rattle.hz_pipeline_model.specs.Least.Normal.{IsNormal};

mod arrows;
mod blocks;
mod buckets;
mod folding;
mod leading;
mod lists;
mod marks;
mod partition;
mod settling;
mod splitting;

pub use blocks::refine;
use folding::fold;
pub use hz_tables::NoMemory;
use hz_tables::Plain;
use leading::leaders_of;
use settling::settle;
use std::alloc::Global;

/// The table that walks from the start what this one walks, has no two states that aren't apart, and is numbered
/// breadth-first. States that aren't reached are left out. GCC Internals, 'Specifying processor pipeline description',
/// on `no-minimization`.
pub fn minimise(alloc: Global, plain: &Plain) -> Result<Plain, NoMemory>
    requires { IsTable plain.now.rows plain.now.columns }
    ensures columns { IfOk result (λ least. least.columns ≡ plain.now.columns) }
    ensures walks { IfOk result (λ least. WalkTheSame plain.now.rows least.rows) }
    ensures normal { IfOk result (λ least. IsNormal least.rows least.columns) }
    ensures fewer { IfOk result (λ least. length least.rows ≤ length plain.now.rows) }
{
    let _states = plain.states();
    let blocks = refine(alloc, plain)?;
    let leaders = leaders_of(alloc, &blocks)?;
    let settled = settle(alloc, plain, leaders)?;
    fold(alloc, plain, &settled)
}
