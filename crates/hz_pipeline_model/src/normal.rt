//! Laws of normal tables.

ghost use Rattle.std.specs.Prelude.{◌≡◌, ℕ};
ghost use Rattle.hz_pipeline_model.specs.Tables.Tables.{Table};
ghost use Rattle.hz_pipeline_model.specs.Tables.Apart.{WalkTheSame};
ghost use Rattle.hz_pipeline_model.specs.Least.Normal.{IsNormal};

/// There is one normal table for what is walked from the start.
pub fn normal_tables_that_walk_the_same_are_one()
    ensures { (columns : ℕ) (one other : Table) → IsNormal one columns → IsNormal other columns → WalkTheSame one other → one ≡ other }
{}
