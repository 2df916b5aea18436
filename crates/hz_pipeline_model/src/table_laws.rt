//! Laws of tables.

ghost use Rattle.std.specs.Prelude.{◌≡◌, ℕ, ◌+◌, ◌<◌, List, ◌++◌, None, Option, Some, length};
ghost use Rattle.hz_pipeline_model.specs.Tables.Tables.{Table, walk, IsTable, IsReached};
ghost use Rattle.hz_pipeline_model.specs.Tables.Orders.{IsBreadthFirst};

/// A walk over two lists is the walk over the second, from where the first ends. From no state nothing is walked.
pub fn walks_continue()
    ensures append { (table : Table) (from : Option ℕ) (v w : List ℕ) → walk table from (v ++ w) ≡ walk table (walk table from v) w }
    ensures none { (table : Table) (w : List ℕ) → walk table None w ≡ None }
{}

/// A walk stays among the states.
pub fn walks_stay()
    ensures { (table : Table) (columns : ℕ) → IsTable table columns → (state next : ℕ) (w : List ℕ) → state < length table → walk table (Some state) w ≡ Some next → next < length table }
{}

/// Where states are numbered breadth-first, each is reached.
pub fn breadth_first_states_are_reached()
    ensures { (table : Table) (columns : ℕ) (parents : List (ℕ × ℕ)) → IsBreadthFirst table columns parents → (state : ℕ) → state < length table → IsReached table state }
{}
