//! Laws of ask columns, and of what they tell.

ghost use Rattle.std.specs.Prelude.{◌≡◌, ◌↔◌, ℕ, ◌+◌, ◌<◌, Bool, List, [], ◌∷◌, Some, is_some, length};
ghost use Rattle.hz_base_model.specs.Pairs.{Pair};
ghost use Rattle.hz_pipeline_model.specs.Accepting.Events.{Event};
ghost use Rattle.hz_pipeline_model.specs.Accepting.Replay.{Pipeline, first_fit};
ghost use Rattle.hz_pipeline_model.specs.Accepting.Asking.{IsHeld};
ghost use Rattle.hz_pipeline_model.specs.Tables.Tables.{Table, entry, walk, IsTable};
ghost use Rattle.hz_pipeline_model.specs.Tables.Apart.{WalkTheSame};
ghost use Rattle.hz_pipeline_model.specs.Tables.Orders.{IsBreadthFirst};
ghost use Rattle.hz_pipeline_model.specs.Tables.AskColumns.{HasAsks, AsksStay, AsksAlike, without_asks, places_beside, all_beside};
ghost use Rattle.hz_pipeline_model.specs.Reaching.Columns.{AreColumns};
ghost use Rattle.hz_pipeline_model.specs.Reaching.Reach.{IsLeft};
ghost use Rattle.hz_pipeline_model.specs.Reaching.Present.{HasPresent, MarksPresent, marks_of};
ghost use Rattle.hz_pipeline_model.specs.Least.Normal.{IsNormal};

/// A table with asks is one whose asks are columns, they stay where they are, and taken out they leave the table.
pub fn asks_are_columns()
    ensures table { (table asked : Table) (columns asks : ℕ) (marks : ℕ → ℕ → Bool) → IsTable table columns → HasAsks table asked columns asks marks → IsTable asked (columns + asks) }
    ensures stays { (table asked : Table) (columns asks : ℕ) (marks : ℕ → ℕ → Bool) → IsTable table columns → HasAsks table asked columns asks marks → AsksStay asked columns asks }
    ensures without { (table asked : Table) (columns asks : ℕ) (marks : ℕ → ℕ → Bool) → IsTable table columns → HasAsks table asked columns asks marks → without_asks columns asks asked ≡ table }
{}

/// Beside asks the same states are walked.
pub fn asks_change_no_walk()
    ensures { (table asked : Table) (columns asks : ℕ) (marks : ℕ → ℕ → Bool) → IsTable table columns → HasAsks table asked columns asks marks → (state : ℕ) → state < length table → (w : List ℕ) → AreColumns columns w → walk asked (Some state) (all_beside columns asks w) ≡ walk table (Some state) w }
{}

/// A table that walks the same as a table with asks walks the same beside them, and tells the same at each. If it is a
/// normal one, and an ask leads to no other state in the first, neither does it there.
pub fn least_tables_keep_asks()
    ensures walks { (table asked least : Table) (columns asks : ℕ) (marks : ℕ → ℕ → Bool) → IsTable table columns → HasAsks table asked columns asks marks → WalkTheSame asked least → (w : List ℕ) → AreColumns columns w → is_some (walk least (Some 0) (all_beside columns asks w)) ≡ is_some (walk table (Some 0) w) }
    ensures tells { (table asked least : Table) (columns asks : ℕ) (marks : ℕ → ℕ → Bool) → IsTable table columns → HasAsks table asked columns asks marks → WalkTheSame asked least → (w : List ℕ) → AreColumns columns w → (state next ask : ℕ) → walk table (Some 0) w ≡ Some state → walk least (Some 0) (all_beside columns asks w) ≡ Some next → ask < asks → is_some (entry least next (columns + ask)) ≡ marks state ask }
    ensures stays { (first least : Table) (columns asks : ℕ) → IsTable first (columns + asks) → AsksStay first columns asks → WalkTheSame first least → IsNormal least (columns + asks) → AsksStay least columns asks }
{}

/// Tables that walk the same beside their asks, and tell the same at each, walk the same.
pub fn tables_with_asks_walk_the_same()
    ensures { (first second : Table) (columns asks : ℕ) → IsTable first (columns + asks) → IsTable second (columns + asks) → AsksStay first columns asks → AsksStay second columns asks → AsksAlike first second columns asks → WalkTheSame first second }
{}

/// Beside asks states keep their breadth-first numbers.
pub fn asks_keep_numbers()
    ensures { (table asked : Table) (columns asks : ℕ) (marks : ℕ → ℕ → Bool) (parents : List (ℕ × ℕ)) → IsTable table columns → HasAsks table asked columns asks marks → IsBreadthFirst table columns parents → IsBreadthFirst asked (columns + asks) (places_beside columns asks parents) }
{}

/// The marks that are computed are true exactly where the one grid of a state has the unit in its present cycle.
pub fn marks_are_of_present_units()
    ensures { (grids : List (List (Pair ℕ))) (sets : List (List ℕ)) (queries : List ℕ) → MarksPresent grids sets queries (marks_of grids sets queries) }
{}

/// In the first treatment a unit is held exactly where the one grid that events leave has it in its present cycle.
pub fn what_is_held_is_left<U>()
    ensures { (m : Pipeline U) → m.treatment ≡ first_fit → (t : List Event) → (grid : List (Pair U)) → IsLeft m t (grid ∷ []) → (unit : U) → IsHeld m t unit ↔ HasPresent grid unit }
{}
