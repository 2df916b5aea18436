//! Worked examples of units in groups, computed on the definitions: what each premise of the law is for.

ghost use Rattle.std.specs.Prelude.{ℕ, [], ◌∷◌};
ghost use Rattle.hz_pipeline_model.specs.Accepting.Events.{issue};
ghost use Rattle.hz_pipeline_model.specs.Accepting.Replay.{Accepted, FirstRefused};
ghost use Rattle.hz_laws.specs.Grouping.{GroupLists, AreOfGroups, IsOneToOne, renamed};
ghost use Rattle.hz_laws.specs.GroupingExamples.{halves, with_classes, first_alone, first_counts, second_counts, in_no_order, in_step, across};

/// A statement may not name units of two groups: the first alternative that fits would be another one.
pub fn no_statement_ties_two_groups()
    ensures premise { (lists : ℕ → GroupLists ℕ) → AreOfGroups halves lists (with_classes first_counts (across ∷ [])) (with_classes second_counts (across ∷ [])) → ⊥ }
    ensures before { Accepted (with_classes first_counts (across ∷ [])) (issue 0 ∷ issue 2 ∷ []) }
    ensures after { FirstRefused (with_classes second_counts (across ∷ [])) (issue 0 ∷ issue 2 ∷ []) 1 }
{}

/// Without that statement both orders of the same lists take the same: a list of alternatives may be lexicographic in either order.
pub fn either_order_of_the_groups_takes_the_same()
    ensures before { Accepted (with_classes first_counts []) (issue 1 ∷ issue 0 ∷ issue 2 ∷ []) }
    ensures after { Accepted (with_classes second_counts []) (issue 1 ∷ issue 0 ∷ issue 2 ∷ []) }
{}

/// A list that is no product may not be cut: with one unit taken, the other group would no longer be free to choose.
pub fn no_choice_ties_two_groups()
    ensures premise { (lists : ℕ → GroupLists ℕ) → AreOfGroups halves lists (with_classes in_step []) (with_classes first_counts []) → ⊥ }
    ensures before { FirstRefused (with_classes in_step []) (issue 1 ∷ issue 0 ∷ issue 2 ∷ []) 2 }
    ensures after { Accepted (with_classes first_counts []) (issue 1 ∷ issue 0 ∷ issue 2 ∷ []) }
{}

/// In the first treatment a product in another order may not be cut: the first alternative that fits would not be the first of each
/// group.
pub fn no_order_ties_two_groups()
    ensures premise { (lists : ℕ → GroupLists ℕ) → AreOfGroups halves lists (with_classes in_no_order []) (with_classes first_counts []) → ⊥ }
    ensures before { FirstRefused (with_classes in_no_order []) (issue 1 ∷ issue 0 ∷ issue 2 ∷ []) 2 }
    ensures after { Accepted (with_classes first_counts []) (issue 1 ∷ issue 0 ∷ issue 2 ∷ []) }
{}

/// Two units may not get one name: one of them would be refused where the other is held. Here `a0` and `a1` get that of their group.
pub fn no_two_units_get_one_name()
    ensures premise { IsOneToOne halves → ⊥ }
    ensures before { Accepted (with_classes first_alone []) (issue 0 ∷ issue 2 ∷ []) }
    ensures after { FirstRefused (renamed halves (with_classes first_alone [])) (issue 0 ∷ issue 2 ∷ []) 1 }
{}
