//! Worked examples of units that are moved, computed on the definitions: what each premise of the law is for.

ghost use Rattle.std.specs.Prelude.{[], ◌∷◌};
ghost use Rattle.hz_pipeline_model.specs.Accepting.Events.{issue, advance};
ghost use Rattle.hz_pipeline_model.specs.Accepting.Replay.{Accepted, FirstRefused};
ghost use Rattle.hz_laws.specs.Moving.{moved, MayMove};
ghost use Rattle.hz_laws.specs.MovingExamples.{together, apart, both_later, one_later, one_needed, at_once};

/// Two units that exclude each other may be moved together, and meet as before.
pub fn a_group_moves_together()
    ensures may_move { MayMove (together 1) both_later }
    ensures before { FirstRefused both_later (issue 0 ∷ advance 1 ∷ issue 1 ∷ []) 2 }
    ensures moved { FirstRefused (moved (together 1) both_later) (issue 0 ∷ advance 1 ∷ issue 1 ∷ []) 2 }
{}

/// One unit of two that exclude each other may not be moved alone: they would no longer meet.
pub fn no_unit_leaves_its_group()
    ensures premise { MayMove (apart 1 0) one_later → ⊥ }
    ensures before { FirstRefused one_later (issue 0 ∷ advance 1 ∷ issue 1 ∷ []) 2 }
    ensures moved { Accepted (moved (apart 1 0) one_later) (issue 0 ∷ advance 1 ∷ issue 1 ∷ []) }
{}

/// Two groups that a set statement crosses may not be moved by two numbers: a unit would no longer find the one that it needs.
pub fn no_statement_crosses_groups()
    ensures premise { MayMove (apart 1 2) one_needed → ⊥ }
    ensures before { Accepted one_needed (issue 1 ∷ advance 1 ∷ issue 0 ∷ []) }
    ensures moved { FirstRefused (moved (apart 1 2) one_needed) (issue 1 ∷ advance 1 ∷ issue 0 ∷ []) 2 }
{}

/// A unit may not be moved by more than the first cycle in which a class takes it: two cycles would become one.
pub fn no_pair_leaves_its_issue()
    ensures premise { MayMove (together 1) at_once → ⊥ }
    ensures before { Accepted at_once (issue 0 ∷ issue 1 ∷ []) }
    ensures moved { FirstRefused (moved (together 1) at_once) (issue 0 ∷ issue 1 ∷ []) 1 }
{}
