//! What holds of every set of cycles and of every reservation table.
ghost use Rattle.std.specs.Prelude.{◌<◌, ℕ, List};
ghost use Rattle.hz_base_model.specs.Limits.{automaton_limit, unit_limit, cycle_limit};
ghost use Rattle.hz_grid.specs.Sets.{HasCycle};
ghost use Rattle.hz_grid.specs.Tables.{IsTaken};
ghost use Rattle.hz_grid.specs.declared.cycles.Cycles.{Cycles};

/// A cycle of a set is below the limit of cycles. It does nothing.
pub fn cycles_are_below_the_limit()
    ensures { (cycles : Cycles) (cycle : ℕ) → HasCycle cycles cycle → cycle < cycle_limit }
{}

/// What is taken are cycles below their limit, of units and automata below theirs. It does nothing.
pub fn what_is_taken_is_below_the_limits()
    ensures { (table : List Cycles) (automaton unit cycle : ℕ) → IsTaken table automaton unit cycle
        → (automaton < automaton_limit) × (unit < unit_limit) × (cycle < cycle_limit) }
{}
