//! Laws of machines.

ghost use Rattle.std.specs.Prelude.{◌≡◌, ℕ, List, [], ◌∷◌, ◌++◌, None, Option, Some, IsTrue, is_some, length, option_and_then, slice_get};
ghost use Rattle.hz_pipeline_model.specs.Accepting.Events.{Event, issue, advance, ask};
ghost use Rattle.hz_pipeline_model.specs.Accepting.Asking.{issues_and_advances};
ghost use Rattle.hz_pipeline_model.specs.Tables.Machines.{Part, Machine, next_of, word_of, part_walk, parts_walk, machine_walk};

/// The columns of two lists of events are those of the first and then those of the second.
pub fn words_continue()
    ensures { (part : Part) (s t : List Event) → word_of part (s ++ t) ≡ word_of part s ++ word_of part t }
{}

/// One issue, and one cycle, is one entry of each part's table. An ask is none, and leaves the state.
pub fn one_event_is_one_entry()
    ensures issue { (part : Part) (state class : ℕ) → part_walk part state (issue class ∷ []) ≡ next_of part state (Some class) }
    ensures advance { (part : Part) (state : ℕ) → part_walk part state (advance 1 ∷ []) ≡ next_of part state None }
    ensures ask { (part : Part) (state automaton query : ℕ) → part_walk part state (ask automaton query ∷ []) ≡ Some state }
{}

/// Asks leave the states: a machine walks events as it walks the issues and advances among them, from any states.
pub fn asks_leave_the_states()
    ensures words { (part : Part) (t : List Event) → word_of part (issues_and_advances t) ≡ word_of part t }
    ensures walks { (parts : List Part) (states : List ℕ) (t : List Event) → parts_walk parts states (issues_and_advances t) ≡ parts_walk parts states t }
    ensures machines { (m : Machine) (t : List Event) → machine_walk m (issues_and_advances t) ≡ machine_walk m t }
{}

/// A walk of a machine over two lists of events is the walk over the second, from where the first ends.
pub fn machine_walks_continue()
    ensures { (parts : List Part) (states : List ℕ) (s t : List Event) → parts_walk parts states (s ++ t) ≡ option_and_then (λ next. parts_walk parts next t) (parts_walk parts states s) }
{}

/// A machine walks events exactly where each of its parts does, each to its own state.
pub fn machines_walk_part_by_part()
    ensures each { (m : Machine) (t : List Event) (states : List ℕ) → machine_walk m t ≡ Some states → length states ≡ length m.parts }
    ensures parts { (m : Machine) (t : List Event) (states : List ℕ) → machine_walk m t ≡ Some states → (i : ℕ) (part : Part) → slice_get m.parts i ≡ Some part → slice_get states i ≡ part_walk part 0 t }
    ensures all { (m : Machine) (t : List Event) → ((i : ℕ) (part : Part) → slice_get m.parts i ≡ Some part → IsTrue (is_some (part_walk part 0 t))) → IsTrue (is_some (machine_walk m t)) }
{}
