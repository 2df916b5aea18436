//! Laws of schedules.

ghost use Rattle.std.specs.Prelude.{◌≡◌, ◌↔◌, ◌<◌, ◌≤◌, ◌*◌, ℕ, List, length, All};
ghost use Rattle.std.specs.List.{AllPairs};
ghost use Rattle.hz_pipeline_model.specs.Accepting.Asking.{issues_and_advances};
ghost use Rattle.hz_pipeline_model.specs.Accepting.Events.{Event, IsOfClass, issues_of, cycles_of};
ghost use Rattle.hz_pipeline_model.specs.Accepting.Replay.{Pipeline, Accepted};
ghost use Rattle.hz_pipeline_model.specs.Tables.Machines.{Machine, IsWalked};
ghost use Rattle.hz_block_model.specs.Scheduling.Schedules.{Graph, Slot, present, spell, Legal, Greedy};

/// Which traces are accepted, whatever tells it: a machine that walks them, or the pipeline of a description.
pub trait Acceptance {
    ghost accepts: { List Event → Type 0 };
}

/// A graph has only one schedule that is legal and greedy.
pub fn one_schedule_is_legal_and_greedy<A: Acceptance>()
    ensures { (g : Graph) (s t : List Slot) → Legal A.accepts g s → Greedy A.accepts g s → Legal A.accepts g t → Greedy A.accepts g t → s ≡ t }
{}

/// Where the same traces of so many classes are accepted, the same schedules are legal and greedy.
pub fn schedules_are_of_what_is_accepted<A: Acceptance, B: Acceptance>()
    ensures legal { (classes : ℕ) → ((t : List Event) → All (IsOfClass classes) t → A.accepts t ↔ B.accepts t) → (g : Graph) → All (λ n. n.class < classes) g.nodes → (slots : List Slot) → Legal A.accepts g slots ↔ Legal B.accepts g slots }
    ensures greedy { (classes : ℕ) → ((t : List Event) → All (IsOfClass classes) t → A.accepts t ↔ B.accepts t) → (g : Graph) → All (λ n. n.class < classes) g.nodes → (slots : List Slot) → Greedy A.accepts g slots ↔ Greedy B.accepts g slots }
{}

/// The same of what a machine walks, and of what a pipeline accepts: a graph has only one schedule on either.
pub fn one_schedule_on_each<U>()
    ensures machine { (m : Machine) (g : Graph) (s t : List Slot) → Legal (IsWalked m) g s → Greedy (IsWalked m) g s → Legal (IsWalked m) g t → Greedy (IsWalked m) g t → s ≡ t }
    ensures pipeline { (p : Pipeline U) (g : Graph) (s t : List Slot) → Legal (Accepted p) g s → Greedy (Accepted p) g s → Legal (Accepted p) g t → Greedy (Accepted p) g t → s ≡ t }
{}

/// The schedules on a machine that walks just the traces of so many classes that a pipeline accepts are those on the pipeline.
pub fn schedules_on_machines_are_on_their_pipelines<U>()
    ensures legal { (m : Machine) (p : Pipeline U) (classes : ℕ) → ((t : List Event) → All (IsOfClass classes) t → IsWalked m t ↔ Accepted p t) → (g : Graph) → All (λ n. n.class < classes) g.nodes → (slots : List Slot) → Legal (IsWalked m) g slots ↔ Legal (Accepted p) g slots }
    ensures greedy { (m : Machine) (p : Pipeline U) (classes : ℕ) → ((t : List Event) → All (IsOfClass classes) t → IsWalked m t ↔ Accepted p t) → (g : Graph) → All (λ n. n.class < classes) g.nodes → (slots : List Slot) → Greedy (IsWalked m) g slots ↔ Greedy (Accepted p) g slots }
{}

/// A trace of slots has an issue for each of them, at most as many other events, none of them an ask, and, where cycles don't fall,
/// as many advances as the cycle of the last.
pub fn traces_issue_each_slot()
    ensures issues { (g : Graph) (slots : List Slot) → issues_of (spell g slots) ≡ length slots }
    ensures few { (g : Graph) (slots : List Slot) → length (spell g slots) ≤ 2 * length slots }
    ensures asks { (g : Graph) (slots : List Slot) → issues_and_advances (spell g slots) ≡ spell g slots }
    ensures cycles { (g : Graph) (slots : List Slot) → AllPairs (λ x y. x.cycle ≤ y.cycle) slots → cycles_of (spell g slots) ≡ present 0 slots }
{}
