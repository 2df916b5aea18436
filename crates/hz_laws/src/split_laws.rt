//! Laws of pipelines whose units fall into groups, for both treatments, any units and any groups.

ghost use Rattle.std.specs.Prelude.{◌≡◌, ◌↔◌, ℕ, List};
ghost use Rattle.hz_base_model.specs.Pairs.{SamePairs};
ghost use Rattle.hz_pipeline_model.specs.Accepting.Events.{Event};
ghost use Rattle.hz_pipeline_model.specs.Accepting.Replay.{Pipeline, first_fit, IsChoice, Accepted, FirstRefused, calendar};
ghost use Rattle.hz_pipeline_model.specs.Accepting.Asking.{IsHeld};
ghost use Rattle.hz_laws.specs.Grouping.{GroupLists, AreOfGroups, IsOneToOne, renamed_pairs, renamed};

/// Two pipelines of the same groups accept and refuse the same, and for each choice of the one there is a choice of the other that
/// reserves the same pairs, whatever the groups.
pub fn pipelines_of_the_same_groups_accept_the_same<U>()
    ensures acceptance { (group : U → ℕ) (lists : ℕ → GroupLists U) (m o : Pipeline U) → AreOfGroups group lists m o → (t : List Event) → Accepted m t ↔ Accepted o t }
    ensures refused { (group : U → ℕ) (lists : ℕ → GroupLists U) (m o : Pipeline U) → AreOfGroups group lists m o → (t : List Event) (i : ℕ) → FirstRefused m t i ↔ FirstRefused o t i }
    ensures choices { (group : U → ℕ) (lists : ℕ → GroupLists U) (m o : Pipeline U) → AreOfGroups group lists m o → (t : List Event) (choices : List ℕ) → IsChoice m t choices → (others : List ℕ) × IsChoice o t others × SamePairs (calendar m 0 t choices) (calendar o 0 t others) }
{}

/// In the first treatment two pipelines of the same groups hold the same units after events.
pub fn pipelines_of_the_same_groups_hold_the_same<U>()
    ensures { (group : U → ℕ) (lists : ℕ → GroupLists U) (m o : Pipeline U) → AreOfGroups group lists m o → m.treatment ≡ first_fit → (t : List Event) (unit : U) → IsHeld m t unit ↔ IsHeld o t unit }
{}

/// A pipeline accepts and refuses as before, by the same choices, if its units get other names, no two of them one. A unit is held
/// where its new name is.
pub fn renamed_pipelines_accept_the_same<U, V>()
    ensures acceptance { (rename : U → V) (m : Pipeline U) → IsOneToOne rename → (t : List Event) → Accepted m t ↔ Accepted (renamed rename m) t }
    ensures refused { (rename : U → V) (m : Pipeline U) → IsOneToOne rename → (t : List Event) (i : ℕ) → FirstRefused m t i ↔ FirstRefused (renamed rename m) t i }
    ensures choices { (rename : U → V) (m : Pipeline U) → IsOneToOne rename → (t : List Event) (choices : List ℕ) → IsChoice m t choices ↔ IsChoice (renamed rename m) t choices }
    ensures held { (rename : U → V) (m : Pipeline U) → IsOneToOne rename → (t : List Event) (unit : U) → IsHeld m t unit ↔ IsHeld (renamed rename m) t (rename unit) }
{}

/// So the automata of a description may be cut into those of its groups: units get their places in the new automata, and each class
/// the product of its groups' lists. The same events are accepted, the same is refused first, each choice has one that reserves the
/// same, and in the first treatment the same units are held.
pub fn cut_pipelines_accept_the_same<U, V>()
    ensures acceptance { (rename : U → V) (group : V → ℕ) (lists : ℕ → GroupLists V) (m : Pipeline U) (o : Pipeline V) → IsOneToOne rename → AreOfGroups group lists (renamed rename m) o → (t : List Event) → Accepted m t ↔ Accepted o t }
    ensures refused { (rename : U → V) (group : V → ℕ) (lists : ℕ → GroupLists V) (m : Pipeline U) (o : Pipeline V) → IsOneToOne rename → AreOfGroups group lists (renamed rename m) o → (t : List Event) (i : ℕ) → FirstRefused m t i ↔ FirstRefused o t i }
    ensures choices { (rename : U → V) (group : V → ℕ) (lists : ℕ → GroupLists V) (m : Pipeline U) (o : Pipeline V) → IsOneToOne rename → AreOfGroups group lists (renamed rename m) o → (t : List Event) (choices : List ℕ) → IsChoice m t choices → (others : List ℕ) × IsChoice o t others × SamePairs (renamed_pairs rename (calendar m 0 t choices)) (calendar o 0 t others) }
    ensures held { (rename : U → V) (group : V → ℕ) (lists : ℕ → GroupLists V) (m : Pipeline U) (o : Pipeline V) → IsOneToOne rename → AreOfGroups group lists (renamed rename m) o → m.treatment ≡ first_fit → (t : List Event) (unit : U) → IsHeld m t unit ↔ IsHeld o t (rename unit) }
{}
