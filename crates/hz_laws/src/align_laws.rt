//! Laws of pipelines whose units are moved, for both treatments and any units.

ghost use Rattle.std.specs.Prelude.{◌≡◌, ◌↔◌, ℕ, List};
ghost use Rattle.hz_pipeline_model.specs.Accepting.Events.{Event};
ghost use Rattle.hz_pipeline_model.specs.Accepting.Replay.{Pipeline, IsChoice, Accepted, FirstRefused};
ghost use Rattle.hz_pipeline_model.specs.Accepting.Asking.{IsHeld};
ghost use Rattle.hz_laws.specs.Moving.{moved, MayMove, IsHeldLater};

/// A pipeline whose units are taken earlier, where no pair leaves its issue and each statement names units that move by one
/// number, accepts and refuses as before, and each issue takes the alternative of the same number.
pub fn moved_pipelines_accept_the_same<U>()
    ensures acceptance { (earlier : U → ℕ) (m : Pipeline U) → MayMove earlier m → (t : List Event) → Accepted m t ↔ Accepted (moved earlier m) t }
    ensures refused { (earlier : U → ℕ) (m : Pipeline U) → MayMove earlier m → (t : List Event) (i : ℕ) → FirstRefused m t i ↔ FirstRefused (moved earlier m) t i }
    ensures choices { (earlier : U → ℕ) (m : Pipeline U) → MayMove earlier m → (t : List Event) (choices : List ℕ) → IsChoice m t choices ↔ IsChoice (moved earlier m) t choices }
{}

/// A unit that is not moved is held after events as before. One that is moved is held in the cycle that lies so many cycles before
/// the one in which it was held.
pub fn units_that_stay_are_held_as_before<U>()
    ensures stays { (earlier : U → ℕ) (m : Pipeline U) → MayMove earlier m → (t : List Event) (unit : U) → earlier unit ≡ 0 → IsHeld m t unit ↔ IsHeld (moved earlier m) t unit }
    ensures moves { (earlier : U → ℕ) (m : Pipeline U) → MayMove earlier m → (t : List Event) (unit : U) → IsHeldLater m t unit (earlier unit) ↔ IsHeld (moved earlier m) t unit }
{}
