//! Laws of pictures, for any units.

ghost use Rattle.std.specs.Prelude.{◌≡◌, ℕ, ◌+◌, ◌-◌, ◌≤◌, Bool, List, Contains, codes, decimal};
ghost use Rattle.hz_pipeline_model.specs.Accepting.Events.{Event, cycles_of};
ghost use Rattle.hz_pipeline_model.specs.Accepting.Plays.{Tells};
ghost use Rattle.hz_pipeline_model.specs.Accepting.Replay.{Pipeline, IsChoice, calendar};
ghost use Rattle.hz_why_model.specs.Holders.{Entry, entries, entries_from};
ghost use Rattle.hz_why_model.specs.Pictures.{text_at};

/// Each cell of the picture of what accepted events leave is the calendar's: where a pair is reserved, the line of the one issue that
/// took it; where none is, a dot.
pub fn cells_are_of_the_calendar<U>()
    ensures held { (same : U → U → Bool) → Tells same → (name : U → List ℕ) (m : Pipeline U) (t : List Event) (lines choices : List ℕ) → IsChoice m t choices → (e : Entry U) → Contains (entries m 0 t lines choices) e → cycles_of t ≤ e.pair.cycle → text_at same name (entries_from (cycles_of t) (entries m 0 t lines choices)) e.pair.unit (e.pair.cycle - cycles_of t) ≡ decimal e.line }
    ensures free { (same : U → U → Bool) → Tells same → (name : U → List ℕ) (m : Pipeline U) (t : List Event) (lines choices : List ℕ) (u : U) (cycle : ℕ) → (Contains (calendar m 0 t choices) (record { unit = u; cycle = cycles_of t + cycle }) → ⊥) → text_at same name (entries_from (cycles_of t) (entries m 0 t lines choices)) u cycle ≡ codes "." }
{}
