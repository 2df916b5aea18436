//! Laws of who holds what stands reserved, for any units.

ghost use Rattle.std.specs.Prelude.{◌≡◌, ℕ, List, Contains};
ghost use Rattle.hz_pipeline_model.specs.Accepting.Events.{Event};
ghost use Rattle.hz_pipeline_model.specs.Accepting.Replay.{Pipeline, IsChoice, calendar};
ghost use Rattle.hz_why_model.specs.Holders.{Entry, entries, pairs_in};

/// The pairs of the entries are the calendar.
pub fn entries_are_the_calendar<U>()
    ensures { (m : Pipeline U) (now : ℕ) (t : List Event) (lines choices : List ℕ) → pairs_in (entries m now t lines choices) ≡ calendar m now t choices }
{}

/// After events that are accepted, whatever their choices, a pair has one holder: its entries have one line and one class.
pub fn each_pair_has_one_holder<U>()
    ensures { (m : Pipeline U) (t : List Event) (lines choices : List ℕ) → IsChoice m t choices → (e f : Entry U) → Contains (entries m 0 t lines choices) e → Contains (entries m 0 t lines choices) f → e.pair ≡ f.pair → (e.line ≡ f.line) × (e.class ≡ f.class) }
{}
