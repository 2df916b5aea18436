//! Laws of the choices that are reported of, for any units.

ghost use Rattle.std.specs.Prelude.{◌≡◌, ℕ, List};
ghost use Rattle.hz_pipeline_model.specs.Accepting.Events.{Event};
ghost use Rattle.hz_pipeline_model.specs.Accepting.Replay.{Pipeline, IsChoice, first_fit};
ghost use Rattle.hz_why_model.specs.Choices.{IsFirstChoice};

/// At most one list of choices comes first. In the first treatment it is the one that there is.
pub fn one_list_of_choices_comes_first<U>()
    ensures one { (m : Pipeline U) (t : List Event) (a b : List ℕ) → IsFirstChoice m t a → IsFirstChoice m t b → a ≡ b }
    ensures only { (m : Pipeline U) (t : List Event) → m.treatment ≡ first_fit → (a : List ℕ) → IsChoice m t a → IsFirstChoice m t a }
{}
