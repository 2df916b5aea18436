//! A law of the lines of explanations, for any units.

ghost use Rattle.std.specs.Prelude.{ℕ, ◌<◌, ◌^◌, List, Option, IfSome, length};
ghost use Rattle.hz_pipeline_model.specs.Accepting.Events.{Event};
ghost use Rattle.hz_pipeline_model.specs.Accepting.Replay.{Pipeline, alternatives_at};
ghost use Rattle.hz_why_model.specs.Explanations.{Wording, left_text, refusal_text};
ghost use Rattle.hz_why_model.specs.Ways.{ways_left};
ghost use Rattle.hz_why_laws.specs.Narrow.{IsNarrow};

/// No line has more than 80 bytes, whatever names there are, where counts are below `2^64`.
pub fn no_line_is_long<U>()
    ensures refusal { (w : Wording U) (m : Pipeline U) (t : List Event) (lines choices : List ℕ) (class : ℕ) (wait : Option ℕ) → IfSome wait (λ n. n < 2 ^ 64) → length (alternatives_at m class) < 2 ^ 64 → length (ways_left m t lines choices) < 2 ^ 64 → IsNarrow (refusal_text w m t lines choices class wait) }
    ensures left { (w : Wording U) (m : Pipeline U) (t : List Event) (lines choices : List ℕ) → length (ways_left m t lines choices) < 2 ^ 64 → IsNarrow (left_text w m t lines choices) }
{}
