//! Laws of what is answered.

ghost use Rattle.std.specs.Prelude.{◌≡◌, ℕ, List};
ghost use Rattle.hz_base_model.specs.Names.{Held};
ghost use Rattle.hz_why_model.specs.Answers.{WhyAnswer};

/// There is one answer at most.
pub fn one_explanation()
    ensures { (words : List (List ℕ)) (held : Held) (status status' : ℕ) (text text' : List ℕ) → WhyAnswer words held status text → WhyAnswer words held status' text' → (status ≡ status') × (text ≡ text') }
{}
