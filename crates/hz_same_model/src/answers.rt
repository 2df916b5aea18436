//! Laws of what is answered.

ghost use Rattle.std.specs.Prelude.{◌≡◌, ℕ, List};
ghost use Rattle.hz_base_model.specs.Names.{Held};
ghost use Rattle.hz_same_model.specs.Answers.{SameAnswer};

/// There is one answer at most.
pub fn one_comparison()
    ensures { (words : List (List ℕ)) (held : Held) (status status' : ℕ) (text text' : List ℕ) → SameAnswer words held status text → SameAnswer words held status' text' → (status ≡ status') × (text ≡ text') }
{}
