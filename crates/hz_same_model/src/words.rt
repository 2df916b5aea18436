//! Laws of the order of words.

ghost use Rattle.std.specs.Prelude.{◌≡◌, ◌⊎◌, ℕ, List};
ghost use Rattle.hz_same_model.specs.Words.{IsEarlier};

/// Of two words one is earlier, or they are one. No word is earlier than itself, and the order goes on.
pub fn words_are_in_order()
    ensures one { (v w : List ℕ) → IsEarlier v w ⊎ (v ≡ w) ⊎ IsEarlier w v }
    ensures itself { (w : List ℕ) → IsEarlier w w → ⊥ }
    ensures on { (u v w : List ℕ) → IsEarlier u v → IsEarlier v w → IsEarlier u w }
{}
