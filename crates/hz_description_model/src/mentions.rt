//! Laws of the names in expressions.

ghost use Rattle.std.specs.Prelude.{◌↔◌, ℕ, List};
ghost use Rattle.std.specs.List.{Contains};
ghost use Rattle.hz_description_model.specs.Reservations.Alternatives.{Expression};
ghost use Rattle.hz_description_model.specs.Reservations.NamesIn.{names_in};
ghost use Rattle.hz_description_model.specs.Reservations.Meanings.{Mentions};

/// The names in an expression, from left to right, are those that it mentions.
pub fn names_in_are_mentioned()
    ensures { (e : Expression) (name : List ℕ) → Mentions e name ↔ Contains (names_in e) name }
{}
