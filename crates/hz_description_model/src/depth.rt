//! The laws of the two rules at the number of a description's reservations.

ghost use Rattle.std.specs.Prelude.{◌≡◌, ℕ, Bool, List, length};
ghost use Rattle.hz_description_model.specs.Reservations.Alternatives.{Expression};
ghost use Rattle.hz_description_model.specs.Reading.Descriptions.{Description};
ghost use Rattle.hz_description_model.specs.Check.Places.{meaning, IsKnown, Known};
ghost use Rattle.hz_description_model.specs.Splits.Rules.{somewhere, of_reservation, passes};

/// The number of reservations is depth enough: what is found inside a name is what is found inside its expression.
pub fn reservations_are_depth_enough()
    ensures { (d : Description) (known : Known) → IsKnown d known → (test : Expression → Bool) (name : List ℕ) → passes test (meaning d) (length d.reservations) name ≡ of_reservation (somewhere test (passes test (meaning d) (length d.reservations))) (meaning d name) }
{}
