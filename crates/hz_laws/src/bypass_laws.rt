//! Which classes a bypass lists.

ghost use Rattle.std.specs.Prelude.{◌≡◌, ℕ, List, Contains, Some, slice_get};
ghost use Rattle.hz_description_model.specs.Check.CheckedParts.{class_numbers};
ghost use Rattle.hz_description_model.specs.Reading.Descriptions.{Description, ClassItem};

/// Each number that is listed for names is that of some class of one of these names. Of each of the names that some class has, the
/// number of some class of that name is listed.
pub fn classes_have_the_numbers_of_their_names()
    ensures of { (d : Description) (names : List (List ℕ)) (k : ℕ) → Contains (class_numbers d names) k → (c : ClassItem) × (slice_get d.classes k ≡ Some c) × Contains names c.name }
    ensures each { (d : Description) (names : List (List ℕ)) (c : ClassItem) → Contains d.classes c → Contains names c.name → (k : ℕ) × Contains (class_numbers d names) k × (o : ClassItem) × (slice_get d.classes k ≡ Some o) × (o.name ≡ c.name) }
{}
