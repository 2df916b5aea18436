//! Which bypasses give a pair of classes two numbers.

ghost use Rattle.std.specs.Prelude.{◌↔◌, Contains};
ghost use Rattle.hz_claims_laws.specs.Numbers.{GiveTwoNumbers};
ghost use Rattle.hz_description_model.specs.Check.CheckFaults.{second_numbers};
ghost use Rattle.hz_description_model.specs.Check.Sites.{Site};
ghost use Rattle.hz_description_model.specs.Reading.Descriptions.{Description};

/// A producing class is reported exactly if two bypasses of the file, both without the guard, list a pair of it and give the pair two numbers.
pub fn second_numbers_are_between_bypasses_without_the_guard()
    ensures { (d : Description) (s : Site) → Contains (second_numbers d) s ↔ GiveTwoNumbers d s }
{}
