//! The forms of a description read back, operand by operand.

ghost use Rattle.std.specs.Prelude.{◌≡◌, ℕ, List, Some, Ok};
ghost use Rattle.hz_base_model.specs.Forms.Trees.{Tree};
ghost use Rattle.hz_description_model.specs.Reading.DescriptionForms.{Said, Addition, condition_in, form_says};
ghost use Rattle.hz_description_model.specs.Reading.Descriptions.{Condition};
ghost use Rattle.hz_laws.specs.Written.{Writes, WritesCondition};

/// What a form writes of a description is what it says: each word has its kind, and each operand its place.
pub fn forms_say_what_is_written()
    ensures { (read : List ℕ → Said) (line n : ℕ) (form : Tree) (addition : Addition) → Writes read line n form addition → form_says read n form ≡ Ok addition }
{}

/// What a condition writes is what it says.
pub fn conditions_say_what_is_written()
    ensures { (form : Tree) (test : Condition) → WritesCondition form test → condition_in form ≡ Some test }
{}
