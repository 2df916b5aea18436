//! Which guard of a bypass is unknown.

ghost use Rattle.std.specs.Prelude.{◌≡◌, ℕ, List, Err};
ghost use Rattle.hz_base_model.specs.Forms.Trees.{Tree};
ghost use Rattle.hz_description_model.specs.Reading.DescriptionForms.{Said, form_says, unknown_guard};
ghost use Rattle.hz_claims_laws.specs.Guards.{IsWithAnotherGuard};

/// A form whose guard is unknown is `define_bypass` with three operands or more before a string that is not `store_data_bypass_p`, and each
/// such form is so, whatever else it has.
pub fn another_guard_is_unknown()
    ensures each { (read : List ℕ → Said) (n : ℕ) (form : Tree) → IsWithAnotherGuard form → form_says read n form ≡ Err unknown_guard }
    ensures only { (read : List ℕ → Said) (n : ℕ) (form : Tree) → form_says read n form ≡ Err unknown_guard → IsWithAnotherGuard form }
{}
