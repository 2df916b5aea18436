//! Laws of the texts of forms.

ghost use Rattle.std.specs.Prelude.{◌≡◌, ◌⊎◌, ℕ, List};
ghost use Rattle.hz_base_model.specs.Forms.Trees.{Trees};
ghost use Rattle.hz_base_model.specs.Forms.Forms.{Reads, FormFault, FaultAt};

/// A text has at most one list of forms.
pub fn one_list_of_forms()
    ensures { (text : List ℕ) (a b : Trees) → Reads text a → Reads text b → a ≡ b }
{}

/// A text has at most one fault, at one line.
pub fn one_fault_of_forms()
    ensures { (text : List ℕ) (f g : FormFault) (m n : ℕ) → FaultAt text f m → FaultAt text g n → (f ≡ g) × (m ≡ n) }
{}

/// No text has both forms and a fault.
pub fn forms_or_fault()
    ensures { (text : List ℕ) (forms : Trees) (fault : FormFault) (line : ℕ) → Reads text forms → FaultAt text fault line → ⊥ }
{}

/// Every text has forms or a fault.
pub fn forms_of_every_text()
    ensures { (text : List ℕ) → ((forms : Trees) × Reads text forms) ⊎ ((fault : FormFault) × (line : ℕ) × FaultAt text fault line) }
{}
