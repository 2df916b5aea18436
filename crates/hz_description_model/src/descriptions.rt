//! Laws of the forms of descriptions.

ghost use Rattle.std.specs.Prelude.{◌≡◌, ◌<◌, ◌⊎◌, ◌↔◌, ℕ, List, length, IsTrue};
ghost use Rattle.hz_base_model.specs.Forms.Trees.{Trees};
ghost use Rattle.hz_base_model.specs.Forms.Forms as texts;
ghost use Rattle.hz_description_model.specs.Reading.Descriptions.{Description};
ghost use Rattle.hz_description_model.specs.Reading.AddedItems.{Add, HasItems, HasOptions, StandsAfter};
ghost use Rattle.hz_description_model.specs.Reading.DescriptionForms.{Reads, Addition, DescriptionFault, FaultAt, form_count, strings_below};
ghost use Rattle.hz_description_model.specs.Reading.DescriptionShape.{IsWellFormed, IsCheckable};

/// Forms say at most one description.
pub fn one_description()
    ensures { (forms : Trees) (a b : Description) → Reads forms a → Reads forms b → a ≡ b }
{}

/// Forms have at most one fault, at one line.
pub fn one_fault_of_descriptions()
    ensures { (forms : Trees) (f g : DescriptionFault) (m n : ℕ) → FaultAt forms f m → FaultAt forms g n → (f ≡ g) × (m ≡ n) }
{}

/// No forms have both a description and a fault.
pub fn description_or_fault()
    ensures { (forms : Trees) (d : Description) (fault : DescriptionFault) (line : ℕ) → Reads forms d → FaultAt forms fault line → ⊥ }
{}

/// Every list of forms has a description or a fault.
pub fn description_of_every_list_of_forms()
    ensures { (forms : Trees) → ((d : Description) × Reads forms d) ⊎ ((fault : DescriptionFault) × (line : ℕ) × FaultAt forms fault line) }
{}

/// What forms say is well formed, with the kind of each form of the file.
pub fn descriptions_are_well_formed()
    ensures { (forms : Trees) (d : Description) → Reads forms d → (formed : IsWellFormed d) × (length formed.kinds ≡ form_count forms) }
{}

/// What forms say can be checked.
pub fn well_formed_descriptions_can_be_checked()
    ensures { (d : Description) → IsWellFormed d → IsCheckable d }
{}

/// A text shorter than some number has fewer forms than that, and each of its strings is shorter, too.
pub fn texts_bound_their_forms()
    ensures count { (text : List ℕ) (forms : Trees) (size : ℕ) → texts.Reads text forms → length text < size → form_count forms < size }
    ensures strings { (text : List ℕ) (forms : Trees) (size : ℕ) → texts.Reads text forms → length text < size → IsTrue (strings_below size forms) }
{}

/// Each list of items of a description is what the forms of its kind add, in the order of the file.
pub fn items_are_what_forms_add()
    ensures { (forms : Trees) (d : Description) (r : Reads forms d) → (additions : List Addition) × Add r.read 0 forms additions × HasItems d additions }
{}

/// An option stands exactly where some form of options has it, wherever that form stands.
pub fn options_stand_in_forms()
    ensures { (forms : Trees) (d : Description) → Reads forms d → HasOptions d.options forms }
{}

/// A fault stands exactly where the forms are a front that is read, a form with that fault, and a rest.
pub fn faults_stand_after_a_front()
    ensures { (forms : Trees) (fault : DescriptionFault) (line : ℕ) → FaultAt forms fault line ↔ StandsAfter forms fault line }
{}
