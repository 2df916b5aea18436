//! Laws of tables texts.

ghost use Rattle.std.specs.Prelude.{◌≡◌, ℕ, ◌⊎◌, List, Ok, Err};
ghost use Rattle.hz_pipeline_model.specs.Tables.Machines.{Machine, IsMachine};
ghost use Rattle.hz_tabtext_model.specs.Texts.{TablesText, IsTables, TableText, spelled, machine_of};
ghost use Rattle.hz_tabtext_model.specs.Judging.{Fault};
ghost use Rattle.hz_tabtext_model.specs.Reading.{tables_in};

/// A text stands for a machine exactly where reading it gives that machine.
pub fn texts_are_read()
    ensures read { (text : List ℕ) (machine : Machine) → TableText text machine → tables_in text ≡ Ok machine }
    ensures found { (text : List ℕ) (machine : Machine) → tables_in text ≡ Ok machine → TableText text machine }
{}

/// No text stands for two machines.
pub fn one_machine_of_a_text()
    ensures { (text : List ℕ) (a b : Machine) → TableText text a → TableText text b → a ≡ b }
{}

/// Every text stands for a machine or has a fault.
pub fn machines_or_faults()
    ensures one { (text : List ℕ) → ((machine : Machine) × TableText text machine) ⊎ ((fault : Fault) × (tables_in text ≡ Err fault)) }
    ensures not_both { (text : List ℕ) (machine : Machine) (fault : Fault) → TableText text machine → tables_in text ≡ Err fault → ⊥ }
{}

/// What is spelled is read as the machine that is said, whichever lines are reported beside it.
pub fn spelled_texts_are_read()
    ensures { (says : TablesText) → IsTables says → tables_in (spelled says) ≡ Ok (machine_of says) }
{}

/// What a text stands for is a machine.
pub fn texts_stand_for_machines()
    ensures { (text : List ℕ) (machine : Machine) → TableText text machine → IsMachine machine }
{}
