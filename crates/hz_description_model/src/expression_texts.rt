//! Laws of the texts of expressions.

ghost use Rattle.std.specs.Prelude.{IsTrue, ◌≡◌, ◌⊎◌, ℕ, List};
ghost use Rattle.hz_description_model.specs.Reservations.Alternatives.{Expression};
ghost use Rattle.hz_description_model.specs.Grammar.ExpressionTexts.{Reads, ExpressionFault, FaultAt};
ghost use Rattle.hz_description_model.specs.Reservations.Expressions.{is_expression};

/// One text has one expression.
pub fn one_expression()
    ensures { (text : List ℕ) (a b : Expression) → Reads text a → Reads text b → a ≡ b }
{}

/// One text has one fault, at one place.
pub fn one_fault_of_expressions()
    ensures { (text : List ℕ) (f g : ExpressionFault) (m n : ℕ) → FaultAt text f m → FaultAt text g n → (f ≡ g) × (m ≡ n) }
{}

/// No text has both an expression and a fault.
pub fn expression_or_fault()
    ensures { (text : List ℕ) (value : Expression) (fault : ExpressionFault) (at : ℕ) → Reads text value → FaultAt text fault at → ⊥ }
{}

/// What a text spells is well formed.
pub fn expressions_are_well_formed()
    ensures { (text : List ℕ) (value : Expression) → Reads text value → IsTrue (is_expression value) }
{}

/// Every text has an expression or a fault.
pub fn expression_of_every_text()
    ensures { (text : List ℕ) → ((value : Expression) × Reads text value) ⊎ ((fault : ExpressionFault) × (at : ℕ) × FaultAt text fault at) }
{}
