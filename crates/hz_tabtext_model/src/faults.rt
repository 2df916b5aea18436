//! Laws of the faults of tables texts.

ghost use Rattle.std.specs.Prelude.{◌≡◌, ◌≢◌, ◌<◌, ◌≤◌, ℕ, List, [], ◌∷◌, ◌++◌, Err, codes, Bool};
ghost use Rattle.hz_pipeline_model.specs.Tables.Machines.{Machine};
ghost use Rattle.hz_tabtext_model.specs.Texts.{TableText, joined, header_line};
ghost use Rattle.hz_tabtext_model.specs.Judging.{Fault, truncated, trailing};
ghost use Rattle.hz_tabtext_model.specs.Reading.{tables_in};
ghost use Rattle.hz_tabtext_model.specs.Faults.{last_line, bad_header_at, truncated_at, trailing_at};

/// What is reported of a line that is ended stays, whatever comes after that line: no such text stands for a machine.
pub fn faults_stay()
    ensures reported { (front more other : List ℕ) (fault : Fault) → fault.line < last_line front → tables_in (front ++ more) ≡ Err fault → tables_in (front ++ other) ≡ Err fault }
    ensures no_machine { (front more other : List ℕ) (fault : Fault) (machine : Machine) → fault.line < last_line front → tables_in (front ++ more) ≡ Err fault → TableText (front ++ other) machine → ⊥ }
{}

/// The line of a fault is a line of the text, and where a line is ended its fault is not that the text ends.
pub fn faults_are_at_lines()
    ensures first { (text : List ℕ) (fault : Fault) → tables_in text ≡ Err fault → 1 ≤ fault.line }
    ensures last { (text : List ℕ) (fault : Fault) → tables_in text ≡ Err fault → fault.line ≤ last_line text }
    ensures ended { (text : List ℕ) (line : ℕ) → tables_in text ≡ Err (truncated_at line) → line ≡ last_line text }
    ensures not_ended { (text : List ℕ) (fault : Fault) → tables_in text ≡ Err fault → fault.line ≡ last_line text → fault.kind ≢ trailing → fault ≡ truncated_at (last_line text) }
{}

/// A text is truncated, at the last line that is left, wherever one of a machine is cut, and wherever one with a fault other
/// than Trailing is cut before the end of its line. Nothing that comes after a text that is truncated makes an earlier
/// line wrong.
pub fn cut_texts_are_truncated()
    ensures machines { (front more : List ℕ) (machine : Machine) → more ≢ [] → TableText (front ++ more) machine → tables_in front ≡ Err (truncated_at (last_line front)) }
    ensures faults { (front more : List ℕ) (fault : Fault) → fault.kind ≢ trailing → last_line front ≤ fault.line → tables_in (front ++ more) ≡ Err fault → tables_in front ≡ Err (truncated_at (last_line front)) }
    ensures nothing_before { (front more : List ℕ) (line : ℕ) (fault : Fault) → tables_in front ≡ Err (truncated_at line) → tables_in (front ++ more) ≡ Err fault → last_line front ≤ fault.line }
{}

/// Trailing is what comes after a text of a machine, reported of the line where it begins.
pub fn trailing_texts_begin_with_machines()
    ensures reported { (front more : List ℕ) (machine : Machine) → more ≢ [] → TableText front machine → tables_in (front ++ more) ≡ Err (trailing_at (last_line front)) }
    ensures found { (text : List ℕ) (line : ℕ) → tables_in text ≡ Err (trailing_at line) → (front : List ℕ) × (more : List ℕ) × (machine : Machine) × (text ≡ front ++ more) × (more ≢ []) × TableText front machine × (line ≡ last_line front) }
{}

/// A wrong header is reported of line 1, exactly where that line is ended and the text begins with the line of neither header.
pub fn headers_stand_first()
    ensures reported { (text : List ℕ) → 1 < last_line text → ((asked : Bool) (more : List ℕ) → text ≢ joined (header_line asked) ++ 10 ∷ more) → tables_in text ≡ Err (bad_header_at 1) }
    ensures found { (text : List ℕ) (line : ℕ) → tables_in text ≡ Err (bad_header_at line) → (line ≡ 1) × (1 < last_line text) × ((asked : Bool) (more : List ℕ) → text ≢ joined (header_line asked) ++ 10 ∷ more) }
{}
