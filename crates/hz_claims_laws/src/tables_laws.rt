//! Where a tables text has the lines of an automaton.

ghost use Rattle.std.specs.Prelude.{◌≡◌, ℕ, true, false, List, [], ◌∷◌, ◌++◌, codes, decimal, length, map, Contains};
ghost use Rattle.hz_tabtext_model.specs.Texts.{TablesText, PartText, tables_lines};
ghost use Rattle.hz_claims_laws.specs.TablesLines.{BeginsWithCountsOrRow};

/// In a text of version 2 each automaton has its line, that of its columns, and directly after that the line of its asks, before its
/// counts and its rows.
pub fn lines_of_asks_follow_the_columns()
    ensures { (says : TablesText) (part : PartText) → says.asked ≡ true → Contains says.parts part →
        (front : List (List (List ℕ))) × (rest : List (List (List ℕ)))
        × (tables_lines says ≡ front ++ (codes "automaton" ∷ part.name ∷ decimal part.columns ∷ decimal (length part.rows) ∷ []) ∷ (codes "map" ∷ map decimal part.map) ∷ (codes "asks" ∷ part.asks) ∷ rest)
        × BeginsWithCountsOrRow part rest }
{}

/// In a text of version 1 there is no line of asks after that of the columns: the counts or the first row come next.
pub fn texts_without_asks_have_no_such_line()
    ensures { (says : TablesText) (part : PartText) → says.asked ≡ false → Contains says.parts part →
        (front : List (List (List ℕ))) × (rest : List (List (List ℕ)))
        × (tables_lines says ≡ front ++ (codes "automaton" ∷ part.name ∷ decimal part.columns ∷ decimal (length part.rows) ∷ []) ∷ (codes "map" ∷ map decimal part.map) ∷ rest)
        × BeginsWithCountsOrRow part rest }
{}
