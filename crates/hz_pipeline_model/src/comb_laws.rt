//! Laws of combs.

ghost use Rattle.std.specs.Prelude.{◌≡◌, ℕ, ◌+◌, ◌<◌, ◌≤◌, length};
ghost use Rattle.hz_pipeline_model.specs.Tables.Tables.{Table, row_of, entry};
ghost use Rattle.hz_pipeline_model.specs.Combs.Combs.{Comb, HasPlaces, laid, rows_in, entries_of};

/// The rows that are laid in a comb: one for each state, with an entry for each column and the advance, which is what is laid.
pub fn rows_are_what_is_laid()
    ensures each { (comb : Comb) → length (rows_in comb) ≡ length comb.bases }
    ensures width { (comb : Comb) (state : ℕ) → state < length comb.bases → length (row_of (rows_in comb) state) ≡ comb.columns + 1 }
    ensures entries { (comb : Comb) (state column : ℕ) → state < length comb.bases → column ≤ comb.columns → entry (rows_in comb) state column ≡ laid comb state column }
{}

/// A comb in which the entries of a table are laid has the rows of that table.
pub fn combs_read_as_their_table()
    ensures { (table : Table) (comb : Comb) → length table ≡ length comb.bases → ((state : ℕ) → state < length table → length (row_of table state) ≡ comb.columns + 1) → ((state column : ℕ) → state < length table → column ≤ comb.columns → laid comb state column ≡ entry table state column) → rows_in comb ≡ table }
{}

/// A comb has at least as many places as its rows have entries that are not none.
pub fn combs_have_a_place_for_each_entry()
    ensures { (comb : Comb) → HasPlaces comb → entries_of (rows_in comb) ≤ length comb.owners }
{}
