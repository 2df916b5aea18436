//! Rows of any width as words of 64 bits: what rows do, word by word. A place past the last word has no unit.
ghost use Rattle.std.specs.Prelude.{◌≡◌, ◌≢◌, ◌↔◌, ◌⊎◌, ◌<◌, ◌≤◌, ◌*◌, ℕ, length, slice_index, IsTrue};
ghost use Rattle.hz_grid.specs.Rows.{HasUnit, RowsMeet, IsWithin, DifferAt, HasAbove};
ghost use Rattle.hz_grid.specs.Words.{row_of, AreWords};

/// How many units a word has.
pub(crate) const WORD: usize = 64;

/// The word of that place.
pub(crate) fn word_at(words: &[u64], place: usize) -> u64
    ensures { result ≡ slice_index words.now place }
{
    words.get(place).copied().unwrap_or(0)
}

/// Whether the unit is in the row.
pub(crate) fn holds(words: &[u64], unit: usize) -> bool
    requires { AreWords words.now }
    ensures { IsTrue result ↔ HasUnit (row_of words.now) unit }
{
    word_at(words, unit / WORD) >> (unit % WORD) & 1 == 1
}

/// Whether some unit is in both rows.
pub(crate) fn meet(first: &[u64], second: &[u64]) -> bool
    requires first { AreWords first.now }
    requires second { AreWords second.now }
    ensures { IsTrue result ↔ RowsMeet (row_of first.now) (row_of second.now) }
{
    for place in 0..first.len().min(second.len()) {
        if first[place] & second[place] != 0 {
            return true;
        }
    }
    false
}

/// Whether each unit of the first row is in the second.
pub(crate) fn within(first: &[u64], second: &[u64]) -> bool
    requires first { AreWords first.now }
    requires second { AreWords second.now }
    ensures { IsTrue result ↔ IsWithin (row_of first.now) (row_of second.now) }
{
    for place in 0..first.len() {
        let other = word_at(second, place);
        if first[place] | other != other {
            return false;
        }
    }
    true
}

/// Whether both rows have the same units.
pub(crate) fn same(first: &[u64], second: &[u64]) -> bool
    requires first { AreWords first.now }
    requires second { AreWords second.now }
    ensures { IsTrue result ↔ (row_of first.now ≡ row_of second.now) }
{
    for place in 0..first.len().max(second.len()) {
        if word_at(first, place) != word_at(second, place) {
            return false;
        }
    }
    true
}

/// Whether no unit is in the row.
pub(crate) fn is_empty(words: &[u64]) -> bool
    requires { AreWords words.now }
    ensures { IsTrue result ↔ ((unit : ℕ) → unit < 64 * length words.now → ¬ HasUnit (row_of words.now) unit) }
{
    same(words, &[])
}

/// Adds a unit.
pub(crate) fn add(words: &mut [u64], unit: usize)
    requires words { AreWords words.old }
    requires unit { unit < 64 * length words.old }
    ensures words { AreWords words.new }
    ensures length { length words.new ≡ length words.old }
    ensures units { (other : ℕ) → HasUnit (row_of words.new) other ↔ (HasUnit (row_of words.old) other ⊎ (other ≡ unit)) }
{
    let place = unit / WORD;
    words[place] = words[place] | 1 << (unit % WORD);
}

/// Adds the units of a row that is no wider.
pub(crate) fn join(words: &mut [u64], others: &[u64])
    requires words { AreWords words.old }
    requires others { AreWords others.now }
    requires narrow { length others.now ≤ length words.old }
    ensures words { AreWords words.new }
    ensures length { length words.new ≡ length words.old }
    ensures units { (unit : ℕ) → HasUnit (row_of words.new) unit ↔ (HasUnit (row_of words.old) unit ⊎ HasUnit (row_of others.now) unit) }
{
    for place in 0..others.len() {
        words[place] = words[place] | others[place];
    }
}

/// The lowest unit that is in one of the rows alone.
pub(crate) fn first_difference(first: &[u64], second: &[u64]) -> usize
    requires first { AreWords first.now }
    requires second { AreWords second.now }
    requires few { length first.now ≤ 4 }
    requires other_few { length second.now ≤ 4 }
    requires differ { row_of first.now ≢ row_of second.now }
    ensures { DifferAt (row_of first.now) (row_of second.now) result }
{
    for place in 0..first.len().max(second.len()) {
        let both = word_at(first, place) ^ word_at(second, place);
        if both != 0 {
            return place * WORD + both.trailing_zeros() as usize;
        }
    }
    unreachable!()
}

/// Whether a unit above this one is in the row.
pub(crate) fn has_above(words: &[u64], unit: usize) -> bool
    requires { AreWords words.now }
    ensures { IsTrue result ↔ HasAbove (row_of words.now) unit }
{
    if word_at(words, unit / WORD) >> (unit % WORD) > 1 {
        return true;
    }
    for place in unit / WORD + 1..words.len() {
        if words[place] != 0 {
            return true;
        }
    }
    false
}
