//! Sets of numbers as words of 64 bits: the same numbers, so many higher.
ghost use Rattle.std.specs.Prelude.{◌≡◌, ◌↔◌, ◌<◌, ◌≤◌, ◌-◌, ◌*◌, ◌+◌, ℕ, length, slice_index};
ghost use Rattle.hz_grid.specs.Rows.{HasUnit};
ghost use Rattle.hz_grid.specs.Words.{row_of, AreWords, IsRaised};

use crate::words::{WORD, word_at};

// The word of that place, among words before which so many more stand, which are 0.
fn word_after(words: &[u64], more: usize, place: usize) -> u64
    requires { AreWords words.now }
    ensures { (bit : ℕ) → bit < 64 → HasUnit result bit ↔ IsRaised (row_of words.now) (64 * more) (64 * place + bit) }
{
    if place < more {
        0
    } else {
        word_at(words, place - more)
    }
}

// The word of that place, where all numbers are so many higher.
fn raised_word(words: &[u64], by: usize, place: usize) -> u64
    requires words { AreWords words.now }
    requires few { by < 1048576 }
    ensures { (bit : ℕ) → bit < 64 → HasUnit result bit ↔ IsRaised (row_of words.now) by (64 * place + bit) }
{
    let whole = by / WORD;
    let rest = by % WORD;
    let here = word_after(words, whole, place);
    if rest == 0 {
        here
    } else {
        here << rest | word_after(words, whole + 1, place) >> (WORD - rest)
    }
}

/// The same numbers, so many higher; what comes after the last word is dropped.
pub(crate) fn raise(words: &[u64], by: usize, raised: &mut [u64])
    requires words { AreWords words.now }
    requires few { by < 1048576 }
    ensures words { AreWords raised.new }
    ensures length { length raised.new ≡ length raised.old }
    ensures units { (unit : ℕ) → unit < 64 * length raised.old → HasUnit (row_of raised.new) unit ↔ IsRaised (row_of words.now) by unit }
{
    for place in 0..raised.len() {
        raised[place] = raised_word(words, by, place);
    }
}
