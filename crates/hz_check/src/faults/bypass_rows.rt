//! Numbers of pairs of classes, in a row for each producing class.

ghost use Rattle.std.specs.Prelude.{◌≡◌, ◌==◌, ◌<◌, ◌&&◌, ℕ, Bool, All, Some, None, OnOk, OnErr, IfOk, List, [], length, vec_len, if◌then◌else◌, filter};
ghost use Rattle.std.specs.List.{list_any};
ghost use Rattle.hz_checked.specs.NumberRows.{given_in, rows_of, number_at, is_other, has_other};
ghost use Rattle.hz_check.specs.Names.First.{first_of};

use hz_regexp::NoMemory;
use std::alloc::Global;
use std::collections::BTreeSet;

/// The numbers, each once, in the order in which they stand first.
pub(crate) fn distinct(alloc: Global, numbers: &[usize]) -> Result<Vec<usize>, NoMemory>
    ensures firsts { IfOk result (λ v. (p : ℕ → Bool) → first_of (filter p v.items) ≡ first_of (filter p numbers.now)) }
    ensures within { IfOk result (λ v. (n : ℕ) → All (λ i. i < n) numbers.now → All (λ i. i < n) v.items) }
{
    let mut seen = BTreeSet::new(alloc);
    let mut kept = Vec::new(alloc);
    for number in numbers {
        if seen.insert(*number)? {
            kept.push(*number)?;
        }
    }
    Ok(kept)
}

/// The number that a row has for a class.
fn given_in(row: &[Option<u32>], class: usize) -> Option<u32>
    ensures { result ≡ given_in row.now class }
{
    match row.get(class) {
        Some(given) => *given,
        None => None,
    }
}

/// Whether another number is given.
fn is_other(given: Option<u32>, number: u32) -> bool
    ensures { result ≡ is_other given number }
{
    match given {
        Some(given) => given != number,
        None => false,
    }
}

/// Whether some of the classes is given another number in the row.
fn has_other(row: &[Option<u32>], ins: &[usize], number: u32) -> bool
    ensures { result ≡ has_other row.now ins.now number }
{
    ins.iter()
        .any(|class| is_other(given_in(row, *class), number))
}

/// Gives the number to the classes.
fn give(row: &mut [Option<u32>], ins: &[usize], number: u32)
    requires { All (λ i. i < length row.old) ins.now }
    ensures { (i : ℕ) → given_in row.new i ≡ (if list_any (λ j. j == i) ins.now then Some number else given_in row.old i) }
{
    for class in ins {
        row[*class] = Some(number);
    }
}

/// A row for each of so many classes, in which no number is given yet.
pub(crate) fn no_rows(alloc: Global, classes: usize) -> Result<Vec<Vec<Option<u32>>>, NoMemory>
    ensures len { IfOk result (λ rows. vec_len rows ≡ classes) }
    ensures none { IfOk result (λ rows. (out i : ℕ) → number_at (rows_of rows.items) out i ≡ None) }
{
    let mut rows = Vec::new(alloc);
    for _ in 0..classes {
        rows.push(Vec::new(alloc))?;
    }
    Ok(rows)
}

/// Whether some of the consuming classes has another number from the producing one.
fn pair_has_other(rows: &[Vec<Option<u32>>], out: usize, ins: &[usize], number: u32) -> bool
    requires { out < length rows.now }
    ensures { result ≡ list_any (λ i. is_other (number_at (rows_of rows.now) out i) number) ins.now }
{
    let row = rows[out].as_slice();
    has_other(row, ins, number)
}

/// The first of the producing classes for which some consuming class has another number.
pub(crate) fn first_other(
    rows: &[Vec<Option<u32>>],
    outs: &[usize],
    ins: &[usize],
    number: u32,
) -> Option<usize>
    requires { All (λ o. o < length rows.now) outs.now }
    ensures { result ≡ first_of (filter (λ o. list_any (λ i. is_other (number_at (rows_of rows.now) o i) number) ins.now) outs.now) }
{
    for out in outs {
        if pair_has_other(rows, *out, ins, number) {
            return Some(*out);
        }
    }
    None
}

/// Gives the number to the classes in a row, which grows to so many classes if it is shorter.
fn give_in(
    row: &mut Vec<Option<u32>>,
    ins: &[usize],
    number: u32,
    classes: usize,
) -> Result<(), NoMemory>
    requires { All (λ i. i < classes) ins.now }
    ensures { OnOk result ((i : ℕ) → given_in row.new.items i ≡ (if list_any (λ j. j == i) ins.now then Some number else given_in row.old.items i)) }
{
    if row.len() < classes {
        row.resize(classes, None)?;
    }
    give(row, ins, number);
    Ok(())
}

/// Gives the number to the pairs of these producing and consuming classes, which are below so many.
pub(crate) fn give_all(
    rows: &mut Vec<Vec<Option<u32>>>,
    outs: &[usize],
    ins: &[usize],
    number: u32,
    classes: usize,
) -> Result<(), NoMemory>
    requires outs { All (λ o. o < vec_len rows.old) outs.now }
    requires ins { All (λ i. i < classes) ins.now }
    ensures len { vec_len rows.new ≡ vec_len rows.old }
    ensures numbers { OnOk result ((o i : ℕ) → number_at (rows_of rows.new.items) o i ≡ (if list_any (λ p. p == o) outs.now && list_any (λ j. j == i) ins.now then Some number else number_at (rows_of rows.old.items) o i)) }
{
    for out in outs {
        let row = &mut rows[*out];
        give_in(row, ins, number, classes)?;
    }
    Ok(())
}
