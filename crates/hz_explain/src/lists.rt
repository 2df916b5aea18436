//! Lists and lines, cut where there are no more columns for them.

ghost use Rattle.std.specs.Prelude.{◌≡◌, ◌+◌, ◌<◌, ◌≤◌, ◌++◌, ◌∷◌, ◌==◌, [], suc, OnOk, IfOk, codes, decimal, drop, length, map, nat_le, slice_index_or, if◌then◌else◌};
ghost use Rattle.std.specs.List.{concat};
ghost use Rattle.hz_why_model.specs.Lists as model;
ghost use Rattle.hz_why_model.specs.Lists.{narrow, listed, kept_for, range_text, alternatives_text};
ghost use Rattle.hz_explain.specs.Listing.{run_of, and_number};

use crate::drawing::{LINE, add};
use crate::telling::add_count;
use hz_grid::NoMemory;
use std::alloc::Global;

/// The columns that are kept for what says that a list goes on.
const KEPT: usize = 3;

/// The columns of numbers, at most.
const NUMBERS: usize = 30;

/// Numbers that follow each other: the first, and the last.
#[derive(Clone, Copy)]
struct Run {
    first: usize,
    last: usize,
}

/// Adds a line; of one that is longer than a line may be its first bytes, and `..`.
pub(crate) fn add_narrow(text: &mut Vec<u8>, line: &[u8]) -> Result<(), NoMemory>
    ensures { OnOk result (text.new.items ≡ text.old.items ++ narrow line.now) }
{
    if line.len() <= LINE {
        return add(text, line);
    }
    add(text, &line[..LINE - 2])?;
    add(text, b"..")
}

/// The text before the item at this place: the first text before the first item, and the other between items.
fn text_before<'a>(place: usize, before: &'a [u8], between: &'a [u8]) -> &'a [u8]
    ensures { result.now ≡ (if place == 0 then before.now else between.now) }
{
    if place == 0 { before } else { between }
}

/// The item at this place.
fn item_at(items: &[Vec<u8>], place: usize) -> &[u8]
    requires { place < length items.now }
    ensures { result.now ≡ slice_index_or (map (λ item. item.items) items.now) place [] }
{
    items[place].as_slice()
}

/// The columns that are kept before this place is reached for what says that the list goes on there.
fn columns_kept(items: &[Vec<u8>], place: usize) -> usize
    ensures few { result ≤ 3 }
    ensures value { result ≡ kept_for (drop place (map (λ item. item.items) items.now)) }
{
    if place < items.len() { KEPT } else { 0 }
}

/// Whether an item after a text, and what is kept, is within so many columns.
fn is_within(columns: usize, before: &[u8], item: &[u8], kept: usize) -> bool
    ensures { result ≡ nat_le (length before.now + length item.now + kept) columns }
{
    let used = before.len() + item.len();
    used <= columns && kept <= columns - used
}

/// Adds an item after a text.
fn add_item(text: &mut Vec<u8>, before: &[u8], item: &[u8]) -> Result<(), NoMemory>
    ensures { OnOk result (text.new.items ≡ text.old.items ++ (before.now ++ item.now)) }
{
    add(text, before)?;
    add(text, item)?;
    Ok(())
}

/// Adds a list in so many columns: as many items as fit, the first after one text and each other after another. Where there are more,
/// ` ..` is in their place.
pub(crate) fn add_listed(
    text: &mut Vec<u8>,
    columns: usize,
    before: &[u8],
    between: &[u8],
    items: &[Vec<u8>],
) -> Result<(), NoMemory>
    ensures { OnOk result (text.new.items ≡ text.old.items ++ listed columns before.now between.now (map (λ item. item.items) items.now)) }
{
    let mut left = columns;
    for place in 0..items.len() {
        let start = text_before(place, before, between);
        let item = item_at(items, place);
        let kept = columns_kept(items, place + 1);
        if !is_within(left, start, item, kept) {
            return add(text, b" ..");
        }
        add_item(text, start, item)?;
        left -= start.len() + item.len();
    }
    Ok(())
}

/// Adds the numbers from one to a greater one.
fn add_span(text: &mut Vec<u8>, first: usize, last: usize) -> Result<(), NoMemory>
    ensures { OnOk result (text.new.items ≡ text.old.items ++ concat (decimal first ∷ codes "-" ∷ decimal last ∷ [])) }
{
    add_count(text, first)?;
    add(text, b"-")?;
    add_count(text, last)?;
    Ok(())
}

/// Adds the numbers from one to another.
pub(crate) fn add_range(text: &mut Vec<u8>, first: usize, last: usize) -> Result<(), NoMemory>
    ensures { OnOk result (text.new.items ≡ text.old.items ++ range_text first last) }
{
    if first == last {
        return add_count(text, first);
    }
    add_span(text, first, last)
}

/// Whether a number is the next one after another.
fn follows(last: usize, number: usize) -> bool
    ensures { result ≡ (suc last == number) }
{
    last < number && number - last == 1
}

/// Adds a run.
fn add_run(runs: &mut Vec<Run>, first: usize, last: usize) -> Result<(), NoMemory>
    ensures { OnOk result (map run_of runs.new.items ≡ map run_of runs.old.items ++ record { first = first; last = last } ∷ []) }
{
    runs.push(Run { first, last })?;
    Ok(())
}

/// Adds a run, and a number after it.
fn add_after(runs: &mut Vec<Run>, run: Run, number: usize) -> Result<(), NoMemory>
    ensures { OnOk result (map run_of runs.new.items ≡ map run_of runs.old.items ++ and_number (run_of run ∷ []) number) }
{
    if follows(run.last, number) {
        return add_run(runs, run.first, number);
    }
    add_run(runs, run.first, run.last)?;
    add_run(runs, number, number)?;
    Ok(())
}

/// Adds a number to runs of lesser ones.
fn add_to_runs(runs: &mut Vec<Run>, number: usize) -> Result<(), NoMemory>
    ensures { OnOk result (map run_of runs.new.items ≡ and_number (map run_of runs.old.items) number) }
{
    match runs.pop() {
        Some(last) => add_after(runs, last, number),
        None => add_run(runs, number, number),
    }
}

/// Ascending numbers as runs.
fn runs(alloc: Global, numbers: &[usize]) -> Result<Vec<Run>, NoMemory>
    ensures { IfOk result (λ runs. map run_of runs.items ≡ model.runs numbers.now) }
{
    let mut runs = Vec::new(alloc);
    for number in numbers {
        add_to_runs(&mut runs, *number)?;
    }
    Ok(runs)
}

/// The numbers of a run.
fn range(alloc: Global, run: Run) -> Result<Vec<u8>, NoMemory>
    ensures { IfOk result (λ text. text.items ≡ range_text run.first run.last) }
{
    let mut text = Vec::new(alloc);
    add_range(&mut text, run.first, run.last)?;
    Ok(text)
}

/// The numbers of each run.
fn ranges(alloc: Global, runs: &[Run]) -> Result<Vec<Vec<u8>>, NoMemory>
    ensures { IfOk result (λ ranges. map (λ range. range.items) ranges.items ≡ map (λ run. range_text run.first run.last) (map run_of runs.now)) }
{
    let mut ranges = Vec::new(alloc);
    for run in runs {
        let range = range(alloc, *run)?;
        ranges.push(range)?;
    }
    Ok(ranges)
}

/// Adds `alternative`, or of more than one `alternatives`.
fn add_word(text: &mut Vec<u8>, one: bool) -> Result<(), NoMemory>
    ensures { OnOk result (text.new.items ≡ text.old.items ++ (if one then codes "alternative" else codes "alternatives")) }
{
    if one {
        return add(text, b"alternative");
    }
    add(text, b"alternatives")
}

/// Adds `alternative`, or `alternatives`, and the numbers of these runs.
fn add_numbers(text: &mut Vec<u8>, one: bool, ranges: &[Vec<u8>]) -> Result<(), NoMemory>
    ensures { OnOk result (text.new.items ≡ text.old.items ++ ((if one then codes "alternative" else codes "alternatives") ++ listed model.numbers_limit (codes " ") (codes ", ") (map (λ range. range.items) ranges.now))) }
{
    add_word(text, one)?;
    add_listed(text, NUMBERS, b" ", b", ", ranges)?;
    Ok(())
}

/// `alternative`, or `alternatives`, and these ascending numbers, of which those that follow each other are one range.
pub(crate) fn alternatives(alloc: Global, numbers: &[usize]) -> Result<Vec<u8>, NoMemory>
    ensures { IfOk result (λ text. text.items ≡ alternatives_text numbers.now) }
{
    let runs = runs(alloc, numbers)?;
    let ranges = ranges(alloc, &runs)?;
    let mut text = Vec::new(alloc);
    add_numbers(&mut text, numbers.len() == 1, &ranges)?;
    Ok(text)
}
