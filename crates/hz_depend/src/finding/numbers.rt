//! The numbers of bypasses between classes, in a row for each producing class, and the cycles of a true dependence by them.

ghost use Rattle.std.specs.Prelude.{◌≡◌, ◌==◌, ◌<◌, ◌&&◌, not, false, ℕ, All, Some, None, OnOk, IfOk, List, [], filter, length, map, vec_len, if◌then◌else◌, slice_index};
ghost use Rattle.std.specs.List.{list_any, AllPairs};
ghost use Rattle.hz_block_model.specs.Dependences.Classes.{bypass_between, number_between};
ghost use Rattle.hz_checked.specs.NumberRows.{given_in, rows_of, number_at};
ghost use Rattle.hz_checked.specs.Shape.{bypass_of};
ghost use Rattle.hz_depend.specs.GraphShape.{latencies_of};
ghost use Rattle.hz_depend.specs.Held.{held};
ghost use Rattle.hz_depend.specs.Numbers.{has_guard, served, numbers_in, HoldsNumbers};
ghost use Rattle.hz_rtl.specs.Shape.{instruction};

use crate::nodes::Node;
use hz_checked::{Checked, CheckedBypass};
use hz_regexp::NoMemory;
use hz_rtl::{Insn, store_data_bypass};
use std::alloc::Global;
use std::collections::BTreeSet;

/// The numbers of bypasses between classes, in cycles: a row for each producing class, with the number for a consuming class at its
/// place. A row ends after the last class that has one, or later.
#[derive(Drop)]
pub struct Numbers {
    /// Those of the bypasses with the guard.
    pub guarded: Vec<Vec<Option<u32>>>,
    /// Those of the bypasses without it.
    pub plain: Vec<Vec<Option<u32>>>,
}

/// A row for each of so many classes, in which no number is given yet.
fn no_rows(alloc: Global, classes: usize) -> Result<Vec<Vec<Option<u32>>>, NoMemory>
    ensures len { IfOk result (λ rows. vec_len rows ≡ classes) }
    ensures none { IfOk result (λ rows. (out into : ℕ) → number_at (rows_of rows.items) out into ≡ None) }
{
    let mut rows = Vec::new(alloc);
    for _ in 0..classes {
        rows.push(Vec::new(alloc))?;
    }
    Ok(rows)
}

/// Gives the number to the consuming classes.
fn give(row: &mut [Option<u32>], ins: &[u32], number: u32)
    requires { All (λ i. i < length row.old) ins.now }
    ensures { (i : ℕ) → given_in row.new i ≡ (if list_any (λ j. j == i) ins.now then Some number else given_in row.old i) }
{
    for class in ins {
        row[*class as usize] = Some(number);
    }
}

/// The same in a row that grows to so many classes if it is shorter.
fn give_in(
    row: &mut Vec<Option<u32>>,
    ins: &[u32],
    number: u32,
    classes: usize,
) -> Result<(), NoMemory>
    requires { All (λ i. i < classes) ins.now }
    ensures { OnOk result ((i : ℕ) → given_in row.new.items i ≡ (if list_any (λ j. j == i) ins.now then Some number else given_in row.old.items i)) }
{
    if row.len() < classes {
        row.resize(classes, None)?;
    }
    give(row, ins, number);
    Ok(())
}

/// The numbers, each once.
fn distinct(alloc: Global, numbers: &[u32]) -> Result<Vec<u32>, NoMemory>
    ensures same { IfOk result (λ v. (n : ℕ) → list_any (λ m. m == n) v.items ≡ list_any (λ m. m == n) numbers.now) }
    ensures once { IfOk result (λ v. AllPairs (λ earlier later. (earlier == later) ≡ false) v.items) }
    ensures within { IfOk result (λ v. (n : ℕ) → All (λ i. i < n) numbers.now → All (λ i. i < n) v.items) }
{
    let mut seen = BTreeSet::new(alloc);
    let mut kept = Vec::new(alloc);
    for number in numbers {
        if seen.insert(*number)? {
            kept.push(*number)?;
        }
    }
    Ok(kept)
}

/// Gives the number to the pairs of these producing and consuming classes, which are below so many.
fn give_pairs(
    rows: &mut Vec<Vec<Option<u32>>>,
    outs: &[u32],
    ins: &[u32],
    number: u32,
    classes: usize,
) -> Result<(), NoMemory>
    requires outs { All (λ o. o < vec_len rows.old) outs.now }
    requires ins { All (λ i. i < classes) ins.now }
    ensures len { vec_len rows.new ≡ vec_len rows.old }
    ensures numbers { OnOk result ((out into : ℕ) → number_at (rows_of rows.new.items) out into ≡ (if list_any (λ o. o == out) outs.now && list_any (λ i. i == into) ins.now then Some number else number_at (rows_of rows.old.items) out into)) }
{
    for out in outs {
        let row = &mut rows[*out as usize];
        give_in(row, ins, number, classes)?;
    }
    Ok(())
}

/// Gives its number to the pairs of classes that a bypass lists, which are below so many. A class that is listed often is taken once.
fn give_all(
    alloc: Global,
    rows: &mut Vec<Vec<Option<u32>>>,
    bypass: &CheckedBypass,
    classes: usize,
) -> Result<(), NoMemory>
    requires outs { All (λ o. o < vec_len rows.old) bypass.now.outs.items }
    requires ins { All (λ i. i < classes) bypass.now.ins.items }
    ensures len { vec_len rows.new ≡ vec_len rows.old }
    ensures numbers { OnOk result ((out into : ℕ) → number_at (rows_of rows.new.items) out into ≡ (if list_any (λ o. o == out) bypass.now.outs.items && list_any (λ i. i == into) bypass.now.ins.items then Some bypass.now.number else number_at (rows_of rows.old.items) out into)) }
{
    let outs = distinct(alloc, &bypass.outs)?;
    let ins = distinct(alloc, &bypass.ins)?;
    give_pairs(rows, &outs, &ins, bypass.number, classes)
}

/// Whether a bypass has the guard, or has none, as it is asked.
pub(crate) fn is_asked(bypass: &CheckedBypass, guard: bool) -> bool
    ensures { result ≡ has_guard guard (bypass_of bypass.now) }
{
    if guard { bypass.guard } else { !bypass.guard }
}

/// The numbers of the bypasses with the guard, or of those without it: the first that lists a pair of classes gives it.
fn rows_by(
    alloc: Global,
    bypasses: &[CheckedBypass],
    guard: bool,
    classes: usize,
) -> Result<Vec<Vec<Option<u32>>>, NoMemory>
    requires { All (λ b. All (λ n. n < classes) b.outs.items × All (λ n. n < classes) b.ins.items) bypasses.now }
    ensures { IfOk result (λ rows. (out into : ℕ) → number_at (rows_of rows.items) out into ≡ bypass_between (filter (has_guard guard) (map bypass_of bypasses.now)) out into) }
{
    let mut rows = no_rows(alloc, classes)?;
    for k in (0..bypasses.len()).rev() {
        let bypass = &bypasses[k];
        if is_asked(bypass, guard) {
            give_all(alloc, &mut rows, bypass, classes)?;
        }
    }
    Ok(rows)
}

/// The number that a row has for a class.
fn given_in(row: &[Option<u32>], class: u32) -> Option<u32>
    ensures { result ≡ given_in row.now class }
{
    match row.get(class as usize) {
        Some(given) => *given,
        None => None,
    }
}

/// The number that the rows have for a pair of classes.
#[tactic(auto, using(crate::proofs::NumberLemmas::row_there, crate::proofs::NumberLemmas::no_row))]
fn number_in(rows: &[Vec<Option<u32>>], out: u32, into: u32) -> Option<u32>
    ensures { result ≡ number_at (rows_of rows.now) out into }
{
    match rows.get(out as usize) {
        Some(row) => given_in(row, into),
        None => None,
    }
}

/// The cycles of a true dependence of two instructions, by the numbers of the bypasses of their classes, and by the latency of the
/// first. What the second stores is only asked where a bypass with the guard lists both.
#[tactic(auto, using(crate::proofs::NumberLemmas::none_served))]
pub(crate) fn served(
    guarded: Option<u32>,
    plain: Option<u32>,
    latency: u32,
    producer: &Insn,
    consumer: &Insn,
) -> u32
    ensures { result ≡ served guarded plain latency (instruction producer.now) (instruction consumer.now) }
{
    if let Some(number) = guarded {
        if store_data_bypass(producer, consumer) {
            return number;
        }
    }
    plain.unwrap_or(latency)
}

impl Numbers {
    /// The numbers of bypasses between so many classes.
    fn new(alloc: Global, bypasses: &[CheckedBypass], classes: usize) -> Result<Numbers, NoMemory>
        requires { All (λ b. All (λ n. n < classes) b.outs.items × All (λ n. n < classes) b.ins.items) bypasses.now }
        ensures { IfOk result (HoldsNumbers (map bypass_of bypasses.now)) }
    {
        Ok(Numbers {
            guarded: rows_by(alloc, bypasses, true, classes)?,
            plain: rows_by(alloc, bypasses, false, classes)?,
        })
    }

    /// The numbers of the bypasses of a description: of two that list the same classes, both with the guard or both without it, the
    /// first gives it.
    pub fn of(alloc: Global, checked: &Checked) -> Result<Numbers, NoMemory>
        ensures { IfOk result (HoldsNumbers (map bypass_of checked.now.bypasses.items)) }
    {
        Numbers::new(alloc, &checked.bypasses, checked.classes.len())
    }

    /// The cycles of a true dependence of the second instruction on the first.
    #[tactic(auto, unfolding(crate::specs::Numbers::numbers_in))]
    pub(crate) fn between(&self, first: &Node<'_>, second: &Node<'_>) -> u32
        ensures { result ≡ numbers_in self.now (held first.now) (held second.now) }
    {
        let guarded = number_in(&self.guarded, first.class, second.class);
        let plain = number_in(&self.plain, first.class, second.class);
        served(guarded, plain, first.latency, first.insn, second.insn)
    }

    /// The cycles from a producer of a class to a consumer of a class that reads what it makes, where all is ready then: those of the
    /// first bypass with the guard that lists both classes, where the consumer only stores what is made; else those of a bypass
    /// without it that lists both; else the latency of the producing class. It takes no memory. docs/RULES.md, 'Dependences'.
    pub fn ripe(
        &self,
        checked: &Checked,
        producer: &Insn,
        producer_class: u32,
        consumer: &Insn,
        consumer_class: u32,
    ) -> u32
        requires numbers { HoldsNumbers (map bypass_of checked.now.bypasses.items) self.now }
        requires producer { producer_class < length checked.now.classes.items }
        ensures { result ≡ number_between (map bypass_of checked.now.bypasses.items) (slice_index (latencies_of checked.now) producer_class) producer_class consumer_class (instruction producer.now) (instruction consumer.now) }
    {
        let guarded = number_in(&self.guarded, producer_class, consumer_class);
        let plain = number_in(&self.plain, producer_class, consumer_class);
        let latency = checked.classes[producer_class as usize].latency;
        served(guarded, plain, latency, producer, consumer)
    }
}
