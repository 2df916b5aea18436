//! Cycles, and the reservation tables of units.

use crate::automata::texts::pair_of;
use hz_grid::{Cycles, ReservationTable};
use std::alloc::Global;
use std::fmt::Write;

/// The set of the cycles of a text.
fn set_of(text: &str) -> Option<Cycles> {
    let mut set = Cycles::none();
    for word in text.split_whitespace() {
        let cycle = word.parse::<u32>().ok()?;
        if cycle >= 512 {
            return None;
        }
        set = set.with(cycle);
    }
    Some(set)
}

/// Writes the cycles of a set: `-` and the last one of several in a row after the first of them, and `none` where it is empty.
fn write_set(out: &mut String, set: Cycles) -> Option<()> {
    if set.is_empty() {
        return out.push_str(" none").ok();
    }
    for cycle in 0..600 {
        let follows = cycle > 0 && set.holds(cycle - 1);
        if set.holds(cycle) && !(follows && set.holds(cycle + 1)) {
            let mark = if follows { '-' } else { ' ' };
            write!(out, "{mark}{cycle}").ok()?;
        }
    }
    Some(())
}

/// Copies of a set, `TIMES APART`.
fn copies_of(set: Cycles, numbers: &str) -> Option<Cycles> {
    let (times, apart) = numbers.split_once(' ')?;
    Some(set.copies(times.parse::<u32>().ok()?, apart.parse::<u32>().ok()?))
}

/// What is made of the cycles before a `/`, and whether it is the same: `join` with cycles, so many cycles `later`, or `copies`.
pub fn answer_cycles(alloc: Global, text: &str) -> Option<String> {
    let (cycles, made) = text.split_once('/')?;
    let set = set_of(cycles)?;
    let (word, rest) = made.trim().split_once(' ').unwrap_or((made.trim(), ""));
    let made = match word {
        "join" => set.join(set_of(rest)?),
        "later" => set.later(rest.parse::<u32>().ok()?),
        "copies" => copies_of(set, rest)?,
        _ => return None,
    };
    let mut out = String::new(alloc);
    write_set(&mut out, made)?;
    if made == set {
        out.push_str(" same").ok()?;
    }
    Some(out)
}

/// Takes cycles for a unit: `AUTOMATON.UNIT CYCLE ..`.
fn take(table: &mut ReservationTable, text: &str) -> Option<()> {
    let (word, cycles) = text.trim().split_once(' ')?;
    let (automaton, unit) = pair_of(word)?;
    if automaton >= 16 {
        return None;
    }
    table.take(automaton, u8::try_from(unit).ok()?, set_of(cycles)?);
    Some(())
}

/// Writes the cycles that are taken for a unit.
fn write_taken(out: &mut String, table: &ReservationTable, word: &str) -> Option<()> {
    let (automaton, unit) = pair_of(word)?;
    if automaton >= 16 {
        return None;
    }
    out.push(';').ok()?;
    write_set(out, table.cycles_of(automaton, u8::try_from(unit).ok()?))
}

/// Takes what stands between bars in a table.
fn take_all(table: &mut ReservationTable, text: &str) -> Option<()> {
    for one in text.split('|') {
        take(table, one)?;
    }
    Some(())
}

/// The cycles that are taken for each unit after a `/`, where those before it are taken.
pub fn answer_reserved(alloc: Global, text: &str) -> Option<String> {
    let (taken, units) = text.split_once('/')?;
    let mut table = ReservationTable::new(alloc).ok()?;
    take_all(&mut table, taken)?;
    let mut out = String::new(alloc);
    for word in units.split_whitespace() {
        write_taken(&mut out, &table, word)?;
    }
    Some(out)
}
