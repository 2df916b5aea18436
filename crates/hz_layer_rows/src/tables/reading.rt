//! Texts of tables, with the machines that they are.

ghost use Rattle.std.specs.Prelude.{◌≡◌, ◌<◌};

use crate::automata::forms::write_steps;
use hz_regexp::Name;
use hz_tabfile::read_tables;
use hz_tables::{Machine, Part, Steps};
use std::alloc::Global;
use std::fmt::Write;
use std::marker::Brand;
use std::sync::ledger::{Blank, Ledger};

/// Writes names.
fn write_names(out: &mut String, names: &[Name]) -> Option<()> {
    for name in names {
        write!(out, " {}", str::from_utf8(name.bytes()).ok()?).ok()?;
    }
    Some(())
}

/// Writes a part: its name, its map, its asks and its rows.
fn write_part<L: Ledger>(out: &mut String, part: &Part, steps: &mut Steps<L>) -> Option<()> {
    let name = str::from_utf8(part.name.bytes()).ok()?;
    write!(out, "| {name} {:?} asks", part.map).ok()?;
    write_names(out, &part.asks)?;
    out.push(';').ok()?;
    for state in 0..part.table.states() {
        write_steps(out, &part.table, state, steps)?;
    }
    Some(())
}

/// Writes the classes and the parts of a machine.
fn write_machine<L: Ledger>(
    out: &mut String,
    machine: &Machine,
    steps: &mut Steps<L>,
) -> Option<()> {
    write_names(out, &machine.classes)?;
    for part in &machine.parts {
        write_part(out, part, steps)?;
    }
    Some(())
}

/// The machine of a text, by steps that are counted, or what is wrong with it.
fn counted<L: Ledger>(alloc: Global, bytes: &[u8], blank: Blank) -> Option<String>
    requires name { blank.name ≡ L.name }
    requires parts { blank.parts ≡ L.parts }
    requires some { 0 < blank.parts }
{
    if bytes.len() > 100_000 {
        return None;
    }
    let mut steps = Steps::<L>::new(blank);
    let mut out = String::new(alloc);
    match &read_tables(alloc, bytes) {
        Ok(machine) => write_machine(&mut out, machine, &mut steps)?,
        Err(fault) => write!(out, "{fault}").ok()?,
    }
    Some(out)
}

/// The machine of a text, or what is wrong with it. A `/` stands for a line feed, a `^` for a tab and a `$` for a carriage return.
pub fn answer(alloc: Global, text: &str) -> Option<String> {
    let lines = text.replace(alloc, "/", "\n").ok()?;
    let lines = lines.as_str().replace(alloc, "^", "\t").ok()?;
    let lines = lines.as_str().replace(alloc, "$", "\r").ok()?;
    counted::<Brand>(alloc, lines.as_bytes(), Blank::new(1))
}
