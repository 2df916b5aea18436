//! Fields one after the other.

ghost use Rattle.std.specs.Prelude.{◌≡◌, ◌≤◌, ◌++◌, ◌∷◌, [], IfOk};
ghost use Rattle.std.specs.List.{list_all};
ghost use Rattle.hz_tabtext_model.specs.Judging.{each_by};
ghost use Rattle.hz_tabtext_model.specs.Fields as model;
ghost use Rattle.hz_base_model.specs.Limits.{class_limit, unit_limit};
ghost use Rattle.hz_tabtext_model.specs.Lines.{entries_of, asks_of};
ghost use Rattle.hz_tabfile.specs.Cutting.{fields_in};
ghost use Rattle.hz_tabfile.specs.Judged.{Judges};
ghost use Rattle.hz_tabfile.specs.Lines.{new_name_in, cell_in, cycles_in};

use super::cutting::cut;
use super::numbers::{advance, ask_entry, entry, number_below};
use super::pairs::{cycle, has_unit};
use super::size::Size;
use super::wrong::Wrong;
use hz_regexp::Name;
use indexmap::IndexSet;
use std::alloc::Global;

/// The numbers below a limit that fields are. Memory for a number is taken once it is judged.
pub fn numbers_below(alloc: Global, fields: Option<&[u8]>, limit: u32) -> Result<Vec<u32>, Wrong>
    ensures { Judges (λ numbers. numbers.items) result (each_by (model.number_below limit) (fields_in fields.entry)) }
{
    let mut numbers = Vec::new(alloc);
    let mut rest = fields;
    while let Some(text) = rest {
        let (field, after) = cut(text, b' ');
        let number = number_below(field, limit)?;
        numbers.push(number)?;
        rest = after;
    }
    Ok(numbers)
}

/// The name that a field is, where it is another than those that are known, which it joins.
pub fn new_name(alloc: Global, field: &[u8], known: &mut IndexSet<Name>) -> Result<Name, Wrong>
    ensures named { Judges (λ name. name) result (new_name_in known.old.keys field.now) }
    ensures known { IfOk result (λ name. known.new.keys ≡ known.old.keys ++ name ∷ []) }
{
    let Some(name) = Name::of(alloc, field)? else {
        return Err(Wrong::BadLine);
    };
    if known.insert(name.copy()?)? {
        Ok(name)
    } else {
        Err(Wrong::BadLine)
    }
}

/// The names that fields are, each another than those that are known before it, which they join.
pub fn new_names(
    alloc: Global,
    fields: Option<&[u8]>,
    known: &mut IndexSet<Name>,
) -> Result<Vec<Name>, Wrong>
    ensures named { Judges (λ names. names.items) result (asks_of known.old.keys (fields_in fields.entry)) }
    ensures known { IfOk result (λ names. known.new.keys ≡ known.old.keys ++ names.items) }
{
    let mut names = Vec::new(alloc);
    let mut rest = fields;
    while let Some(text) = rest {
        let (field, after) = cut(text, b' ');
        let name = new_name(alloc, field, known)?;
        names.push(name)?;
        rest = after;
    }
    Ok(names)
}

/// What stands at a place of the row of this number: an entry of a class, that of an ask, or the advance.
fn cell(field: &[u8], size: Size, number: u32, place: usize) -> Result<Option<u32>, Wrong>
    requires columns { size.columns ≤ class_limit }
    requires asks { size.asks ≤ unit_limit }
    ensures { Judges (λ e. e) result (cell_in size.columns size.asks size.states number place field.now) }
{
    if place < size.columns as usize {
        entry(field, size.states)
    } else if place < (size.columns + size.asks) as usize {
        ask_entry(field, number)
    } else {
        advance(field, size.states)
    }
}

/// The entries of the state of this number in place of those in `row`: one for each column and each ask, and the advance.
pub fn cells(
    fields: Option<&[u8]>,
    size: Size,
    number: u32,
    row: &mut Vec<Option<u32>>,
) -> Result<(), Wrong>
    requires columns { size.columns ≤ class_limit }
    requires asks { size.asks ≤ unit_limit }
    ensures { Judges (λ _. row.new.items) result (entries_of size.columns size.asks size.states number (fields_in fields.entry)) }
{
    row.clear();
    let mut rest = fields;
    while let Some(text) = rest {
        let (field, after) = cut(text, b' ');
        let entry = cell(field, size, number, row.len())?;
        row.push(entry)?;
        rest = after;
    }
    Ok(())
}

/// Whether each field has a unit.
pub fn have_units(fields: Option<&[u8]>) -> bool
    ensures { result ≡ list_all model.has_unit (fields_in fields.entry) }
{
    let mut rest = fields;
    while let Some(text) = rest {
        let (field, after) = cut(text, b' ');
        if !has_unit(field) {
            return false;
        }
        rest = after;
    }
    true
}

/// The cycles of fields, which are dropped.
pub fn cycles(fields: Option<&[u8]>) -> Result<(), Wrong>
    ensures { Judges (λ _. tt) result (cycles_in (fields_in fields.entry)) }
{
    let mut rest = fields;
    while let Some(text) = rest {
        let (field, after) = cut(text, b' ');
        cycle(field)?;
        rest = after;
    }
    Ok(())
}
