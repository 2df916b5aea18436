//! What each line says at its place.

ghost use Rattle.std.specs.Prelude.{◌≡◌, ◌≤◌, ◌++◌, IfOk, length};
ghost use Rattle.hz_base_model.specs.Limits.{class_limit, unit_limit};
ghost use Rattle.hz_pipeline_model.specs.Tables.StateLimits.{state_limit};
ghost use Rattle.hz_tabtext_model.specs.Lines as model;
ghost use Rattle.hz_tabfile.specs.Judged.{Judges};
ghost use Rattle.hz_tabfile.specs.Heads.{head_said};
ghost use Rattle.hz_tabfile.specs.Lines.{class_onto};

use super::cutting::{cut, is_word};
use super::each::{cells, cycles, have_units, new_names, numbers_below};
use super::head::Head;
use super::numbers::{number, number_below};
use super::operands::{next_field, one, operands, three};
use super::size::Size;
use super::wrong::Wrong;
use hz_grid::UNITS;
use hz_regexp::{Name, is_name};
use indexmap::IndexSet;
use std::alloc::Global;

/// The classes of a machine.
const CLASSES: u32 = 1_024;

/// The automata of a machine.
const AUTOMATA: u32 = 16;

/// The states of a table.
const STATES: u32 = 65_536;

/// The entries of a table, those of the advance among them.
const CELLS: u32 = 4_194_304;

/// Whether the treatment is that of `ndfa`: `treatment first` or `treatment ndfa`.
#[tactic(auto, unfolding(hz_tabtext_model::specs::Lines::treatment_in))]
pub fn treatment(line: &[u8]) -> Result<bool, Wrong>
    ensures { Judges (λ ndfa. ndfa) result (model.treatment_in line.now) }
{
    let name = one(line, b"treatment")?;
    if is_word(name, b"ndfa") {
        return Ok(true);
    }
    if is_word(name, b"first") {
        return Ok(false);
    }
    Err(Wrong::BadLine)
}

/// How many classes there are: `classes K`.
#[tactic(auto, unfolding(hz_tabtext_model::specs::Lines::classes_in))]
pub fn classes(line: &[u8]) -> Result<u32, Wrong>
    ensures judged { Judges (λ count. count) result (model.classes_in line.now) }
    ensures few { IfOk result (λ count. count ≤ class_limit) }
{
    let count = number(one(line, b"classes")?)?;
    if count > CLASSES {
        return Err(Wrong::OutOfRange);
    }
    Ok(count)
}

/// Adds a class after those before it: `class NAME`, with another name than each of them.
#[tactic(auto, unfolding(hz_tabtext_model::specs::Lines::class_in))]
pub fn class(alloc: Global, names: &mut IndexSet<Name>, line: &[u8]) -> Result<(), Wrong>
    ensures { Judges (λ _. names.new.keys) result (class_onto names.old.keys line.now) }
{
    let Some(name) = Name::of(alloc, one(line, b"class")?)? else {
        return Err(Wrong::BadLine);
    };
    if names.insert(name)? {
        Ok(())
    } else {
        Err(Wrong::BadLine)
    }
}

/// How many automata there are: `automata N`.
#[tactic(auto, unfolding(hz_tabtext_model::specs::Lines::automata_in))]
pub fn automata(line: &[u8]) -> Result<u32, Wrong>
    ensures { Judges (λ count. count) result (model.automata_in line.now) }
{
    let count = number(one(line, b"automata")?)?;
    if count < 1 || count > AUTOMATA {
        return Err(Wrong::OutOfRange);
    }
    Ok(count)
}

/// The name, the columns and the states of an automaton: `automaton NAME COLUMNS STATES`.
#[tactic(auto, unfolding(hz_tabtext_model::specs::Lines::head_in))]
pub fn head(alloc: Global, line: &[u8], classes: u32) -> Result<Head, Wrong>
    requires { classes ≤ class_limit }
    ensures judged { Judges head_said result (model.head_in classes line.now) }
    ensures columns { IfOk result (λ head. head.columns ≤ classes) }
    ensures states { IfOk result (λ head. head.states ≤ state_limit) }
    ensures some { IfOk result (λ head. 1 ≤ head.states) }
{
    let (name, columns, states) = three(line, b"automaton")?;
    if !is_name(name) {
        return Err(Wrong::BadLine);
    }
    let columns = number(columns)?;
    if columns > classes {
        return Err(Wrong::OutOfRange);
    }
    let states = number(states)?;
    if states < 1 || states > STATES || states * (columns + 1) > CELLS {
        return Err(Wrong::OutOfRange);
    }
    // Memory is taken for the name only where the numbers are in their ranges.
    let Some(name) = Name::of(alloc, name)? else {
        unreachable!()
    };
    Ok(Head {
        name,
        columns,
        states,
    })
}

/// The column of each class: `map c ..`.
#[tactic(auto, unfolding(hz_tabtext_model::specs::Lines::map_in))]
pub fn map(alloc: Global, line: &[u8], classes: u32, columns: u32) -> Result<Vec<u32>, Wrong>
    ensures { Judges (λ map. map.items) result (model.map_in classes columns line.now) }
{
    let fields = operands(line, b"map")?;
    if fields.count != classes as usize {
        return Err(Wrong::BadLine);
    }
    numbers_below(alloc, fields.left, columns)
}

/// Whether so many asks, beside so many columns and states, are not too many, and neither are all entries.
fn are_asks(columns: u32, states: u32, asks: usize) -> bool
    requires columns { columns ≤ class_limit }
    requires states { states ≤ state_limit }
    ensures { result ≡ model.are_asks columns states asks }
{
    asks <= UNITS && states * (columns + asks as u32 + 1) <= CELLS
}

/// The names of asks, which join those of the asks before them: `asks NAME ..`.
#[tactic(auto, unfolding(hz_tabtext_model::specs::Lines::asks_in))]
pub fn asks(
    alloc: Global,
    line: &[u8],
    columns: u32,
    states: u32,
    known: &mut IndexSet<Name>,
) -> Result<Vec<Name>, Wrong>
    requires columns { columns ≤ class_limit }
    requires states { states ≤ state_limit }
    ensures judged { Judges (λ names. names.items) result (model.asks_in columns states known.old.keys line.now) }
    ensures known { IfOk result (λ names. known.new.keys ≡ known.old.keys ++ names.items) }
    ensures few { IfOk result (λ names. length names.items ≤ unit_limit) }
{
    let fields = operands(line, b"asks")?;
    let names = new_names(alloc, fields.left, known)?;
    if !are_asks(columns, states, names.len()) {
        return Err(Wrong::OutOfRange);
    }
    Ok(names)
}

/// Three numbers, which are dropped: `stats GRIDS STATES MEMBERS`.
#[tactic(auto, unfolding(hz_tabtext_model::specs::Lines::counts_in))]
pub fn counts(line: &[u8]) -> Result<(), Wrong>
    ensures { Judges (λ _. tt) result (model.counts_in line.now) }
{
    let (grids, states, members) = three(line, b"stats")?;
    number(grids)?;
    number(states)?;
    number(members)?;
    Ok(())
}

/// The entries of the state of this number, in place of those in `row`: `row t ..`.
#[tactic(auto, unfolding(hz_tabtext_model::specs::Lines::row_in))]
pub fn row(line: &[u8], size: Size, number: u32, row: &mut Vec<Option<u32>>) -> Result<(), Wrong>
    requires columns { size.columns ≤ class_limit }
    requires asks { size.asks ≤ unit_limit }
    ensures { Judges (λ _. row.new.items) result (model.row_in size.columns size.asks size.states number line.now) }
{
    let fields = operands(line, b"row")?;
    if fields.count != size.columns as usize + size.asks as usize + 1 {
        return Err(Wrong::BadLine);
    }
    cells(fields.left, size, number, row)
}

/// A row and a column, which are dropped: `from P C`.
fn place(row: &[u8], column: &[u8], columns: u32, states: u32) -> Result<(), Wrong>
    ensures { Judges (λ _. tt) result (model.place_of columns states row.now column.now) }
{
    number_below(row, states)?;
    if number(column)? > columns {
        return Err(Wrong::OutOfRange);
    }
    Ok(())
}

/// The origin of a state, which is dropped: `from -` or `from P C`.
#[tactic(auto, using(crate::proofs::Pieces::nil_fields), unfolding(hz_tabtext_model::specs::Lines::origin_in))]
pub fn origin(line: &[u8], columns: u32, states: u32) -> Result<(), Wrong>
    ensures { Judges (λ _. tt) result (model.origin_in columns states line.now) }
{
    let fields = operands(line, b"from")?;
    let (row, others) = next_field(fields.left)?;
    let Some(text) = others else {
        return if is_word(row, b"-") {
            Ok(())
        } else {
            Err(Wrong::BadLine)
        };
    };
    let (column, others) = cut(text, b' ');
    if others.is_some() {
        return Err(Wrong::BadLine);
    }
    place(row, column, columns, states)
}

/// A grid of a state, which is dropped: `grid CYCLE:UNIT ..`.
#[tactic(auto, unfolding(hz_tabtext_model::specs::Lines::grid_in))]
pub fn grid(line: &[u8]) -> Result<(), Wrong>
    ensures { Judges (λ _. tt) result (model.grid_in line.now) }
{
    let fields = operands(line, b"grid")?;
    if !have_units(fields.left) {
        return Err(Wrong::BadLine);
    }
    cycles(fields.left)
}

/// `end`.
#[tactic(auto, unfolding(hz_tabtext_model::specs::Lines::end_in))]
pub fn end(line: &[u8]) -> Result<(), Wrong>
    ensures { Judges (λ _. tt) result (model.end_in line.now) }
{
    if is_word(line, b"end") {
        Ok(())
    } else {
        Err(Wrong::BadLine)
    }
}
