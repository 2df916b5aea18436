//! Writing the listing of a state.

ghost use Rattle.std.specs.Prelude.{◌≡◌, ◌-◌, ◌^◌, ◌<◌, ◌∷◌, [], ◌++◌, codes, decimal};
ghost use Rattle.std.specs.List.{concat, flat_map, enumerate_from};
ghost use Rattle.hz_io.specs.Sink.{Writes};
ghost use Rattle.hz_rtl.specs.Listings.{listing};
ghost use Rattle.hz_block_model.specs.Texts.StateTexts.{register_line, cell_line, listing_text};

use crate::state::State;
use hz_io::{Failed, Sink, put_all};
use itoa::Buffer;
use std::collections::BTreeMap;

/// Writes a line: a head, a place and its word.
fn put_word<S: Sink>(out: &mut S, head: &[u8], place: u64, word: u64) -> Result<(), Failed>
    requires { S.faults out.old < 2 ^ 64 - 1 }
    ensures { Writes S.written S.room S.faults out.old out.new (concat (head.now ∷ decimal place ∷ codes " " ∷ decimal word ∷ codes ")\n" ∷ [])) result }
{
    let mut place_digits = Buffer::new();
    let mut word_digits = Buffer::new();
    put_all(
        out,
        &[
            head,
            place_digits.format(place).as_bytes(),
            b" ",
            word_digits.format(word).as_bytes(),
            b")\n",
        ],
    )
}

/// Writes the line of a register, unless it holds 0.
fn put_register<S: Sink>(out: &mut S, number: u64, word: u64) -> Result<(), Failed>
    requires { S.faults out.old < 2 ^ 64 - 1 }
    ensures { Writes S.written S.room S.faults out.old out.new (register_line (number, word)) result }
{
    if word == 0 {
        return Ok(());
    }
    put_word(out, b"(reg ", number, word)
}

/// Writes the lines of registers, numbered from 0.
fn put_registers<S: Sink>(out: &mut S, registers: &[u64]) -> Result<(), Failed>
    requires { S.faults out.old < 2 ^ 64 - 1 }
    ensures { Writes S.written S.room S.faults out.old out.new (flat_map register_line (enumerate_from 0 registers.now)) result }
{
    for (number, word) in registers.iter().enumerate() {
        match put_register(out, number as u64, *word) {
            Ok(()) => {}
            Err(failed) => return Err(failed),
        }
    }
    Ok(())
}

/// Writes the line of a cell.
fn put_cell<S: Sink>(out: &mut S, address: u64, word: u64) -> Result<(), Failed>
    requires { S.faults out.old < 2 ^ 64 - 1 }
    ensures { Writes S.written S.room S.faults out.old out.new (cell_line (address, word)) result }
{
    put_word(out, b"(mem ", address, word)
}

/// Writes the lines of cells.
fn put_cells<S: Sink>(out: &mut S, cells: &BTreeMap<u64, u64>) -> Result<(), Failed>
    requires { S.faults out.old < 2 ^ 64 - 1 }
    ensures { Writes S.written S.room S.faults out.old out.new (flat_map cell_line cells.now.entries) result }
{
    for cell in cells {
        match put_cell(out, *cell.0, *cell.1) {
            Ok(()) => {}
            Err(failed) => return Err(failed),
        }
    }
    Ok(())
}

/// Writes the text of a state: the registers that don't hold 0, by their numbers, then the cells, by their addresses. A front of it is
/// written where the sink fails. It takes no memory. docs/FORMATS.md, 'Blocks and states'.
pub fn write_state<S: Sink>(state: &State, out: &mut S) -> Result<(), Failed>
    requires { S.faults out.old < 2 ^ 64 - 1 }
    ensures { Writes S.written S.room S.faults out.old out.new (listing_text (listing state.now)) result }
{
    match put_registers(out, &state.registers) {
        Ok(()) => put_cells(out, &state.cells),
        Err(failed) => Err(failed),
    }
}
