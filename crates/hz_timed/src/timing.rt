//! What slots read and write, one after the other.

ghost use Rattle.std.specs.Prelude.{◌≡◌, ◌<◌, ◌++◌, ◌∷◌, [], ◌^◌, length, map, All, IfOk, OnOk, Some, List, slice_get};
ghost use Rattle.hz_block_model.specs.Running.States as model;
ghost use Rattle.hz_rtl.specs.Shape.{instruction, instructions};
ghost use Rattle.hz_rtl.specs.States.{words};
ghost use Rattle.hz_sched.specs.Shape.{slot_of, slots_of};
ghost use Rattle.hz_measure_model.specs.Exposed.Exposed.{Left, reads_in, seen, left_by, lefts_of, read_by, exposed};
ghost use Rattle.hz_timed.specs.Asking.{store_of};
ghost use Rattle.hz_timed.specs.Notes.{notes_of};
ghost use Rattle.hz_timed.specs.Reads.{reads_by};
ghost use Rattle.hz_timed.specs.Shape.{place_of, read_of};
ghost use Rattle.hz_timed.specs.Writes.{notes_in, seen_in, number_by, place_count, CanWait, IsIndexed, CanSee};

use crate::evaluating::{Asked, Kept, stores_of};
use crate::looking::{Look, order_cells, order_registers};
use crate::parts::{ReadNote, Source};
use crate::waits::Waits;
use crate::written::Written;
use hz_regexp::NoMemory;
use hz_rtl::{Insn, State};
use hz_sched::Slot;
use std::alloc::Global;

/// What slots wrote, and what they read.
#[derive(Drop)]
pub struct Ran {
    pub written: Written,
    pub reads: Vec<ReadNote>,
}

/// Adds a read.
fn add_read(
    reads: &mut Vec<ReadNote>,
    look: &Look<'_>,
    slot: u32,
    what: Source,
) -> Result<(), NoMemory>
    requires { CanSee look.now }
    ensures { OnOk result (map read_of reads.new.items ≡ map read_of reads.old.items ++ reads_by look.now slot (place_of what) ∷ []) }
{
    let from = look.writer(what);
    reads.push(ReadNote { slot, what, from })?;
    Ok(())
}

/// Adds the reads of registers.
fn add_registers(
    reads: &mut Vec<ReadNote>,
    look: &Look<'_>,
    slot: u32,
    registers: &[u8],
) -> Result<(), NoMemory>
    requires { CanSee look.now }
    ensures { OnOk result (map read_of reads.new.items ≡ map read_of reads.old.items ++ map (λ r. reads_by look.now slot (model.reg r)) registers.now) }
{
    for number in registers {
        add_read(reads, look, slot, Source::Reg(*number))?;
    }
    Ok(())
}

/// Adds the reads of cells.
fn add_cells(
    reads: &mut Vec<ReadNote>,
    look: &Look<'_>,
    slot: u32,
    cells: &[u64],
) -> Result<(), NoMemory>
    requires { CanSee look.now }
    ensures { OnOk result (map read_of reads.new.items ≡ map read_of reads.old.items ++ map (λ a. reads_by look.now slot (model.cell a)) cells.now) }
{
    for address in cells {
        add_read(reads, look, slot, Source::Cell(*address))?;
    }
    Ok(())
}

/// Notes what a slot stored.
fn note_all(written: &mut Written, slot: Slot, stores: &[Kept]) -> Result<(), NoMemory>
    requires { IsIndexed written.old }
    ensures indexed { OnOk result (IsIndexed written.new) }
    ensures noted { OnOk result (notes_in written.new ≡ notes_in written.old ++ map (λ k. record { place = slot.place; cycle = slot.cycle; at = place_of k.what; word = k.word }) stores.now) }
{
    for kept in stores {
        written.note(slot, kept.what, kept.word)?;
    }
    Ok(())
}

/// What a slot stores, with its reads added.
fn read_slot(
    alloc: Global,
    look: &Look<'_>,
    reads: &mut Vec<ReadNote>,
    slot: u32,
    insn: &Insn,
) -> Result<Vec<Kept>, NoMemory>
    requires { CanSee look.now }
    ensures stores { IfOk result (λ stores. map store_of stores.items ≡ model.stores_of (instruction insn.now) (seen_in look.now)) }
    ensures reads { IfOk result (λ _. map read_of reads.new.items ≡ map read_of reads.old.items ++ map (reads_by look.now slot) (reads_in (Some (instruction insn.now)) (seen_in look.now))) }
{
    let mut asked = Asked {
        registers: Vec::new(alloc),
        cells: Vec::new(alloc),
    };
    let stores = stores_of(alloc, look, &mut asked, insn)?;
    let Asked {
        mut registers,
        mut cells,
    } = asked;
    order_registers(&mut registers);
    order_cells(&mut cells);
    add_registers(reads, look, slot, &registers)?;
    add_cells(reads, look, slot, &cells)?;
    Ok(stores)
}

/// What one slot reads and writes: the one of a number in the schedule.
#[tactic(auto, unfolding(crate::specs::Writes::CanSee))]
fn time_slot(
    alloc: Global,
    waits: &Waits<'_>,
    start: &State,
    number: u32,
    slot: Slot,
    written: &mut Written,
    reads: &mut Vec<ReadNote>,
) -> Result<(), NoMemory>
    requires classes { CanWait waits.now }
    requires indexed { IsIndexed written.old }
    requires places { All (λ w. w.place < place_count waits.now) written.old.writes.items }
    requires slot { slot.place < place_count waits.now }
    ensures indexed { OnOk result (IsIndexed written.new) }
    ensures places { OnOk result (All (λ w. w.place < place_count waits.now) written.new.writes.items) }
    ensures reads { OnOk result ((lefts : List Left) → notes_in written.old ≡ notes_of lefts → map read_of reads.new.items ≡ map read_of reads.old.items ++ map (read_by (instructions waits.now.block.now) (number_by waits.now) (words start.now) number lefts (slot_of slot)) (reads_in (slice_get (instructions waits.now.block.now) slot.place) (seen (instructions waits.now.block.now) (number_by waits.now) (words start.now) lefts (slot_of slot)))) }
    ensures noted { OnOk result ((lefts : List Left) → notes_in written.old ≡ notes_of lefts → notes_in written.new ≡ notes_of (left_by (instructions waits.now.block.now) (number_by waits.now) (words start.now) lefts (slot_of slot) ∷ lefts)) }
{
    let look = Look {
        start,
        written: &*written,
        waits: *waits,
        slot,
    };
    let stores = read_slot(alloc, &look, reads, number, waits.insn(slot.place))?;
    note_all(written, slot, &stores)?;
    Ok(())
}

/// The slot of a number.
fn slot_at(slots: &[Slot], number: usize) -> Slot
    requires { number < length slots.now }
    ensures { slice_get slots.now number ≡ Some result }
{
    slots[number]
}

/// What all slots read and write.
pub fn run_slots(
    alloc: Global,
    waits: &Waits<'_>,
    start: &State,
    slots: &[Slot],
) -> Result<Ran, NoMemory>
    requires classes { CanWait waits.now }
    requires slots { All (λ x. x.place < place_count waits.now) slots.now }
    requires few { length slots.now < 2 ^ 32 }
    ensures reads { IfOk result (λ ran. map read_of ran.reads.items ≡ (exposed (instructions waits.now.block.now) (number_by waits.now) (words start.now) (slots_of slots.now)).reads) }
    ensures written { IfOk result (λ ran. notes_in ran.written ≡ notes_of (lefts_of (instructions waits.now.block.now) (number_by waits.now) (words start.now) [] (slots_of slots.now))) }
{
    let mut written = Written::new(alloc)?;
    let mut reads = Vec::new(alloc);
    for number in 0..slots.len() {
        let slot = slot_at(slots, number);
        time_slot(
            alloc,
            waits,
            start,
            number as u32,
            slot,
            &mut written,
            &mut reads,
        )?;
    }
    Ok(Ran { written, reads })
}
