//! The text of what an exposed pipeline makes of a block.

ghost use Rattle.std.specs.Prelude.{◌≡◌, ◌-◌, ◌^◌, ◌<◌, ◌++◌, All, length, map, slice_index};
ghost use Rattle.std.specs.List.{flat_map};
ghost use Rattle.hz_io.specs.Sink.{Writes};
ghost use Rattle.hz_rtl.specs.Shape.{instructions};
ghost use Rattle.hz_sched.specs.Shape.{slots_of};
ghost use Rattle.hz_measure_model.specs.Exposed.Texts as model;
ghost use Rattle.hz_timed.specs.Reads.{line_by};
ghost use Rattle.hz_timed.specs.Shape.{place_of, IsWriter, IsInRange, timed_text};

use crate::parts::{ReadNote, Source, Timed};
use hz_io::{Failed, Sink, put_all};
use hz_rtl::{Block, write_state};
use hz_sched::{Schedule, Slot};
use itoa::Buffer;

/// The number of the instruction at a place.
fn number_at(block: &Block, place: u32) -> u32
    requires { place < length block.now.insns.items }
    ensures { result ≡ slice_index (map (λ i. i.number) (instructions block.now)) place }
{
    let insn = &block.insns[place as usize];
    insn.number
}

/// The place of the instruction of the slot of a number.
fn place_at(slots: &[Slot], number: u32) -> u32
    requires { number < length slots.now }
    ensures { result ≡ slice_index (map (λ x. x.place) (slots_of slots.now)) number }
{
    let slot = &slots[number as usize];
    slot.place
}

/// The cycle of the slot of a number.
fn cycle_at(slots: &[Slot], number: u32) -> u32
    requires { number < length slots.now }
    ensures { result ≡ slice_index (map (λ x. x.cycle) (slots_of slots.now)) number }
{
    let slot = &slots[number as usize];
    slot.cycle
}

/// Writes the cycle of a read, and the number of the instruction that reads.
fn put_front<S: Sink>(out: &mut S, cycle: u32, number: u32) -> Result<(), Failed>
    requires { S.faults out.old < 2 ^ 64 - 1 }
    ensures { Writes S.written S.room S.faults out.old out.new (model.read_front cycle number) result }
{
    let mut cycle_digits = Buffer::new();
    let mut number_digits = Buffer::new();
    put_all(
        out,
        &[
            b"read ",
            cycle_digits.format(cycle).as_bytes(),
            b" ",
            number_digits.format(number).as_bytes(),
        ],
    )
}

/// Writes what is read.
fn put_what<S: Sink>(out: &mut S, what: Source) -> Result<(), Failed>
    requires { S.faults out.old < 2 ^ 64 - 1 }
    ensures { Writes S.written S.room S.faults out.old out.new (model.place_text (place_of what)) result }
{
    let mut digits = Buffer::new();
    match what {
        Source::Reg(number) => put_all(out, &[b" reg ", digits.format(number as u64).as_bytes()]),
        Source::Cell(address) => put_all(out, &[b" mem ", digits.format(address).as_bytes()]),
    }
}

/// Writes who wrote what is read, and the end of the line.
fn put_writer<S: Sink>(out: &mut S, block: &Block, from: Option<u32>) -> Result<(), Failed>
    requires sink { S.faults out.old < 2 ^ 64 - 1 }
    requires writer { IsWriter (length block.now.insns.items) from }
    ensures { Writes S.written S.room S.faults out.old out.new (model.from_text (model.writer_text (map (λ i. i.number) (instructions block.now)) from)) result }
{
    match from {
        None => put_all(out, &[b" from ", b"start", b"\n"]),
        Some(place) => {
            let mut digits = Buffer::new();
            let number = digits.format(number_at(block, place)).as_bytes();
            put_all(out, &[b" from ", number, b"\n"])
        }
    }
}

/// Writes what is read, and who wrote it.
fn put_end<S: Sink>(
    out: &mut S,
    block: &Block,
    what: Source,
    from: Option<u32>,
) -> Result<(), Failed>
    requires sink { S.faults out.old < 2 ^ 64 - 1 }
    requires writer { IsWriter (length block.now.insns.items) from }
    ensures { Writes S.written S.room S.faults out.old out.new (model.place_text (place_of what) ++ model.from_text (model.writer_text (map (λ i. i.number) (instructions block.now)) from)) result }
{
    match put_what(out, what) {
        Ok(()) => put_writer(out, block, from),
        Err(failed) => Err(failed),
    }
}

/// Writes the line of a read by the instruction of a number at a cycle.
fn put_line<S: Sink>(
    out: &mut S,
    block: &Block,
    cycle: u32,
    number: u32,
    read: &ReadNote,
) -> Result<(), Failed>
    requires sink { S.faults out.old < 2 ^ 64 - 1 }
    requires writer { IsWriter (length block.now.insns.items) read.now.from }
    ensures { Writes S.written S.room S.faults out.old out.new (model.read_line cycle number (place_of read.now.what) (model.writer_text (map (λ i. i.number) (instructions block.now)) read.now.from)) result }
{
    match put_front(out, cycle, number) {
        Ok(()) => put_end(out, block, read.what, read.from),
        Err(failed) => Err(failed),
    }
}

/// Writes the line of a read.
fn put_read<S: Sink>(
    out: &mut S,
    block: &Block,
    slots: &[Slot],
    read: &ReadNote,
) -> Result<(), Failed>
    requires sink { S.faults out.old < 2 ^ 64 - 1 }
    requires places { All (λ x. x.place < length block.now.insns.items) slots.now }
    requires slot { read.now.slot < length slots.now }
    requires writer { IsWriter (length block.now.insns.items) read.now.from }
    ensures { Writes S.written S.room S.faults out.old out.new (line_by block.now slots.now read.now) result }
{
    let number = number_at(block, place_at(slots, read.slot));
    put_line(out, block, cycle_at(slots, read.slot), number, read)
}

/// Writes the lines of reads.
fn put_reads<S: Sink>(
    out: &mut S,
    block: &Block,
    slots: &[Slot],
    reads: &[ReadNote],
) -> Result<(), Failed>
    requires sink { S.faults out.old < 2 ^ 64 - 1 }
    requires places { All (λ x. x.place < length block.now.insns.items) slots.now }
    requires slots { All (λ r. r.slot < length slots.now) reads.now }
    requires writers { All (λ r. IsWriter (length block.now.insns.items) r.from) reads.now }
    ensures { Writes S.written S.room S.faults out.old out.new (flat_map (line_by block.now slots.now) reads.now) result }
{
    for read in reads {
        match put_read(out, block, slots, read) {
            Ok(()) => {}
            Err(failed) => return Err(failed),
        }
    }
    Ok(())
}

/// Writes the reads of what is left of a block, a line each, and then the lines of the state: those that `eval` writes. The slots are
/// those of the schedule. A prefix is written where the sink fails. It takes no memory. docs/FORMATS.md, 'Answers'.
pub fn write_timed<S: Sink>(
    block: &Block,
    schedule: &Schedule,
    timed: &Timed,
    out: &mut S,
) -> Result<(), Failed>
    requires sink { S.faults out.old < 2 ^ 64 - 1 }
    requires range { IsInRange block.now schedule.now timed.now }
    ensures { Writes S.written S.room S.faults out.old out.new (timed_text block.now schedule.now timed.now) result }
{
    match put_reads(out, block, &schedule.slots, &timed.reads) {
        Ok(()) => write_state(&timed.state, out),
        Err(failed) => Err(failed),
    }
}
