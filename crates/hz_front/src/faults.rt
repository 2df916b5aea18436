//! Writing the lines of faults.

ghost use Rattle.std.specs.Prelude.{◌-◌, ◌^◌, ◌<◌};
ghost use Rattle.std.specs.Option.{option_map};
ghost use Rattle.hz_io.specs.Sink.{Writes};
ghost use Rattle.hz_front_model.specs.Texts.{fault_text};
ghost use Rattle.hz_base_model.specs.Reported.{reported_in};
ghost use Rattle.hz_front.specs.Faults.{from_first, from_insn, from_second, insn_part, name_part, at_part, ending, head_of};

use hz_io::{Failed, Sink, put_all};
use hz_regexp::Name;
use itoa::Buffer;

/// Writes what a fault begins with: the file, the line and the word of its kind.
fn put_head<S: Sink>(out: &mut S, file: &str, line: u32, kind: &str) -> Result<(), Failed>
    requires { S.faults out.old < 2 ^ 64 - 1 }
    ensures { Writes S.written S.room S.faults out.old out.new (head_of file.now line kind.now) result }
{
    let mut digits = Buffer::new();
    put_all(
        out,
        &[
            b"fault ",
            file.as_bytes(),
            b" line ",
            digits.format(line).as_bytes(),
            b" ",
            kind.as_bytes(),
        ],
    )
}

/// Writes the number of an instruction, if there is one.
fn put_insn<S: Sink>(out: &mut S, insn: Option<u32>) -> Result<(), Failed>
    requires { S.faults out.old < 2 ^ 64 - 1 }
    ensures { Writes S.written S.room S.faults out.old out.new (insn_part insn) result }
{
    let Some(number) = insn else {
        return Ok(());
    };
    let mut digits = Buffer::new();
    put_all(out, &[b" insn ", digits.format(number).as_bytes()])
}

/// Writes a name, if there is one.
fn put_name<S: Sink>(out: &mut S, name: Option<&Name>) -> Result<(), Failed>
    requires { S.faults out.old < 2 ^ 64 - 1 }
    ensures { Writes S.written S.room S.faults out.old out.new (name_part (option_map (λ n. n.now) name.entry)) result }
{
    let Some(name) = name else {
        return Ok(());
    };
    put_all(out, &[b" ", name.bytes()])
}

/// Writes the fault of an expression, if there is one: its word and its byte.
fn put_at<S: Sink>(out: &mut S, at: Option<(&str, u32)>) -> Result<(), Failed>
    requires { S.faults out.old < 2 ^ 64 - 1 }
    ensures { Writes S.written S.room S.faults out.old out.new (at_part (reported_in at.entry)) result }
{
    let Some((word, byte)) = at else {
        return Ok(());
    };
    let mut digits = Buffer::new();
    put_all(
        out,
        &[b" ", word.as_bytes(), b" ", digits.format(byte).as_bytes()],
    )
}

/// Writes what stands after names, and the end of the line.
fn put_ending<S: Sink>(out: &mut S, at: Option<(&str, u32)>) -> Result<(), Failed>
    requires { S.faults out.old < 2 ^ 64 - 1 }
    ensures { Writes S.written S.room S.faults out.old out.new (ending (reported_in at.entry)) result }
{
    match put_at(out, at) {
        Ok(()) => out.put(b"\n"),
        Err(failed) => Err(failed),
    }
}

/// Writes the second name, and what stands after it.
fn put_from_second<S: Sink>(
    out: &mut S,
    second: Option<&Name>,
    at: Option<(&str, u32)>,
) -> Result<(), Failed>
    requires { S.faults out.old < 2 ^ 64 - 1 }
    ensures { Writes S.written S.room S.faults out.old out.new (from_second (option_map (λ n. n.now) second.entry) (reported_in at.entry)) result }
{
    match put_name(out, second) {
        Ok(()) => put_ending(out, at),
        Err(failed) => Err(failed),
    }
}

/// Writes the names, and what stands after them.
fn put_from_first<S: Sink>(
    out: &mut S,
    first: Option<&Name>,
    second: Option<&Name>,
    at: Option<(&str, u32)>,
) -> Result<(), Failed>
    requires { S.faults out.old < 2 ^ 64 - 1 }
    ensures { Writes S.written S.room S.faults out.old out.new (from_first (option_map (λ n. n.now) first.entry) (option_map (λ n. n.now) second.entry) (reported_in at.entry)) result }
{
    match put_name(out, first) {
        Ok(()) => put_from_second(out, second, at),
        Err(failed) => Err(failed),
    }
}

/// Writes what stands after the word of a fault.
fn put_from_insn<S: Sink>(
    out: &mut S,
    insn: Option<u32>,
    first: Option<&Name>,
    second: Option<&Name>,
    at: Option<(&str, u32)>,
) -> Result<(), Failed>
    requires { S.faults out.old < 2 ^ 64 - 1 }
    ensures { Writes S.written S.room S.faults out.old out.new (from_insn insn (option_map (λ n. n.now) first.entry) (option_map (λ n. n.now) second.entry) (reported_in at.entry)) result }
{
    match put_insn(out, insn) {
        Ok(()) => put_from_first(out, first, second, at),
        Err(failed) => Err(failed),
    }
}

/// Writes the line of a fault.
pub fn put_fault<S: Sink>(
    out: &mut S,
    file: &str,
    line: u32,
    kind: &str,
    insn: Option<u32>,
    first: Option<&Name>,
    second: Option<&Name>,
    at: Option<(&str, u32)>,
) -> Result<(), Failed>
    requires { S.faults out.old < 2 ^ 64 - 1 }
    ensures { Writes S.written S.room S.faults out.old out.new (fault_text file.now line kind.now insn (option_map (λ n. n.now) first.entry) (option_map (λ n. n.now) second.entry) (reported_in at.entry)) result }
{
    match put_head(out, file, line, kind) {
        Ok(()) => put_from_insn(out, insn, first, second, at),
        Err(failed) => Err(failed),
    }
}
