//! Writing a drill.

ghost use Rattle.std.specs.Prelude.{◌-◌, ◌^◌, ◌<◌, ◌++◌, codes};
ghost use Rattle.std.specs.List.{flat_map};
ghost use Rattle.hz_io.specs.Sink.{Writes};
ghost use Rattle.hz_answer_model.specs.Texts as model;
ghost use Rattle.hz_front_model.specs.Texts.{accepted_line};

use super::outcomes::put_accepted;
use hz_io::{Failed, Sink, put_all};
use itoa::Buffer;

/// Writes the line that a drill begins with: how many turns.
fn put_turns<S: Sink>(out: &mut S, turns: u32) -> Result<(), Failed>
    requires { S.faults out.old < 2 ^ 64 - 1 }
    ensures { Writes S.written S.room S.faults out.old out.new (model.turns_line turns) result }
{
    let mut digits = Buffer::new();
    put_all(
        out,
        &[b"drill ", digits.format(turns).as_bytes(), b" turns\n"],
    )
}

/// Writes a state after a blank.
fn put_field<S: Sink>(out: &mut S, state: u32) -> Result<(), Failed>
    requires { S.faults out.old < 2 ^ 64 - 1 }
    ensures { Writes S.written S.room S.faults out.old out.new (model.state_field state) result }
{
    let mut digits = Buffer::new();
    put_all(out, &[b" ", digits.format(state).as_bytes()])
}

/// Writes states, each after a blank.
fn put_fields<S: Sink>(out: &mut S, states: &[u32]) -> Result<(), Failed>
    requires { S.faults out.old < 2 ^ 64 - 1 }
    ensures { Writes S.written S.room S.faults out.old out.new (flat_map model.state_field states.now) result }
{
    for state in states {
        match put_field(out, *state) {
            Ok(()) => {}
            Err(failed) => return Err(failed),
        }
    }
    Ok(())
}

/// Writes states and the end of their line.
fn put_states<S: Sink>(out: &mut S, states: &[u32]) -> Result<(), Failed>
    requires { S.faults out.old < 2 ^ 64 - 1 }
    ensures { Writes S.written S.room S.faults out.old out.new (flat_map model.state_field states.now ++ codes "\n") result }
{
    match put_fields(out, states) {
        Ok(()) => out.put(b"\n"),
        Err(failed) => Err(failed),
    }
}

/// Writes the line that a drill ends with: the state of each automaton.
fn put_left<S: Sink>(out: &mut S, states: &[u32]) -> Result<(), Failed>
    requires { S.faults out.old < 2 ^ 64 - 1 }
    ensures { Writes S.written S.room S.faults out.old out.new (model.left_line states.now) result }
{
    match out.put(b"states") {
        Ok(()) => put_states(out, states),
        Err(failed) => Err(failed),
    }
}

/// Writes the lines after the first: the issues and cycles of the trace, and the states that it leaves.
fn put_trace<S: Sink>(out: &mut S, issues: u64, cycles: u64, states: &[u32]) -> Result<(), Failed>
    requires { S.faults out.old < 2 ^ 64 - 1 }
    ensures { Writes S.written S.room S.faults out.old out.new (accepted_line issues cycles ++ model.left_line states.now) result }
{
    match put_accepted(out, issues, cycles) {
        Ok(()) => put_left(out, states),
        Err(failed) => Err(failed),
    }
}

/// Writes the text of a drill: its turns, the issues and cycles of its trace, and the state in which the trace leaves each automaton; all
/// of it, or a front of it if the sink failed, with one more fault. It takes no memory. Source: this profile, docs/FORMATS.md, 'Answers'.
pub fn write_drill<S: Sink>(
    turns: u32,
    issues: u64,
    cycles: u64,
    states: &[u32],
    out: &mut S,
) -> Result<(), Failed>
    requires { S.faults out.old < 2 ^ 64 - 1 }
    ensures { Writes S.written S.room S.faults out.old out.new (model.drill_text turns issues cycles states.now) result }
{
    match put_turns(out, turns) {
        Ok(()) => put_trace(out, issues, cycles, states),
        Err(failed) => Err(failed),
    }
}
