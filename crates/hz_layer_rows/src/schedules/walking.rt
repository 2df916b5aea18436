//! Traces that are drawn on the machines of descriptions, and what a replayer on such a machine answers to one word after another.

ghost use Rattle.std.specs.Prelude.{◌≡◌, ◌<◌, IfSome, length};
ghost use Rattle.hz_tables.specs.Machines.{machine_of};

use crate::schedules::scheduling::write_event;
use crate::texts::checks::checked_of;
use crate::texts::forms::MOST_BYTES;
use hz_auto::{Compiled, compile};
use hz_regexp::Name;
use hz_replay::{Replayer, drill};
use hz_tables::{Machine, Steps};
use std::alloc::Global;
use std::marker::Brand;
use std::sync::ledger::{Blank, Ledger};

/// The machine of a description.
fn compiled_machine(alloc: Global, description: &str) -> Option<Machine> {
    if description.len() > MOST_BYTES {
        return None;
    }
    let checked = checked_of(alloc, description.as_bytes())?.ok()?;
    let Compiled { machine, .. } = compile(alloc, &checked).ok()?;
    Some(machine)
}

/// The trace that is drawn by `NUMBER TURNS` on the machine of the description beside.
pub fn answer_drawn(alloc: Global, text: &str, beside: &str) -> Option<String> {
    let (number, turns) = text.split_once(' ')?;
    let (number, turns) = (number.parse::<u32>().ok()?, turns.parse::<u32>().ok()?);
    let machine = compiled_machine(alloc, beside)?;
    let mut out = String::new(alloc);
    for event in &drill(alloc, &machine, number, turns).ok()? {
        write_event(&mut out, &machine, event)?;
    }
    Some(out)
}

/// The class of a name.
fn class_of(machine: &Machine, name: &str) -> Option<u32>
    ensures { IfSome result (λ class. class < length machine.now.classes.items) }
{
    for (place, class) in machine.classes.iter().enumerate() {
        if class.bytes() == name.as_bytes() {
            return u32::try_from(place).ok();
        }
    }
    None
}

/// Whether the unit of a name is reserved.
fn ask<L: Ledger>(
    machine: &Machine,
    replayer: &Replayer<'_>,
    name: &Name,
    steps: &mut Steps<L>,
) -> &'static str
    requires { replayer.now.machine ≡ machine_of machine.now }
{
    let Some((part, ask)) = machine.find_ask(name) else {
        return "unknown ";
    };
    if replayer.ask(part, ask, steps) {
        "reserved "
    } else {
        "free "
    }
}

/// Whether the class of a name is issued.
fn issue<L: Ledger>(
    machine: &Machine,
    replayer: &mut Replayer<'_>,
    name: &str,
    steps: &mut Steps<L>,
) -> Option<&'static str>
    requires { replayer.old.machine ≡ machine_of machine.now }
    ensures { replayer.new.machine ≡ machine_of machine.now }
{
    let class = class_of(machine, name)?;
    if replayer.issue(class, steps) {
        return Some("issued ");
    }
    Some("refused ")
}

/// What is answered to a word: to `+` nothing, and it goes one cycle on; to `?UNIT` whether the unit is reserved; to the name of a
/// class whether it is issued.
fn step<L: Ledger>(
    alloc: Global,
    machine: &Machine,
    replayer: &mut Replayer<'_>,
    word: &str,
    steps: &mut Steps<L>,
) -> Option<&'static str>
    requires { replayer.old.machine ≡ machine_of machine.now }
    ensures { replayer.new.machine ≡ machine_of machine.now }
{
    if word == "+" {
        replayer.advance(steps);
        return Some("");
    }
    match word.strip_prefix('?') {
        Some(unit) => {
            let name = Name::of(alloc, unit.as_bytes()).ok()??;
            Some(ask(machine, replayer, &name, steps))
        }
        None => issue(machine, replayer, word, steps),
    }
}

/// Writes what is answered to the words of a text, whose steps nobody counts. The text is given by its bytes: a call that picks the ledger
/// can't hand on a `&str`.
fn write_walk<L: Ledger>(
    alloc: Global,
    out: &mut String,
    machine: &Machine,
    text: &[u8],
    blank: Blank,
) -> Option<()>
    requires name { blank.name ≡ L.name }
    requires parts { blank.parts ≡ L.parts }
    requires some { 0 < blank.parts }
{
    let mut steps = Steps::<L>::new(blank);
    let mut replayer = Replayer::start(alloc, machine);
    for word in str::from_utf8(text).ok()?.split_whitespace() {
        out.push_str(step(alloc, machine, &mut replayer, word, &mut steps)?)
            .ok()?;
    }
    Some(())
}

/// What a replayer on the machine of the description beside answers to each word.
pub fn answer_walked(alloc: Global, text: &str, beside: &str) -> Option<String> {
    let machine = compiled_machine(alloc, beside)?;
    let mut out = String::new(alloc);
    write_walk::<Brand>(alloc, &mut out, &machine, text.as_bytes(), Blank::new(1))?;
    Some(out)
}
