//! What slots read and leave in an exposed pipeline, legal or not.

ghost use Rattle.std.specs.Prelude.{◌≡◌, ◌≤◌, ◌<◌, ◌^◌, length, All, IsTrue};

use crate::texts::forms::MOST_BYTES;
use crate::texts::given::{Given, read_given};
use hz_checked::Checked;
use hz_depend::{GraphInsn, graph};
use hz_io::MemSink;
use hz_rtl::{Block, State, read_state};
use hz_sched::{Schedule, Slot};
use hz_sexp::read_forms;
use hz_timed::{exposed, write_timed};
use std::alloc::Global;

/// Whether each slot is of one of so many instructions.
fn places_fit(slots: &[Slot], count: usize) -> bool
    ensures { IsTrue result → All (λ x. x.place < count) slots.now }
{
    slots.iter().all(|slot| (slot.place as usize) < count)
}

/// Whether each instruction of a graph is of one of so many classes.
fn classes_fit(insns: &[GraphInsn], count: usize) -> bool
    ensures { IsTrue result → All (λ i. i.class < count) insns.now }
{
    insns.iter().all(|insn| (insn.class as usize) < count)
}

/// Writes what slots read and leave of a state.
fn write_exposed(
    alloc: Global,
    sink: &mut MemSink,
    checked: &Checked,
    block: &Block,
    slots: &Schedule,
    state: &State,
) -> Option<()>
    requires few { length block.now.insns.items ≤ 4096 }
    requires sink { sink.old.faults ≡ 0 }
{
    let graph = graph(alloc, checked, block).ok()?;
    if graph.insns.len() != block.insns.len() || slots.slots.len() > 4096 {
        return None;
    }
    if !classes_fit(&graph.insns, checked.classes.len())
        || !places_fit(&slots.slots, block.insns.len())
    {
        return None;
    }
    let timed = exposed(alloc, checked, block, &graph, slots, state).ok()?;
    write_timed(block, slots, &timed, sink).ok()
}

/// The state of a text.
fn state_of(alloc: Global, text: &[u8]) -> Option<State> {
    if text.len() > MOST_BYTES {
        return None;
    }
    let forms = read_forms(alloc, text).ok()?;
    read_state(alloc, &forms).ok()
}

/// The slot of a word, `PLACE.CYCLE`.
fn slot_of(word: &str) -> Option<Slot> {
    let (place, cycle) = word.split_once('.')?;
    Some(Slot {
        place: place.parse::<u32>().ok()?,
        cycle: cycle.parse::<u32>().ok()?,
    })
}

/// The slots of a text.
fn slots_of(alloc: Global, text: &str) -> Option<Schedule> {
    let mut slots = Vec::new(alloc);
    for word in text.split_whitespace() {
        slots.push(slot_of(word)?).ok()?;
    }
    Some(Schedule { slots })
}

/// What the slots after a `/` read and leave, of the block before it, where a description and after a `/` a state stand beside.
/// A `;` stands for the end of a line.
pub fn answer(alloc: Global, text: &str, beside: &str) -> Option<String> {
    let (block, slots) = text.split_once('/')?;
    let (description, state) = beside.split_once('/')?;
    let Given { checked, block } = read_given(alloc, block.as_bytes(), description.as_bytes())?;
    let state = state_of(alloc, state.as_bytes())?;
    if block.insns.len() > 4096 {
        return None;
    }
    let slots = slots_of(alloc, slots)?;
    let mut sink = MemSink::new(alloc, 100_000).ok()?;
    write_exposed(alloc, &mut sink, &checked, &block, &slots, &state)?;
    let text = str::from_utf8(sink.bytes()).ok()?;
    text.replace(alloc, "\n", ";").ok()
}
