//! What an exposed pipeline makes of a block.

ghost use Rattle.std.specs.Prelude.{◌≡◌, ◌<◌, ◌^◌, length, All, IfOk};
ghost use Rattle.hz_rtl.specs.Shape.{instructions};
ghost use Rattle.hz_rtl.specs.States.{words};
ghost use Rattle.hz_sched.specs.Shape.{slots_of};
ghost use Rattle.hz_measure_model.specs.Exposed.Exposed as model;
ghost use Rattle.hz_timed.specs.Shape.{timed_of, number_in, HasClasses, IsInRange};

use crate::leaving::state_after;
use crate::parts::Timed;
use crate::timing::run_slots;
use crate::waits::Waits;
use hz_checked::Checked;
use hz_depend::{Graph, Numbers};
use hz_regexp::NoMemory;
use hz_rtl::{Block, State};
use hz_sched::Schedule;
use std::alloc::Global;

/// What the slots of a schedule make of a state on a pipeline without interlocks, whether or not the schedule is legal: a read sees the
/// newest write of an earlier slot that is ripe for its slot, or else the state. The classes are those of the graph.
/// docs/RULES.md, 'Exposed pipelines'.
pub fn exposed(
    alloc: Global,
    checked: &Checked,
    block: &Block,
    graph: &Graph,
    schedule: &Schedule,
    state: &State,
) -> Result<Timed, NoMemory>
    requires classes { HasClasses checked.now block.now graph.now }
    requires places { All (λ x. x.place < length block.now.insns.items) schedule.now.slots.items }
    requires few { length schedule.now.slots.items < 2 ^ 32 }
    ensures timed { IfOk result (λ t. timed_of t ≡ model.exposed (instructions block.now) (number_in checked.now block.now graph.now) (words state.now) (slots_of schedule.now.slots.items)) }
    ensures range { IfOk result (IsInRange block.now schedule.now) }
{
    let numbers = Numbers::of(alloc, checked)?;
    let waits = Waits {
        checked,
        block,
        graph,
        numbers: &numbers,
    };
    let ran = run_slots(alloc, &waits, state, &schedule.slots)?;
    Ok(Timed {
        state: state_after(alloc, state, &ran.written.writes)?,
        reads: ran.reads,
    })
}
