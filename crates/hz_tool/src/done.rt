//! What a command does, before it is written.

ghost use Rattle.std.specs.Prelude.{◌≡◌};
ghost use Rattle.hz_tool.specs.Deciding.{replay_status};

use hz_auto::Compiled;
use hz_bound::{Bound, write_bound};
use hz_checked::Checked;
use hz_depend::Graph;
use hz_duo::{DuoSlot, write_duo};
use hz_front::ending::Ending;
use hz_io::{Failed, Sink};
use hz_modulo::{Kernel, write_kernel};
use hz_replay::{Event, Outcome};
use hz_report::{write_drill, write_replay, write_schedule};
use hz_rtl::{Block, State, write_state};
use hz_sched::Schedule;
use hz_tabfile::write_tables;
use hz_tables::Machine;
use hz_timed::{Timed, write_timed};

/// What is written with status 0 or 1, which owns all that is in it. Source: this profile, docs/FORMATS.md, 'Answers'.
#[derive(Drop)]
pub enum Done {
    /// The replay of a trace: the machine has the names of its classes and of its units that are asked for, the events their
    /// lines.
    Replayed {
        machine: Machine,
        events: Vec<Event>,
        outcome: Outcome,
    },
    /// The tables of a description: what is compiled of it, and the description as it was checked.
    Tables {
        compiled: Compiled,
        checked: Checked,
    },
    /// The schedule of a block: the machine has the names of its classes, the graph its instructions.
    Scheduled {
        machine: Machine,
        graph: Graph,
        schedule: Schedule,
    },
    /// The bound of a block, with its schedule: the description has the names of its units, the graph its instructions.
    Bounded {
        checked: Checked,
        graph: Graph,
        schedule: Schedule,
        bound: Bound,
    },
    /// What the schedule of a block reads and leaves on an exposed pipeline: the block has the numbers of its instructions.
    Timed {
        block: Block,
        schedule: Schedule,
        timed: Timed,
    },
    /// The schedule of two blocks: the machine has the names of its classes, the graphs their instructions; and the last cycle of
    /// each block's own schedule.
    Paired {
        machine: Machine,
        first: Graph,
        second: Graph,
        slots: Vec<DuoSlot>,
        alone: (u32, u32),
    },
    /// The kernel of a loop, with the schedule of its body: the machine has the names of its classes, the graph its instructions.
    Overlapped {
        machine: Machine,
        graph: Graph,
        schedule: Schedule,
        kernel: Kernel,
    },
    /// A drill: its turns, the issues and cycles of its trace, and the state in which the trace leaves each automaton.
    Drilled {
        turns: u32,
        issues: u64,
        cycles: u64,
        states: Vec<u32>,
    },
    /// The state that a block leaves.
    After {
        state: State,
    },
}

/// The status of a replay: 0 where all is accepted, 1 where an issue is refused.
fn status_after(outcome: &Outcome) -> u8
    ensures { result ≡ replay_status outcome.now }
{
    match outcome {
        Outcome::Accepted { .. } => 0,
        Outcome::Refused { .. } => 1,
    }
}

impl Ending for Done {
    ghost use Rattle.hz_tool.specs.Deciding.{CanTell, done_status, done_text};

    ghost status_of = { done_status };

    ghost text_of = { done_text };

    ghost can_tell = { CanTell };

    fn status(&self) -> u8 {
        match self {
            Done::Replayed { outcome, .. } => status_after(outcome),
            Done::Tables { .. }
            | Done::Scheduled { .. }
            | Done::Bounded { .. }
            | Done::Timed { .. }
            | Done::Paired { .. }
            | Done::Overlapped { .. }
            | Done::Drilled { .. }
            | Done::After { .. } => 0,
        }
    }

    fn write<S: Sink>(&self, out: &mut S) -> Result<(), Failed> {
        match self {
            Done::Replayed {
                machine,
                events,
                outcome,
            } => write_replay(machine, events, outcome, out),
            Done::Tables { compiled, checked } => write_tables(compiled, checked, out),
            Done::Scheduled {
                machine,
                graph,
                schedule,
            } => write_schedule(machine, graph, schedule, out),
            Done::Bounded {
                checked,
                graph,
                schedule,
                bound,
            } => write_bound(bound, checked, graph, schedule, out),
            Done::Timed {
                block,
                schedule,
                timed,
            } => write_timed(block, schedule, timed, out),
            Done::Paired {
                machine,
                first,
                second,
                slots,
                alone,
            } => write_duo(slots, machine, first, second, *alone, out),
            Done::Overlapped {
                machine,
                graph,
                schedule,
                kernel,
            } => write_kernel(kernel, machine, graph, schedule, out),
            Done::Drilled {
                turns,
                issues,
                cycles,
                states,
            } => write_drill(*turns, *issues, *cycles, states, out),
            Done::After { state } => write_state(state, out),
        }
    }
}
