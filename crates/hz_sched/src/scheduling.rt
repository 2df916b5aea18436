//! The list scheduler.

ghost use Rattle.std.specs.Prelude.{◌≡◌, ◌≤◌, ◌<◌, ◌+◌, ◌*◌, ◌==◌, ◌^◌, ℕ, suc, true, filter, length, map, All, IfOk, OnOk};
ghost use Rattle.hz_tables.specs.Machines.{machine_of};
ghost use Rattle.hz_depend.specs.GraphShape.{IsSchedulable};
ghost use Rattle.hz_block_model.specs.Scheduling.Schedules as model;
ghost use Rattle.hz_block_model.specs.Scheduling.Machines.{Settles, most_wait, can_start, cannot_start_alone};
ghost use Rattle.hz_sched.specs.Shape.{graph_of, slots_of, alone_in};
ghost use Rattle.hz_depend.specs.GraphShape.{edge_of};
ghost use Rattle.hz_sched.specs.Rows.{row_at, edge_to};
ghost use Rattle.hz_sched.specs.Waits.{issued_at};
ghost use Rattle.hz_sched.specs.Standing.{left_below, AllStart};
ghost use Rattle.hz_sched.specs.Pending.{IsBoard};
ghost use Rattle.hz_pipeline_model.specs.Tables.Machines.{IsWalked};

use crate::adjacency::{Adjacency, Successor, adjacency_of};
use crate::board::Board;
use crate::fault::SchedFault;
use crate::fitting::first_unstartable;
use crate::naming::class_at;
use crate::parts::{Schedule, Slot};
use hz_depend::Graph;
use hz_regexp::NoMemory;
use hz_replay::Replayer;
use hz_tables::{Machine, Steps};
use std::alloc::Global;
use std::marker::Brand;
use std::sync::ledger::{Blank, Ledger};

/// An issue comes before so many cycles have gone by: 1,000 for all waits, 512 until the machine has settled, and its own.
const MOST_WAIT: u32 = 1_513;

/// Issues the next instruction at the first cycle at which one may be issued: the first of those that may.
fn issue_next<L: Ledger>(
    machine: &Machine,
    graph: &Graph,
    rows: &[Vec<Successor>],
    board: &mut Board,
    replayer: &mut Replayer<'_>,
    steps: &mut Steps<L>,
) -> Result<(), NoMemory>
    requires settles { Settles (machine_of machine.now) }
    requires schedulable { IsSchedulable (length machine.now.classes.items) graph.now }
    requires start { AllStart (machine_of machine.now) (graph_of graph.now) }
    requires size { length rows.now ≡ length graph.now.insns.items }
    requires rows { (i : ℕ) → row_at rows.now i ≡ filter (λ e. e.from == i) (map edge_of graph.now.edges.items) }
    requires machine { replayer.old.machine ≡ machine_of machine.now }
    requires board { IsBoard (machine_of machine.now) (graph_of graph.now) board.old replayer.old.states }
    requires present { board.old.cycle ≡ model.present 0 (slots_of board.old.slots.items) }
    requires some { 0 < left_below (issued_at (slots_of board.old.slots.items)) (length graph.now.insns.items) }
    requires small { board.old.cycle + 4096 < 2 ^ 32 }
    ensures machine { replayer.new.machine ≡ machine_of machine.now }
    ensures board { OnOk result (IsBoard (machine_of machine.now) (graph_of graph.now) board.new replayer.new.states) }
    ensures present { OnOk result (board.new.cycle ≡ model.present 0 (slots_of board.new.slots.items)) }
    ensures fewer { OnOk result (suc (left_below (issued_at (slots_of board.new.slots.items)) (length graph.now.insns.items)) ≡ left_below (issued_at (slots_of board.old.slots.items)) (length graph.now.insns.items)) }
    ensures more { OnOk result (length board.new.slots.items ≡ length board.old.slots.items + 1) }
    ensures soon { OnOk result (board.new.cycle ≤ board.old.cycle + most_wait) }
{
    for _wait in 0..MOST_WAIT {
        board.queue.ripen(graph, board.cycle)?;
        if let Some(place) = board.queue.first(machine, graph, replayer.states()) {
            let _is_taken = replayer.issue(class_at(graph, place), steps);
            return board.issue(graph, row_of(rows, place), place);
        }
        replayer.advance(steps);
        board.cycle += 1;
    }
    unreachable!()
}

/// The successors of an instruction.
fn row_of(rows: &[Vec<Successor>], place: u32) -> &[Successor]
    requires { place < length rows.now }
    ensures { map (edge_to place) result.now ≡ row_at rows.now place }
{
    rows[place as usize].as_slice()
}

/// The slots of all instructions, each of which can be issued from the start.
fn slots_on<L: Ledger>(
    alloc: Global,
    machine: &Machine,
    graph: &Graph,
    blank: Blank,
) -> Result<Vec<Slot>, NoMemory>
    requires name { blank.name ≡ L.name }
    requires parts { blank.parts ≡ L.parts }
    requires some { 0 < blank.parts }
    requires settles { Settles (machine_of machine.now) }
    requires schedulable { IsSchedulable (length machine.now.classes.items) graph.now }
    requires start { AllStart (machine_of machine.now) (graph_of graph.now) }
    ensures legal { IfOk result (λ slots. model.Legal (IsWalked (machine_of machine.now)) (graph_of graph.now) (slots_of slots.items)) }
    ensures greedy { IfOk result (λ slots. model.Greedy (IsWalked (machine_of machine.now)) (graph_of graph.now) (slots_of slots.items)) }
    ensures counted { IfOk result (λ slots. length slots.items ≡ length graph.now.insns.items) }
    ensures places { IfOk result (λ slots. All (λ x. x.place < length graph.now.insns.items) slots.items) }
    ensures soon { IfOk result (λ slots. All (λ x. x.cycle ≤ most_wait * length graph.now.insns.items) slots.items) }
{
    let mut steps = Steps::<L>::new(blank);
    let Adjacency { rows, counts } = adjacency_of(alloc, graph.insns.len(), &graph.edges)?;
    let mut board = Board::new(alloc, graph, counts, machine.classes.len())?;
    let mut replayer = Replayer::start(alloc, machine);
    for _turn in 0..graph.insns.len() {
        issue_next(machine, graph, &rows, &mut board, &mut replayer, &mut steps)?;
    }
    Ok(board.into_slots())
}

/// The place of the first instruction in the source whose class can't be issued even where nothing else is. It takes no memory.
pub fn first_stuck(alloc: Global, machine: &Machine, graph: &Graph) -> Option<u32>
    requires { IsSchedulable (length machine.now.classes.items) graph.now }
    ensures { result ≡ cannot_start_alone (machine_of machine.now) (graph_of graph.now) }
{
    first_unstartable(alloc, machine, &graph.insns)
}

/// The schedule of a block: at each cycle the instructions that have waited for those on which they depend and that fit are
/// issued, the one of the greatest height first, of equal ones the first in the source; the cycle is advanced only where none
/// fits. `CannotStartAlone` tells the first instruction in the source whose class can't be issued even where nothing else is.
/// docs/RULES.md, 'List schedules'.
pub fn schedule(alloc: Global, machine: &Machine, graph: &Graph) -> Result<Schedule, SchedFault>
    requires settles { Settles (machine_of machine.now) }
    requires schedulable { IsSchedulable (length machine.now.classes.items) graph.now }
    ensures legal { IfOk result (λ made. model.Legal (IsWalked (machine_of machine.now)) (graph_of graph.now) (slots_of made.slots.items)) }
    ensures greedy { IfOk result (λ made. model.Greedy (IsWalked (machine_of machine.now)) (graph_of graph.now) (slots_of made.slots.items)) }
    ensures counted { IfOk result (λ made. length made.slots.items ≡ length graph.now.insns.items) }
    ensures places { IfOk result (λ made. All (λ x. x.place < length graph.now.insns.items) made.slots.items) }
    ensures soon { IfOk result (λ made. All (λ x. x.cycle ≤ most_wait * length graph.now.insns.items) made.slots.items) }
    ensures fault { alone_in result ≡ cannot_start_alone (machine_of machine.now) (graph_of graph.now) }
{
    if let Some(place) = first_stuck(alloc, machine, graph) {
        return Err(SchedFault::CannotStartAlone { place });
    }
    match slots_on::<Brand>(alloc, machine, graph, Blank::new(1)) {
        Ok(slots) => Ok(Schedule { slots }),
        Err(_) => Err(SchedFault::NoMemory),
    }
}
