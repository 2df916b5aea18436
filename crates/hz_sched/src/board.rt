//! A schedule that is made, and what is left for it.

ghost use Rattle.std.specs.Prelude.{◌≡◌, ◌≤◌, ◌<◌, ◌+◌, ◌==◌, ◌++◌, ◌∷◌, [], None, ℕ, length, map, slice_index, All, IfOk, OnOk, filter, replicate, ◌^◌};
ghost use Rattle.std.specs.List.{Contains};
ghost use Rattle.hz_description_model.specs.Reading.Limits.{latency_limit};
ghost use Rattle.hz_block_model.specs.Scheduling.Schedules as model;
ghost use Rattle.hz_sched.specs.Shape.{graph_of, slots_of};
ghost use Rattle.hz_depend.specs.GraphShape.{edge_of};
ghost use Rattle.hz_sched.specs.Rows.{edge_to};
ghost use Rattle.hz_sched.specs.Waits.{issued_at, and_issued, leading};
ghost use Rattle.hz_sched.specs.Pending.{key_of, keys_at, AreWaits, IsQueue, AreLater};
ghost use Rattle.hz_block_model.specs.Running.Limits.{instruction_limit};

use crate::adjacency::Successor;
use crate::naming::class_at;
use crate::parts::Slot;
use crate::queue::{Queue, height_at};
use crate::waiting::release;
use hz_depend::Graph;
use hz_regexp::NoMemory;
use std::alloc::Global;
use std::cmp::Reverse;

/// The slots so far, the present cycle, and the instructions that are left.
#[derive(Drop)]
pub struct Board {
    pub slots: Vec<Slot>,
    pub cycle: u32,
    /// For each instruction how many edges lead to it from those that are left.
    pub counts: Vec<usize>,
    /// For each instruction the first cycle at which it has waited for those that are issued.
    pub ripes: Vec<u32>,
    /// The instructions that are left and wait for no other.
    pub queue: Queue,
}

/// No instruction waits for an issue.
fn no_waits(alloc: Global, count: usize) -> Result<Vec<u32>, NoMemory>
    ensures { IfOk result (λ ripes. ripes.items ≡ replicate count 0) }
{
    vec![in alloc; 0_u32; count]
}

impl Board {
    /// Nothing is issued yet. So many edges lead to each instruction, and the classes are numbers below this one.
    pub fn new(
        alloc: Global,
        graph: &Graph,
        counts: Vec<usize>,
        classes: usize,
    ) -> Result<Board, NoMemory>
        requires few { length graph.now.insns.items ≤ instruction_limit }
        requires classes { All (λ i. i.class < classes) graph.now.insns.items }
        requires size { length counts.items ≡ length graph.now.insns.items }
        requires counted { (j : ℕ) → slice_index counts.items j ≡ leading j (map edge_of graph.now.edges.items) }
        ensures slots { IfOk result (λ board. board.slots.items ≡ []) }
        ensures cycle { IfOk result (λ board. board.cycle ≡ 0) }
        ensures waits { IfOk result (λ board. AreWaits (graph_of graph.now) (issued_at []) board.counts.items board.ripes.items) }
        ensures queued { IfOk result (λ board. IsQueue (graph_of graph.now) (issued_at []) 0 board.queue) }
    {
        let ripes = no_waits(alloc, graph.insns.len())?;
        let queue = Queue::new(alloc, classes, &counts, &ripes)?;
        Ok(Board {
            slots: Vec::new(alloc),
            cycle: 0,
            counts,
            ripes,
            queue,
        })
    }

    /// The slots.
    pub fn into_slots(self) -> Vec<Slot>
        ensures { result.items ≡ self.slots.items }
    {
        self.slots
    }

    /// An instruction that is left is issued at the present cycle, with these successors: no other waits for it more.
    fn end_waits(&mut self, graph: &Graph, row: &[Successor], place: u32)
        requires place { place < length graph.now.insns.items }
        requires row { map (edge_to place) row.now ≡ filter (λ e. e.from == place) (map edge_of graph.now.edges.items) }
        requires edges { All (λ e. (e.to < length graph.now.insns.items) × (e.cost ≤ latency_limit)) graph.now.edges.items }
        requires small { self.old.cycle + latency_limit < 2 ^ 32 }
        requires unissued { issued_at (slots_of self.old.slots.items) place ≡ None }
        requires waits { AreWaits (graph_of graph.now) (issued_at (slots_of self.old.slots.items)) self.old.counts.items self.old.ripes.items }
        ensures waits { AreWaits (graph_of graph.now) (and_issued (issued_at (slots_of self.old.slots.items)) place self.old.cycle) self.new.counts.items self.new.ripes.items }
        ensures slots { self.new.slots.items ≡ self.old.slots.items }
        ensures cycle { self.new.cycle ≡ self.old.cycle }
        ensures queue { self.new.queue ≡ self.old.queue }
    {
        release(&mut self.counts, &mut self.ripes, row, self.cycle);
    }

    /// Issues a ready instruction, with these successors, and all that wait for their cycles have to wait longer.
    pub fn issue(&mut self, graph: &Graph, row: &[Successor], place: u32) -> Result<(), NoMemory>
        requires place { place < length graph.now.insns.items }
        requires row { map (edge_to place) row.now ≡ filter (λ e. e.from == place) (map edge_of graph.now.edges.items) }
        requires edges { All (λ e. (e.to < length graph.now.insns.items) × (e.cost ≤ latency_limit)) graph.now.edges.items }
        requires small { self.old.cycle + latency_limit < 2 ^ 32 }
        requires waits { AreWaits (graph_of graph.now) (issued_at (slots_of self.old.slots.items)) self.old.counts.items self.old.ripes.items }
        requires queued { IsQueue (graph_of graph.now) (issued_at (slots_of self.old.slots.items)) self.old.cycle self.old.queue }
        requires later { AreLater self.old.cycle self.old.queue.waiting.keys }
        requires ready { Contains (keys_at self.old.queue.ready.items (model.class_at (graph_of graph.now) place)) (key_of (graph_of graph.now) place) }
        ensures slots { OnOk result (slots_of self.new.slots.items ≡ slots_of self.old.slots.items ++ record { place = place; cycle = self.old.cycle } ∷ []) }
        ensures cycle { self.new.cycle ≡ self.old.cycle }
        ensures waits { OnOk result (AreWaits (graph_of graph.now) (and_issued (issued_at (slots_of self.old.slots.items)) place self.old.cycle) self.new.counts.items self.new.ripes.items) }
        ensures queued { OnOk result (IsQueue (graph_of graph.now) (and_issued (issued_at (slots_of self.old.slots.items)) place self.old.cycle) self.old.cycle self.new.queue) }
    {
        let cycle = self.cycle;
        self.end_waits(graph, row, place);
        let key = (Reverse(height_at(graph, place)), place);
        self.queue.end(class_at(graph, place), key)?;
        self.queue.wait_after(&self.counts, &self.ripes, row)?;
        self.slots.push(Slot { place, cycle })?;
        Ok(())
    }
}
