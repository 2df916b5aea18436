//! The instructions that wait for no other: those whose first cycle is to come, and those that are issued as soon as they fit.

ghost use Rattle.std.specs.Prelude.{◌≡◌, ◌≤◌, ◌<◌, [], ℕ, Option, length, map, All, IfOk, OnOk, slice_get};
ghost use Rattle.std.specs.List.{find};
ghost use Rattle.std.specs.List.Sorted.{IsStrictlySortedBy};
ghost use Rattle.std.specs.Option.{option_map};
ghost use Rattle.std.specs.BTreeSet.{insert_key};
ghost use Rattle.std.specs.BTreeMap.{is_at};
ghost use Rattle.std.specs.Set.{remove_key};
ghost use Rattle.hz_tables.specs.Machines.{machine_of};
ghost use Rattle.hz_replay.specs.Replaying.{AreStates};
ghost use Rattle.hz_block_model.specs.Scheduling.Schedules as model;
ghost use Rattle.hz_sched.specs.Rows.{edges_to};
ghost use Rattle.hz_sched.specs.Shape.{graph_of};
ghost use Rattle.hz_sched.specs.Pending.{key_cmp, wait_cmp, may, keys_at, ripe_front, one_waits, all_wait, free_below, with_head, without_head, ChangesRow, IsInRange, IsQueue, AreLater};
ghost use Rattle.hz_block_model.specs.Running.Limits.{instruction_limit};

use crate::adjacency::Successor;
use crate::fitting::fits;
use crate::naming::class_at;
use hz_depend::Graph;
use hz_regexp::NoMemory;
use hz_tables::Machine;
use std::alloc::Global;
use std::cmp::Reverse;
use std::collections::BTreeSet;

/// The instructions that are left and wait for no other.
#[derive(Drop)]
pub struct Queue {
    /// The first cycle and the place of each that waits for its cycle.
    pub waiting: BTreeSet<(u32, u32)>,
    /// For each class those whose cycle has come: the greatest height first, and of equal ones the first in the source.
    pub ready: Vec<BTreeSet<(Reverse<u32>, u32)>>,
    /// The first of each class that has one, in the same order.
    pub heads: BTreeSet<(Reverse<u32>, u32)>,
}

/// No instruction for each of so many classes.
fn none_ready(alloc: Global, classes: usize) -> Result<Vec<BTreeSet<(Reverse<u32>, u32)>>, NoMemory>
    ensures size { IfOk result (λ ready. length ready.items ≡ classes) }
    ensures none { IfOk result (λ ready. (class : ℕ) → keys_at ready.items class ≡ []) }
{
    let mut ready = Vec::new(alloc);
    for _class in 0..classes {
        ready.push(BTreeSet::new(alloc))?;
    }
    Ok(ready)
}

/// The first of a set.
fn first_of(ready: &BTreeSet<(Reverse<u32>, u32)>) -> Option<(Reverse<u32>, u32)>
    ensures { result ≡ slice_get ready.now.keys 0 }
{
    match ready.first() {
        Some(key) => Some(*key),
        None => None,
    }
}

/// Another instruction is the first of its class.
fn change_head(
    heads: &mut BTreeSet<(Reverse<u32>, u32)>,
    before: Option<(Reverse<u32>, u32)>,
    after: Option<(Reverse<u32>, u32)>,
) -> Result<(), NoMemory>
    requires { IsStrictlySortedBy key_cmp heads.old.keys }
    ensures heads { OnOk result (heads.new.keys ≡ with_head after (without_head before heads.old.keys)) }
    ensures ordered { OnOk result (IsStrictlySortedBy key_cmp heads.new.keys) }
{
    if let Some(key) = before {
        heads.remove(&key);
    }
    if let Some(key) = after {
        heads.insert(key)?;
    }
    Ok(())
}

/// One more of a class is ready.
fn add_ready(
    ready: &mut BTreeSet<(Reverse<u32>, u32)>,
    heads: &mut BTreeSet<(Reverse<u32>, u32)>,
    key: (Reverse<u32>, u32),
) -> Result<(), NoMemory>
    requires { IsStrictlySortedBy key_cmp heads.old.keys }
    ensures ready { OnOk result (ready.new.keys ≡ insert_key key_cmp ready.old.keys key) }
    ensures ready_ordered { OnOk result (IsStrictlySortedBy key_cmp ready.new.keys) }
    ensures heads { OnOk result (heads.new.keys ≡ with_head (slice_get ready.new.keys 0) (without_head (slice_get ready.old.keys 0) heads.old.keys)) }
    ensures heads_ordered { OnOk result (IsStrictlySortedBy key_cmp heads.new.keys) }
{
    let before = first_of(ready);
    ready.insert(key)?;
    change_head(heads, before, first_of(ready))
}

/// One of a class is issued.
fn remove_ready(
    ready: &mut BTreeSet<(Reverse<u32>, u32)>,
    heads: &mut BTreeSet<(Reverse<u32>, u32)>,
    key: (Reverse<u32>, u32),
) -> Result<(), NoMemory>
    requires { IsStrictlySortedBy key_cmp heads.old.keys }
    ensures ready { OnOk result (ready.new.keys ≡ remove_key (is_at (key_cmp key)) ready.old.keys) }
    ensures ready_ordered { OnOk result (IsStrictlySortedBy key_cmp ready.new.keys) }
    ensures heads { OnOk result (heads.new.keys ≡ with_head (slice_get ready.new.keys 0) (without_head (slice_get ready.old.keys 0) heads.old.keys)) }
    ensures heads_ordered { OnOk result (IsStrictlySortedBy key_cmp heads.new.keys) }
{
    let before = first_of(ready);
    ready.remove(&key);
    change_head(heads, before, first_of(ready))
}

/// An instruction waits for its cycle, if its count is 0.
#[inline(always)]
fn wait_if_free(
    waiting: &mut BTreeSet<(u32, u32)>,
    counts: &[usize],
    ripes: &[u32],
    place: u32,
) -> Result<(), NoMemory>
    requires size { length counts.now ≡ length ripes.now }
    requires place { place < length counts.now }
    requires ordered { IsStrictlySortedBy wait_cmp waiting.old.keys }
    ensures waiting { OnOk result (waiting.new.keys ≡ one_waits counts.now ripes.now place waiting.old.keys) }
    ensures ordered { OnOk result (IsStrictlySortedBy wait_cmp waiting.new.keys) }
{
    if counts[place as usize] == 0 {
        waiting.insert((ripes[place as usize], place))?;
    }
    Ok(())
}

/// The instructions whose count is 0 wait for their cycles.
fn all_free(
    alloc: Global,
    counts: &[usize],
    ripes: &[u32],
) -> Result<BTreeSet<(u32, u32)>, NoMemory>
    requires size { length counts.now ≡ length ripes.now }
    requires few { length counts.now ≤ instruction_limit }
    ensures waiting { IfOk result (λ waiting. waiting.keys ≡ free_below counts.now ripes.now (length counts.now)) }
    ensures ordered { IfOk result (λ waiting. IsStrictlySortedBy wait_cmp waiting.keys) }
{
    let mut waiting = BTreeSet::new(alloc);
    for place in 0..counts.len() as u32 {
        wait_if_free(&mut waiting, counts, ripes, place)?;
    }
    Ok(waiting)
}

/// Whether an instruction fits.
fn may_issue(machine: &Machine, graph: &Graph, states: &[u32], place: u32) -> bool
    requires states { AreStates (machine_of machine.now) states.now }
    requires classes { All (λ i. i.class < length machine.now.classes.items) graph.now.insns.items }
    ensures { result ≡ may (machine_of machine.now) (graph_of graph.now) states.now place }
{
    if (place as usize) < graph.insns.len() {
        fits(machine, states, class_at(graph, place))
    } else {
        false
    }
}

impl Queue {
    /// The instructions with the count 0 wait, and none is ready.
    pub fn new(
        alloc: Global,
        classes: usize,
        counts: &[usize],
        ripes: &[u32],
    ) -> Result<Queue, NoMemory>
        requires size { length counts.now ≡ length ripes.now }
        requires few { length counts.now ≤ instruction_limit }
        ensures size { IfOk result (λ queue. length queue.ready.items ≡ classes) }
        ensures waiting { IfOk result (λ queue. queue.waiting.keys ≡ free_below counts.now ripes.now (length counts.now)) }
        ensures ordered { IfOk result (λ queue. IsStrictlySortedBy wait_cmp queue.waiting.keys) }
        ensures none { IfOk result (λ queue. (class : ℕ) → keys_at queue.ready.items class ≡ []) }
        ensures heads { IfOk result (λ queue. queue.heads.keys ≡ []) }
    {
        let ready = none_ready(alloc, classes)?;
        let waiting = all_free(alloc, counts, ripes)?;
        Ok(Queue {
            waiting,
            ready,
            heads: BTreeSet::new(alloc),
        })
    }

    /// The place of the first instruction that waits, where its cycle has come.
    fn next_ripe(&self, cycle: u32) -> Option<u32>
        ensures { result ≡ ripe_front cycle self.now.waiting.keys }
    {
        match self.waiting.first() {
            Some(wait) => { if wait.0 <= cycle { Some(wait.1) } else { None } }
            None => None,
        }
    }

    /// An instruction of a class is ready.
    fn make_ready(&mut self, class: u32, key: (Reverse<u32>, u32)) -> Result<(), NoMemory>
        requires class { class < length self.old.ready.items }
        requires heads { IsStrictlySortedBy key_cmp self.old.heads.keys }
        ensures row { OnOk result (ChangesRow class (insert_key key_cmp (keys_at self.old.ready.items class) key) self.old.ready.items self.new.ready.items self.old.heads.keys self.new.heads.keys) }
        ensures waiting { OnOk result (self.new.waiting.keys ≡ self.old.waiting.keys) }
    {
        let ready = &mut self.ready[class as usize];
        add_ready(ready, &mut self.heads, key)
    }

    /// A ready instruction of a class is issued.
    pub fn end(&mut self, class: u32, key: (Reverse<u32>, u32)) -> Result<(), NoMemory>
        requires class { class < length self.old.ready.items }
        requires heads { IsStrictlySortedBy key_cmp self.old.heads.keys }
        ensures row { OnOk result (ChangesRow class (remove_key (is_at (key_cmp key)) (keys_at self.old.ready.items class)) self.old.ready.items self.new.ready.items self.old.heads.keys self.new.heads.keys) }
        ensures waiting { OnOk result (self.new.waiting.keys ≡ self.old.waiting.keys) }
    {
        let ready = &mut self.ready[class as usize];
        remove_ready(ready, &mut self.heads, key)
    }

    /// The instructions that wait and whose cycles have come are ready.
    pub fn ripen(&mut self, graph: &Graph, cycle: u32) -> Result<(), NoMemory>
        requires { IsInRange (graph_of graph.now) self.old }
        ensures queued { OnOk result ((at : ℕ → Option ℕ) → IsQueue (graph_of graph.now) at cycle self.old → IsQueue (graph_of graph.now) at cycle self.new) }
        ensures later { OnOk result (AreLater cycle self.new.waiting.keys) }
    {
        while let Some(place) = self.next_ripe(cycle) {
            self.waiting.pop_first();
            let key = (Reverse(height_at(graph, place)), place);
            self.make_ready(class_at(graph, place), key)?;
        }
        Ok(())
    }

    /// The first instruction that fits: the greatest height first, and of equal ones the first in the source.
    pub fn first(&self, machine: &Machine, graph: &Graph, states: &[u32]) -> Option<u32>
        requires states { AreStates (machine_of machine.now) states.now }
        requires classes { All (λ i. i.class < length machine.now.classes.items) graph.now.insns.items }
        ensures { result ≡ option_map (λ k. k.1) (find (λ k. may (machine_of machine.now) (graph_of graph.now) states.now k.1) self.now.heads.keys) }
    {
        match self
            .heads
            .iter()
            .find(|key| may_issue(machine, graph, states, key.1))
        {
            Some(key) => Some(key.1),
            None => None,
        }
    }

    /// An instruction with these successors is issued: they wait for their cycles, if their counts are 0.
    pub fn wait_after(
        &mut self,
        counts: &[usize],
        ripes: &[u32],
        row: &[Successor],
    ) -> Result<(), NoMemory>
        requires size { length counts.now ≡ length ripes.now }
        requires within { All (λ s. s.place < length counts.now) row.now }
        requires ordered { IsStrictlySortedBy wait_cmp self.old.waiting.keys }
        ensures waiting { OnOk result (self.new.waiting.keys ≡ all_wait counts.now ripes.now (edges_to row.now) self.old.waiting.keys) }
        ensures ordered { OnOk result (IsStrictlySortedBy wait_cmp self.new.waiting.keys) }
        ensures ready { self.new.ready.items ≡ self.old.ready.items }
        ensures heads { self.new.heads.keys ≡ self.old.heads.keys }
    {
        for successor in row {
            wait_if_free(&mut self.waiting, counts, ripes, u32::from(successor.place))?;
        }
        Ok(())
    }
}

/// The height of an instruction.
pub fn height_at(graph: &Graph, place: u32) -> u32
    requires { place < length graph.now.insns.items }
    ensures { result ≡ model.height_at (graph_of graph.now) place }
{
    let insn = &graph.insns[place as usize];
    insn.height
}
