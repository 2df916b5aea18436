//! Replaying over a machine of tables: a state for each part, stepped event by event.

ghost use Rattle.std.specs.Prelude.{◌≡◌, ◌↔◌, ◌==◌, ◌+◌, ◌*◌, ◌<◌, ◌≤◌, ◌∷◌, ◌++◌, [], length, take, drop, replicate, IsTrue, IfSome, Some, None};
ghost use Rattle.std.specs.Bool.{OnTrue, OnFalse};
ghost use Rattle.std.specs.List.{list_all};
ghost use Rattle.std.specs.Option.{option_map, ForSome};
ghost use Rattle.hz_pipeline_model.specs.Tables.Machines.{IsMachine, parts_walk, part_at, starts_of, states_tell};
ghost use Rattle.hz_tables.specs.Machines.{machine_of};
ghost use Rattle.hz_pipeline_model.specs.Accepting.Events.{issue, advance};
ghost use Rattle.hz_replay.specs.Replaying.{event_for, AreStates};

use hz_tables::{Machine, Steps};
use smallvec::SmallVec;
use std::alloc::Global;
use std::marker::Model;
use std::sync::ledger::Ledger;

/// Puts back the states of the parts before one.
fn put_back(states: &mut [u32], before: &[u32; 16], part: usize)
    requires within { part ≤ length states.old }
    requires few { part ≤ 16 }
    ensures { states.new ≡ take part before.now ++ drop part states.old }
{
    states[..part].copy_from_slice(&before[..part]);
}

/// Takes each part to its next state, in place: at an issue of a class, or at the advance of one cycle where there is no class. False
/// where some part has no next state; then the states are as they were. `before` is for the states of the parts that are taken on. At most
/// four steps for each part.
fn walk<L: Ledger>(
    machine: &Machine,
    states: &mut [u32],
    class: Option<u32>,
    before: &mut [u32; 16],
    steps: &mut Steps<L>,
) -> bool
    requires states { AreStates (machine_of machine.now) states.old }
    requires class { ForSome class (λ class. class < length machine.now.classes.items) }
    ensures next { OnTrue result (parts_walk (machine_of machine.now).parts states.old (event_for class ∷ []) ≡ Some states.new) }
    ensures none { OnFalse result (parts_walk (machine_of machine.now).parts states.old (event_for class ∷ []) ≡ None) }
    ensures stays { OnFalse result (states.new ≡ states.old) }
    ensures cost { steps.new ≤ steps.old + 4 * length machine.now.parts.items }
{
    for part in 0..machine.parts.len() {
        let state = states[part];
        match machine.step(part as u32, state, class, steps) {
            Some(next) => {
                before[part] = state;
                states[part] = next;
            }
            None => {
                put_back(states, before, part);
                return false;
            }
        }
    }
    true
}

/// Whether all these are the start of their part.
fn are_starts(states: &[u32]) -> bool
    ensures { result ≡ list_all (λ state. state == 0) states.now }
{
    states.iter().all(|state| *state == 0)
}

/// A state for each part of a machine. It takes no memory: it has room for as many parts as a machine may have.
#[derive(Drop)]
pub struct Replayer<'m> {
    machine: &'m Machine,
    states: SmallVec<u32, 16>,
    before: [u32; 16],
}

impl<'m> Model for Replayer<'m> {
    ghost use Rattle.std.specs.Prelude.{◌≡◌};
    ghost use Rattle.hz_tables.specs.Machines.{machine_of};
    ghost use Rattle.hz_replay.specs.Replaying.{Standing, AreStates};

    ghost Value = { Standing };

    ghost view = { λ r. record { machine = machine_of r.machine.now; states = r.states.items } };

    ghost invariant = { λ r. AreStates (machine_of r.machine.now) r.states.items × (r.states.capacity ≡ 16) };
}

impl<'m> Replayer<'m> {
    /// All parts in their start. It takes no memory.
    pub fn start(alloc: Global, machine: &'m Machine) -> Replayer<'m>
        ensures { result ≡ record { machine = machine_of machine.now; states = starts_of (machine_of machine.now) } }
    {
        let mut states = SmallVec::new(alloc);
        for _part in 0..machine.parts.len() {
            states.push_reserved(0);
        }
        Replayer {
            machine,
            states,
            before: [0; 16],
        }
    }

    /// An issue of a class: true if each part has a next state, which it takes; false changes nothing. It takes no
    /// memory, and at most four steps for each part.
    pub fn issue<L: Ledger>(&mut self, class: u32, steps: &mut Steps<L>) -> bool
        requires class { class < length self.old.machine.classes }
        ensures machine { self.new.machine ≡ self.old.machine }
        ensures taken { OnTrue result (parts_walk self.old.machine.parts self.old.states (issue class ∷ []) ≡ Some self.new.states) }
        ensures refused { OnFalse result (parts_walk self.old.machine.parts self.old.states (issue class ∷ []) ≡ None) }
        ensures stays { OnFalse result (self.new ≡ self.old) }
        ensures cost { steps.new ≤ steps.old + 4 * length self.old.machine.parts }
    {
        let states = self.states.as_mut_slice();
        walk(self.machine, states, Some(class), &mut self.before, steps)
    }

    /// One cycle: each part takes its next state. It takes no memory, and at most four steps for each part.
    pub fn advance<L: Ledger>(&mut self, steps: &mut Steps<L>)
        ensures machine { self.new.machine ≡ self.old.machine }
        ensures taken { parts_walk self.old.machine.parts self.old.states (advance 1 ∷ []) ≡ Some self.new.states }
        ensures cost { steps.new ≤ steps.old + 4 * length self.old.machine.parts }
    {
        let states = self.states.as_mut_slice();
        if !walk(self.machine, states, None, &mut self.before, steps) {
            unreachable!();
        }
    }

    /// Whether a unit that is asked for in a part is reserved in the present cycle. It takes no memory, and at most three
    /// steps.
    pub fn ask<L: Ledger>(&self, part: u32, ask: u32, steps: &mut Steps<L>) -> bool
        requires part { part < length self.now.machine.parts }
        requires ask { ask < length (part_at self.now.machine part).asks }
        ensures reserved { result ≡ states_tell self.now.machine self.now.states part ask }
        ensures cost { steps.new ≤ steps.old + 3 }
    {
        self.machine
            .ask(part, self.states[part as usize], ask, steps)
    }

    /// The same machine and states once more. It takes no memory.
    pub fn copy(&self, alloc: Global) -> Replayer<'m>
        ensures { result ≡ self.now }
    {
        let Ok(states) = SmallVec::from_slice(alloc, self.states.as_slice()) else {
            unreachable!()
        };
        Replayer {
            machine: self.machine,
            states,
            before: [0; 16],
        }
    }

    /// Whether each part is in its start. It takes no memory.
    pub fn is_at_start(&self) -> bool
        ensures start { IsTrue result ↔ (self.now.states ≡ starts_of self.now.machine) }
        ensures machine { IsMachine self.now.machine }
    {
        are_starts(self.states.as_slice())
    }

    /// The states, one for each part. It takes no memory.
    pub fn states(&self) -> &[u32]
        ensures { result.now ≡ self.now.states }
    {
        self.states.as_slice()
    }
}
