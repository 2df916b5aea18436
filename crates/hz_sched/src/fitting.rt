//! Whether an issue fits.

ghost use Rattle.std.specs.Prelude.{◌≡◌, ◌<◌, ◌≤◌, ◌+◌, ◌∷◌, [], not, length, map, All, is_some, position};
ghost use Rattle.hz_pipeline_model.specs.Accepting.Events.{issue};
ghost use Rattle.hz_pipeline_model.specs.Tables.Machines.{parts_walk};
ghost use Rattle.hz_tables.specs.Machines.{machine_of};
ghost use Rattle.hz_replay.specs.Replaying.{AreStates};
ghost use Rattle.hz_block_model.specs.Scheduling.Machines.{can_start};
ghost use Rattle.hz_block_model.specs.Running.Limits.{instruction_limit};

use hz_depend::GraphInsn;
use hz_replay::Replayer;
use hz_tables::{Machine, Steps};
use std::alloc::Global;
use std::marker::Brand;
use std::sync::ledger::{Blank, Ledger};

/// Whether each part has a next state at the issue of a class.
fn each_steps<L: Ledger>(machine: &Machine, states: &[u32], class: u32, blank: Blank) -> bool
    requires name { blank.name ≡ L.name }
    requires parts { blank.parts ≡ L.parts }
    requires some { 0 < blank.parts }
    requires states { AreStates (machine_of machine.now) states.now }
    requires class { class < length machine.now.classes.items }
    ensures { result ≡ is_some (parts_walk (machine_of machine.now).parts states.now (issue class ∷ [])) }
{
    let mut steps = Steps::<L>::new(blank);
    for part in 0..machine.parts.len() {
        let next = machine.step(part as u32, states[part], Some(class), &mut steps);
        if next.is_none() {
            return false;
        }
    }
    true
}

/// Whether the issue of a class fits in these states of the parts. It changes nothing.
pub fn fits(machine: &Machine, states: &[u32], class: u32) -> bool
    requires states { AreStates (machine_of machine.now) states.now }
    requires class { class < length machine.now.classes.items }
    ensures { result ≡ is_some (parts_walk (machine_of machine.now).parts states.now (issue class ∷ [])) }
{
    each_steps::<Brand>(machine, states, class, Blank::new(1))
}

/// The index of the first instruction whose class doesn't fit in these states.
fn first_unfit(machine: &Machine, states: &[u32], insns: &[GraphInsn]) -> Option<usize>
    requires states { AreStates (machine_of machine.now) states.now }
    requires classes { All (λ i. i.class < length machine.now.classes.items) insns.now }
    ensures { result ≡ position (λ i. not (is_some (parts_walk (machine_of machine.now).parts states.now (issue i.class ∷ [])))) insns.now }
{
    insns
        .iter()
        .position(|insn| !fits(machine, states, insn.class))
}

/// The place of the first instruction whose class can't be issued from the start.
pub fn first_unstartable(alloc: Global, machine: &Machine, insns: &[GraphInsn]) -> Option<u32>
    requires few { length insns.now ≤ instruction_limit }
    requires classes { All (λ i. i.class < length machine.now.classes.items) insns.now }
    ensures { result ≡ position (λ i. not (can_start (machine_of machine.now) i.class)) insns.now }
{
    let start = Replayer::start(alloc, machine);
    match first_unfit(machine, start.states(), insns) {
        Some(place) => Some(place as u32),
        None => None,
    }
}
