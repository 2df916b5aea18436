//! A machine: a table for each automaton.

ghost use Rattle.std.specs.Prelude.{◌≡◌, ◌+◌, ◌<◌, ◌≤◌, IfSome, length, map};
ghost use Rattle.std.specs.Option.{ForSome};
ghost use Rattle.std.proofs.Props.{props};
ghost use Rattle.hz_base_model.specs.Limits.{unit_limit};
ghost use Rattle.hz_base_model.specs.Lines as model;
ghost use Rattle.hz_pipeline_model.specs.Tables.Machines.{IsMachine};
ghost use Rattle.hz_tables.specs.Parts.{part_of};

use crate::Steps;
use crate::part::Part;
use hz_regexp::Name;
use std::sync::ledger::Ledger;

/// The tables of a description: 1 to 16 parts, one for each automaton, and at most 1,024 classes with different names.
/// Each part's map has a column for each class, and its table a state; entries are in range and no advance is none;
/// it has at most as many columns of classes as there are classes, at most 256 asks, and at most 4,194,304 entries. The
/// names of all asks are different, and an ask leads to no other state.
#[derive(Drop)]
pub struct Machine {
    pub classes: Vec<Name>,
    pub parts: Vec<Part>,
    pub ghost kept: { IsMachine (record { classes = classes.items; parts = map part_of parts.items }) } by { Prim.hlevel props },
}

/// The place of a name among names.
fn place_of(names: &[Name], name: &Name) -> Option<u32>
    requires { length names.now ≤ unit_limit }
    ensures { result ≡ model.place_of name.now names.now }
{
    for (place, other) in names.iter().enumerate() {
        if name == other {
            return Some(place as u32);
        }
    }
    None
}

impl Machine {
    ghost use Rattle.hz_pipeline_model.specs.Traces.TraceNames.{query_place};
    ghost use Rattle.hz_pipeline_model.specs.Tables.Machines.{part_at, next_of, tells_reserved};
    ghost use Rattle.hz_pipeline_model.specs.Tables.MachineNames.{names_of_machine};
    ghost use Rattle.hz_tables.specs.Machines.{machine_of};

    /// The next state of a part at an issue of a class, or at the advance of one cycle where there is no class; none
    /// where the table has none. It takes at most four steps, a step being one read of a map or a cell, and no memory.
    pub fn step<L: Ledger>(
        &self,
        part: u32,
        state: u32,
        class: Option<u32>,
        steps: &mut Steps<L>,
    ) -> Option<u32>
        requires part { part < length self.now.parts.items }
        requires state { state < length (part_at (machine_of self.now) part).rows }
        requires class { ForSome class (λ class. class < length self.now.classes.items) }
        ensures next { result ≡ next_of (part_at (machine_of self.now) part) state class }
        ensures cost { steps.new ≤ steps.old + 4 }
        ensures counted { steps.old < steps.new }
        ensures map_counted { IfSome class (λ _. steps.old + 2 ≤ steps.new) }
    {
        let part = &self.parts[part as usize];
        part.table.wide();
        let column = match class {
            Some(class) => {
                steps.tick();
                part.map[class as usize]
            }
            None => part.table.columns(),
        };
        part.table.step(state, column, steps)
    }

    /// Whether a unit that is asked for in a part is reserved in a state: the entry of its ask is there. It takes at most
    /// three steps, and no memory.
    pub fn ask<L: Ledger>(&self, part: u32, state: u32, ask: u32, steps: &mut Steps<L>) -> bool
        requires part { part < length self.now.parts.items }
        requires state { state < length (part_at (machine_of self.now) part).rows }
        requires ask { ask < length (part_at (machine_of self.now) part).asks }
        ensures reserved { result ≡ tells_reserved (part_at (machine_of self.now) part) state ask }
        ensures cost { steps.new ≤ steps.old + 3 }
        ensures counted { steps.old < steps.new }
    {
        let part = &self.parts[part as usize];
        part.table.wide();
        let column = part.table.columns() - part.asks.len() as u32 + ask;
        part.table.step(state, column, steps).is_some()
    }

    /// The part of a name that is asked for, and its number there; None exactly if no part has the name. It takes no memory.
    pub fn find_ask(&self, name: &Name) -> Option<(u32, u32)>
        ensures { result ≡ query_place (names_of_machine (machine_of self.now)) name.now }
    {
        for (part, one) in self.parts.iter().enumerate() {
            if let Some(ask) = place_of(&one.asks, name) {
                return Some((part as u32, ask));
            }
        }
        None
    }
}
