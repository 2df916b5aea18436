//! Names by number: the names that a trace over a machine says.

ghost use Rattle.std.specs.Prelude.{◌≡◌, ◌≢◌, ◌≤◌, ◌<◌, ◌++◌, ◌∷◌, [], length, IfOk, OnOk, None, map, take};
ghost use Rattle.std.specs.List.{AllPairs};
ghost use Rattle.hz_base_model.specs.Limits.{class_limit, automaton_limit, unit_limit};
ghost use Rattle.hz_base_model.specs.Lines as model;
ghost use Rattle.hz_pipeline_model.specs.Traces.TraceNames.{query_place};
ghost use Rattle.hz_pipeline_model.specs.Tables.MachineNames.{names_of_machine};
ghost use Rattle.hz_tables.specs.Machines.{machine_of};
ghost use Rattle.hz_replay.specs.Names.{names_in, all_names_in};
ghost use Rattle.indexmap.specs.IndexSet.{index_set_len};

use hz_regexp::Name;
use hz_tables::Machine;
use indexmap::IndexSet;
use std::alloc::{AllocError, Global};
use std::marker::Model;

/// The number of a name: its place in the set.
#[tactic(auto, using(crate::proofs::NameLemmas::place_of_names))]
fn place_of(names: &IndexSet<Vec<u8>>, name: &[u8]) -> Option<u32>
    requires { index_set_len names.now ≤ class_limit }
    ensures { result ≡ model.place_of name.now (names_in names.now.keys) }
{
    match names.get_index_of(name) {
        Some(place) => Some(place as u32),
        None => None,
    }
}

/// Adds a name that is not in the set, at its end.
fn add(alloc: Global, names: &mut IndexSet<Vec<u8>>, name: &[u8]) -> Result<(), AllocError>
    requires { model.place_of name.now (names_in names.old.keys) ≡ None }
    ensures { OnOk result (names_in names.new.keys ≡ names_in names.old.keys ++ name.now ∷ []) }
{
    let owned = Vec::from_slice(alloc, name)?;
    names.insert(owned)?;
    Ok(())
}

/// Different names, at their numbers.
fn set_of(alloc: Global, names: &[Name]) -> Result<IndexSet<Vec<u8>>, AllocError>
    requires { AllPairs (λ a b. a ≢ b) names.now }
    ensures { IfOk result (λ set. names_in set.keys ≡ names.now) }
{
    let mut set = IndexSet::new(alloc);
    for name in names {
        add(alloc, &mut set, name.bytes())?;
    }
    Ok(set)
}

/// The names of what is asked for, part by part.
fn units_of(alloc: Global, machine: &Machine) -> Result<Vec<IndexSet<Vec<u8>>>, AllocError>
    ensures { IfOk result (λ units. all_names_in units.items ≡ (names_of_machine (machine_of machine.now)).queries) }
{
    let mut units = Vec::new(alloc);
    for part in &machine.parts {
        let set = set_of(alloc, &part.asks)?;
        units.push(set)?;
    }
    Ok(units)
}

/// The names of the parts, and those of one more after them.
fn with_part(
    parts: Vec<IndexSet<Vec<u8>>>,
    part: IndexSet<Vec<u8>>,
) -> Result<Vec<IndexSet<Vec<u8>>>, AllocError>
    ensures { IfOk result (λ all. all.items ≡ parts.items ++ part ∷ []) }
{
    let mut all = parts;
    all.push(part)?;
    Ok(all)
}

/// The names that a trace says: those of the classes, and for each part those of the units that are asked for.
#[derive(Drop)]
pub struct Names {
    classes: IndexSet<Vec<u8>>,
    units: Vec<IndexSet<Vec<u8>>>,
}

impl Model for Names {
    ghost use Rattle.std.specs.Prelude.{◌≤◌, length, All};
    ghost use Rattle.hz_base_model.specs.Limits.{class_limit, automaton_limit};
    ghost use Rattle.indexmap.specs.IndexSet.{index_set_len};
    ghost use Rattle.hz_pipeline_model.specs.Traces.TraceNames.{TraceNames};
    ghost use Rattle.hz_replay.specs.Names.{names_in, all_names_in};

    ghost Value = { TraceNames };

    ghost view = { λ n. record { classes = names_in n.classes.keys; queries = all_names_in n.units.items } };

    ghost invariant = { λ n. (index_set_len n.classes ≤ class_limit) × All (λ units. index_set_len units ≤ class_limit) n.units.items × (length n.units.items ≤ automaton_limit) };
}

impl Names {
    /// Those of a machine.
    pub fn of(alloc: Global, machine: &Machine) -> Result<Names, AllocError>
        ensures { IfOk result (λ names. names ≡ names_of_machine (machine_of machine.now)) }
    {
        let classes = set_of(alloc, &machine.classes)?;
        let units = units_of(alloc, machine)?;
        Ok(Names { classes, units })
    }

    /// Those of classes, with no unit that is asked for. `AllocError` where there was no memory.
    pub fn of_classes(alloc: Global, classes: &[Name]) -> Result<Names, AllocError>
        requires different { AllPairs (λ a b. a ≢ b) classes.now }
        requires few { length classes.now ≤ class_limit }
        ensures { IfOk result (λ names. names ≡ record { classes = classes.now; queries = [] }) }
    {
        let classes = set_of(alloc, classes)?;
        Ok(Names {
            classes,
            units: Vec::new(alloc),
        })
    }

    /// The names, and after those of the parts before the units that are asked for in the next part. `AllocError` where there was no
    /// memory.
    pub fn with_units(self, alloc: Global, units: &[Name]) -> Result<Names, AllocError>
        requires different { AllPairs (λ a b. a ≢ b) units.now }
        requires few { length units.now ≤ unit_limit }
        requires room { length self.queries < automaton_limit }
        ensures { IfOk result (λ names. names ≡ record { classes = self.classes; queries = self.queries ++ units.now ∷ [] }) }
    {
        let Names {
            classes,
            units: parts,
        } = self;
        let set = set_of(alloc, units)?;
        Ok(Names {
            classes,
            units: with_part(parts, set)?,
        })
    }

    /// The number of a class.
    pub fn class(&self, name: &[u8]) -> Option<u32>
        ensures { result ≡ model.place_of name.now self.now.classes }
    {
        place_of(&self.classes, name)
    }

    /// The part of a unit that is asked for, and its number there.
    pub fn unit(&self, name: &[u8]) -> Option<(u32, u32)>
        ensures { result ≡ query_place self.now name.now }
    {
        for (part, units) in self.units.iter().enumerate() {
            if let Some(ask) = place_of(units, name) {
                return Some((part as u32, ask));
            }
        }
        None
    }
}
