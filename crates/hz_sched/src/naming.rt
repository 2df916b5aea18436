//! The number and the class of an instruction, by its place in a graph.

ghost use Rattle.std.specs.Prelude.{◌≡◌, ◌<◌, [], length, map, All, slice_index, slice_index_or};
ghost use Rattle.hz_block_model.specs.Scheduling.Schedules as model;
ghost use Rattle.hz_sched.specs.Shape.{graph_of};

use hz_depend::Graph;
use hz_regexp::Name;
use hz_tables::Machine;

/// The number that its block gives the instruction at a place. Places are counted from 0.
pub fn number_at(graph: &Graph, place: u32) -> u32
    requires { place < length graph.now.insns.items }
    ensures { result ≡ slice_index (map (λ i. i.number) graph.now.insns.items) place }
{
    let insn = &graph.insns[place as usize];
    insn.number
}

/// The number of the class of the instruction at a place.
pub fn class_at(graph: &Graph, place: u32) -> u32
    requires { place < length graph.now.insns.items }
    ensures { result ≡ model.class_at (graph_of graph.now) place }
{
    let insn = &graph.insns[place as usize];
    insn.class
}

/// The name of the class of the instruction at a place, counted from 0. The machine has the names of the classes.
pub fn class_name<'a>(machine: &'a Machine, graph: &Graph, place: u32) -> &'a Name
    requires place { place < length graph.now.insns.items }
    requires classes { All (λ i. i.class < length machine.now.classes.items) graph.now.insns.items }
    ensures { result.now ≡ slice_index_or machine.now.classes.items (model.class_at (graph_of graph.now) place) [] }
{
    &machine.classes[class_at(graph, place) as usize]
}
