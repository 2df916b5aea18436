//! What a dependence graph is made of.

/// The dependence graph of a block.
#[derive(Debug, Drop)]
pub struct Graph {
    /// The instructions, in the order of the source. Edges tell them by their places.
    pub insns: Vec<GraphInsn>,
    /// One for each dependence.
    pub edges: Vec<Edge>,
}

/// An instruction of a graph.
#[derive(Clone, Copy, Debug, PartialEq, Eq)]
pub struct GraphInsn {
    /// Its number in the block.
    pub number: u32,
    /// The line of its form, counted from 1.
    pub line: u32,
    /// The number of its class.
    pub class: u32,
    /// The latency of its class, in cycles.
    pub latency: u32,
    /// The greatest sum of the cost of an edge from it and the height where that leads; without an edge its latency.
    pub height: u32,
}

/// A dependence: the instruction at `to` is issued at least `cost` cycles after the one at `from`, which stands before it.
#[derive(Clone, Copy, Debug, PartialEq, Eq)]
pub struct Edge {
    pub from: u32,
    pub to: u32,
    pub cost: u32,
}
