//! The edges of a graph by the instructions at their ends.

ghost use Rattle.std.specs.Prelude.{◌≡◌, ◌≤◌, ◌<◌, ◌+◌, ◌^◌, ◌==◌, ◌++◌, ◌∷◌, [], ℕ, if◌then◌else◌, length, map, slice_index, All, IfOk, OnOk};
ghost use Rattle.std.specs.List.{filter};
ghost use Rattle.hz_description_model.specs.Reading.Limits.{latency_limit};
ghost use Rattle.hz_block_model.specs.Running.Limits.{instruction_limit};
ghost use Rattle.hz_depend.specs.GraphShape.{edge_of};
ghost use Rattle.hz_sched.specs.Rows.{row_at, leaving};
ghost use Rattle.hz_sched.specs.Waits.{leading};

use hz_depend::Edge;
use hz_regexp::NoMemory;
use std::alloc::Global;

/// An instruction to which an edge leads, and the cost of the edge in cycles. A row of them takes a third of the memory of its edges.
#[derive(Clone, Copy, Debug, PartialEq, Eq)]
pub struct Successor {
    pub place: u16,
    pub cost: u16,
}

/// The edges of a graph by the instructions at their ends.
#[derive(Drop)]
pub struct Adjacency {
    /// The successors of each instruction.
    pub rows: Vec<Vec<Successor>>,
    /// How many edges lead to each instruction.
    pub counts: Vec<usize>,
}

/// Counts one edge more at an instruction.
fn count_one(counts: &mut [usize], place: u32)
    requires within { place < length counts.old }
    requires small { slice_index counts.old place + 1 < 2 ^ 64 }
    ensures { (j : ℕ) → slice_index counts.new j ≡ slice_index counts.old j + (if place == j then 1 else 0) }
{
    counts[place as usize] += 1;
}

/// How many edges lead from each of so many instructions.
fn counts_from(alloc: Global, count: usize, edges: &[Edge]) -> Result<Vec<usize>, NoMemory>
    requires { All (λ e. e.from < count) edges.now }
    ensures size { IfOk result (λ counts. length counts.items ≡ count) }
    ensures counted { IfOk result (λ counts. (i : ℕ) → slice_index counts.items i ≡ leaving i (map edge_of edges.now)) }
{
    let mut counts = vec![in alloc; 0_usize; count]?;
    for edge in edges {
        count_one(&mut counts, edge.from);
    }
    Ok(counts)
}

/// An empty row for each of these counts, with room for so many successors.
fn empty_rows(alloc: Global, counts: &[usize]) -> Result<Vec<Vec<Successor>>, NoMemory>
    ensures size { IfOk result (λ rows. length rows.items ≡ length counts.now) }
    ensures none { IfOk result (λ rows. (i : ℕ) → row_at rows.items i ≡ []) }
{
    let mut rows = Vec::new(alloc);
    for count in counts {
        rows.push(Vec::with_capacity(alloc, *count)?)?;
    }
    Ok(rows)
}

/// Adds an edge to the row of the instruction that it leads from.
fn add(rows: &mut Vec<Vec<Successor>>, edge: Edge) -> Result<(), NoMemory>
    requires within { edge.from < length rows.old.items }
    requires place { edge.to < 2 ^ 16 }
    requires cost { edge.cost < 2 ^ 16 }
    ensures size { OnOk result (length rows.new.items ≡ length rows.old.items) }
    ensures added { OnOk result ((i : ℕ) → row_at rows.new.items i ≡ row_at rows.old.items i ++ filter (λ e. e.from == i) (edge_of edge ∷ [])) }
{
    let row = &mut rows[edge.from as usize];
    row.push(Successor {
        place: edge.to as u16,
        cost: edge.cost as u16,
    })?;
    Ok(())
}

/// The edges between so many instructions by those at their ends.
pub fn adjacency_of(alloc: Global, count: usize, edges: &[Edge]) -> Result<Adjacency, NoMemory>
    requires few { count ≤ instruction_limit }
    requires edges { All (λ e. (e.from < count) × (e.to < count) × (e.cost ≤ latency_limit)) edges.now }
    ensures size { IfOk result (λ made. length made.rows.items ≡ count) }
    ensures rows { IfOk result (λ made. (i : ℕ) → row_at made.rows.items i ≡ filter (λ e. e.from == i) (map edge_of edges.now)) }
    ensures counts_size { IfOk result (λ made. length made.counts.items ≡ count) }
    ensures counted { IfOk result (λ made. (j : ℕ) → slice_index made.counts.items j ≡ leading j (map edge_of edges.now)) }
{
    let leaving = counts_from(alloc, count, edges)?;
    let mut rows = empty_rows(alloc, &leaving)?;
    let mut counts = vec![in alloc; 0_usize; count]?;
    for edge in edges {
        add(&mut rows, *edge)?;
        count_one(&mut counts, edge.to);
    }
    Ok(Adjacency { rows, counts })
}
