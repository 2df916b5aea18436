//! The edges of a graph, by the instruction that they lead from.

ghost use Rattle.std.specs.Prelude.{◌≡◌, ◌<◌, ◌==◌, ◌++◌, ◌∷◌, [], ℕ, length, All, IfOk, OnOk};
ghost use Rattle.std.specs.List.{filter};
ghost use Rattle.hz_bound.specs.Rows.{row_at};

use hz_depend::Edge;
use hz_regexp::NoMemory;
use std::alloc::Global;

/// An empty row for each of so many instructions.
fn no_rows(alloc: Global, count: usize) -> Result<Vec<Vec<Edge>>, NoMemory>
    ensures size { IfOk result (λ rows. length rows.items ≡ count) }
    ensures none { IfOk result (λ rows. (i : ℕ) → row_at rows.items i ≡ []) }
{
    let mut rows = Vec::new(alloc);
    for _row in 0..count {
        rows.push(Vec::new(alloc))?;
    }
    Ok(rows)
}

/// Adds an edge to the row of the instruction that it leads from.
fn add(rows: &mut Vec<Vec<Edge>>, edge: Edge) -> Result<(), NoMemory>
    requires { edge.from < length rows.old.items }
    ensures size { OnOk result (length rows.new.items ≡ length rows.old.items) }
    ensures added { OnOk result ((i : ℕ) → row_at rows.new.items i ≡ row_at rows.old.items i ++ filter (λ e. e.from == i) (edge ∷ [])) }
{
    let row = &mut rows[edge.from as usize];
    row.push(edge)?;
    Ok(())
}

/// The edges from each of so many instructions.
pub fn outgoing(alloc: Global, count: usize, edges: &[Edge]) -> Result<Vec<Vec<Edge>>, NoMemory>
    requires { All (λ e. e.from < count) edges.now }
    ensures size { IfOk result (λ rows. length rows.items ≡ count) }
    ensures rows { IfOk result (λ rows. (i : ℕ) → row_at rows.items i ≡ filter (λ e. e.from == i) edges.now) }
{
    let mut rows = no_rows(alloc, count)?;
    for edge in edges {
        add(&mut rows, *edge)?;
    }
    Ok(rows)
}
