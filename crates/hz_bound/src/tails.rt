//! Tails: for how many cycles the dependences after each instruction ask.

ghost use Rattle.std.specs.Prelude.{◌≡◌, ◌≤◌, ◌<◌, ◌*◌, length, map, All, IfOk};
ghost use Rattle.hz_description_model.specs.Reading.Limits.{latency_limit};
ghost use Rattle.hz_block_model.specs.Running.Limits.{instruction_limit};
ghost use Rattle.hz_measure_model.specs.Bounds.Paths.{greatest};
ghost use Rattle.hz_bound.specs.Rows.{row_at, sum_of, TailsFrom, LeadUp};

use hz_depend::Edge;
use hz_regexp::NoMemory;
use std::alloc::Global;

/// The greatest sum of the cost of an edge of a row and the tail where it leads, 0 where there is none.
fn tail_of(row: &[Edge], tails: &[u32]) -> u32
    requires inside { All (λ e. (e.to < length tails.now) × (e.cost ≤ latency_limit)) row.now }
    requires small { All (λ t. t ≤ latency_limit * instruction_limit) tails.now }
    ensures { result ≡ greatest (map (sum_of tails.now) row.now) }
{
    let mut tail = 0;
    for edge in row {
        tail = tail.max(edge.cost + tails[edge.to as usize]);
    }
    tail
}

/// The edges from an instruction.
pub fn row_of(rows: &[Vec<Edge>], place: usize) -> &[Edge]
    requires { place < length rows.now }
    ensures { result.now ≡ row_at rows.now place }
{
    rows[place].as_slice()
}

/// The tail of each instruction, by the rows of the edges from each, which lead upwards.
pub fn tails_of(alloc: Global, rows: &[Vec<Edge>]) -> Result<Vec<u32>, NoMemory>
    requires few { length rows.now ≤ instruction_limit }
    requires upward { LeadUp (row_at rows.now) (length rows.now) }
    ensures { IfOk result (λ tails. TailsFrom (row_at rows.now) (length rows.now) 0 tails.items) }
{
    let mut tails = vec![in alloc; 0; rows.len()]?;
    for place in (0..rows.len()).rev() {
        let tail = tail_of(row_of(rows, place), &tails);
        tails[place] = tail;
    }
    Ok(tails)
}
