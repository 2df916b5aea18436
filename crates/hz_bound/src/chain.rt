//! The chain that shows the greatest tail.

ghost use Rattle.std.specs.Prelude.{◌≡◌, ◌≤◌, ◌<◌, ◌*◌, ◌==◌, None, length, position, All, IfOk};
ghost use Rattle.hz_description_model.specs.Reading.Limits.{latency_limit};
ghost use Rattle.hz_block_model.specs.Running.Limits.{instruction_limit};
ghost use Rattle.hz_measure_model.specs.Bounds.Paths.{greatest};
ghost use Rattle.hz_bound.specs.Rows.{row_at, lesser, least_in, TailsFrom, LeadUp, IsChainOf};

use crate::tails::row_of;
use hz_depend::Edge;
use hz_regexp::NoMemory;
use std::alloc::Global;

/// The lesser of a place, if there is one, and that to which an edge leads, where it carries the tail on.
fn lesser_of(next: Option<u32>, edge: Edge, tails: &[u32], tail: u32) -> Option<u32>
    requires to { edge.to < length tails.now }
    requires cost { edge.cost ≤ latency_limit }
    requires small { All (λ t. t ≤ latency_limit * instruction_limit) tails.now }
    ensures { result ≡ lesser tails.now tail next edge }
{
    if edge.cost + tails[edge.to as usize] != tail {
        return next;
    }
    match next {
        Some(least) => Some(least.min(edge.to)),
        None => Some(edge.to),
    }
}

/// The least place to which an edge of the row carries a tail on.
fn next_of(row: &[Edge], tails: &[u32], tail: u32) -> Option<u32>
    requires inside { All (λ e. (e.to < length tails.now) × (e.cost ≤ latency_limit)) row.now }
    requires small { All (λ t. t ≤ latency_limit * instruction_limit) tails.now }
    ensures { result ≡ least_in tails.now tail row.now None }
{
    let mut next = None;
    for edge in row {
        next = lesser_of(next, *edge, tails, tail);
    }
    next
}

/// The greatest of tails, 0 where there is none.
pub fn greatest_of(tails: &[u32]) -> u32
    ensures { result ≡ greatest tails.now }
{
    let mut most = 0;
    for tail in tails {
        most = most.max(*tail);
    }
    most
}

/// The first place of this tail.
fn first_of(tails: &[u32], most: u32) -> Option<usize>
    ensures { result ≡ position (λ t. t == most) tails.now }
{
    tails.iter().position(|tail| *tail == most)
}

/// The chain: from the first place of the greatest tail on, always to the least place that carries the tail on.
pub fn chain_of(alloc: Global, rows: &[Vec<Edge>], tails: &[u32]) -> Result<Vec<u32>, NoMemory>
    requires few { length rows.now ≤ instruction_limit }
    requires upward { LeadUp (row_at rows.now) (length rows.now) }
    requires tails { TailsFrom (row_at rows.now) (length rows.now) 0 tails.now }
    ensures { IfOk result (λ chain. IsChainOf (row_at rows.now) tails.now chain.items) }
{
    let mut chain = Vec::new(alloc);
    let Some(first) = first_of(tails, greatest_of(tails)) else {
        return Ok(chain);
    };
    let mut place = first as u32;
    chain.push(place)?;
    for _turn in 0..tails.len() {
        let tail = tails[place as usize];
        if tail == 0 {
            return Ok(chain);
        }
        let Some(next) = next_of(row_of(rows, place as usize), tails, tail) else {
            return Ok(chain);
        };
        chain.push(next)?;
        place = next;
    }
    unreachable!()
}
