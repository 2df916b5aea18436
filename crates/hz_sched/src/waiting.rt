//! What instructions wait for: for each, how many edges lead to it from instructions that aren't issued, and the first cycle at
//! which it has waited for the others.

ghost use Rattle.std.specs.Prelude.{◌≡◌, ◌≤◌, ◌<◌, ◌+◌, ◌-◌, ◌^◌, ◌==◌, ℕ, if◌then◌else◌, max, length, slice_index, All};
ghost use Rattle.hz_description_model.specs.Reading.Limits.{latency_limit};
ghost use Rattle.hz_sched.specs.Rows.{edges_to};
ghost use Rattle.hz_sched.specs.Waits.{leading, ripe_from};

use crate::adjacency::Successor;

/// One edge fewer leads to an instruction, which waits for its cost.
fn wait_for(counts: &mut [usize], ripes: &mut [u32], successor: Successor, cycle: u32)
    requires size { length counts.old ≡ length ripes.old }
    requires within { successor.place < length counts.old }
    requires some { 0 < slice_index counts.old successor.place }
    requires small { cycle + successor.cost < 2 ^ 32 }
    ensures counts { (j : ℕ) → slice_index counts.new j ≡ slice_index counts.old j - (if successor.place == j then 1 else 0) }
    ensures ripes { (j : ℕ) → slice_index ripes.new j ≡ max (slice_index ripes.old j) (if successor.place == j then cycle + successor.cost else 0) }
{
    let place = usize::from(successor.place);
    counts[place] -= 1;
    ripes[place] = ripes[place].max(cycle + u32::from(successor.cost));
}

/// An instruction with these successors is issued.
pub fn release(counts: &mut [usize], ripes: &mut [u32], row: &[Successor], cycle: u32)
    requires size { length counts.old ≡ length ripes.old }
    requires within { All (λ s. s.place < length counts.old) row.now }
    requires some { (j : ℕ) → leading j (edges_to row.now) ≤ slice_index counts.old j }
    requires costs { All (λ s. s.cost ≤ latency_limit) row.now }
    requires small { cycle + latency_limit < 2 ^ 32 }
    ensures counts { (j : ℕ) → slice_index counts.old j ≡ slice_index counts.new j + leading j (edges_to row.now) }
    ensures ripes { (j : ℕ) → slice_index ripes.new j ≡ max (slice_index ripes.old j) (ripe_from cycle j (edges_to row.now)) }
{
    for successor in row {
        wait_for(counts, ripes, *successor, cycle);
    }
}
