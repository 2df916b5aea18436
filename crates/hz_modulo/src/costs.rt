//! The first interval with few stages that keeps the dependences between turns.

ghost use Rattle.std.specs.Prelude.{◌≡◌, ◌<◌, ◌≤◌, ◌*◌, ◌/◌, ◌^◌, length, map, All, slice_index};
ghost use Rattle.hz_description_model.specs.Reading.Limits.{latency_limit};
ghost use Rattle.hz_depend.specs.GraphShape.{edge_of};
ghost use Rattle.hz_modulo.specs.Costs as model;
ghost use Rattle.hz_modulo.specs.Costs.{least_of};
ghost use Rattle.hz_measure_model.specs.Kernels.Repeats.{body_limit};

use hz_depend::Edge;

/// How many stages there may be, with the first.
const MOST_STAGES: u32 = 33;

/// The least interval that keeps an edge between two turns, where the instruction at each place of the body is issued at a cycle.
fn least_for(cycles: &[u32], edge: Edge) -> u32
    requires some { 0 < length cycles.now }
    requires few { length cycles.now ≤ body_limit }
    requires small { All (λ c. c < 2 ^ 30) cycles.now }
    requires cost { edge.cost ≤ latency_limit }
    requires ends { edge.to < 2 ^ 16 }
    requires later { edge.from / length cycles.now < edge.to / length cycles.now }
    ensures { result ≡ model.least_for (length cycles.now) (slice_index cycles.now) (edge_of edge) }
{
    let size = cycles.len() as u32;
    let turns = edge.to / size - edge.from / size;
    let begin = cycles[(edge.from % size) as usize] + edge.cost;
    let lack = begin.saturating_sub(cycles[(edge.to % size) as usize]);
    (lack + (turns - 1)) / turns
}

/// The least interval that keeps each of these edges that leads from one turn to another.
fn least_of_costs(cycles: &[u32], edges: &[Edge]) -> u32
    requires few { length cycles.now ≤ body_limit }
    requires small { All (λ c. c < 2 ^ 30) cycles.now }
    requires inside { All (λ e. (e.from < e.to) × (e.to < 3 * length cycles.now) × (e.cost ≤ latency_limit)) edges.now }
    ensures { result ≡ least_of (length cycles.now) (slice_index cycles.now) (map edge_of edges.now) }
{
    let size = cycles.len() as u32;
    let mut least = 0;
    for edge in edges {
        if edge.from / size < edge.to / size {
            least = least.max(least_for(cycles, *edge));
        }
    }
    least
}

/// The first interval with at most 33 stages that keeps these edges of three turns, where the instruction at each place of the body is
/// issued at a cycle, the last at `last`. No smaller interval repeats. docs/RULES.md, 'Kernels of loops'.
pub fn first_interval(cycles: &[u32], last: u32, edges: &[Edge]) -> u32
    requires few { length cycles.now ≤ body_limit }
    requires small { All (λ c. c < 2 ^ 30) cycles.now }
    requires inside { All (λ e. (e.from < e.to) × (e.to < 3 * length cycles.now) × (e.cost ≤ latency_limit)) edges.now }
    ensures { result ≡ model.first_interval (length cycles.now) (slice_index cycles.now) last (map edge_of edges.now) }
{
    (last / MOST_STAGES + 1).max(least_of_costs(cycles, edges))
}
