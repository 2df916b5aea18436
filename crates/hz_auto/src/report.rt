//! What is reported of a compiled automaton.

ghost use Rattle.std.specs.Prelude.{◌≡◌, ◌<◌, ◌≤◌, length, map, All, IfOk};
ghost use Rattle.std.specs.List.{sum_by};
ghost use Rattle.hz_pipeline_model.specs.Tables.StateLimits.{grid_limit, member_limit};
ghost use Rattle.hz_auto.specs.Reports.{AreArranged, IsArranged, IsShownOf, IsReportOf};

use hz_determ::Explored;
use hz_grid::Grid;
use hz_states::NoMemory;
use std::alloc::Global;

/// The counts of an automaton before minimisation, and what each state is where that is to be shown.
#[derive(Drop)]
pub struct AutoReport {
    /// Different reached grids.
    pub grids: u32,
    /// Different reached states.
    pub states: u32,
    /// The grids of all states together.
    pub members: u32,
    /// Beside the options `v` and `no-minimization` alone.
    pub shown: Option<Shown>,
}

/// What each state of an automaton is.
#[derive(Drop)]
pub struct Shown {
    /// For each state but the first the row and the column where it is read first, and (0, 0) for the first.
    pub parents: Vec<(u32, u32)>,
    /// The grids of each state, in ascending order.
    pub grids: Vec<Vec<Grid>>,
}

// How many numbers all lists have together.
fn member_count(sets: &[Vec<u32>]) -> u32
    requires { sum_by (λ set. length set.items) sets.now ≤ member_limit }
    ensures { result ≡ sum_by (λ set. length set.items) sets.now }
{
    let mut count = 0;
    for set in sets {
        count += set.len() as u32;
    }
    count
}

// The grids of these numbers, in ascending order.
fn arranged(alloc: Global, grids: &[Grid], set: &[u32]) -> Result<Vec<Grid>, NoMemory>
    requires { All (λ number. number < length grids.now) set.now }
    ensures { IfOk result (λ state. IsArranged grids.now set.now state.items) }
{
    let mut state = Vec::with_capacity(alloc, set.len())?;
    for number in set {
        state.push(grids[*number as usize].copy(alloc)?)?;
    }
    state.sort()?;
    Ok(state)
}

// The grids of each state.
fn states_of(alloc: Global, grids: &[Grid], sets: &[Vec<u32>]) -> Result<Vec<Vec<Grid>>, NoMemory>
    requires { All (λ set. All (λ number. number < length grids.now) set.items) sets.now }
    ensures { IfOk result (λ states. AreArranged grids.now (map (λ set. set.items) sets.now) (map (λ state. state.items) states.items)) }
{
    let mut states = Vec::with_capacity(alloc, sets.len())?;
    for set in sets {
        states.push(arranged(alloc, grids, set)?)?;
    }
    Ok(states)
}

// What each state of an explored automaton is.
fn shown_of(alloc: Global, explored: &Explored) -> Result<Shown, NoMemory>
    requires { All (λ set. All (λ number. number < length explored.now.grids.items) set.items) explored.now.sets.items }
    ensures { IfOk result (IsShownOf explored.now) }
{
    Ok(Shown {
        parents: explored.parents.clone()?,
        grids: states_of(alloc, &explored.grids, &explored.sets)?,
    })
}

/// What is reported of an explored automaton, with its states where they are to be shown.
pub(crate) fn report_on(
    alloc: Global,
    shown: bool,
    explored: &Explored,
) -> Result<AutoReport, NoMemory>
    requires members { sum_by (λ set. length set.items) explored.now.sets.items ≤ member_limit }
    requires numbers { All (λ set. All (λ number. number < length explored.now.grids.items) set.items) explored.now.sets.items }
    requires few { length explored.now.grids.items ≤ grid_limit }
    ensures { IfOk result (IsReportOf shown explored.now) }
{
    let shown = if shown {
        Some(shown_of(alloc, explored)?)
    } else {
        None
    };
    Ok(AutoReport {
        grids: explored.grids.len() as u32,
        states: explored.plain.states(),
        members: member_count(&explored.sets),
        shown,
    })
}
