//! Leaders that every state follows: a state that does not becomes a leader itself.

ghost use Rattle.std.specs.Prelude.{◌≡◌, ◌+◌, ◌<◌, ◌≤◌, MatchOption, IfOk, length};
ghost use Rattle.hz_pipeline_model.specs.Tables.Tables.{IsTable};
ghost use Rattle.hz_minim.specs.Leading.{leader_of, led_entry, IsCoarse, Strays, Follows, AllFollow, IsSettled, IsPartedTo, IsParted};

use hz_tables::{NoMemory, Plain};
use std::alloc::Global;

/// The leader to which a column leads from a state, and none where the table has none.
pub(crate) fn step_led(plain: &Plain, leaders: &[u32], state: u32, column: u32) -> Option<u32>
    requires table { IsTable plain.now.rows plain.now.columns }
    requires each { length leaders.now ≡ length plain.now.rows }
    requires state { state < length plain.now.rows }
    requires column { column ≤ plain.now.columns }
    ensures { result ≡ led_entry plain.now.rows leaders.now state column }
{
    match plain.step(state, column) {
        Some(next) => Some(leaders[next as usize]),
        None => None,
    }
}

// The first column in which a state leads to other leaders than its leader does.
fn straying(plain: &Plain, leaders: &[u32], state: u32) -> Option<u32>
    requires table { IsTable plain.now.rows plain.now.columns }
    requires coarse { IsCoarse plain.now.rows leaders.now }
    requires state { state < length plain.now.rows }
    ensures { MatchOption result (Follows plain.now.rows leaders.now state (plain.now.columns + 1)) (λ column. Strays plain.now.rows plain.now.columns leaders.now state column) }
{
    let leader = leaders[state as usize];
    for column in 0..plain.columns() + 1 {
        let next = step_led(plain, leaders, state, column);
        if next != step_led(plain, leaders, leader, column) {
            return Some(column);
        }
    }
    None
}

// The first state that does not follow its leader, and the column.
fn stray(plain: &Plain, leaders: &[u32]) -> Option<(u32, u32)>
    requires table { IsTable plain.now.rows plain.now.columns }
    requires coarse { IsCoarse plain.now.rows leaders.now }
    ensures { MatchOption result (IsSettled plain.now.rows plain.now.columns leaders.now) (λ place. Strays plain.now.rows plain.now.columns leaders.now place.0 place.1) }
{
    for state in 0..plain.states() {
        if let Some(column) = straying(plain, leaders, state) {
            return Some((state, column));
        }
    }
    None
}

// The leader of a state after a parting: the other one, if the state has its leader and leads with it to one leader in
// the column.
fn parted_to(plain: &Plain, leaders: &[u32], other: u32, column: u32, state: u32) -> u32
    requires table { IsTable plain.now.rows plain.now.columns }
    requires each { length leaders.now ≡ length plain.now.rows }
    requires other { other < length plain.now.rows }
    requires column { column ≤ plain.now.columns }
    requires state { state < length plain.now.rows }
    ensures { IsPartedTo plain.now.rows leaders.now other column state result }
{
    let leader = leaders[state as usize];
    if leader != leaders[other as usize] {
        return leader;
    }
    let next = step_led(plain, leaders, state, column);
    if next == step_led(plain, leaders, other, column) {
        other
    } else {
        leader
    }
}

// The leaders after a parting.
fn parted(
    alloc: Global,
    plain: &Plain,
    leaders: &[u32],
    other: u32,
    column: u32,
) -> Result<Vec<u32>, NoMemory>
    requires table { IsTable plain.now.rows plain.now.columns }
    requires each { length leaders.now ≡ length plain.now.rows }
    requires other { other < length plain.now.rows }
    requires column { column ≤ plain.now.columns }
    ensures { IfOk result (λ parted. IsParted plain.now.rows leaders.now other column (length plain.now.rows) parted.items) }
{
    let mut all = Vec::with_capacity(alloc, leaders.len())?;
    for state in 0..plain.states() {
        all.push(parted_to(plain, leaders, other, column, state))?;
    }
    Ok(all)
}

/// Leaders that every state follows. It is one pass over the table where the first ones are such.
pub(crate) fn settle(alloc: Global, plain: &Plain, leaders: Vec<u32>) -> Result<Vec<u32>, NoMemory>
    requires table { IsTable plain.now.rows plain.now.columns }
    requires coarse { IsCoarse plain.now.rows leaders.items }
    ensures { IfOk result (λ settled. IsSettled plain.now.rows plain.now.columns settled.items) }
{
    let mut settled = leaders;
    loop {
        match stray(plain, &settled) {
            Some((state, column)) => settled = parted(alloc, plain, &settled, state, column)?,
            None => return Ok(settled),
        }
    }
}
