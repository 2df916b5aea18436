//! The entries of a table by the state to which they lead.

ghost use Rattle.std.specs.Prelude.{◌≡◌, ◌+◌, ◌<◌, IfOk, OnOk, length};
ghost use Rattle.hz_pipeline_model.specs.Tables.Tables.{IsTable};
ghost use Rattle.hz_minim.specs.Lists.{lists_of};
ghost use Rattle.hz_minim.specs.Arrows.{AreArrows, HasRead};

use crate::lists::{add, roomy_lists};
use hz_tables::{NoMemory, Plain};
use std::alloc::Global;

/// An entry that isn't none: its column, and the state that has it.
#[derive(Clone, Copy)]
pub struct Arrow {
    pub column: u32,
    pub source: u32,
}

// Counts the arrows of a state, each at the state to which it leads.
fn count_row(counts: &mut [u32], plain: &Plain, state: u32)
    requires { state < length plain.now.rows }
    ensures { length counts.new ≡ length counts.old }
{
    let width = plain.columns() + 1;
    for column in 0..width {
        if let Some(target) = plain.step(state, column) {
            if let Some(count) = counts.get_mut(target as usize) {
                *count = count.saturating_add(1);
            }
        }
    }
}

// How many arrows lead to each state. Only the number of the counts is promised, since they serve as room alone.
fn counts_of(alloc: Global, plain: &Plain) -> Result<Vec<u32>, NoMemory>
    ensures { IfOk result (λ counts. length counts.items ≡ length plain.now.rows) }
{
    let mut counts = vec![in alloc; 0; plain.states() as usize]?;
    for state in 0..plain.states() {
        count_row(&mut counts, plain, state);
    }
    Ok(counts)
}

// Adds the arrows of a state, after those of the states before it.
fn add_row(arrows: &mut Vec<Vec<Arrow>>, plain: &Plain, state: u32) -> Result<(), NoMemory>
    requires table { IsTable plain.now.rows plain.now.columns }
    requires state { state < length plain.now.rows }
    requires read { HasRead plain.now.rows state 0 (lists_of arrows.old.items) }
    ensures { OnOk result (HasRead plain.now.rows (state + 1) 0 (lists_of arrows.new.items)) }
{
    for column in 0..plain.columns() + 1 {
        let arrow = Arrow {
            column,
            source: state,
        };
        match plain.step(state, column) {
            Some(target) => add(arrows, target, arrow)?,
            None => (),
        }
    }
    Ok(())
}

/// For each state the arrows that lead to it. They are counted first: lists that grow in the order of the rows would be
/// moved again and again, all over the memory.
pub fn arrows_of(alloc: Global, plain: &Plain) -> Result<Vec<Vec<Arrow>>, NoMemory>
    requires { IsTable plain.now.rows plain.now.columns }
    ensures { IfOk result (λ arrows. AreArrows plain.now (lists_of arrows.items)) }
{
    let counts = counts_of(alloc, plain)?;
    let mut arrows = roomy_lists(alloc, &counts)?;
    for state in 0..plain.states() {
        add_row(&mut arrows, plain, state)?;
    }
    Ok(arrows)
}
