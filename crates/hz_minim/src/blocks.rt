//! Partition refinement by the smaller half: the states of a table in blocks, such that states of different blocks are
//! apart.

ghost use Rattle.std.specs.Prelude.{◌<◌, IfOk, All};
ghost use Rattle.hz_pipeline_model.specs.Tables.Tables.{IsTable};
ghost use Rattle.hz_pipeline_model.specs.Least.Blocks.{KeepsApart, block_limit};

use crate::arrows::arrows_of;
use crate::lists::empty_lists;
use crate::marks::Marks;
use crate::partition::Partition;
use crate::splitting::turn;
use hz_tables::{NoMemory, Plain};
use std::alloc::Global;

/// The block of each state. States of different blocks are apart; that states of one block are alike is not promised,
/// and is for the caller to see. Numbers of blocks are below 131,072. Hopcroft, 'An n log n algorithm for minimizing
/// states in a finite automaton', 1971.
pub fn refine(alloc: Global, plain: &Plain) -> Result<Vec<u32>, NoMemory>
    requires { IsTable plain.now.rows plain.now.columns }
    ensures apart { IfOk result (λ blocks. KeepsApart plain.now.rows blocks.items) }
    ensures numbers { IfOk result (λ blocks. All (λ block. block < block_limit) blocks.items) }
{
    let arrows = arrows_of(alloc, plain)?;
    let mut partition = Partition::whole(alloc, plain.states())?;
    let mut marks = Marks::whole(alloc, plain.states())?;
    let mut buckets = empty_lists(alloc, plain.columns() as usize + 1)?;
    // A split makes one block wait, so there are at most as many turns as blocks in the end.
    for _ in 0..plain.states() {
        // No block of one state is split.
        if marks.of_blocks.len() == plain.states() as usize {
            return Ok(partition.blocks);
        }
        match marks.next() {
            Some(block) => turn(
                alloc,
                &arrows,
                &mut partition,
                &mut marks,
                &mut buckets,
                block,
            )?,
            None => return Ok(partition.blocks),
        }
    }
    Ok(partition.blocks)
}
