//! Leaders: the first state of each block stands for the block.

ghost use Rattle.std.specs.Prelude.{◌≡◌, ◌+◌, ◌<◌, ◌≤◌, All, IfOk, length};
ghost use Rattle.hz_pipeline_model.specs.Tables.StateLimits.{state_limit};
ghost use Rattle.hz_minim.specs.Leading.{HasFirst, IsLed};

use hz_tables::NoMemory;
use std::alloc::Global;

// A number above all blocks.
fn end_of(blocks: &[u32]) -> usize
    ensures { All (λ block. block < result) blocks.now }
{
    let mut end = 0;
    for block in blocks {
        end = end.max(*block as usize + 1);
    }
    end
}

// The first state of the block of this one, which is noted where none is.
fn first_of(firsts: &mut Vec<Option<u32>>, block: u32, state: u32) -> u32
    requires { block < length firsts.old.items }
    ensures { HasFirst firsts.old.items block state firsts.new.items result }
{
    match firsts[block as usize] {
        Some(first) => first,
        None => {
            firsts[block as usize] = Some(state);
            state
        }
    }
}

/// For each state the first one of its block.
pub(crate) fn leaders_of(alloc: Global, blocks: &[u32]) -> Result<Vec<u32>, NoMemory>
    requires { length blocks.now ≤ state_limit }
    ensures { IfOk result (λ leaders. IsLed blocks.now leaders.items) }
{
    let mut firsts = vec![in alloc; None; end_of(blocks)]?;
    let mut leaders = Vec::with_capacity(alloc, blocks.len())?;
    for (state, block) in blocks.iter().enumerate() {
        let leader = first_of(&mut firsts, *block, state as u32);
        leaders.push(leader)?;
    }
    Ok(leaders)
}
