//! The blocks of states, and what is listed in each.

ghost use Rattle.std.specs.Prelude.{◌≡◌, ◌<◌, ℕ, IfOk, OnOk, length, replicate, slice_set, vec_len};
ghost use Rattle.std.specs.List.{Contains, range_with_len};
ghost use Rattle.hz_pipeline_model.specs.Least.Blocks.{block_of};
ghost use Rattle.hz_minim.specs.Lists.{lists_of};
ghost use Rattle.hz_minim.specs.Moves.{IsListed, IsMoved, goes_to};

use crate::lists::add;
use crate::marks::Mark;
use hz_tables::NoMemory;
use std::alloc::Global;

/// The states in blocks.
#[derive(Drop)]
pub struct Partition {
    /// The block of each state.
    pub blocks: Vec<u32>,
    /// For each block its states, and perhaps some that left it.
    pub members: Vec<Vec<u32>>,
}

// The first so many states.
fn first_states(alloc: Global, count: u32) -> Result<Vec<u32>, NoMemory>
    ensures { IfOk result (λ states. states.items ≡ range_with_len 0 count) }
{
    (0..count).collect(alloc)
}

// The block to which the states of a block go: a block that is new since there were `old` ones, or itself.
fn target(marks: &[Mark], old: usize, block: u32) -> u32
    requires { block < length marks.now }
    ensures { result ≡ goes_to marks.now old block }
{
    let goes = marks[block as usize].goes;
    if (block as usize) < old && old <= goes as usize && (goes as usize) < marks.len() {
        goes
    } else {
        block
    }
}

impl Partition {
    /// So many states in one block.
    pub fn whole(alloc: Global, states: u32) -> Result<Partition, NoMemory>
        ensures blocks { IfOk result (λ partition. partition.blocks.items ≡ replicate states 0) }
        ensures listed { IfOk result (λ partition. IsListed partition.blocks.items (lists_of partition.members.items)) }
        ensures members { IfOk result (λ partition. vec_len partition.members ≡ 1) }
    {
        let blocks = vec![in alloc; 0; states as usize]?;
        let all = first_states(alloc, states)?;
        let mut members = Vec::with_capacity(alloc, 1)?;
        members.push(all)?;
        Ok(Partition { blocks, members })
    }

    // Moves a state to where its block goes.
    fn move_one(&mut self, marks: &[Mark], old: usize, state: u32) -> Result<(), NoMemory>
        requires state { state < length self.old.blocks.items }
        requires listed { IsListed self.old.blocks.items (lists_of self.old.members.items) }
        requires marks { length marks.now ≡ vec_len self.old.members }
        ensures moved { OnOk result (self.new.blocks.items ≡ slice_set self.old.blocks.items state (goes_to marks.now old (block_of self.old.blocks.items state))) }
        ensures listed { OnOk result (IsListed self.new.blocks.items (lists_of self.new.members.items)) }
        ensures members { OnOk result (vec_len self.new.members ≡ vec_len self.old.members) }
    {
        let block = self.blocks[state as usize];
        let to = target(marks, old, block);
        if to == block {
            return Ok(());
        }
        add(&mut self.members, to, state)?;
        self.blocks[state as usize] = to;
        Ok(())
    }

    /// Moves states, each to where its block goes.
    pub fn move_all(&mut self, marks: &[Mark], old: usize, states: &[u32]) -> Result<(), NoMemory>
        requires states { (state : ℕ) → Contains states.now state → state < length self.old.blocks.items }
        requires listed { IsListed self.old.blocks.items (lists_of self.old.members.items) }
        requires marks { length marks.now ≡ vec_len self.old.members }
        ensures moved { OnOk result (IsMoved (goes_to marks.now old) states.now self.old.blocks.items self.new.blocks.items) }
        ensures listed { OnOk result (IsListed self.new.blocks.items (lists_of self.new.members.items)) }
        ensures members { OnOk result (vec_len self.new.members ≡ vec_len self.old.members) }
    {
        for state in states {
            self.move_one(marks, old, *state)?;
        }
        Ok(())
    }
}
