//! What is counted of blocks, so that the smaller half waits. No clause says which block waits and where one goes: states
//! of different blocks are apart whatever it is.

ghost use Rattle.std.specs.Prelude.{◌≡◌, ◌<◌, ◌≤◌, ℕ, IfOk, OnOk, length, vec_len};
ghost use Rattle.std.specs.List.{Contains};
ghost use Rattle.hz_pipeline_model.specs.Least.Blocks.{block_limit};

use hz_tables::NoMemory;
use std::alloc::Global;

// Numbers of blocks are below this.
const BLOCK_LIMIT: usize = 131_072;

/// What is counted of a block.
#[derive(Clone, Copy)]
pub struct Mark {
    /// How many states it has.
    size: u32,
    /// How many of them are among the states by which blocks are split now.
    hits: u32,
    /// The block to which these go.
    pub goes: u32,
    /// Whether it waits to be taken.
    waits: bool,
}

/// What is counted of all blocks.
#[derive(Drop)]
pub struct Marks {
    pub of_blocks: Vec<Mark>,
    hit: Vec<u32>,
    waiting: Vec<u32>,
}

// The mark of a block from which the states that were counted go to a new one, and the mark of that one. The smaller one
// waits, and both where the block waited.
fn halves(mark: Mark, new: u32) -> (Mark, Mark) {
    let left = mark.size.saturating_sub(mark.hits);
    let left_waits = mark.waits || left < mark.hits;
    let new_waits = mark.waits || !left_waits;
    (
        Mark {
            size: left,
            hits: 0,
            goes: new,
            waits: left_waits,
        },
        Mark {
            size: mark.hits,
            hits: 0,
            goes: new,
            waits: new_waits,
        },
    )
}

impl Marks {
    /// One block of so many states, which waits.
    pub fn whole(alloc: Global, states: u32) -> Result<Marks, NoMemory>
        ensures { IfOk result (λ marks. vec_len marks.of_blocks ≡ 1) }
    {
        let mark = Mark {
            size: states,
            hits: 0,
            goes: 0,
            waits: true,
        };
        Ok(Marks {
            of_blocks: vec![in alloc; mark]?,
            hit: Vec::new(alloc),
            waiting: vec![in alloc; 0]?,
        })
    }

    /// Takes a block that waits.
    pub fn next(&mut self) -> Option<u32>
        ensures { vec_len self.new.of_blocks ≡ vec_len self.old.of_blocks }
    {
        let block = self.waiting.pop()?;
        if let Some(mark) = self.of_blocks.get_mut(block as usize) {
            mark.waits = false;
        }
        Some(block)
    }

    // Counts a state of a block.
    fn count(&mut self, block: u32) -> Result<(), NoMemory>
        ensures { OnOk result (vec_len self.new.of_blocks ≡ vec_len self.old.of_blocks) }
    {
        if let Some(mark) = self.of_blocks.get_mut(block as usize) {
            if mark.hits == 0 {
                self.hit.push(block)?;
            }
            mark.hits = mark.hits.saturating_add(1);
        }
        Ok(())
    }

    /// Counts states, each in its block.
    pub fn count_all(&mut self, blocks: &[u32], states: &[u32]) -> Result<(), NoMemory>
        requires { (state : ℕ) → Contains states.now state → state < length blocks.now }
        ensures { OnOk result (vec_len self.new.of_blocks ≡ vec_len self.old.of_blocks) }
    {
        for state in states {
            self.count(blocks[*state as usize])?;
        }
        Ok(())
    }

    // Makes the new block of a block, of which some states were counted and not all.
    fn split(&mut self, block: u32) -> Result<(), NoMemory>
        requires { vec_len self.old.of_blocks < block_limit }
        ensures more { OnOk result (vec_len self.old.of_blocks ≤ vec_len self.new.of_blocks) }
        ensures few { OnOk result (vec_len self.new.of_blocks ≤ block_limit) }
    {
        let new = self.of_blocks.len() as u32;
        if let Some(mark) = self.of_blocks.get_mut(block as usize) {
            let (left, moved) = halves(*mark, new);
            *mark = left;
            let waits = if moved.waits { new } else { block };
            self.of_blocks.push(moved)?;
            self.waiting.push(waits)?;
        }
        Ok(())
    }

    // Says where the states of a block go that were counted: all stay where all were.
    fn settle(&mut self, block: u32) -> Result<(), NoMemory>
        requires { vec_len self.old.of_blocks ≤ block_limit }
        ensures more { OnOk result (vec_len self.old.of_blocks ≤ vec_len self.new.of_blocks) }
        ensures few { OnOk result (vec_len self.new.of_blocks ≤ block_limit) }
    {
        let room = self.of_blocks.len() < BLOCK_LIMIT;
        if let Some(mark) = self.of_blocks.get_mut(block as usize) {
            if mark.hits < mark.size && room {
                return self.split(block);
            }
            mark.hits = 0;
            mark.goes = block;
        }
        Ok(())
    }

    /// Says for each block of which states were counted where these go, and which block waits.
    pub fn settle_all(&mut self) -> Result<(), NoMemory>
        requires { vec_len self.old.of_blocks ≤ block_limit }
        ensures more { OnOk result (vec_len self.old.of_blocks ≤ vec_len self.new.of_blocks) }
        ensures few { OnOk result (vec_len self.new.of_blocks ≤ block_limit) }
    {
        for _ in 0..self.hit.len() {
            match self.hit.pop() {
                Some(block) => self.settle(block)?,
                None => return Ok(()),
            }
        }
        Ok(())
    }
}
