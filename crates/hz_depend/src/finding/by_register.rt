//! Places in a block by registers.

ghost use Rattle.std.specs.Prelude.{◌≡◌, ℕ, [], IfOk, vec_len};
ghost use Rattle.hz_depend.specs.Lists.{list_at, lists_of};

use crate::finding::marks::{mark, mark_below, put};
use crate::finding::pairs::REGISTERS;
use hz_regexp::NoMemory;
use std::alloc::Global;

/// For each register some places, in the order in which they were added.
#[derive(Drop)]
pub struct ByRegister {
    lists: Vec<Vec<u32>>,
    ghost size: { vec_len lists ≡ 256 },
}

/// So many empty lists.
fn empty_lists(alloc: Global, count: usize) -> Result<Vec<Vec<u32>>, NoMemory>
    ensures size { IfOk result (λ lists. vec_len lists ≡ count) }
    ensures empty { IfOk result (λ lists. (number : ℕ) → list_at (lists_of lists.items) number ≡ []) }
{
    let mut lists = Vec::with_capacity(alloc, count)?;
    while lists.len() < count {
        lists.push(Vec::new(alloc))?;
    }
    Ok(lists)
}

impl ByRegister {
    ghost use Rattle.std.specs.Prelude.{◌≡◌, ℕ, [], ◌∷◌, ◌==◌, if◌then◌else◌, IfOk, OnOk};
    ghost use Rattle.std.specs.List.{flat_map};
    ghost use Rattle.hz_depend.specs.Lists.{list_at, lists_of};
    ghost use Rattle.hz_depend.specs.Marks.{marked, below, all_lists, other_lists};
    ghost use Rattle.hz_depend.specs.Noted.{hits, put_all};
    ghost use Rattle.hz_depend.specs.Tables.{lists_in};

    /// No place for any register.
    pub fn new(alloc: Global) -> Result<ByRegister, NoMemory>
        ensures { IfOk result (λ made. (r : ℕ) → list_at (lists_in made) r ≡ []) }
    {
        let lists = empty_lists(alloc, REGISTERS)?;
        Ok(ByRegister { lists })
    }

    /// Adds a place for a register, unless it was the last one added for it.
    pub fn add(&mut self, register: u8, place: u32) -> Result<(), NoMemory>
        ensures { OnOk result ((r : ℕ) → list_at (lists_in self.new) r ≡ put_all (list_at (lists_in self.old) r) (if register == r then place ∷ [] else [])) }
    {
        put(&mut self.lists[usize::from(register)], place)?;
        Ok(())
    }

    /// Adds a place for each of some registers, unless it was the last one added for it.
    #[tactic(auto, using(crate::proofs::NotedLemmas::put_append))]
    pub fn add_all(&mut self, registers: &[u8], place: u32) -> Result<(), NoMemory>
        ensures { OnOk result ((r : ℕ) → list_at (lists_in self.new) r ≡ put_all (list_at (lists_in self.old) r) (hits (λ n. n == r) registers.now place)) }
    {
        for register in registers {
            self.add(*register, place)?;
        }
        Ok(())
    }

    /// The places of a register.
    pub fn at(&self, register: u8) -> &[u32]
        ensures { result.now ≡ list_at (lists_in self.now) register }
    {
        &self.lists[usize::from(register)]
    }

    /// Marks the places of registers.
    #[tactic(auto, using(crate::proofs::MarkLemmas::marked_append))]
    pub fn mark(&self, stamps: &mut [u32], stamp: u32, registers: &[u8])
        ensures { stamps.new ≡ marked stamps.old stamp (flat_map (list_at (lists_in self.now)) registers.now) }
    {
        for register in registers {
            mark(stamps, stamp, self.at(*register));
        }
    }

    /// Marks the places of all registers.
    #[tactic(auto, using(crate::proofs::MarkLemmas::marked_append))]
    pub fn mark_all(&self, stamps: &mut [u32], stamp: u32)
        ensures { stamps.new ≡ marked stamps.old stamp (all_lists (lists_in self.now)) }
    {
        for places in &self.lists {
            mark(stamps, stamp, places);
        }
    }

    /// Marks the places of all registers but one.
    #[tactic(auto, using(crate::proofs::MarkLemmas::marked_append))]
    pub fn mark_others(&self, stamps: &mut [u32], stamp: u32, register: u8)
        ensures { stamps.new ≡ marked stamps.old stamp (other_lists register 0 (lists_in self.now)) }
    {
        for (number, places) in self.lists.iter().enumerate() {
            if number != usize::from(register) {
                mark(stamps, stamp, places);
            }
        }
    }

    /// Marks the places of a register before the first that isn't below an end.
    pub fn mark_below(&self, stamps: &mut [u32], stamp: u32, register: u8, end: u32)
        ensures { stamps.new ≡ marked stamps.old stamp (below end (list_at (lists_in self.now) register)) }
    {
        mark_below(stamps, stamp, self.at(register), end);
    }
}
