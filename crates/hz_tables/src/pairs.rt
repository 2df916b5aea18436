//! What stands at the places of a comb, side by side.

ghost use Rattle.std.specs.Prelude.{◌≡◌, ◌+◌, ◌<◌, ◌^◌, length, slice_index, IfOk, All, IsTrue};
ghost use Rattle.std.proofs.Props.{props};
ghost use Rattle.hz_tables.specs.Widths.{is_width};

use crate::cells::{cell, number};
use crate::{NoMemory, Steps};
use std::alloc::Global;
use std::marker::Model;
use std::sync::ledger::Ledger;

/// What stands at a place: the state that owns it, and that state's next one.
#[derive(Clone, Copy)]
pub struct Pair<const W: usize> {
    owner: [u8; W],
    target: [u8; W],
}

/// The owner and the target of each place, in numbers of `W` bytes, which are 1, 2 or 4. Both are read by `get` alone, which
/// counts a step for each.
#[derive(Drop)]
pub struct Pairs<const W: usize> {
    pairs: Vec<Pair<W>>,
    ghost width: { IsTrue (is_width W) } by { Prim.hlevel props },
}

impl<const W: usize> Model for Pairs<W> {
    ghost use Rattle.hz_tables.specs.Pairing.{Paired, paired_of};

    ghost Value = { Paired };

    ghost view = { λ p. paired_of p.pairs.items };
}

impl<const W: usize> Pairs<W> {
    /// These owners and targets, place by place.
    pub fn of(alloc: Global, owners: &[u32], targets: &[u32]) -> Result<Pairs<W>, NoMemory>
        requires width { IsTrue (is_width W) }
        requires same { length targets.now ≡ length owners.now }
        requires small_owners { All (λ owner. owner < 256 ^ W) owners.now }
        requires small_targets { All (λ target. target < 256 ^ W) targets.now }
        ensures owners { IfOk result (λ pairs. pairs.owners ≡ owners.now) }
        ensures targets { IfOk result (λ pairs. pairs.targets ≡ targets.now) }
    {
        let mut pairs = Vec::with_capacity(alloc, owners.len())?;
        for (place, owner) in owners.iter().enumerate() {
            pairs.push(Pair {
                owner: cell::<W>(*owner),
                target: cell::<W>(targets[place]),
            })?;
        }
        Ok(Pairs { pairs })
    }

    /// How many places there are. It takes no memory, and no step.
    pub fn count(&self) -> usize
        ensures { result ≡ length self.now.owners }
    {
        self.pairs.len()
    }

    /// The owner and the target of a place. It takes two steps, and no memory.
    pub fn get<L: Ledger>(&self, place: usize, steps: &mut Steps<L>) -> (u32, u32)
        requires place { place < length self.now.owners }
        ensures owner { result.0 ≡ slice_index self.now.owners place }
        ensures target { result.1 ≡ slice_index self.now.targets place }
        ensures counted { steps.new ≡ steps.old + 2 }
    {
        steps.tick();
        steps.tick();
        let pair = &self.pairs[place];
        (number(&pair.owner), number(&pair.target))
    }
}
