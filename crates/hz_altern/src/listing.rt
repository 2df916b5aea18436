//! Lists of alternatives that stay within the limit of their size. They are made in `expanding`: `joining` and `merging`
//! make one alternative of two; `singles` tells the parts with one alternative, `leaves` takes these apart into names, and
//! `reserving` gives the pairs of the names.

use crate::alternative::Alt;
use crate::fault::AlternFault;
use crate::listing::joining::{Joining, joined, joined_size};
use std::alloc::Global;
use std::marker::Model;

pub(crate) mod expanding;
pub(crate) mod joining;
pub(crate) mod leaves;
pub(crate) mod merging;
pub(crate) mod reserving;
pub(crate) mod singles;

/// So many cycles and pairs may alternatives have together. This profile, docs/RULES.md, 'Limits'.
pub const SIZE_LIMIT: usize = 2_097_152;

/// Alternatives that have no more than `SIZE_LIMIT` cycles and pairs together.
#[derive(Drop)]
pub struct Listing {
    alts: Vec<Alt>,
    size: usize,
}

impl Model for Listing {
    ghost use Rattle.std.specs.Prelude.{◌≡◌, ◌≤◌, List};
    ghost use Rattle.hz_altern.specs.Shapes.{alternatives};
    ghost use Rattle.hz_altern.specs.Answers.{total_weight};
    ghost use Rattle.hz_description_model.specs.Reservations.Alternatives.{Alternative};
    ghost use Rattle.hz_description_model.specs.Reservations.Automata.{UnitPlace};
    ghost use Rattle.hz_description_model.specs.Reservations.Limits.{size_limit};

    ghost Value = { List (Alternative UnitPlace) };

    ghost view = { λ listing. alternatives listing.alts.items };

    ghost invariant = { λ listing. (listing.size ≡ total_weight (alternatives listing.alts.items)) × (listing.size ≤ size_limit) };
}

impl Listing {
    ghost use Rattle.std.specs.Prelude.{◌≡◌, ◌<◌, ◌≤◌, ◌++◌, ◌∷◌, [], All, List, Err, IfOk, IfErr, OnOk};
    ghost use Rattle.hz_altern.specs.declared.fault.AlternFault.TheVariants.{SizeLimit};
    ghost use Rattle.hz_altern.specs.Shapes.{alternatives, alternative_of};
    ghost use Rattle.hz_altern.specs.Answers.{Refuses, weight, total_weight};
    ghost use Rattle.hz_altern.specs.Joinings.{IsListed, joined_by};
    ghost use Rattle.hz_altern.specs.declared.listing.joining.Joining.TheVariants.{InSequence};
    ghost use Rattle.hz_description_model.specs.Reservations.Alternatives.{each_choice};
    ghost use Rattle.hz_base_model.specs.Limits.{cycle_limit};
    ghost use Rattle.hz_description_model.specs.Reservations.Limits.{size_limit};

    /// No alternative.
    pub fn new(alloc: Global) -> Listing
        ensures { result ≡ [] }
    {
        Listing {
            alts: Vec::new(alloc),
            size: 0,
        }
    }

    /// Adds an alternative at the end, where all together are no larger than `most`.
    pub fn push(&mut self, alt: Alt, most: usize) -> Result<(), AlternFault>
        requires most { most ≤ size_limit }
        ensures ok { OnOk result (self.new ≡ self.old ++ alternative_of alt ∷ []) }
        ensures small { OnOk result (total_weight self.new ≤ most) }
        ensures err { IfErr result (Refuses most (self.old ++ alternative_of alt ∷ [])) }
    {
        let size = self.size + alt.length as usize + alt.pairs.len();
        if size > most {
            return Err(AlternFault::SizeLimit);
        }
        self.alts.push(alt)?;
        self.size = size;
        Ok(())
    }

    /// Adds an equal alternative at the end, where all together are no larger than `most`. That is asked before memory is.
    pub fn push_copy(&mut self, alloc: Global, alt: &Alt, most: usize) -> Result<(), AlternFault>
        requires most { most ≤ size_limit }
        ensures ok { OnOk result (self.new ≡ self.old ++ alternative_of alt.now ∷ []) }
        ensures small { OnOk result (total_weight self.new ≤ most) }
        ensures err { IfErr result (Refuses most (self.old ++ alternative_of alt.now ∷ [])) }
        ensures asked { most < total_weight (self.old ++ alternative_of alt.now ∷ []) → result ≡ Err SizeLimit }
    {
        let size = self.size + alt.length as usize + alt.pairs.len();
        if size > most {
            return Err(AlternFault::SizeLimit);
        }
        self.alts.push(alt.copy(alloc)?)?;
        self.size = size;
        Ok(())
    }

    /// Adds two alternatives as one at the end, where all together are no larger than `most`. That is asked before memory
    /// is.
    pub fn push_joined(
        &mut self,
        alloc: Global,
        joining: Joining,
        first: &Alt,
        second: &Alt,
        most: usize,
    ) -> Result<(), AlternFault>
        requires first { IsListed (alternative_of first.now) }
        requires second { IsListed (alternative_of second.now) }
        requires first_small { weight (alternative_of first.now) ≤ size_limit }
        requires second_small { weight (alternative_of second.now) ≤ size_limit }
        requires short { (joined_by joining (alternative_of first.now) (alternative_of second.now)).cycles ≤ cycle_limit }
        requires most { most ≤ size_limit }
        ensures ok { OnOk result (self.new ≡ self.old ++ joined_by joining (alternative_of first.now) (alternative_of second.now) ∷ []) }
        ensures small { OnOk result (total_weight self.new ≤ most) }
        ensures err { IfErr result (Refuses most (self.old ++ joined_by joining (alternative_of first.now) (alternative_of second.now) ∷ [])) }
        ensures asked { most < total_weight (self.old ++ joined_by joining (alternative_of first.now) (alternative_of second.now) ∷ []) → result ≡ Err SizeLimit }
    {
        let size = self.size + joined_size(joining, first, second);
        if size > most {
            return Err(AlternFault::SizeLimit);
        }
        self.alts.push(joined(alloc, joining, first, second)?)?;
        self.size = size;
        Ok(())
    }

    /// How many cycles and pairs the alternatives have together.
    pub fn size(&self) -> usize
        ensures { result ≡ total_weight self.now }
    {
        self.size
    }

    /// How large the alternatives are together, each followed by each of others.
    pub fn size_before(&self, others: &Listing) -> usize
        requires each { All IsListed self.now }
        requires others { All IsListed others.now }
        ensures { result ≡ total_weight (each_choice (joined_by InSequence) self.now others.now) }
    {
        self.size * others.alts.len() + others.size * self.alts.len()
    }

    /// The alternatives, and after them others, where all together are no larger than `most`.
    pub fn with(self, others: Listing, most: usize) -> Result<Listing, AlternFault>
        requires most { most ≤ size_limit }
        ensures ok { IfOk result (λ listing. listing ≡ self ++ others) }
        ensures small { IfOk result (λ listing. total_weight listing ≤ most) }
        ensures err { IfErr result (Refuses most (self ++ others)) }
    {
        let Listing { mut alts, size } = self;
        let Listing {
            alts: mut beyond,
            size: more,
        } = others;
        let size = size + more;
        if size > most {
            return Err(AlternFault::SizeLimit);
        }
        alts.append(&mut beyond)?;
        Ok(Listing { alts, size })
    }

    /// The alternatives, without taking memory.
    pub fn as_slice(&self) -> &[Alt]
        ensures alts { alternatives result.now ≡ self.now }
        ensures small { total_weight self.now ≤ size_limit }
    {
        self.alts.as_slice()
    }

    /// The alternatives.
    pub fn into_alts(self) -> Vec<Alt>
        ensures alts { alternatives result.items ≡ self }
        ensures small { total_weight self ≤ size_limit }
    {
        let Listing { alts, size: _ } = self;
        alts
    }
}
