//! Places in a block by cells.

ghost use Rattle.std.specs.Prelude.{◌≡◌, ◌%◌, false, [], ◌∷◌, if◌then◌else◌, length, slice_index, IfOk, OnOk};
ghost use Rattle.std.specs.List.{flat_map};
ghost use Rattle.std.specs.Option.{option_map};
ghost use Rattle.hz_block_model.specs.Running.Operators.{word_count};
ghost use Rattle.hz_depend.specs.Cells.{based, cells};
ghost use Rattle.hz_depend.specs.Noted as model;
ghost use Rattle.hz_depend.specs.Noted.{Key, IsEmpty, HasMore, put_all, same_key, cell_candidates};
ghost use Rattle.hz_depend.specs.Marks.{marked};
ghost use Rattle.hz_depend.specs.Tables.{places_at, cell_places};

use crate::finding::access::Based;
use crate::finding::by_register::ByRegister;
use crate::finding::marks::{mark, put};
use crate::finding::pairs::after;
use hz_regexp::NoMemory;
use std::alloc::Global;
use std::collections::BTreeMap;

/// For each base register with a constant some places, in the order in which they were added.
#[derive(Drop)]
pub struct ByKey {
    alloc: Global,
    places: BTreeMap<(u8, u64), Vec<u32>>,
}

/// A key of a base and a constant.
fn key_by(base: u8, offset: u64) -> (u8, u64)
    ensures { result ≡ (base, offset % word_count) }
{
    (base, offset)
}

/// The key of a cell with a base.
fn key_of(cell: &Based) -> (u8, u64)
    ensures { result ≡ model.key_of (based cell.now) }
{
    key_by(cell.base, cell.offset)
}

impl ByKey {
    /// No place for any key. It takes no memory.
    fn new(alloc: Global) -> ByKey
        ensures { (k : Key) → places_at result k ≡ [] }
    {
        ByKey {
            alloc,
            places: BTreeMap::new(alloc),
        }
    }

    /// Takes out the places of a key.
    fn take(&mut self, key: (u8, u64)) -> Vec<u32>
        ensures taken { result.items ≡ places_at self.old key }
        ensures others { (k : Key) → same_key key k ≡ false → places_at self.new k ≡ places_at self.old k }
    {
        match self.places.remove(&key) {
            Some(places) => places,
            None => Vec::new(self.alloc),
        }
    }

    /// Adds a place for a key, unless it was the last one added for it.
    fn add(&mut self, key: (u8, u64), place: u32) -> Result<(), NoMemory>
        ensures { OnOk result ((k : Key) → places_at self.new k ≡ put_all (places_at self.old k) (if same_key key k then place ∷ [] else [])) }
    {
        let mut places = self.take(key);
        put(&mut places, place)?;
        self.places.insert(key, places)?;
        Ok(())
    }

    /// The places of a key.
    fn at(&self, key: (u8, u64)) -> &[u32]
        ensures { result.now ≡ places_at self.now key }
    {
        match self.places.get(&key) {
            Some(places) => places.as_slice(),
            None => &[],
        }
    }
}

/// The places of instructions by the cells that they touch.
#[derive(Drop)]
pub struct ByCell {
    /// For cells without a base.
    unknown: Vec<u32>,
    /// For cells with a base, by that.
    bases: ByRegister,
    /// For cells with a base, by that and the constant.
    keys: ByKey,
}

impl ByCell {
    /// No place.
    pub fn new(alloc: Global) -> Result<ByCell, NoMemory>
        ensures { IfOk result (λ made. IsEmpty (cell_places made)) }
    {
        Ok(ByCell {
            unknown: Vec::new(alloc),
            bases: ByRegister::new(alloc)?,
            keys: ByKey::new(alloc),
        })
    }

    /// Adds a place for a cell.
    fn add(&mut self, cell: &Option<Based>, place: u32) -> Result<(), NoMemory>
        ensures { OnOk result (HasMore place (option_map based cell.now ∷ []) (cell_places self.old) (cell_places self.new)) }
    {
        match cell {
            None => put(&mut self.unknown, place)?,
            Some(known) => {
                self.bases.add(known.base, place)?;
                self.keys.add(key_of(known), place)?;
            }
        }
        Ok(())
    }

    /// Adds a place for each of some cells.
    #[tactic(auto, using(crate::proofs::NotedLemmas::put_append))]
    pub fn add_all(&mut self, touched: &[Option<Based>], place: u32) -> Result<(), NoMemory>
        ensures { OnOk result (HasMore place (cells touched.now) (cell_places self.old) (cell_places self.new)) }
    {
        for cell in touched {
            self.add(cell, place)?;
        }
        Ok(())
    }

    /// Marks the places of cells that aren't apart from one with a base: those of other bases, those that were touched before
    /// the base was last written, and those of the same constant.
    #[tactic(auto, using(crate::proofs::MarkLemmas::marked_append))]
    fn mark_known(&self, stamps: &mut [u32], stamp: u32, last: &[u32], cell: &Based)
        requires { length last.now ≡ 256 }
        ensures { stamps.new ≡ marked stamps.old stamp (model.known_candidates (cell_places self.now) (slice_index last.now) (based cell.now)) }
    {
        self.bases.mark_others(stamps, stamp, cell.base);
        let end = after(last, cell.base);
        self.bases.mark_below(stamps, stamp, cell.base, end);
        mark(stamps, stamp, self.keys.at(key_of(cell)));
    }

    /// Marks the places of cells that aren't apart from one.
    #[tactic(auto, using(crate::proofs::MarkLemmas::marked_append))]
    fn mark(&self, stamps: &mut [u32], stamp: u32, last: &[u32], cell: &Option<Based>)
        requires { length last.now ≡ 256 }
        ensures { stamps.new ≡ marked stamps.old stamp (cell_candidates (cell_places self.now) (slice_index last.now) (option_map based cell.now)) }
    {
        mark(stamps, stamp, &self.unknown);
        match cell {
            None => self.bases.mark_all(stamps, stamp),
            Some(known) => self.mark_known(stamps, stamp, last, known),
        }
    }

    /// Marks the places of cells that aren't apart from each of some.
    #[tactic(auto, using(crate::proofs::MarkLemmas::marked_append))]
    pub fn mark_all(&self, stamps: &mut [u32], stamp: u32, last: &[u32], touched: &[Option<Based>])
        requires { length last.now ≡ 256 }
        ensures { stamps.new ≡ marked stamps.old stamp (flat_map (cell_candidates (cell_places self.now) (slice_index last.now)) (cells touched.now)) }
    {
        for cell in touched {
            self.mark(stamps, stamp, last, cell);
        }
    }
}
