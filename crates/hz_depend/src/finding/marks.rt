//! Lists of places in a block, and marks at them. Each place has a stamp, and is marked in the turn that has this stamp.

ghost use Rattle.std.specs.Prelude.{◌≡◌, OnOk};
ghost use Rattle.hz_depend.specs.Noted as noted;
ghost use Rattle.hz_depend.specs.Marks as model;
ghost use Rattle.hz_depend.specs.Marks.{marked, below};

use hz_regexp::NoMemory;

/// Whether a list ends with a place.
fn ends_with(list: &[u32], place: u32) -> bool
    ensures { result ≡ noted.ends_with list.now place }
{
    match list.last() {
        Some(last) => *last == place,
        None => false,
    }
}

/// Adds a place to a list, unless it ends with that.
pub fn put(list: &mut Vec<u32>, place: u32) -> Result<(), NoMemory>
    ensures { OnOk result (list.new.items ≡ noted.put list.old.items place) }
{
    if !ends_with(list, place) {
        list.push(place)?;
    }
    Ok(())
}

/// Marks a place, if there is one.
fn mark_one(stamps: &mut [u32], stamp: u32, place: u32)
    ensures { stamps.new ≡ model.mark_one stamps.old stamp place }
{
    let at = place as usize;
    if at < stamps.len() {
        stamps[at] = stamp;
    }
}

/// Marks places.
pub fn mark(stamps: &mut [u32], stamp: u32, places: &[u32])
    ensures { stamps.new ≡ marked stamps.old stamp places.now }
{
    for place in places {
        mark_one(stamps, stamp, *place);
    }
}

/// Marks the places before the first that isn't below an end.
pub fn mark_below(stamps: &mut [u32], stamp: u32, places: &[u32], end: u32)
    ensures { stamps.new ≡ marked stamps.old stamp (below end places.now) }
{
    for place in places {
        if *place >= end {
            return;
        }
        mark_one(stamps, stamp, *place);
    }
}

/// Marks the place before another.
pub fn mark_before(stamps: &mut [u32], stamp: u32, after: u32)
    ensures { stamps.new ≡ marked stamps.old stamp (model.place_before after) }
{
    if after > 0 {
        mark_one(stamps, stamp, after - 1);
    }
}
