//! A list for each place.

ghost use Rattle.std.specs.Prelude.{◌≡◌, ◌<◌, ◌≤◌, ℕ, [], IfOk, OnOk, length, vec_len};
ghost use Rattle.hz_minim.specs.Lists.{lists_of, list_at, added};

use hz_tables::NoMemory;
use std::alloc::Global;

/// Adds empty lists after the others, until there are so many.
pub fn grow<T: Drop>(alloc: Global, lists: &mut Vec<Vec<T>>, count: usize) -> Result<(), NoMemory>
    requires { vec_len lists.old ≤ count }
    ensures size { OnOk result (vec_len lists.new ≡ count) }
    ensures same { OnOk result ((place : ℕ) → list_at (lists_of lists.new.items) place ≡ list_at (lists_of lists.old.items) place) }
{
    while lists.len() < count {
        lists.push(Vec::new(alloc))?;
    }
    Ok(())
}

/// So many empty lists.
pub fn empty_lists<T: Drop>(alloc: Global, count: usize) -> Result<Vec<Vec<T>>, NoMemory>
    ensures size { IfOk result (λ lists. vec_len lists ≡ count) }
    ensures empty { IfOk result (λ lists. (place : ℕ) → list_at (lists_of lists.items) place ≡ []) }
{
    let mut lists = Vec::with_capacity(alloc, count)?;
    grow(alloc, &mut lists, count)?;
    Ok(lists)
}

/// Empty lists, each with room for so many items.
pub fn roomy_lists<T: Drop>(alloc: Global, rooms: &[u32]) -> Result<Vec<Vec<T>>, NoMemory>
    ensures size { IfOk result (λ lists. vec_len lists ≡ length rooms.now) }
    ensures empty { IfOk result (λ lists. (place : ℕ) → list_at (lists_of lists.items) place ≡ []) }
{
    let mut lists = Vec::with_capacity(alloc, rooms.len())?;
    for room in rooms {
        lists.push(Vec::with_capacity(alloc, *room as usize)?)?;
    }
    Ok(lists)
}

/// The list of a place, which is empty where there is none.
pub fn at<T>(lists: &[Vec<T>], place: u32) -> &[T]
    ensures { result.now ≡ list_at (lists_of lists.now) place }
{
    match lists.get(place as usize) {
        Some(list) => list.as_slice(),
        None => &[],
    }
}

/// Adds an item to the list of a place.
pub fn add<T: Drop>(lists: &mut Vec<Vec<T>>, place: u32, item: T) -> Result<(), NoMemory>
    requires { place < vec_len lists.old }
    ensures { OnOk result (lists_of lists.new.items ≡ added place item (lists_of lists.old.items)) }
{
    lists[place as usize].push(item)?;
    Ok(())
}

/// Empties each list.
pub fn clear_all<T: Drop>(lists: &mut Vec<Vec<T>>)
    ensures size { vec_len lists.new ≡ vec_len lists.old }
    ensures empty { (place : ℕ) → list_at (lists_of lists.new.items) place ≡ [] }
{
    for list in lists.iter_mut() {
        list.clear();
    }
}
