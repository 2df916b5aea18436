//! Which automata of two machines belong together, by their names. No contract says more of a group than that it is there: any
//! grouping will do.

ghost use Rattle.std.specs.Prelude.{◌≡◌, ◌<◌, ◌≤◌, ◌+◌, length, All, IfOk};
ghost use Rattle.hz_base_model.specs.Limits.{automaton_limit};

use hz_tables::{NoMemory, Part};
use std::alloc::Global;

// The front of a name up to its first dot, or the whole name.
fn stem(name: &[u8]) -> &[u8] {
    for (place, byte) in name.iter().enumerate() {
        if *byte == b'.' {
            return &name[..place];
        }
    }
    name
}

// Whether a part has this name.
fn has_name(parts: &[Part], name: &[u8]) -> bool {
    for part in parts {
        if part.name.bytes() == name {
            return true;
        }
    }
    false
}

// What an automaton goes by: its name, if the other machine has it too, else the front of it up to a dot.
fn key<'a>(part: &'a Part, others: &[Part]) -> &'a [u8] {
    let name = part.name.bytes();
    if has_name(others, name) {
        name
    } else {
        stem(name)
    }
}

// The place of the first automaton that goes by this key; as many as there are if none does.
fn place_of(parts: &[Part], others: &[Part], wanted: &[u8]) -> u32
    requires { length parts.now ≤ automaton_limit }
    ensures { result ≤ length parts.now }
{
    for (place, part) in parts.iter().enumerate() {
        if key(part, others) == wanted {
            return place as u32;
        }
    }
    parts.len() as u32
}

// The group of an automaton of the first machine: the first one that goes by the same key, if one of the second does; else the last
// group.
fn first_group(first: &[Part], second: &[Part], part: &Part) -> u32
    requires few { length first.now ≤ automaton_limit }
    requires few_others { length second.now ≤ automaton_limit }
    ensures { result < length first.now + 1 }
{
    let wanted = key(part, second);
    if place_of(second, first, wanted) as usize == second.len() {
        return first.len() as u32;
    }
    place_of(first, second, wanted)
}

/// The groups of the automata of the first machine.
pub(crate) fn first_groups(
    alloc: Global,
    first: &[Part],
    second: &[Part],
) -> Result<Vec<u32>, NoMemory>
    requires few { length first.now ≤ automaton_limit }
    requires few_others { length second.now ≤ automaton_limit }
    ensures long { IfOk result (λ groups. length groups.items ≡ length first.now) }
    ensures low { IfOk result (λ groups. All (λ group. group < length first.now + 1) groups.items) }
{
    let mut groups = Vec::with_capacity(alloc, first.len())?;
    for part in first {
        groups.push(first_group(first, second, part))?;
    }
    Ok(groups)
}

/// The groups of the automata of the second machine.
pub(crate) fn second_groups(
    alloc: Global,
    first: &[Part],
    second: &[Part],
) -> Result<Vec<u32>, NoMemory>
    requires few { length first.now ≤ automaton_limit }
    ensures long { IfOk result (λ groups. length groups.items ≡ length second.now) }
    ensures low { IfOk result (λ groups. All (λ group. group < length first.now + 1) groups.items) }
{
    let mut groups = Vec::with_capacity(alloc, second.len())?;
    for part in second {
        groups.push(place_of(first, second, key(part, first)))?;
    }
    Ok(groups)
}
