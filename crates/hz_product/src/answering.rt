//! What the first of two machines answers to the last symbol of a trace.

ghost use Rattle.std.specs.Prelude.{◌≡◌, ◌++◌, ◌∷◌, [], ℕ, List, Some, is_some, length, map, replicate, IfOk};
ghost use Rattle.hz_same_model.specs.Common.{common_of, event_at};
ghost use Rattle.hz_same_model.specs.Telling.{TellsApart, answer_in};
ghost use Rattle.hz_tables.specs.Machines.{machine_of};
ghost use Rattle.hz_product.specs.Along.{along};
ghost use Rattle.hz_product.specs.Held.{component_of};

use crate::comparing::product_of_machines;
use crate::component::Component;
use crate::moving::add_next;
use crate::states::States;
use hz_tables::{Machine, NoMemory};
use std::alloc::Global;

// The start of each of these automata.
fn starts(alloc: Global, components: &[Component<'_>]) -> Result<States, NoMemory>
    ensures { IfOk result (λ states. states ≡ replicate (length components.now) 0) }
{
    let mut states = States::new(alloc);
    for _component in components {
        states.push(0)?;
    }
    Ok(states)
}

// Whether each of these automata has a next state at each symbol of a word, from its start on.
fn walk(alloc: Global, components: &[Component<'_>], word: &[usize]) -> Result<bool, NoMemory>
    ensures { IfOk result (λ walks. walks ≡ is_some (along (map component_of components.now) (Some (replicate (length components.now) 0)) word.now)) }
{
    let mut states = starts(alloc, components)?;
    let mut next = States::new(alloc);
    for symbol in word {
        next.clear();
        if !add_next(components, states.as_slice(), *symbol, &mut next)? {
            return Ok(false);
        }
        states = next.copy(alloc)?;
    }
    Ok(true)
}

/// What the first of two machines answers to the last symbol of a trace that tells them apart: true where it takes the issue,
/// or where the unit that is asked for is reserved.
pub fn answer_last(
    alloc: Global,
    first: &Machine,
    second: &Machine,
    trace: &[usize],
) -> Result<bool, NoMemory>
    ensures { IfOk result (λ answer. (before : List ℕ) (last : ℕ) (tells : TellsApart (machine_of first.now) (machine_of second.now) before last) → trace.now ≡ before ++ last ∷ [] → answer ≡ answer_in (machine_of first.now) tells.states (event_at (common_of (machine_of first.now) (machine_of second.now)) (machine_of first.now) last)) }
{
    let product = product_of_machines(alloc, first, second)?;
    walk(alloc, &product.first, trace)
}
