//! What instructions make of a state.

ghost use Rattle.std.specs.Prelude.{◌≡◌, ◌<◌, length, map, All, IfOk};
ghost use Rattle.std.specs.Option.{option_map, option_to_list};
ghost use Rattle.hz_block_model.specs.Running.States as model;
ghost use Rattle.hz_rtl.specs.Shape.{value, target, effect, instruction, instructions};
ghost use Rattle.hz_rtl.specs.States.{words};
ghost use Rattle.hz_rtl.specs.Stores.{place, store};

use crate::block::{Block, Effect, Insn, Place, Value};
use crate::running::apply::{binary_word, unary_word};
use crate::running::store::{Spot, Store};
use crate::state::State;
use hz_regexp::NoMemory;
use std::alloc::Global;

/// The word that a value is in a state.
fn value_in(state: &State, from: &Value) -> u64
    ensures { result ≡ model.value_in (words state.now) (value from.now) }
{
    match from {
        Value::Reg(number) => state.word(Spot::Register(*number)),
        Value::Const(word) => *word,
        Value::Mem(address) => state.word(Spot::Cell(value_in(state, address))),
        Value::Unary(operator, operand) => unary_word(*operator, value_in(state, operand)),
        Value::Binary(operator, left, right) => {
            binary_word(*operator, value_in(state, left), value_in(state, right))
        }
        Value::Choice(test, first, second) => {
            if value_in(state, test) == 0 {
                value_in(state, second)
            } else {
                value_in(state, first)
            }
        }
    }
}

/// The register or cell that a place is in a state.
fn spot_in(state: &State, to: &Place) -> Spot
    ensures { place result ≡ model.place_in (words state.now) (target to.now) }
{
    match to {
        Place::Reg(number) => Spot::Register(*number),
        Place::Mem(address) => Spot::Cell(value_in(state, address)),
    }
}

/// What an effect of the instruction of this number stores, if it stores.
fn store_of(state: &State, number: u32, made: &Effect) -> Option<Store>
    ensures { option_to_list (option_map store result) ≡ model.stores_of_effect (words state.now) number (effect made.now) }
{
    match made {
        Effect::Set(to, from) => Some(Store {
            spot: spot_in(state, to),
            word: value_in(state, from),
        }),
        Effect::Clobber(to) => Some(Store {
            spot: spot_in(state, to),
            word: number as u64,
        }),
        Effect::Use(_) => None,
    }
}

/// What an instruction stores, all of it computed in one state.
fn stores_of(alloc: Global, state: &State, insn: &Insn) -> Result<Vec<Store>, NoMemory>
    ensures { IfOk result (λ stores. map store stores.items ≡ model.stores_of (instruction insn.now) (words state.now)) }
{
    let mut stores = Vec::new(alloc);
    for effect in &insn.effects {
        if let Some(store) = store_of(state, insn.number, effect) {
            stores.push(store)?;
        }
    }
    Ok(stores)
}

/// The state after stores from left to right.
pub fn all_stored(state: State, stores: &[Store]) -> Result<State, NoMemory>
    ensures { IfOk result (λ after. words after ≡ model.all_stored (words state) (map store stores.now)) }
{
    let mut state = state;
    for store in stores {
        state = state.put(*store)?;
    }
    Ok(state)
}

/// The state that the instructions at the places of an order leave, one after the other: in one instruction all values and
/// addresses are computed in the old state, then the effects are made from left to right. GCC Internals, 'Side Effect
/// Expressions'; this profile, docs/RULES.md, 'Blocks'.
pub fn eval(alloc: Global, block: &Block, order: &[u32], state: &State) -> Result<State, NoMemory>
    requires { All (λ number. number < length block.now.insns.items) order.now }
    ensures { IfOk result (λ after. words after ≡ model.run (instructions block.now) order.now (words state.now)) }
{
    let mut now = state.copy()?;
    for number in order {
        let stores = stores_of(alloc, &now, &block.insns[*number as usize])?;
        now = all_stored(now, &stores)?;
    }
    Ok(now)
}
