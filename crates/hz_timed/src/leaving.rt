//! The state that is left, by all that was written.

ghost use Rattle.std.specs.Prelude.{◌≡◌, [], ◌∷◌, map, IfOk};
ghost use Rattle.hz_block_model.specs.Running.States as model;
ghost use Rattle.hz_rtl.specs.Shape.{target, effect, instruction, instructions};
ghost use Rattle.hz_rtl.specs.States.{words};
ghost use Rattle.hz_timed.specs.Leaving.{target_of, effect_of, stored_by};

use crate::parts::Source;
use crate::write::Write;
use hz_regexp::NoMemory;
use hz_rtl::{Block, Effect, Insn, Place, State, Value, eval};
use std::alloc::Global;

/// A register or a cell, as where an effect stores.
fn target_of(what: Source) -> Place
    ensures { target result ≡ target_of what }
{
    match what {
        Source::Reg(number) => Place::Reg(number),
        Source::Cell(address) => Place::Mem(Value::Const(address)),
    }
}

/// The effect that stores what was written.
fn effect_of(write: &Write) -> Effect
    ensures { effect result ≡ effect_of write.now }
{
    Effect::Set(target_of(write.what), Value::Const(write.word))
}

/// The effects that store all that was written.
fn effects_of(alloc: Global, writes: &[Write]) -> Result<Vec<Effect>, NoMemory>
    ensures { IfOk result (λ effects. map effect effects.items ≡ map effect_of writes.now) }
{
    let mut effects = Vec::new(alloc);
    for write in writes {
        effects.push(effect_of(write))?;
    }
    Ok(effects)
}

/// The block of one instruction that has these effects.
fn block_of(alloc: Global, effects: Vec<Effect>) -> Result<Block, NoMemory>
    ensures { IfOk result (λ block. instructions block ≡ record { number = 0; line = 1; effects = map effect effects.items; attributes = [] } ∷ []) }
{
    let mut insns = Vec::new(alloc);
    insns.push(Insn {
        number: 0,
        line: 1,
        effects,
        attrs: Vec::new(alloc),
    })?;
    Ok(Block { insns })
}

/// The state that is left where all of this was written, the first first.
pub fn state_after(alloc: Global, start: &State, writes: &[Write]) -> Result<State, NoMemory>
    ensures { IfOk result (λ state. words state ≡ model.all_stored (words start.now) (map stored_by writes.now)) }
{
    let effects = effects_of(alloc, writes)?;
    let block = block_of(alloc, effects)?;
    eval(alloc, &block, &[0], start)
}
