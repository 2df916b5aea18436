//! Copies of a block in a row.

ghost use Rattle.std.specs.Prelude.{◌≡◌, ◌+◌, ◌++◌, map, length, IfOk, OnOk};
ghost use Rattle.std.specs.List.{repeat};
ghost use Rattle.hz_rtl.specs.Shape.{value, target, effect, instruction, instructions};

use hz_regexp::{Name, NoMemory};
use hz_rtl::{Block, Effect, Insn, Place, Value};
use std::alloc::Global;

/// How many turns tell all costs: docs/RULES.md, 'Kernels of loops'.
const TURNS: usize = 3;

/// An equal value in a box.
#[cycle(copy_value)]
fn copy_boxed(alloc: Global, from: &Value) -> Result<Box<Value>, NoMemory>
    ensures { IfOk result (λ made. value made.value ≡ value from.now) }
{
    let made = copy_value(alloc, from)?;
    Ok(Box::new(alloc, made)?)
}

/// An equal value.
#[cycle(copy_value)]
fn copy_value(alloc: Global, from: &Value) -> Result<Value, NoMemory>
    ensures { IfOk result (λ made. value made ≡ value from.now) }
{
    match from {
        Value::Reg(number) => Ok(Value::Reg(*number)),
        Value::Const(word) => Ok(Value::Const(*word)),
        Value::Mem(address) => Ok(Value::Mem(copy_boxed(alloc, address)?)),
        Value::Unary(operator, operand) => {
            Ok(Value::Unary(*operator, copy_boxed(alloc, operand)?))
        }
        Value::Binary(operator, left, right) => {
            let left = copy_boxed(alloc, left)?;
            let right = copy_boxed(alloc, right)?;
            Ok(Value::Binary(*operator, left, right))
        }
        Value::Choice(test, first, second) => {
            let test = copy_boxed(alloc, test)?;
            let first = copy_boxed(alloc, first)?;
            let second = copy_boxed(alloc, second)?;
            Ok(Value::Choice(test, first, second))
        }
    }
}

/// An equal place.
fn copy_place(alloc: Global, from: &Place) -> Result<Place, NoMemory>
    ensures { IfOk result (λ made. target made ≡ target from.now) }
{
    match from {
        Place::Reg(number) => Ok(Place::Reg(*number)),
        Place::Mem(address) => Ok(Place::Mem(copy_value(alloc, address)?)),
    }
}

/// An equal effect.
fn copy_effect(alloc: Global, from: &Effect) -> Result<Effect, NoMemory>
    ensures { IfOk result (λ made. effect made ≡ effect from.now) }
{
    match from {
        Effect::Set(place, value) => {
            let place = copy_place(alloc, place)?;
            Ok(Effect::Set(place, copy_value(alloc, value)?))
        }
        Effect::Clobber(place) => Ok(Effect::Clobber(copy_place(alloc, place)?)),
        Effect::Use(value) => Ok(Effect::Use(copy_value(alloc, value)?)),
    }
}

/// Equal effects.
fn copy_effects(alloc: Global, from: &[Effect]) -> Result<Vec<Effect>, NoMemory>
    ensures { IfOk result (λ made. map effect made.items ≡ map effect from.now) }
{
    let mut effects = Vec::new(alloc);
    for each in from {
        effects.push(copy_effect(alloc, each)?)?;
    }
    Ok(effects)
}

/// Equal attributes.
fn copy_attributes(alloc: Global, from: &[(Name, Name)]) -> Result<Vec<(Name, Name)>, NoMemory>
    ensures { IfOk result (λ made. made.items ≡ from.now) }
{
    let mut attributes = Vec::new(alloc);
    for (name, value) in from {
        let name = name.copy()?;
        attributes.push((name, value.copy()?))?;
    }
    Ok(attributes)
}

/// An equal instruction.
fn copy_insn(alloc: Global, from: &Insn) -> Result<Insn, NoMemory>
    ensures { IfOk result (λ made. instruction made ≡ instruction from.now) }
{
    let effects = copy_effects(alloc, &from.effects)?;
    let attrs = copy_attributes(alloc, &from.attrs)?;
    Ok(Insn {
        number: from.number,
        line: from.line,
        effects,
        attrs,
    })
}

/// Adds a copy of each instruction.
fn add_copies(alloc: Global, insns: &mut Vec<Insn>, from: &[Insn]) -> Result<(), NoMemory>
    ensures copied { OnOk result (map instruction insns.new.items ≡ map instruction insns.old.items ++ map instruction from.now) }
{
    for insn in from {
        insns.push(copy_insn(alloc, insn)?)?;
    }
    Ok(())
}

/// Three copies of a block in a row.
pub fn three_times(alloc: Global, block: &Block) -> Result<Block, NoMemory>
    ensures { IfOk result (λ made. instructions made ≡ repeat 3 (instructions block.now)) }
{
    let mut insns = Vec::new(alloc);
    for _turn in 0..TURNS {
        add_copies(alloc, &mut insns, &block.insns)?;
    }
    Ok(Block { insns })
}
