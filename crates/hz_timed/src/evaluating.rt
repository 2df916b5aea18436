//! What an instruction computes of what it sees, and what it asks for.

ghost use Rattle.std.specs.Prelude.{◌≡◌, ◌++◌, ◌∷◌, [], map, IfOk, OnOk};
ghost use Rattle.std.specs.Option.{option_map, option_to_list};
ghost use Rattle.hz_block_model.specs.Running.States as model;
ghost use Rattle.hz_block_model.specs.Dependences.Accesses.{registers_in, values_of_effect, values_of_target, values_of};
ghost use Rattle.hz_rtl.specs.Shape.{value, target, effect, instruction};
ghost use Rattle.hz_timed.specs.Shape.{place_of};
ghost use Rattle.hz_timed.specs.Asking.{cells_asked, store_of, Adds};

use crate::operators::{binary_word, unary_word};
use crate::parts::Source;
use hz_regexp::NoMemory;
use hz_rtl::{Effect, Insn, Place, Value};
use std::alloc::Global;

/// What an instruction sees: a word in each register and cell. `seen` is the state of these words, and `sees` what is asked for it.
pub trait Sight {
    ghost use Rattle.std.specs.Prelude.{◌≡◌};
    ghost use Rattle.hz_block_model.specs.Running.States.{State};
    ghost use Rattle.hz_timed.specs.Shape.{place_of};

    ghost seen: { Self → State };

    ghost sees: { Self → Type 0 };

    /// The word in a register or a cell.
    fn word(&self, what: Source) -> u64
        requires { sees self.now }
        ensures { result ≡ seen self.now (place_of what) };
}

/// The registers and the cells that were asked for.
#[derive(Drop)]
pub struct Asked {
    pub registers: Vec<u8>,
    pub cells: Vec<u64>,
}

/// A word that is stored in a register or a cell.
#[derive(Clone, Copy)]
pub struct Kept {
    pub what: Source,
    pub word: u64,
}

/// Adds what is stored, if it is.
fn push_kept(stores: &mut Vec<Kept>, kept: Option<Kept>) -> Result<(), NoMemory>
    ensures { OnOk result (map store_of stores.new.items ≡ map store_of stores.old.items ++ option_to_list (option_map store_of kept)) }
{
    if let Some(kept) = kept {
        stores.push(kept)?;
    }
    Ok(())
}

/// The word that a value is. All operands are computed, and what is asked for is added.
fn word_of<S: Sight>(sight: &S, asked: &mut Asked, from: &Value) -> Result<u64, NoMemory>
    requires { S.sees sight.now }
    ensures word { IfOk result (λ word. word ≡ model.value_in (S.seen sight.now) (value from.now)) }
    ensures registers { IfOk result (λ _. asked.new.registers.items ≡ asked.old.registers.items ++ registers_in (value from.now)) }
    ensures cells { IfOk result (λ _. asked.new.cells.items ≡ asked.old.cells.items ++ cells_asked (S.seen sight.now) (value from.now)) }
{
    match from {
        Value::Reg(number) => {
            asked.registers.push(*number)?;
            Ok(sight.word(Source::Reg(*number)))
        }
        Value::Const(word) => Ok(*word),
        Value::Mem(address) => {
            let cell = word_of(sight, asked, address)?;
            asked.cells.push(cell)?;
            Ok(sight.word(Source::Cell(cell)))
        }
        Value::Unary(operator, operand) => {
            let word = word_of(sight, asked, operand)?;
            Ok(unary_word(*operator, word))
        }
        Value::Binary(operator, left, right) => {
            let first = word_of(sight, asked, left)?;
            let second = word_of(sight, asked, right)?;
            Ok(binary_word(*operator, first, second))
        }
        Value::Choice(test, first, second) => {
            let test = word_of(sight, asked, test)?;
            let first = word_of(sight, asked, first)?;
            let second = word_of(sight, asked, second)?;
            Ok(if test == 0 { second } else { first })
        }
    }
}

/// The register or cell that a place is.
fn source_of<S: Sight>(sight: &S, asked: &mut Asked, to: &Place) -> Result<Source, NoMemory>
    requires { S.sees sight.now }
    ensures place { IfOk result (λ what. place_of what ≡ model.place_in (S.seen sight.now) (target to.now)) }
    ensures asked { IfOk result (λ _. Adds (S.seen sight.now) (values_of_target (target to.now)) asked.old asked.new) }
{
    match to {
        Place::Reg(number) => Ok(Source::Reg(*number)),
        Place::Mem(address) => Ok(Source::Cell(word_of(sight, asked, address)?)),
    }
}

/// What an effect of the instruction of this number stores, if it stores.
fn store_of<S: Sight>(
    sight: &S,
    asked: &mut Asked,
    number: u32,
    made: &Effect,
) -> Result<Option<Kept>, NoMemory>
    requires { S.sees sight.now }
    ensures store { IfOk result (λ kept. option_to_list (option_map store_of kept) ≡ model.stores_of_effect (S.seen sight.now) number (effect made.now)) }
    ensures asked { IfOk result (λ _. Adds (S.seen sight.now) (values_of_effect (effect made.now)) asked.old asked.new) }
{
    match made {
        Effect::Set(to, from) => {
            let word = word_of(sight, asked, from)?;
            let what = source_of(sight, asked, to)?;
            Ok(Some(Kept { what, word }))
        }
        Effect::Clobber(to) => {
            let what = source_of(sight, asked, to)?;
            let word = number as u64;
            let clobbered = Kept { what, word };
            Ok(Some(clobbered))
        }
        Effect::Use(from) => {
            word_of(sight, asked, from)?;
            Ok(None)
        }
    }
}

/// What an instruction stores.
pub fn stores_of<S: Sight>(
    alloc: Global,
    sight: &S,
    asked: &mut Asked,
    insn: &Insn,
) -> Result<Vec<Kept>, NoMemory>
    requires { S.sees sight.now }
    ensures stores { IfOk result (λ stores. map store_of stores.items ≡ model.stores_of (instruction insn.now) (S.seen sight.now)) }
    ensures asked { IfOk result (λ _. Adds (S.seen sight.now) (values_of (instruction insn.now)) asked.old asked.new) }
{
    let mut stores = Vec::new(alloc);
    for effect in &insn.effects {
        let kept = store_of(sight, asked, insn.number, effect)?;
        push_kept(&mut stores, kept)?;
    }
    Ok(stores)
}
