//! What instructions read and write.

ghost use Rattle.std.specs.Prelude.{◌≡◌, [], ◌++◌, map, IfOk, OnOk};
ghost use Rattle.std.specs.List.{flat_map};
ghost use Rattle.std.specs.Option.{option_map};
ghost use Rattle.hz_rtl.specs.Shape.{value, target, effect, instruction, binary_operator};
ghost use Rattle.hz_block_model.specs.Dependences.Accesses as model;
ghost use Rattle.hz_depend.specs.Cells.{based, cells};
ghost use Rattle.hz_depend.specs.AccessShape.{IsAccess};

use hz_regexp::NoMemory;
use hz_rtl::{Effect, Insn, Op2, Place, Value};
use std::alloc::Global;

/// An address that is a base register plus a constant.
#[derive(Clone, Copy, Debug, PartialEq, Eq)]
pub struct Based {
    pub base: u8,
    pub offset: u64,
}

/// Registers by their numbers, and cells by their addresses, of which only a base and a constant are kept.
#[derive(Debug, Drop)]
pub struct Touched {
    pub registers: Vec<u8>,
    pub cells: Vec<Option<Based>>,
}

/// What an instruction reads and writes.
#[derive(Debug, Drop)]
pub struct Access {
    pub read: Touched,
    pub written: Touched,
}

/// The register that a value is.
fn plain_register(from: &Value) -> Option<u8>
    ensures { result ≡ model.plain_register (value from.now) }
{
    match from {
        Value::Reg(number) => Some(*number),
        Value::Const(_) => None,
        Value::Mem(_) => None,
        Value::Unary(_, _) => None,
        Value::Binary(_, _, _) => None,
        Value::Choice(_, _, _) => None,
    }
}

/// The constant that a value is.
fn plain_constant(from: &Value) -> Option<u64>
    ensures { result ≡ model.plain_constant (value from.now) }
{
    match from {
        Value::Reg(_) => None,
        Value::Const(word) => Some(*word),
        Value::Mem(_) => None,
        Value::Unary(_, _) => None,
        Value::Binary(_, _, _) => None,
        Value::Choice(_, _, _) => None,
    }
}

/// The sum of a register and a constant.
#[tactic(auto, using(crate::proofs::AccessLemmas::no_sum, crate::proofs::AccessLemmas::no_left, crate::proofs::AccessLemmas::no_right))]
fn sum_of(operator: Op2, left: Option<u8>, right: Option<u64>) -> Option<Based>
    ensures { option_map based result ≡ model.sum_of (binary_operator operator) left right }
{
    if operator != Op2::Plus {
        return None;
    }
    let base = left?;
    let offset = right?;
    Some(Based { base, offset })
}

/// The base and the constant of an address, if it is such a sum.
fn based_of(address: &Value) -> Option<Based>
    ensures { option_map based result ≡ model.based_of (value address.now) }
{
    match address {
        Value::Reg(base) => Some(Based {
            base: *base,
            offset: 0,
        }),
        Value::Const(_) => None,
        Value::Mem(_) => None,
        Value::Unary(_, _) => None,
        Value::Binary(operator, left, right) => {
            sum_of(*operator, plain_register(left), plain_constant(right))
        }
        Value::Choice(_, _, _) => None,
    }
}

impl Touched {
    /// Nothing. It takes no memory.
    fn new(alloc: Global) -> Touched
        ensures registers { result.registers.items ≡ [] }
        ensures cells { result.cells.items ≡ [] }
    {
        Touched {
            registers: Vec::new(alloc),
            cells: Vec::new(alloc),
        }
    }

    /// Adds what a value reads.
    fn read(&mut self, from: &Value) -> Result<(), NoMemory>
        ensures registers { OnOk result (self.new.registers.items ≡ self.old.registers.items ++ model.registers_in (value from.now)) }
        ensures cells { OnOk result (cells self.new.cells.items ≡ cells self.old.cells.items ++ map model.based_of (model.addresses_in (value from.now))) }
    {
        match from {
            Value::Reg(number) => self.registers.push(*number)?,
            Value::Const(_) => {}
            Value::Mem(address) => {
                self.cells.push(based_of(address))?;
                self.read(address)?;
            }
            Value::Unary(_, operand) => self.read(operand)?,
            Value::Binary(_, left, right) => {
                self.read(left)?;
                self.read(right)?;
            }
            Value::Choice(test, first, second) => {
                self.read(test)?;
                self.read(first)?;
                self.read(second)?;
            }
        }
        Ok(())
    }

    /// Adds what the address of a place reads.
    fn read_place(&mut self, place: &Place) -> Result<(), NoMemory>
        ensures registers { OnOk result (self.new.registers.items ≡ self.old.registers.items ++ flat_map model.registers_in (model.values_of_target (target place.now))) }
        ensures cells { OnOk result (cells self.new.cells.items ≡ cells self.old.cells.items ++ map model.based_of (flat_map model.addresses_in (model.values_of_target (target place.now)))) }
    {
        match place {
            Place::Reg(_) => {}
            Place::Mem(address) => self.read(address)?,
        }
        Ok(())
    }

    /// Adds what an effect reads.
    fn read_effect(&mut self, made: &Effect) -> Result<(), NoMemory>
        ensures registers { OnOk result (self.new.registers.items ≡ self.old.registers.items ++ flat_map model.registers_in (model.values_of_effect (effect made.now))) }
        ensures cells { OnOk result (cells self.new.cells.items ≡ cells self.old.cells.items ++ map model.based_of (flat_map model.addresses_in (model.values_of_effect (effect made.now)))) }
    {
        match made {
            Effect::Set(place, value) => {
                self.read(value)?;
                self.read_place(place)?;
            }
            Effect::Clobber(place) => self.read_place(place)?,
            Effect::Use(value) => self.read(value)?,
        }
        Ok(())
    }

    /// Adds the place that an effect stores to.
    fn write_place(&mut self, place: &Place) -> Result<(), NoMemory>
        ensures registers { OnOk result (self.new.registers.items ≡ self.old.registers.items ++ model.register_of_target (target place.now)) }
        ensures cells { OnOk result (cells self.new.cells.items ≡ cells self.old.cells.items ++ map model.based_of (model.values_of_target (target place.now))) }
    {
        match place {
            Place::Reg(number) => self.registers.push(*number)?,
            Place::Mem(address) => self.cells.push(based_of(address))?,
        }
        Ok(())
    }

    /// Adds what an effect writes.
    fn write_effect(&mut self, made: &Effect) -> Result<(), NoMemory>
        ensures registers { OnOk result (self.new.registers.items ≡ self.old.registers.items ++ flat_map model.register_of_target (model.targets_of_effect (effect made.now))) }
        ensures cells { OnOk result (cells self.new.cells.items ≡ cells self.old.cells.items ++ map model.based_of (flat_map model.values_of_target (model.targets_of_effect (effect made.now)))) }
    {
        match made {
            Effect::Set(place, _) => self.write_place(place)?,
            Effect::Clobber(place) => self.write_place(place)?,
            Effect::Use(_) => {}
        }
        Ok(())
    }
}

/// What an instruction reads and writes.
pub fn access_of(alloc: Global, insn: &Insn) -> Result<Access, NoMemory>
    ensures { IfOk result (λ access. IsAccess access (model.access_of (instruction insn.now))) }
{
    let mut read = Touched::new(alloc);
    let mut written = Touched::new(alloc);
    for effect in &insn.effects {
        read.read_effect(effect)?;
        written.write_effect(effect)?;
    }
    Ok(Access { read, written })
}
