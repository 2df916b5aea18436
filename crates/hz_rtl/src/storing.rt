//! Which instructions only store what another makes. GCC Internals, 'Specifying processor pipeline description', on
//! `store_data_bypass_p`.

ghost use Rattle.std.specs.Prelude.{◌≡◌, ◌<◌, length, nat_lt};
ghost use Rattle.std.specs.List.{list_any};
ghost use Rattle.hz_block_model.specs.Dependences.Accesses.{registers_in, is_among};
ghost use Rattle.hz_block_model.specs.Dependences.Stores.{registers_set_by, addresses_set_by, registers_set, addresses_set, stores_data};
ghost use Rattle.hz_rtl.specs.Shape.{value, effect, instruction};

use crate::block::{Effect, Insn, Place, Value};

/// Whether a register occurs in a value.
#[tactic(auto, using(crate::proofs::StoringLemmas::among_both))]
fn occurs(register: u8, from: &Value) -> bool
    ensures { result ≡ is_among (registers_in (value from.now)) register }
{
    match from {
        Value::Reg(number) => *number == register,
        Value::Const(_) => false,
        Value::Mem(address) => occurs(register, address),
        Value::Unary(_, operand) => occurs(register, operand),
        Value::Binary(_, left, right) => occurs(register, left) || occurs(register, right),
        Value::Choice(test, first, second) => {
            occurs(register, test) || (occurs(register, first) || occurs(register, second))
        }
    }
}

/// Whether an effect sets a cell.
fn sets_cell(made: &Effect) -> bool
    ensures { result ≡ nat_lt 0 (length (addresses_set_by (effect made.now))) }
{
    match made {
        Effect::Set(Place::Mem(_), _) => true,
        Effect::Set(Place::Reg(_), _) => false,
        Effect::Clobber(_) => false,
        Effect::Use(_) => false,
    }
}

/// Whether an effect sets a register.
fn sets_register(made: &Effect) -> bool
    ensures { result ≡ nat_lt 0 (length (registers_set_by (effect made.now))) }
{
    match made {
        Effect::Set(Place::Reg(_), _) => true,
        Effect::Set(Place::Mem(_), _) => false,
        Effect::Clobber(_) => false,
        Effect::Use(_) => false,
    }
}

/// Whether an instruction sets a cell.
fn stores(insn: &Insn) -> bool
    ensures { result ≡ nat_lt 0 (length (addresses_set (instruction insn.now))) }
{
    insn.effects.iter().any(|made| sets_cell(made))
}

/// Whether an instruction sets a register.
fn computes(insn: &Insn) -> bool
    ensures { result ≡ nat_lt 0 (length (registers_set (instruction insn.now))) }
{
    insn.effects.iter().any(|made| sets_register(made))
}

/// Whether an effect sets a register that occurs in an address.
fn sets_in(made: &Effect, address: &Value) -> bool
    ensures { result ≡ list_any (is_among (registers_in (value address.now))) (registers_set_by (effect made.now)) }
{
    match made {
        Effect::Set(Place::Reg(number), _) => occurs(*number, address),
        Effect::Set(Place::Mem(_), _) => false,
        Effect::Clobber(_) => false,
        Effect::Use(_) => false,
    }
}

/// Whether an instruction sets a register that occurs in an address.
fn makes(producer: &Insn, address: &Value) -> bool
    ensures { result ≡ list_any (is_among (registers_in (value address.now))) (registers_set (instruction producer.now)) }
{
    producer.effects.iter().any(|made| sets_in(made, address))
}

/// Whether an effect sets a cell in whose address a register occurs that an instruction sets.
fn is_addressed(producer: &Insn, made: &Effect) -> bool
    ensures { result ≡ list_any (λ address. list_any (is_among (registers_in address)) (registers_set (instruction producer.now))) (addresses_set_by (effect made.now)) }
{
    match made {
        Effect::Set(Place::Mem(address), _) => makes(producer, address),
        Effect::Set(Place::Reg(_), _) => false,
        Effect::Clobber(_) => false,
        Effect::Use(_) => false,
    }
}

/// Whether an instruction sets such a cell.
fn addresses(producer: &Insn, consumer: &Insn) -> bool
    ensures { result ≡ list_any (λ address. list_any (is_among (registers_in address)) (registers_set (instruction producer.now))) (addresses_set (instruction consumer.now)) }
{
    consumer
        .effects
        .iter()
        .any(|made| is_addressed(producer, made))
}

/// Whether the consumer only stores what the producer makes: one of its `set` effects writes a cell, none writes a register, and no
/// register that a `set` of the producer writes occurs in the address of a cell that it sets. `clobber` and `use` don't count. It
/// takes no memory. docs/RULES.md, 'Dependences'.
#[tactic(auto, using(crate::proofs::StoringLemmas::none_there))]
pub fn store_data_bypass(producer: &Insn, consumer: &Insn) -> bool
    ensures { result ≡ stores_data (instruction producer.now) (instruction consumer.now) }
{
    stores(consumer) && !computes(consumer) && !addresses(producer, consumer)
}
