//! The values that forms are.

ghost use Rattle.std.specs.Prelude.{◌≡◌, IfOk, IfErr, Ok, Err};
ghost use Rattle.hz_block_model.specs.Running.Blocks as running;
ghost use Rattle.hz_block_model.specs.Texts.Values as model;
ghost use Rattle.hz_rtl.specs.Codes.{value_code};
ghost use Rattle.hz_rtl.specs.Faults.{Tells};
ghost use Rattle.hz_rtl.specs.Heads.{judged};
ghost use Rattle.hz_rtl.specs.Shape.{value, unary_operator, binary_operator};
ghost use Rattle.hz_sexp.specs.Shape.{tree, trees};

use crate::block::{Op1, Op2, Value};
use crate::fault::RtlFault;
use crate::reading::codes::{ValueCode, value_code};
use crate::reading::operands::{headed, register_in, word_in};
use hz_regexp::NoMemory;
use hz_sexp::Form;
use std::alloc::Global;

/// `(reg N)`
#[tactic(auto, using(crate::proofs::ValueLemmas::no_register))]
fn register_value(line: u32, operands: &[Form]) -> Result<Value, RtlFault>
    ensures ok { IfOk result (λ v. model.value_with line model.register_code (trees operands.now) (judged operands.now) ≡ Ok (value v)) }
    ensures err { IfErr result (Tells (λ fault at. model.value_with line model.register_code (trees operands.now) (judged operands.now) ≡ Err (fault, at))) }
{
    if operands.len() != 1 {
        return Err(RtlFault::BadShape { line });
    }
    let [operand] = operands else { unreachable!() };
    Ok(Value::Reg(register_in(operand)?))
}

/// `(const_int I)`
#[tactic(auto, using(crate::proofs::ValueLemmas::no_constant))]
fn constant_value(line: u32, operands: &[Form]) -> Result<Value, RtlFault>
    ensures ok { IfOk result (λ v. model.value_with line model.constant_code (trees operands.now) (judged operands.now) ≡ Ok (value v)) }
    ensures err { IfErr result (Tells (λ fault at. model.value_with line model.constant_code (trees operands.now) (judged operands.now) ≡ Err (fault, at))) }
{
    if operands.len() != 1 {
        return Err(RtlFault::BadShape { line });
    }
    let [operand] = operands else { unreachable!() };
    Ok(Value::Const(word_in(operand)?))
}

/// What is loaded from an address.
fn load(alloc: Global, address: Value) -> Result<Value, NoMemory>
    ensures { IfOk result (λ v. value v ≡ running.memory (value address)) }
{
    Ok(Value::Mem(Box::new(alloc, address)?))
}

/// An operator with its operand.
fn unary(alloc: Global, operator: Op1, operand: Value) -> Result<Value, NoMemory>
    ensures { IfOk result (λ v. value v ≡ running.unary (unary_operator operator) (value operand)) }
{
    Ok(Value::Unary(operator, Box::new(alloc, operand)?))
}

/// An operator with its two operands.
fn binary(alloc: Global, operator: Op2, left: Value, right: Value) -> Result<Value, NoMemory>
    ensures { IfOk result (λ v. value v ≡ running.binary (binary_operator operator) (value left) (value right)) }
{
    let left = Box::new(alloc, left)?;
    Ok(Value::Binary(operator, left, Box::new(alloc, right)?))
}

/// One of two values by a test.
fn choice(alloc: Global, test: Value, first: Value, second: Value) -> Result<Value, NoMemory>
    ensures { IfOk result (λ v. value v ≡ running.choice (value test) (value first) (value second)) }
{
    let test = Box::new(alloc, test)?;
    let first = Box::new(alloc, first)?;
    Ok(Value::Choice(test, first, Box::new(alloc, second)?))
}

/// `(mem value)`
#[cycle(value_of)]
fn memory_value(alloc: Global, line: u32, operands: &[Form]) -> Result<Value, RtlFault>
    ensures ok { IfOk result (λ v. model.value_with line model.memory_code (trees operands.now) (judged operands.now) ≡ Ok (value v)) }
    ensures err { IfErr result (Tells (λ fault at. model.value_with line model.memory_code (trees operands.now) (judged operands.now) ≡ Err (fault, at))) }
{
    if operands.len() != 1 {
        return Err(RtlFault::BadShape { line });
    }
    let address = value_of(alloc, &operands[0])?;
    Ok(load(alloc, address)?)
}

/// An operator with one operand.
#[cycle(value_of)]
fn unary_value(
    alloc: Global,
    line: u32,
    operator: Op1,
    operands: &[Form],
) -> Result<Value, RtlFault>
    ensures ok { IfOk result (λ v. model.value_with line (model.unary_code (unary_operator operator)) (trees operands.now) (judged operands.now) ≡ Ok (value v)) }
    ensures err { IfErr result (Tells (λ fault at. model.value_with line (model.unary_code (unary_operator operator)) (trees operands.now) (judged operands.now) ≡ Err (fault, at))) }
{
    if operands.len() != 1 {
        return Err(RtlFault::BadShape { line });
    }
    let operand = value_of(alloc, &operands[0])?;
    Ok(unary(alloc, operator, operand)?)
}

/// An operator with two operands.
#[cycle(value_of)]
fn binary_value(
    alloc: Global,
    line: u32,
    operator: Op2,
    operands: &[Form],
) -> Result<Value, RtlFault>
    ensures ok { IfOk result (λ v. model.value_with line (model.binary_code (binary_operator operator)) (trees operands.now) (judged operands.now) ≡ Ok (value v)) }
    ensures err { IfErr result (Tells (λ fault at. model.value_with line (model.binary_code (binary_operator operator)) (trees operands.now) (judged operands.now) ≡ Err (fault, at))) }
{
    if operands.len() != 2 {
        return Err(RtlFault::BadShape { line });
    }
    let left = &operands[0];
    let right = &operands[1];
    let left = value_of(alloc, left)?;
    let right = value_of(alloc, right)?;
    Ok(binary(alloc, operator, left, right)?)
}

/// `(if_then_else value value value)`
#[cycle(value_of)]
fn choice_value(alloc: Global, line: u32, operands: &[Form]) -> Result<Value, RtlFault>
    ensures ok { IfOk result (λ v. model.value_with line model.choice_code (trees operands.now) (judged operands.now) ≡ Ok (value v)) }
    ensures err { IfErr result (Tells (λ fault at. model.value_with line model.choice_code (trees operands.now) (judged operands.now) ≡ Err (fault, at))) }
{
    if operands.len() != 3 {
        return Err(RtlFault::BadShape { line });
    }
    let test = &operands[0];
    let first = &operands[1];
    let second = &operands[2];
    let test = value_of(alloc, test)?;
    let first = value_of(alloc, first)?;
    let second = value_of(alloc, second)?;
    Ok(choice(alloc, test, first, second)?)
}

/// The value of a list at a line, by what it begins with and its operands.
#[cycle(value_of)]
fn value_with(
    alloc: Global,
    line: u32,
    code: ValueCode,
    operands: &[Form],
) -> Result<Value, RtlFault>
    ensures ok { IfOk result (λ v. model.value_with line (value_code code) (trees operands.now) (judged operands.now) ≡ Ok (value v)) }
    ensures err { IfErr result (Tells (λ fault at. model.value_with line (value_code code) (trees operands.now) (judged operands.now) ≡ Err (fault, at))) }
{
    match code {
        ValueCode::Reg => register_value(line, operands),
        ValueCode::Const => constant_value(line, operands),
        ValueCode::Mem => memory_value(alloc, line, operands),
        ValueCode::Choice => choice_value(alloc, line, operands),
        ValueCode::Unary(operator) => unary_value(alloc, line, operator, operands),
        ValueCode::Binary(operator) => binary_value(alloc, line, operator, operands),
    }
}

/// The value that a form is.
#[cycle(value_of)]
pub fn value_of(alloc: Global, form: &Form) -> Result<Value, RtlFault>
    ensures ok { IfOk result (λ v. model.value_of (tree form.now) ≡ Ok (value v)) }
    ensures err { IfErr result (Tells (λ fault at. model.value_of (tree form.now) ≡ Err (fault, at))) }
{
    let line = form.line;
    let Some((word, operands)) = headed(form) else {
        return Err(RtlFault::BadShape { line });
    };
    match value_code(word) {
        Some(code) => value_with(alloc, line, code, operands),
        None => Err(RtlFault::UnknownCode { line }),
    }
}
