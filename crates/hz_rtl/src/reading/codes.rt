//! What lists are by the words that they begin with.

ghost use Rattle.std.specs.Prelude.{◌≡◌};
ghost use Rattle.std.specs.Option.{option_map};
ghost use Rattle.hz_block_model.specs.Texts.Values as model;
ghost use Rattle.hz_rtl.specs.Shape.{unary_operator, binary_operator};
ghost use Rattle.hz_rtl.specs.Codes.{value_code, target_code, effect_code};

use crate::block::{Op1, Op2};

/// What a list is in the place of a value.
#[derive(Clone, Copy)]
pub enum ValueCode {
    Reg,
    Const,
    Mem,
    Choice,
    Unary(Op1),
    Binary(Op2),
}

/// What a list is in the place of a place, and in a state.
#[derive(Clone, Copy)]
pub enum PlaceCode {
    Reg,
    Mem,
}

/// What a list is in the place of an effect.
#[derive(Clone, Copy)]
pub enum EffectCode {
    Set,
    Clobber,
    Use,
}

fn unary_operator(word: &[u8]) -> Option<Op1>
    ensures { option_map unary_operator result ≡ model.unary_operator word.now }
{
    if word == b"neg".as_slice() {
        Some(Op1::Neg)
    } else if word == b"not".as_slice() {
        Some(Op1::Not)
    } else {
        None
    }
}

fn arithmetic_operator(word: &[u8]) -> Option<Op2>
    ensures { option_map binary_operator result ≡ model.arithmetic_operator word.now }
{
    if word == b"plus".as_slice() {
        Some(Op2::Plus)
    } else if word == b"minus".as_slice() {
        Some(Op2::Minus)
    } else if word == b"mult".as_slice() {
        Some(Op2::Mult)
    } else if word == b"udiv".as_slice() {
        Some(Op2::Udiv)
    } else if word == b"umod".as_slice() {
        Some(Op2::Umod)
    } else {
        None
    }
}

/// An operator by bits, or a shift.
fn bit_operator(word: &[u8]) -> Option<Op2>
    ensures { option_map binary_operator result ≡ model.bit_operator word.now }
{
    if word == b"and".as_slice() {
        Some(Op2::And)
    } else if word == b"ior".as_slice() {
        Some(Op2::Ior)
    } else if word == b"xor".as_slice() {
        Some(Op2::Xor)
    } else if word == b"ashift".as_slice() {
        Some(Op2::Ashift)
    } else if word == b"lshiftrt".as_slice() {
        Some(Op2::Lshiftrt)
    } else if word == b"ashiftrt".as_slice() {
        Some(Op2::Ashiftrt)
    } else {
        None
    }
}

fn comparison(word: &[u8]) -> Option<Op2>
    ensures { option_map binary_operator result ≡ model.comparison word.now }
{
    if word == b"eq".as_slice() {
        Some(Op2::Eq)
    } else if word == b"ne".as_slice() {
        Some(Op2::Ne)
    } else if word == b"ltu".as_slice() {
        Some(Op2::Ltu)
    } else if word == b"lt".as_slice() {
        Some(Op2::Lt)
    } else {
        None
    }
}

fn binary_operator(word: &[u8]) -> Option<Op2>
    ensures { option_map binary_operator result ≡ model.binary_operator word.now }
{
    if let Some(operator) = arithmetic_operator(word) {
        return Some(operator);
    }
    match bit_operator(word) {
        Some(operator) => Some(operator),
        None => comparison(word),
    }
}

fn operator_code(word: &[u8]) -> Option<ValueCode>
    ensures { option_map value_code result ≡ model.operator_code word.now }
{
    if let Some(operator) = binary_operator(word) {
        return Some(ValueCode::Binary(operator));
    }
    match unary_operator(word) {
        Some(operator) => Some(ValueCode::Unary(operator)),
        None => None,
    }
}

/// What a list that begins with this word is in the place of a value.
pub fn value_code(word: &[u8]) -> Option<ValueCode>
    ensures { option_map value_code result ≡ model.value_code word.now }
{
    if word == b"reg".as_slice() {
        Some(ValueCode::Reg)
    } else if word == b"const_int".as_slice() {
        Some(ValueCode::Const)
    } else if word == b"mem".as_slice() {
        Some(ValueCode::Mem)
    } else if word == b"if_then_else".as_slice() {
        Some(ValueCode::Choice)
    } else {
        operator_code(word)
    }
}

/// What a list that begins with this word is in the place of a place.
pub fn place_code(word: &[u8]) -> Option<PlaceCode>
    ensures { option_map target_code result ≡ model.target_code word.now }
{
    if word == b"reg".as_slice() {
        Some(PlaceCode::Reg)
    } else if word == b"mem".as_slice() {
        Some(PlaceCode::Mem)
    } else {
        None
    }
}

/// What a list that begins with this word is in the place of an effect.
pub fn effect_code(word: &[u8]) -> Option<EffectCode>
    ensures { option_map effect_code result ≡ model.effect_code word.now }
{
    if word == b"set".as_slice() {
        Some(EffectCode::Set)
    } else if word == b"clobber".as_slice() {
        Some(EffectCode::Clobber)
    } else if word == b"use".as_slice() {
        Some(EffectCode::Use)
    } else {
        None
    }
}
