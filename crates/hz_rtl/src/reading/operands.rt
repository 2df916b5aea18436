//! The operands of forms, or what is wrong with them.

ghost use Rattle.std.specs.Prelude.{◌≡◌, IfOk, IfErr, Ok, Err};
ghost use Rattle.std.specs.Option.{option_map};
ghost use Rattle.hz_block_model.specs.Texts.Operands as model;
ghost use Rattle.hz_rtl.specs.Faults.{Tells};
ghost use Rattle.hz_rtl.specs.Heads.{head_of, vector_in};
ghost use Rattle.hz_sexp.specs.Shape.{tree, trees};

use crate::fault::RtlFault;
use hz_regexp::Name;
use hz_sexp::{Form, Node};
use std::alloc::Global;

/// The word that a list begins with, and its operands.
pub fn headed(form: &Form) -> Option<(&[u8], &[Form])>
    ensures { option_map (λ found. (found.0.now, trees found.1.now)) result ≡ head_of (tree form.now) }
{
    let Node::List(parts) = &form.node else {
        return None;
    };
    let (head, operands) = parts.as_slice().split_first()?;
    match &head.node {
        Node::Atom(word) => Some((word.bytes(), operands)),
        _ => None,
    }
}

/// The forms of a vector.
pub fn vector_in(form: &Form) -> Option<&[Form]>
    ensures { option_map (λ forms. trees forms.now) result ≡ vector_in (tree form.now) }
{
    match &form.node {
        Node::Vector(forms) => Some(forms.as_slice()),
        _ => None,
    }
}

/// The number of a register.
pub fn register_in(form: &Form) -> Result<u8, RtlFault>
    ensures ok { IfOk result (λ number. model.register_in (tree form.now) ≡ Ok number) }
    ensures err { IfErr result (Tells (λ fault line. model.register_in (tree form.now) ≡ Err (fault, line))) }
{
    let line = form.line;
    match form.node {
        Node::Number(number) => {
            if 0 <= number && number < 256 {
                Ok(number as u8)
            } else {
                Err(RtlFault::RegisterRange { line })
            }
        }
        _ => Err(RtlFault::BadShape { line }),
    }
}

/// The word of a number, which is taken modulo 2^64.
fn word_of(number: i128) -> u64
    ensures { result ≡ model.word_of number }
{
    if 0 <= number {
        (number as u128 % (1 << 64)) as u64
    } else {
        !(((-1 - number) as u128 % (1 << 64)) as u64)
    }
}

/// A number as a word.
pub fn word_in(form: &Form) -> Result<u64, RtlFault>
    ensures ok { IfOk result (λ word. model.word_in (tree form.now) ≡ Ok word) }
    ensures err { IfErr result (Tells (λ fault line. model.word_in (tree form.now) ≡ Err (fault, line))) }
{
    match form.node {
        Node::Number(number) => Ok(word_of(number)),
        _ => Err(RtlFault::BadShape { line: form.line }),
    }
}

/// The number of an instruction.
pub fn number_in(form: &Form) -> Result<u32, RtlFault>
    ensures ok { IfOk result (λ number. model.number_in (tree form.now) ≡ Ok number) }
    ensures err { IfErr result (Tells (λ fault line. model.number_in (tree form.now) ≡ Err (fault, line))) }
{
    let line = form.line;
    match form.node {
        Node::Number(number) => {
            if 0 <= number && number < (1 << 32) {
                Ok(number as u32)
            } else {
                Err(RtlFault::BadShape { line })
            }
        }
        _ => Err(RtlFault::BadShape { line }),
    }
}

/// The name that a string is.
pub fn name_in(alloc: Global, form: &Form) -> Result<Name, RtlFault>
    ensures ok { IfOk result (λ name. model.name_in (tree form.now) ≡ Ok name) }
    ensures err { IfErr result (Tells (λ fault line. model.name_in (tree form.now) ≡ Err (fault, line))) }
{
    let line = form.line;
    let Node::Quoted(text) = &form.node else {
        return Err(RtlFault::BadShape { line });
    };
    match Name::of(alloc, text.bytes())? {
        Some(name) => Ok(name),
        None => Err(RtlFault::BadShape { line }),
    }
}
