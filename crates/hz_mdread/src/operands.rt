//! The operands of forms. Each reader answers `None` where an operand is not of its kind.

ghost use Rattle.std.specs.Prelude.{◌≡◌, ◌↔◌, ◌≤◌, ◌^◌, map, IfOk, IfErr, IsTrue, IsSome, Ok, Err};
ghost use Rattle.std.specs.Option.{option_map};
ghost use Rattle.hz_description_model.specs.Reading.DescriptionForms as model;
ghost use Rattle.hz_mdread.specs.Faults.{TellsOf, IsListIfRead};
ghost use Rattle.hz_mdread.specs.Reading.{reading};
ghost use Rattle.hz_mdread.specs.Shape.{set_kind};
ghost use Rattle.hz_regexp.specs.Shape.{expression};
ghost use Rattle.hz_sexp.specs.Shape.{tree, trees};

use crate::fault::Wrong;
use crate::items::SetForm;
use crate::patterns::{patterns_of, single_patterns};
use hz_regexp::{Expr, Name, NamesFault, NoMemory, is_name, parse_expr, parse_names};
use hz_sexp::{Form, Node};
use std::alloc::Global;

/// The greatest latency and the greatest number of a bypass, in cycles.
const LATENCY_LIMIT: i128 = 1000;

/// The word that a list begins with, and its operands.
pub fn headed(form: &Form) -> Option<(&[u8], &[Form])>
    ensures { option_map (λ found. (found.0.now, trees found.1.now)) result ≡ model.headed (tree form.now) }
{
    let Node::List(parts) = &form.node else {
        return None;
    };
    let (head, operands) = parts.as_slice().split_first()?;
    match &head.node {
        Node::Atom(word) => Some((word.bytes(), operands)),
        _ => None,
    }
}

/// The bytes of a quoted string.
pub fn quoted_bytes(form: &Form) -> Option<&[u8]>
    ensures { option_map (λ bytes. bytes.now) result ≡ model.quoted_bytes (tree form.now) }
{
    match &form.node {
        Node::Quoted(text) => Some(text.bytes()),
        _ => None,
    }
}

/// Whether a string is a name. It takes no memory.
pub fn is_named(form: &Form) -> bool
    ensures { IsTrue result ↔ IsSome (model.name_in (tree form.now)) }
{
    match quoted_bytes(form) {
        Some(bytes) => is_name(bytes),
        None => false,
    }
}

/// The name that a string is.
pub fn name_in(alloc: Global, form: &Form) -> Result<Option<Name>, NoMemory>
    ensures { IfOk result (λ name. name ≡ model.name_in (tree form.now)) }
{
    match quoted_bytes(form) {
        Some(bytes) => Name::of(alloc, bytes),
        None => Ok(None),
    }
}

/// Whether a string says the guard of stores.
pub fn guard_in(form: &Form) -> Option<bool>
    ensures { result ≡ model.guard_in (tree form.now) }
{
    let bytes = quoted_bytes(form)?;
    Some(bytes == b"store_data_bypass_p".as_slice())
}

/// The names where they were read, and none where the text is no list of names; want of memory stays what it is.
fn list_if_read(read: Result<Vec<Name>, NamesFault>) -> Result<Option<Vec<Name>>, NoMemory>
    ensures { IsListIfRead read result }
{
    match read {
        Ok(names) => Ok(Some(names)),
        Err(NamesFault::BadList) => Ok(None),
        Err(NamesFault::NoMemory) => Err(NoMemory),
    }
}

/// The names of a list.
pub fn names_of(alloc: Global, bytes: &[u8]) -> Result<Option<Vec<Name>>, NoMemory>
    ensures { IfOk result (λ found. option_map (λ names. names.items) found ≡ model.names_of bytes.now) }
{
    list_if_read(parse_names(alloc, bytes))
}

/// The names of a string that is a list.
pub fn names_in(alloc: Global, form: &Form) -> Result<Option<Vec<Name>>, NoMemory>
    ensures { IfOk result (λ found. option_map (λ names. names.items) found ≡ model.names_in (tree form.now)) }
{
    match quoted_bytes(form) {
        Some(bytes) => names_of(alloc, bytes),
        None => Ok(None),
    }
}

/// The patterns of the second string of a set form.
pub fn set_patterns(
    alloc: Global,
    kind: SetForm,
    form: &Form,
) -> Result<Option<Vec<Vec<Name>>>, NoMemory>
    ensures { IfOk result (λ found. option_map (λ patterns. map (λ pattern. pattern.items) patterns.items) found ≡ model.set_patterns (set_kind kind) (tree form.now)) }
{
    if kind == SetForm::Exclusion {
        return match names_in(alloc, form)? {
            Some(names) => Ok(Some(single_patterns(alloc, names)?)),
            None => Ok(None),
        };
    }
    match quoted_bytes(form) {
        Some(bytes) => patterns_of(alloc, bytes),
        None => Ok(None),
    }
}

/// A number from 0 to the limit of latencies.
pub fn limited_number(form: &Form) -> Result<u32, Wrong>
    ensures ok { IfOk result (λ number. model.limited_number (tree form.now) ≡ Ok number) }
    ensures err { IfErr result (TellsOf (λ fault. model.limited_number (tree form.now) ≡ Err fault)) }
{
    match form.node {
        Node::Number(number) => {
            if 0 <= number && number <= LATENCY_LIMIT {
                Ok(number as u32)
            } else {
                Err(Wrong::LatencyLimit)
            }
        }
        _ => Err(Wrong::BadShape),
    }
}

/// The name that the operand of `const_string` is.
#[tactic(auto, using(crate::proofs::OperandLemmas::no_string))]
fn string_in(alloc: Global, operands: &[Form]) -> Result<Option<Name>, NoMemory>
    ensures { IfOk result (λ name. name ≡ model.string_in (trees operands.now)) }
{
    if operands.len() != 1 {
        return Ok(None);
    }
    let [value] = operands else { unreachable!() };
    name_in(alloc, value)
}

/// The value in `(const_string "value")`.
pub fn fallback_in(alloc: Global, form: &Form) -> Result<Option<Name>, NoMemory>
    ensures { IfOk result (λ name. name ≡ model.fallback_in (tree form.now)) }
{
    match headed(form) {
        Some((word, operands)) if word == b"const_string".as_slice() => string_in(alloc, operands),
        _ => Ok(None),
    }
}

/// The expression of a string of fewer than 2^32 bytes.
pub fn expression_in(alloc: Global, form: &Form) -> Result<Expr, Wrong>
    requires { IsTrue (model.string_below (2 ^ 32) (tree form.now)) }
    ensures ok { IfOk result (λ expr. model.expression_in reading (tree form.now) ≡ Ok (expression expr)) }
    ensures err { IfErr result (TellsOf (λ fault. model.expression_in reading (tree form.now) ≡ Err fault)) }
{
    let Some(bytes) = quoted_bytes(form) else {
        return Err(Wrong::BadShape);
    };
    let expr = parse_expr(alloc, bytes)?;
    Ok(expr)
}
