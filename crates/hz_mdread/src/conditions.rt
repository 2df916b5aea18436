//! The conditions that operands are. Each reader answers `None` where they are none.

ghost use Rattle.std.specs.Prelude.{◌≡◌, IfOk};
ghost use Rattle.std.specs.Option.{option_map};
ghost use Rattle.hz_description_model.specs.Reading.DescriptionForms as model;
ghost use Rattle.hz_description_model.specs.Reading.DescriptionShape.{are_several};
ghost use Rattle.hz_mdread.specs.Shape.{condition, conditions};
ghost use Rattle.hz_sexp.specs.Shape.{tree, trees};

use crate::condition::Condition;
use crate::operands::{headed, name_in, names_of, quoted_bytes};
use hz_regexp::{Name, NoMemory};
use hz_sexp::{Form, Node};
use std::alloc::Global;

/// The condition that the operand of `const_int` makes.
fn constant_of(form: &Form) -> Option<Condition>
    ensures { option_map condition result ≡ model.constant_of (tree form.now) }
{
    match form.node {
        Node::Number(number) => Some(Condition::ConstInt(number)),
        _ => None,
    }
}

/// The condition `(const_int i)` with these operands.
#[tactic(auto, using(crate::proofs::OperandLemmas::no_constant))]
fn constant_in(operands: &[Form]) -> Option<Condition>
    ensures { option_map condition result ≡ model.constant_in (trees operands.now) }
{
    if operands.len() != 1 {
        return None;
    }
    let [value] = operands else { unreachable!() };
    constant_of(value)
}

/// What follows a `!` at the front, if one stands there.
fn after_mark(bytes: &[u8]) -> Option<&[u8]>
    ensures { option_map (λ others. others.now) result ≡ model.after_mark bytes.now }
{
    match bytes.split_first() {
        Some((b'!', others)) => Some(others),
        _ => None,
    }
}

/// Bytes without the white space at the front.
fn without_blanks(bytes: &[u8]) -> &[u8]
    ensures { result.now ≡ model.without_blanks bytes.now }
{
    bytes.trim_ascii_start()
}

/// The test of an attribute against the values of a text.
fn test_of(alloc: Global, name: Name, bytes: &[u8]) -> Result<Option<Condition>, NoMemory>
    ensures { IfOk result (λ found. option_map condition found ≡ model.test_of name bytes.now) }
{
    let (list, negated) = match after_mark(without_blanks(bytes)) {
        Some(others) => (others, true),
        None => (bytes, false),
    };
    Ok(names_of(alloc, list)?.map(|values| Condition::EqAttr {
        name,
        values,
        negated,
    }))
}

/// The condition `(eq_attr "name" "value")` with these operands.
#[tactic(auto, using(crate::proofs::OperandLemmas::no_test))]
fn test_in(alloc: Global, operands: &[Form]) -> Result<Option<Condition>, NoMemory>
    ensures { IfOk result (λ found. option_map condition found ≡ model.test_in (trees operands.now)) }
{
    if operands.len() != 2 {
        return Ok(None);
    }
    let [attribute, values] = operands else {
        unreachable!()
    };
    let Some(name) = name_in(alloc, attribute)? else {
        return Ok(None);
    };
    match quoted_bytes(values) {
        Some(bytes) => test_of(alloc, name, bytes),
        None => Ok(None),
    }
}

/// The condition `(not t)` with these tests.
#[tactic(auto, using(crate::proofs::ConditionLemmas::no_negation))]
fn negated(alloc: Global, mut tests: Vec<Condition>) -> Result<Option<Condition>, NoMemory>
    ensures { IfOk result (λ found. option_map condition found ≡ model.negated (conditions tests.items)) }
{
    if tests.len() != 1 {
        return Ok(None);
    }
    let Some(test) = tests.pop() else {
        unreachable!()
    };
    Ok(Some(Condition::Not(Box::new(alloc, test)?)))
}

/// The condition with these tests after a word.
#[tactic(auto, using(crate::proofs::ConditionLemmas::few_joined))]
fn joined(alloc: Global, word: &[u8], tests: Vec<Condition>) -> Result<Option<Condition>, NoMemory>
    ensures { IfOk result (λ found. option_map condition found ≡ model.joined word.now (conditions tests.items)) }
{
    if word == b"not".as_slice() {
        negated(alloc, tests)
    } else if tests.len() < 2 {
        Ok(None)
    } else if word == b"and".as_slice() {
        Ok(Some(Condition::And(tests)))
    } else if word == b"ior".as_slice() {
        Ok(Some(Condition::Ior(tests)))
    } else {
        Ok(None)
    }
}

/// The condition that an operand is.
#[cycle(condition_in)]
pub fn condition_in(alloc: Global, form: &Form) -> Result<Option<Condition>, NoMemory>
    ensures { IfOk result (λ found. option_map condition found ≡ model.condition_in (tree form.now)) }
{
    let Some((word, operands)) = headed(form) else {
        return Ok(None);
    };
    if word == b"const_int".as_slice() {
        return Ok(constant_in(operands));
    }
    if word == b"eq_attr".as_slice() {
        return test_in(alloc, operands);
    }
    match conditions_in(alloc, operands)? {
        Some(tests) => joined(alloc, word, tests),
        None => Ok(None),
    }
}

/// The conditions that operands are.
#[cycle(condition_in)]
fn conditions_in(alloc: Global, forms: &[Form]) -> Result<Option<Vec<Condition>>, NoMemory>
    ensures { IfOk result (λ found. option_map (λ tests. conditions tests.items) found ≡ model.conditions_in (trees forms.now)) }
{
    let mut tests = Vec::new(alloc);
    for form in forms {
        match condition_in(alloc, form)? {
            Some(test) => tests.push(test)?,
            None => return Ok(None),
        }
    }
    Ok(Some(tests))
}
