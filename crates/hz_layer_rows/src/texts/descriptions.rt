//! Descriptions of texts.

ghost use Rattle.std.specs.Prelude.{◌<◌, ◌^◌, length};

use crate::texts::expressions::write_expr;
use crate::texts::forms::MOST_BYTES;
use crate::texts::names::write_names;
use crate::written::text_of;
use hz_mdread::{
    AttrItem, BypassItem, ClassItem, Condition, Description, MdFault, Options, SetForm, SetItem,
    UnitItem, read_description,
};
use hz_sexp::read_forms;
use std::alloc::{AllocError, Global};
use std::fmt::Write;

/// Writes conditions after a word, in parentheses.
#[cycle(show)]
fn write_conditions(out: &mut String, word: &str, tests: &[Condition]) -> Result<(), AllocError> {
    out.push_str(word)?;
    for test in tests {
        write_condition(out, test)?;
        out.push(' ')?;
    }
    out.push(')')
}

/// Writes a negated condition.
#[cycle(show)]
fn write_not(out: &mut String, test: &Condition) -> Result<(), AllocError> {
    out.push_str("not ")?;
    write_condition(out, test)
}

/// Writes a condition: a number, `name=values` or `name!values`, and else a word and tests.
#[cycle(show)]
fn write_condition(out: &mut String, test: &Condition) -> Result<(), AllocError> {
    match test {
        Condition::ConstInt(number) => write!(out, "{number}"),
        Condition::EqAttr {
            name,
            values,
            negated,
        } => {
            out.push_str(text_of(name.bytes()))?;
            out.push(if *negated { '!' } else { '=' })?;
            write_names(out, "|", values)
        }
        Condition::Not(test) => write_not(out, test),
        Condition::And(tests) => write_conditions(out, "and(", tests),
        Condition::Ior(tests) => write_conditions(out, "ior(", tests),
    }
}

/// Writes a unit, whether it is a query unit, and its automaton if it has one.
fn write_unit(out: &mut String, item: &UnitItem) -> Result<(), AllocError> {
    let name = text_of(item.name.bytes());
    let query = if item.query { "query " } else { "" };
    write!(out, "; {query}unit {}.{} {name}", item.line, item.form)?;
    match &item.automaton {
        Some(automaton) => write!(out, " of {}", text_of(automaton.bytes())),
        None => Ok(()),
    }
}

/// Writes automata, units and reservations.
fn write_units(out: &mut String, d: &Description) -> Result<(), AllocError> {
    for item in &d.automata {
        let name = text_of(item.name.bytes());
        write!(out, "; automaton {}.{} {name}", item.line, item.form)?;
    }
    for item in &d.units {
        write_unit(out, item)?;
    }
    for item in &d.reservations {
        let name = text_of(item.name.bytes());
        write!(out, "; reservation {}.{} {name} ", item.line, item.form)?;
        write_expr(out, &item.expr)?;
    }
    Ok(())
}

/// Writes a class.
fn write_class(out: &mut String, item: &ClassItem) -> Result<(), AllocError> {
    let name = text_of(item.name.bytes());
    write!(
        out,
        "; class {}.{} {name} {} ",
        item.line, item.form, item.latency
    )?;
    write_condition(out, &item.condition)?;
    out.push(' ')?;
    write_expr(out, &item.expr)
}

/// Writes a bypass.
fn write_bypass(out: &mut String, item: &BypassItem) -> Result<(), AllocError> {
    write!(out, "; bypass {}.{} {} ", item.line, item.form, item.number)?;
    write_names(out, "|", &item.outs)?;
    out.push_str(" to ")?;
    write_names(out, "|", &item.ins)?;
    if item.guard {
        out.push_str(" if stored")?;
    }
    Ok(())
}

/// The word of a set form.
fn word_of(kind: SetForm) -> &'static str {
    match kind {
        SetForm::Exclusion => "exclusion",
        SetForm::Presence => "presence",
        SetForm::FinalPresence => "final presence",
        SetForm::Absence => "absence",
        SetForm::FinalAbsence => "final absence",
    }
}

/// Writes a set.
fn write_set(out: &mut String, item: &SetItem) -> Result<(), AllocError> {
    let word = word_of(item.kind);
    write!(out, "; {word} {}.{} ", item.line, item.form)?;
    write_names(out, "|", &item.units)?;
    for pattern in &item.patterns {
        out.push_str(" with ")?;
        write_names(out, "+", pattern)?;
    }
    Ok(())
}

/// Writes an attribute.
fn write_attribute(out: &mut String, item: &AttrItem) -> Result<(), AllocError> {
    let name = text_of(item.name.bytes());
    write!(out, "; attribute {}.{} {name} ", item.line, item.form)?;
    write_names(out, "|", &item.values)?;
    write!(out, " else {}", text_of(item.fallback.bytes()))
}

/// Writes the options that stand.
fn write_options(out: &mut String, options: Options) -> Result<(), AllocError> {
    for (stands, word) in [
        (options.ndfa, "; ndfa"),
        (options.no_minimization, "; no-minimization"),
        (options.stats, "; stats"),
        (options.verbose, "; v"),
        (options.no_comb_vect, "; no-comb-vect"),
    ] {
        if stands {
            out.push_str(word)?;
        }
    }
    Ok(())
}

/// Writes classes, bypasses, sets, attributes and options.
fn write_rest(out: &mut String, d: &Description) -> Result<(), AllocError> {
    for item in &d.classes {
        write_class(out, item)?;
    }
    for item in &d.bypasses {
        write_bypass(out, item)?;
    }
    for item in &d.sets {
        write_set(out, item)?;
    }
    for item in &d.attributes {
        write_attribute(out, item)?;
    }
    write_options(out, d.options)
}

/// The description of a text that is made of forms.
pub fn description_of(alloc: Global, bytes: &[u8]) -> Option<Result<Description, MdFault>>
    requires { length bytes.now < 2 ^ 32 }
{
    match read_forms(alloc, bytes) {
        Ok(forms) => Some(read_description(alloc, &forms)),
        Err(_) => None,
    }
}

/// What a text describes, or what is wrong with it.
pub fn answer(alloc: Global, text: &[u8]) -> Result<String, AllocError> {
    if text.len() > MOST_BYTES {
        return String::from_str(alloc, "too long");
    }
    match description_of(alloc, text) {
        Some(Ok(d)) => {
            let mut out = String::new(alloc);
            write_units(&mut out, &d)?;
            write_rest(&mut out, &d)?;
            Ok(out)
        }
        Some(Err(fault)) => fault.to_string(alloc),
        None => String::from_str(alloc, "no forms"),
    }
}
