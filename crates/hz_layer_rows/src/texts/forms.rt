//! Forms of texts.

ghost use Rattle.std.specs.Prelude.{◌<◌, ◌^◌, length};

use crate::written::text_of;
use hz_sexp::{Form, Node, read_forms};
use std::alloc::{AllocError, Global};
use std::fmt::Write;

/// The most bytes that a text of forms has here.
pub const MOST_BYTES: usize = 100_000_000;

/// Writes forms between two brackets.
#[cycle(show)]
fn write_list(out: &mut String, open: char, forms: &[Form], close: char) -> Result<(), AllocError> {
    out.push(open)?;
    write_forms(out, forms)?;
    out.push(close)
}

/// Writes what a form is: `(..)`, `[..]`, `'ATOM`, `"STRING"` or `#NUMBER`.
#[cycle(show)]
fn write_node(out: &mut String, node: &Node) -> Result<(), AllocError> {
    match node {
        Node::List(inner) => write_list(out, '(', inner, ')'),
        Node::Vector(inner) => write_list(out, '[', inner, ']'),
        Node::Atom(text) => write!(out, "'{}", text_of(text.bytes())),
        Node::Quoted(text) => write!(out, "\"{}\"", text_of(text.bytes())),
        Node::Number(value) => write!(out, "#{value}"),
    }
}

/// Writes each form after a blank and its line.
#[cycle(show)]
fn write_forms(out: &mut String, forms: &[Form]) -> Result<(), AllocError> {
    for form in forms {
        write!(out, " {}", form.line)?;
        write_node(out, &form.node)?;
    }
    Ok(())
}

/// What a text holds, or what is wrong with it.
pub fn answer(alloc: Global, text: &[u8]) -> Result<String, AllocError> {
    if text.len() > MOST_BYTES {
        return String::from_str(alloc, "too long");
    }
    match read_forms(alloc, text) {
        Ok(forms) => {
            let mut out = String::new(alloc);
            write_forms(&mut out, &forms)?;
            String::from_str(alloc, out.trim_start())
        }
        Err(fault) => fault.to_string(alloc),
    }
}
