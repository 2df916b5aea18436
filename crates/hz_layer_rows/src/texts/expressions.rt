//! Expressions of texts.

use crate::written::text_of;
use hz_regexp::{Expr, parse_expr};
use std::alloc::{AllocError, Global};
use std::fmt::Write;

/// Writes the parts of a list in parentheses, with a mark between them.
#[cycle(show)]
fn write_parts(out: &mut String, mark: char, parts: &[Expr]) -> Result<(), AllocError> {
    let mut next = '(';
    for part in parts {
        out.push(next)?;
        write_expr(out, part)?;
        next = mark;
    }
    out.push(')')
}

/// Writes a repeat in brackets.
#[cycle(show)]
fn write_repeat(out: &mut String, part: &Expr, times: u32) -> Result<(), AllocError> {
    out.push('[')?;
    write_expr(out, part)?;
    write!(out, "*{times}]")
}

/// Writes an expression: each list in parentheses, each repeat in brackets, and `nothing` as a dot.
#[cycle(show)]
pub fn write_expr(out: &mut String, expr: &Expr) -> Result<(), AllocError> {
    match expr {
        Expr::Named(name) => out.push_str(text_of(name.bytes())),
        Expr::Nothing => out.push('.'),
        Expr::Seq(parts) => write_parts(out, ',', parts),
        Expr::Oneof(parts) => write_parts(out, '|', parts),
        Expr::Allof(parts) => write_parts(out, '+', parts),
        Expr::Repeat(part, times) => write_repeat(out, part, *times),
    }
}

/// The expression of a text, or what is wrong with it.
pub fn answer(alloc: Global, text: &[u8]) -> Result<String, AllocError> {
    if text.len() > 1000 {
        return String::from_str(alloc, "too long");
    }
    match parse_expr(alloc, text) {
        Ok(expr) => {
            let mut out = String::new(alloc);
            write_expr(&mut out, &expr)?;
            Ok(out)
        }
        Err(fault) => fault.to_string(alloc),
    }
}
