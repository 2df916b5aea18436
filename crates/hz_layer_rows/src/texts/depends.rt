//! Classes of instructions, and which of them depend on which.

use crate::texts::given::{Given, read_given};
use hz_depend::{Graph, class_of, graph};
use std::alloc::{AllocError, Global};
use std::fmt::Write;

/// The class of each instruction of a block, by the description that stands beside, or what is wrong with it.
pub fn answer_class(alloc: Global, text: &[u8], beside: &[u8]) -> Result<String, AllocError> {
    let Some(Given { checked, block }) = read_given(alloc, text, beside) else {
        return String::from_str(alloc, "not given");
    };
    let mut out = String::new(alloc);
    for insn in &block.insns {
        write!(out, "{:?}", class_of(&checked, insn))?;
    }
    Ok(out)
}

/// Heights, and after a bar edges with their costs.
fn shown(alloc: Global, made: &Graph) -> Result<String, AllocError> {
    let mut out = String::new(alloc);
    for insn in &made.insns {
        write!(out, "{} ", insn.height)?;
    }
    out.push('|')?;
    for edge in &made.edges {
        write!(out, " {}>{} {}", edge.from, edge.to, edge.cost)?;
    }
    Ok(out)
}

/// The graph of a block, by the description that stands beside, or what is wrong with it.
pub fn answer_graph(alloc: Global, text: &[u8], beside: &[u8]) -> Result<String, AllocError> {
    let Some(Given { checked, block }) = read_given(alloc, text, beside) else {
        return String::from_str(alloc, "not given");
    };
    if block.insns.len() > 4096 {
        return String::from_str(alloc, "too long");
    }
    match graph(alloc, &checked, &block) {
        Ok(made) => shown(alloc, &made),
        Err(fault) => format!(in alloc; "{fault:?}: {fault}"),
    }
}
