//! Blocks and states: what they leave, what they give and what is wrong with them.

ghost use Rattle.std.specs.Prelude.{◌<◌, ◌^◌, length};

use crate::texts::forms::MOST_BYTES;
use hz_rtl::{Block, State, eval, read_block, read_state};
use hz_sexp::{Form, read_forms};
use std::alloc::{AllocError, Global};
use std::fmt::Write;

/// Writes the state: `rN V` for each register and `mA V` for each cell that isn't 0, each after a blank.
fn write_state(out: &mut String, state: &State) -> Result<(), AllocError> {
    for (number, word) in state.registers.iter().enumerate() {
        if *word != 0 {
            write!(out, " r{number} {word}")?;
        }
    }
    for (address, word) in &state.cells {
        write!(out, " m{address} {word}")?;
    }
    Ok(())
}

/// What a block makes of a state, in the order of the source.
fn run(alloc: Global, block: &Block, state: &State) -> Result<String, AllocError>
    requires { length block.now.insns.items < 2 ^ 32 }
{
    let order = block.source_order(alloc)?;
    let after = eval(alloc, block, &order, state)?;
    let mut out = String::new(alloc);
    write_state(&mut out, &after)?;
    String::from_str(alloc, out.trim_start())
}

/// What a block makes of the forms of a state, or what is wrong with them.
fn run_on(alloc: Global, block: &Block, state: &[Form]) -> Result<String, AllocError>
    requires { length block.now.insns.items < 2 ^ 32 }
{
    match read_state(alloc, state) {
        Ok(state) => run(alloc, block, &state),
        Err(fault) => format!(in alloc; "state {fault}"),
    }
}

/// What a block makes of the state that stands beside, or what is wrong with them.
pub fn answer(alloc: Global, text: &[u8], beside: &[u8]) -> Result<String, AllocError> {
    if text.len() > MOST_BYTES || beside.len() > MOST_BYTES {
        return String::from_str(alloc, "too long");
    }
    let (Ok(block), Ok(state)) = (read_forms(alloc, text), read_forms(alloc, beside)) else {
        return String::from_str(alloc, "no forms");
    };
    match read_block(alloc, &block) {
        Ok(block) => run_on(alloc, &block, &state),
        Err(fault) => fault.to_string(alloc),
    }
}
