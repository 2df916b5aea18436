//! Blocks. GCC Internals, 'Side Effect Expressions', 'Arithmetic' and 'Comparison Operations'; this profile, docs/RULES.md.

ghost use Rattle.std.specs.Prelude.{◌≡◌, ◌<◌, ◌^◌, length, All, IfOk};
ghost use Rattle.std.specs.List.{range_with_len};

use hz_regexp::{Name, NoMemory};
use std::alloc::Global;

/// The operators with one operand.
#[derive(Clone, Copy, Debug, PartialEq, Eq)]
pub enum Op1 {
    Neg,
    Not,
}

/// The operators with two operands. A shift goes by the second operand modulo 64; `Udiv` by 0 is all ones and `Umod` by 0
/// the dividend; a comparison is 1 if it is true, else 0; only `Ashiftrt` and `Lt` look at the sign.
#[derive(Clone, Copy, Debug, PartialEq, Eq)]
pub enum Op2 {
    Plus,
    Minus,
    Mult,
    Udiv,
    Umod,
    And,
    Ior,
    Xor,
    Ashift,
    Lshiftrt,
    Ashiftrt,
    Eq,
    Ne,
    Ltu,
    Lt,
}

/// A value: a word of 64 bits that is computed in a state.
#[derive(Debug, Drop)]
pub enum Value {
    /// `(reg N)`
    Reg(u8),
    /// `(const_int I)`, modulo 2^64
    Const(u64),
    /// `(mem value)`: the cell at an address
    Mem(Box<Value>),
    Unary(Op1, Box<Value>),
    Binary(Op2, Box<Value>, Box<Value>),
    /// `(if_then_else value value value)`: the second if the first isn't 0, else the third
    Choice(Box<Value>, Box<Value>, Box<Value>),
}

/// Where a word is stored.
#[derive(Debug, Drop)]
pub enum Place {
    /// `(reg N)`
    Reg(u8),
    /// `(mem value)`: the cell at an address
    Mem(Value),
}

/// A side effect.
#[derive(Debug, Drop)]
pub enum Effect {
    /// `(set place value)`
    Set(Place, Value),
    /// `(clobber place)`: stores the number of the instruction
    Clobber(Place),
    /// `(use value)`: reads without effect
    Use(Value),
}

/// An instruction: its number, the line of its form, counted from 1, its effects from left to right, and the attributes that
/// it gives.
#[derive(Debug, Drop)]
pub struct Insn {
    pub number: u32,
    pub line: u32,
    pub effects: Vec<Effect>,
    pub attrs: Vec<(Name, Name)>,
}

/// Instructions in the order of the source. Those of a block that was read have different numbers, and are at most 4,096.
#[derive(Debug, Drop)]
pub struct Block {
    pub insns: Vec<Insn>,
}

impl Block {
    /// The places of all instructions, in the order of the source. There are fewer than 2^32.
    pub fn source_order(&self, alloc: Global) -> Result<Vec<u32>, NoMemory>
        requires { length self.now.insns.items < 2 ^ 32 }
        ensures order { IfOk result (λ order. order.items ≡ range_with_len 0 (length self.now.insns.items)) }
        ensures within { IfOk result (λ order. All (λ number. number < length self.now.insns.items) order.items) }
    {
        (0..self.insns.len() as u32).collect(alloc)
    }
}
