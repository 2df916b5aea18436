//! What can be wrong with a block or a state.

ghost use Rattle.std.specs.Prelude.{◌≡◌};
ghost use Rattle.hz_block_model.specs.Texts.Operands.{rtl_word};
ghost use Rattle.hz_base_model.specs.Reported.{reported_by, reported_in};
ghost use Rattle.hz_rtl.specs.Faults.{fault_of};
ghost use Rattle.hz_rtl.specs.declared.fault.RtlFault.TheVariants.{NoMemory as no_memory};

use std::alloc::{AllocError, AllocFailed};
use thiserror::Error;

/// What is wrong with a block or a state, and the line of the innermost form that is wrong, counted from 1; of an
/// instruction number that stands twice, that of its `insn`.
#[derive(Clone, Copy, Debug, PartialEq, Eq, Error)]
pub enum RtlFault {
    /// A form of another shape, or the number of an instruction out of range.
    #[error("line {line}: another shape")]
    BadShape { line: u32 },
    /// A list in the place of an effect, place or value that begins with an unknown atom.
    #[error("line {line}: an unknown code")]
    UnknownCode { line: u32 },
    /// The number of a register outside 0 to 255.
    #[error("line {line}: the register is not from 0 to 255")]
    RegisterRange { line: u32 },
    /// An instruction number, an attribute of one instruction, or a register or cell of a state, given the second time.
    #[error("line {line}: given twice")]
    Twice { line: u32 },
    /// The 4,097th form of a block.
    #[error("line {line}: more than 4,096 instructions")]
    InsnLimit { line: u32 },
    /// Memory ran out.
    #[error("out of memory")]
    NoMemory,
}

impl RtlFault {
    /// The word by which the fault is reported, and its line; None for want of memory. docs/FORMATS.md, 'Answers'.
    pub fn reported(&self) -> Option<(&'static str, u32)>
        ensures { reported_in result ≡ reported_by rtl_word (fault_of self.now) }
    {
        match self {
            RtlFault::BadShape { line } => Some(("BadShape", *line)),
            RtlFault::UnknownCode { line } => Some(("UnknownCode", *line)),
            RtlFault::RegisterRange { line } => Some(("RegisterRange", *line)),
            RtlFault::Twice { line } => Some(("Twice", *line)),
            RtlFault::InsnLimit { line } => Some(("InsnLimit", *line)),
            RtlFault::NoMemory => None,
        }
    }
}

impl From<AllocError> for RtlFault {
    ghost from_gives = { λ _ fault. fault ≡ no_memory };

    fn from(_error: AllocError) -> RtlFault {
        RtlFault::NoMemory
    }
}

impl<T: Drop> From<AllocFailed<T>> for RtlFault {
    ghost from_gives = { λ _ fault. fault ≡ no_memory };

    fn from(_error: AllocFailed<T>) -> RtlFault {
        RtlFault::NoMemory
    }
}
