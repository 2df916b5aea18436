//! What can be wrong with the text of an expression.

ghost use Rattle.std.specs.Prelude.{◌≡◌};
ghost use Rattle.hz_description_model.specs.Grammar.ExpressionTexts.{expression_word};
ghost use Rattle.hz_base_model.specs.Reported.{reported_by, reported_in};
ghost use Rattle.hz_regexp.specs.Faults.{fault_of};
ghost use Rattle.hz_regexp.specs.declared.fault.ExprFault.TheVariants.{NoMemory as no_memory};

use std::alloc::{AllocError, AllocFailed};
use thiserror::Error;

/// What is wrong with the text of an expression, and where: a byte's place, counted from 0.
#[derive(Clone, Copy, Debug, PartialEq, Eq, Error)]
pub enum ExprFault {
    /// The first token that continues no expression; at the end of the text its length.
    #[error("byte {at}: this continues no expression")]
    Unexpected { at: u32 },
    /// There is no token at all; the place is 0.
    #[error("byte {at}: no expression")]
    Empty { at: u32 },
    /// A repeat's number is 0: the place of the number.
    #[error("byte {at}: repeated 0 times")]
    RepeatZero { at: u32 },
    /// An open parenthesis at the depth of 65.
    #[error("byte {at}: nested too deep")]
    TooDeep { at: u32 },
    /// A repeat's number is above 65,535: the place of the number.
    #[error("byte {at}: the number is too large")]
    NumberTooLarge { at: u32 },
    /// Memory ran out.
    #[error("out of memory")]
    NoMemory,
}

impl ExprFault {
    /// The word by which the fault is reported, and the place of its byte, from 0; None for want of memory. docs/FORMATS.md,
    /// 'Answers'.
    pub fn reported(&self) -> Option<(&'static str, u32)>
        ensures { reported_in result ≡ reported_by expression_word (fault_of self.now) }
    {
        match self {
            ExprFault::Unexpected { at } => Some(("Unexpected", *at)),
            ExprFault::Empty { at } => Some(("Empty", *at)),
            ExprFault::RepeatZero { at } => Some(("RepeatZero", *at)),
            ExprFault::TooDeep { at } => Some(("TooDeep", *at)),
            ExprFault::NumberTooLarge { at } => Some(("NumberTooLarge", *at)),
            ExprFault::NoMemory => None,
        }
    }
}

impl From<AllocError> for ExprFault {
    ghost from_gives = { λ _ e. e ≡ no_memory };

    fn from(_error: AllocError) -> ExprFault {
        ExprFault::NoMemory
    }
}

impl<T: Drop> From<AllocFailed<T>> for ExprFault {
    ghost from_gives = { λ _ e. e ≡ no_memory };

    fn from(_error: AllocFailed<T>) -> ExprFault {
        ExprFault::NoMemory
    }
}
