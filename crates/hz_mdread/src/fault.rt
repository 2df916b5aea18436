//! What can be wrong with a description.

ghost use Rattle.std.specs.Prelude.{◌≡◌};
ghost use Rattle.std.specs.Option.{option_and_then};
ghost use Rattle.hz_description_model.specs.Reading.DescriptionForms.{description_at, description_word};
ghost use Rattle.hz_mdread.specs.Faults.{fault_at, fault_of, bad_expression_of};
ghost use Rattle.hz_base_model.specs.Reported.{reported_by, reported_in};
ghost use Rattle.hz_mdread.specs.declared.fault.Wrong.TheVariants.{NoMemory as no_memory};

use hz_regexp::ExprFault;
use std::alloc::{AllocError, AllocFailed};
use thiserror::Error;

/// What is wrong with a description, and the line of the form, counted from 1.
#[derive(Clone, Copy, Debug, PartialEq, Eq, Error)]
pub enum MdFault {
    /// Not a list that begins with the word of a form.
    #[error("line {line}: no form of a description")]
    UnknownForm { line: u32 },
    /// A wrong number or kind of operands, or a name, list or pattern that is not well formed.
    #[error("line {line}: wrong operands")]
    BadShape { line: u32 },
    /// A condition that is not well formed.
    #[error("line {line}: no condition")]
    BadCondition { line: u32 },
    /// An option that there is not.
    #[error("line {line}: no option")]
    UnknownOption { line: u32 },
    /// A latency or the number of a bypass outside 0 to 1,000.
    #[error("line {line}: the number is not from 0 to 1,000")]
    LatencyLimit { line: u32 },
    /// An expression with a fault of its own, which is never want of memory.
    #[error("line {line}: in the expression, {fault}")]
    BadExpression { line: u32, fault: ExprFault },
    /// A bypass with another guard than `store_data_bypass_p`.
    #[error("line {line}: an unknown guard")]
    UnknownGuard { line: u32 },
    /// Memory ran out.
    #[error("out of memory")]
    NoMemory,
}

impl MdFault {
    /// The word by which the fault is reported, and its line; None for want of memory. docs/FORMATS.md, 'Answers'.
    pub fn reported(&self) -> Option<(&'static str, u32)>
        ensures { reported_in result ≡ reported_by description_word (fault_of self.now) }
    {
        match self {
            MdFault::UnknownForm { line } => Some(("UnknownForm", *line)),
            MdFault::BadShape { line } => Some(("BadShape", *line)),
            MdFault::BadCondition { line } => Some(("BadCondition", *line)),
            MdFault::UnknownOption { line } => Some(("UnknownOption", *line)),
            MdFault::LatencyLimit { line } => Some(("LatencyLimit", *line)),
            MdFault::BadExpression { line, fault } => match fault.reported() {
                Some(_) => Some(("BadExpression", *line)),
                None => None,
            },
            MdFault::UnknownGuard { line } => Some(("UnknownGuard", *line)),
            MdFault::NoMemory => None,
        }
    }

    /// Of a fault in an expression its own word, and the place of its byte, from 0; None of any other. docs/FORMATS.md,
    /// 'Answers'.
    pub fn at(&self) -> Option<(&'static str, u32)>
        ensures { reported_in result ≡ option_and_then (λ fault. description_at fault.0) (fault_of self.now) }
    {
        match self {
            MdFault::BadExpression { fault, .. } => fault.reported(),
            _ => None,
        }
    }
}

/// What is wrong with one form.
#[derive(Clone, Copy)]
pub enum Wrong {
    UnknownForm,
    BadShape,
    BadCondition,
    UnknownOption,
    LatencyLimit,
    BadExpression(ExprFault),
    UnknownGuard,
    NoMemory,
}

impl Wrong {
    /// The fault of a form that begins at a line.
    pub fn at(self, line: u32) -> MdFault
        ensures { result ≡ fault_at line self }
    {
        match self {
            Wrong::UnknownForm => MdFault::UnknownForm { line },
            Wrong::BadShape => MdFault::BadShape { line },
            Wrong::BadCondition => MdFault::BadCondition { line },
            Wrong::UnknownOption => MdFault::UnknownOption { line },
            Wrong::LatencyLimit => MdFault::LatencyLimit { line },
            Wrong::BadExpression(fault) => MdFault::BadExpression { line, fault },
            Wrong::UnknownGuard => MdFault::UnknownGuard { line },
            Wrong::NoMemory => MdFault::NoMemory,
        }
    }
}

impl From<AllocError> for Wrong {
    ghost from_gives = { λ _ wrong. wrong ≡ no_memory };

    fn from(_error: AllocError) -> Wrong {
        Wrong::NoMemory
    }
}

impl<T: Drop> From<AllocFailed<T>> for Wrong {
    ghost from_gives = { λ _ wrong. wrong ≡ no_memory };

    fn from(_error: AllocFailed<T>) -> Wrong {
        Wrong::NoMemory
    }
}

impl From<ExprFault> for Wrong {
    ghost from_gives = { λ fault wrong. wrong ≡ bad_expression_of fault };

    fn from(fault: ExprFault) -> Wrong {
        match fault {
            ExprFault::NoMemory => Wrong::NoMemory,
            fault => Wrong::BadExpression(fault),
        }
    }
}
