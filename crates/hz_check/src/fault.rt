//! What can be wrong with a description that is read.

ghost use Rattle.std.specs.Prelude.{◌≡◌};
ghost use Rattle.std.specs.Option.{option_and_then, option_map};
ghost use Rattle.hz_check.specs.Faults.{fault_of, limit_of};
ghost use Rattle.hz_description_model.specs.Check.CheckFaults.{check_word, limit_passed, limit_word};
ghost use Rattle.hz_base_model.specs.Reported.{reported_by, reported_in};
ghost use Rattle.hz_check.specs.declared.fault.CheckFault.TheVariants.{NoMemory as no_memory};

use hz_regexp::Name;
use std::alloc::{AllocError, AllocFailed};
use std::fmt::{self, Debug, Display, Formatter, Write};
use thiserror::Error;

/// What a limit of a description counts. This profile, docs/RULES.md, 'Limits'.
#[derive(Clone, Copy, Debug, PartialEq, Eq)]
pub enum LimitName {
    /// Automata.
    Automata,
    /// Units of one automaton.
    Units,
    /// Classes.
    Classes,
    /// Alternatives of a class or of a reservation.
    Alternatives,
    /// Cycles of an alternative.
    Cycles,
    /// Cycles and pairs of all alternatives together.
    Size,
}

impl LimitName {
    /// The word by which the limit is reported. docs/FORMATS.md, 'Answers'.
    pub fn word(&self) -> &'static str
        ensures { result.now ≡ limit_word (limit_of self.now) }
    {
        match self {
            LimitName::Automata => "Automata",
            LimitName::Units => "Units",
            LimitName::Classes => "Classes",
            LimitName::Alternatives => "Alternatives",
            LimitName::Cycles => "Cycles",
            LimitName::Size => "Size",
        }
    }
}

/// What is wrong with a description: the line of the form, counted from 1, and the name that is wrong there. Of several
/// faults the first of this list is reported, and of one fault the first form and in it the leftmost name. Of limits the first
/// of `LimitName` is reported before an earlier form, and for `Size` the first in the counting order.
#[derive(Drop, Error)]
pub enum CheckFault {
    /// The name is defined the second time in its name space, or the value in its attribute.
    TwiceDefined {
        line: u32,
        name: Name,
    },
    /// A unit or a reservation is called `nothing`.
    ReservedName {
        line: u32,
        name: Name,
    },
    /// The name is not defined as the kind that is wanted where it stands.
    UnknownName {
        line: u32,
        name: Name,
    },
    /// The automaton that a unit names is not defined.
    UnknownAutomaton {
        line: u32,
        name: Name,
    },
    /// An automaton is defined, and the unit names none.
    UnitNeedsAutomaton {
        line: u32,
        name: Name,
    },
    /// The reservation reaches itself through names.
    CircularReservation {
        line: u32,
        name: Name,
    },
    /// The unit is in both strings of one exclusion.
    SelfExclusion {
        line: u32,
        name: Name,
    },
    /// The unit of a set has another automaton than its first unit.
    SetAcrossAutomata {
        line: u32,
        name: Name,
    },
    /// The limit is passed here.
    Limit {
        what: LimitName,
        line: u32,
        name: Name,
    },
    /// An alternation of the class holds units of two automata.
    AlternationOfTwoAutomata {
        line: u32,
        name: Name,
    },
    /// The class has units of two automata, and a part of two lengths stands before a comma or in a repeat.
    AlternationOfTwoLengths {
        line: u32,
        name: Name,
    },
    /// A bypass without the guard gives a pair of classes another number than an earlier one; the name is the producing class.
    BypassTwice {
        line: u32,
        name: Name,
    },
    /// The unit is a query unit, and the option `ndfa` is given.
    QueryUnderNdfa {
        line: u32,
        name: Name,
    },
    /// Memory ran out.
    NoMemory,
}

impl CheckFault {
    /// The word by which the fault is reported, and its line; None for want of memory. docs/FORMATS.md, 'Answers'.
    pub fn reported(&self) -> Option<(&'static str, u32)>
        ensures { reported_in result ≡ reported_by check_word (option_map (λ reported. reported.0) (fault_of self.now)) }
    {
        match self {
            CheckFault::TwiceDefined { line, .. } => Some(("TwiceDefined", *line)),
            CheckFault::ReservedName { line, .. } => Some(("ReservedName", *line)),
            CheckFault::UnknownName { line, .. } => Some(("UnknownName", *line)),
            CheckFault::UnknownAutomaton { line, .. } => Some(("UnknownAutomaton", *line)),
            CheckFault::UnitNeedsAutomaton { line, .. } => Some(("UnitNeedsAutomaton", *line)),
            CheckFault::CircularReservation { line, .. } => Some(("CircularReservation", *line)),
            CheckFault::SelfExclusion { line, .. } => Some(("SelfExclusion", *line)),
            CheckFault::SetAcrossAutomata { line, .. } => Some(("SetAcrossAutomata", *line)),
            CheckFault::Limit { what, line, .. } => Some((what.word(), *line)),
            CheckFault::AlternationOfTwoAutomata { line, .. } => Some((
                "AlternationOfTwoAutomata",
                *line,
            )),
            CheckFault::AlternationOfTwoLengths { line, .. } => Some((
                "AlternationOfTwoLengths",
                *line,
            )),
            CheckFault::BypassTwice { line, .. } => Some(("BypassTwice", *line)),
            CheckFault::QueryUnderNdfa { line, .. } => Some(("QueryUnderNdfa", *line)),
            CheckFault::NoMemory => None,
        }
    }

    /// The limit that is passed; None of any other fault.
    pub fn limit(&self) -> Option<LimitName>
        ensures { option_map limit_of result ≡ option_and_then (λ reported. limit_passed reported.0.0) (fault_of self.now) }
    {
        match self {
            CheckFault::Limit { what, .. } => Some(*what),
            _ => None,
        }
    }

    /// The name that is wrong; None for want of memory.
    pub fn into_name(self) -> Option<Name>
        ensures { result ≡ option_map (λ reported. reported.1) (fault_of self) }
    {
        match self {
            CheckFault::TwiceDefined { name, .. } => Some(name),
            CheckFault::ReservedName { name, .. } => Some(name),
            CheckFault::UnknownName { name, .. } => Some(name),
            CheckFault::UnknownAutomaton { name, .. } => Some(name),
            CheckFault::UnitNeedsAutomaton { name, .. } => Some(name),
            CheckFault::CircularReservation { name, .. } => Some(name),
            CheckFault::SelfExclusion { name, .. } => Some(name),
            CheckFault::SetAcrossAutomata { name, .. } => Some(name),
            CheckFault::Limit { name, .. } => Some(name),
            CheckFault::AlternationOfTwoAutomata { name, .. } => Some(name),
            CheckFault::AlternationOfTwoLengths { name, .. } => Some(name),
            CheckFault::BypassTwice { name, .. } => Some(name),
            CheckFault::QueryUnderNdfa { name, .. } => Some(name),
            CheckFault::NoMemory => None,
        }
    }

    /// What is wrong, in words.
    fn words(&self) -> &'static str {
        match self {
            CheckFault::TwiceDefined { .. } => "defined twice",
            CheckFault::ReservedName { .. } => "a reserved name",
            CheckFault::UnknownName { .. } => "an unknown name",
            CheckFault::UnknownAutomaton { .. } => "an unknown automaton",
            CheckFault::UnitNeedsAutomaton { .. } => "a unit without an automaton",
            CheckFault::CircularReservation { .. } => "a circular reservation",
            CheckFault::SelfExclusion { .. } => "a unit that excludes itself",
            CheckFault::SetAcrossAutomata { .. } => "a set over several automata",
            CheckFault::Limit { .. } => "too large",
            CheckFault::AlternationOfTwoAutomata { .. } => "an alternation of two automata",
            CheckFault::AlternationOfTwoLengths { .. } => "an alternation of two lengths",
            CheckFault::BypassTwice { .. } => "a second number of a bypass",
            CheckFault::QueryUnderNdfa { .. } => "a query unit under ndfa",
            CheckFault::NoMemory => "out of memory",
        }
    }
}

impl Display for CheckFault {
    fn fmt<W: Write>(&self, f: &mut Formatter<W>) -> fmt::Result {
        let words = self.words();
        match self.reported() {
            Some((_, line)) => write!(f, "line {line}: {words}"),
            None => write!(f, "{words}"),
        }
    }
}

// Derived, it takes 18 seconds to prove.
impl Debug for CheckFault {
    fn fmt<W: Write>(&self, f: &mut Formatter<W>) -> fmt::Result {
        match self.reported() {
            Some((word, line)) => write!(f, "{word} {{ line: {line}, .. }}"),
            None => write!(f, "NoMemory"),
        }
    }
}

impl From<AllocError> for CheckFault {
    ghost from_gives = { λ _ e. e ≡ no_memory };

    fn from(_error: AllocError) -> CheckFault {
        CheckFault::NoMemory
    }
}

impl<T: Drop> From<AllocFailed<T>> for CheckFault {
    ghost from_gives = { λ _ e. e ≡ no_memory };

    fn from(_error: AllocFailed<T>) -> CheckFault {
        CheckFault::NoMemory
    }
}
