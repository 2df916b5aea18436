//! What the forms of a description define. GCC Internals, "Specifying processor pipeline description". In each item `line`
//! is the line of its form, counted from 1, and `form` the number of its form in the file, counted from 0.

use crate::condition::Condition;
use hz_regexp::{Expr, Name};

/// `define_automaton`: one item for each name.
#[derive(Debug, Drop)]
pub struct AutomatonItem {
    pub line: u32,
    pub form: u32,
    pub name: Name,
}

/// `define_cpu_unit` and `define_query_cpu_unit`: one item for each name, with its automaton if one is named.
#[derive(Debug, Drop)]
pub struct UnitItem {
    pub line: u32,
    pub form: u32,
    pub name: Name,
    pub automaton: Option<Name>,
    /// Whether it is a query unit.
    pub query: bool,
}

/// `define_reservation`.
#[derive(Debug, Drop)]
pub struct ReservationItem {
    pub line: u32,
    pub form: u32,
    pub name: Name,
    pub expr: Expr,
}

/// `define_insn_reservation`. The latency is in cycles, 0 to 1,000.
#[derive(Debug, Drop)]
pub struct ClassItem {
    pub line: u32,
    pub form: u32,
    pub name: Name,
    pub latency: u32,
    pub condition: Condition,
    pub expr: Expr,
}

/// `define_bypass`: between each class of `outs`, which produces, and each of `ins`, which consumes, the latency is
/// `number`, in cycles, 0 to 1,000; with the guard `store_data_bypass_p` only where the consumer stores what is produced.
#[derive(Debug, Drop)]
pub struct BypassItem {
    pub line: u32,
    pub form: u32,
    pub number: u32,
    pub outs: Vec<Name>,
    pub ins: Vec<Name>,
    /// Whether it has the guard.
    pub guard: bool,
}

/// The five set forms.
#[derive(Clone, Copy, Debug, PartialEq, Eq)]
pub enum SetForm {
    /// `exclusion_set`
    Exclusion,
    /// `presence_set`
    Presence,
    /// `final_presence_set`
    FinalPresence,
    /// `absence_set`
    Absence,
    /// `final_absence_set`
    FinalAbsence,
}

/// A set form. Of an exclusion each unit of the second string is a pattern by itself.
#[derive(Debug, Drop)]
pub struct SetItem {
    pub line: u32,
    pub form: u32,
    pub kind: SetForm,
    pub units: Vec<Name>,
    pub patterns: Vec<Vec<Name>>,
}

/// `define_attr`: the values that the attribute may have, and its default in `fallback`. GCC Internals, "Defining
/// Attributes and their Values".
#[derive(Debug, Drop)]
pub struct AttrItem {
    pub line: u32,
    pub form: u32,
    pub name: Name,
    pub values: Vec<Name>,
    pub fallback: Name,
}

/// What one form adds to a description.
#[derive(Drop)]
pub enum Addition {
    Automata(Vec<AutomatonItem>),
    Units(Vec<UnitItem>),
    Reservation(ReservationItem),
    Class(ClassItem),
    Bypass(BypassItem),
    Set(SetItem),
    Options(crate::options::Options),
    Attribute(AttrItem),
}
