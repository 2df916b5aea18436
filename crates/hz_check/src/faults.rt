//! The faults, in files by what is asked, in the order in which `steps` asks them: a name that is twice defined, a reserved name, an
//! unknown name, an unknown automaton, a unit that needs an automaton (`of_names` joins these); a circular reservation, of
//! which `hz_check_reservations` tells; a self exclusion, a set across automata; the limits; an
//! alternation of two automata, and one of two lengths; a bypass twice; a query unit under `ndfa`.

pub(crate) mod alternations;
pub(crate) mod bypass_rows;
pub(crate) mod bypass_twice;
pub(crate) mod limits;
pub(crate) mod of_names;
pub(crate) mod past_expansions;
pub(crate) mod past_units;
pub(crate) mod query_under_ndfa;
pub(crate) mod reported;
pub(crate) mod reserved_name;
pub(crate) mod self_exclusion;
pub(crate) mod set_across_automata;
pub(crate) mod steps;
pub(crate) mod twice_defined;
pub(crate) mod unit_needs_automaton;
pub(crate) mod unknown_automaton;
pub(crate) mod unknown_in_conditions;
pub(crate) mod unknown_in_expressions;
pub(crate) mod unknown_in_items;
pub(crate) mod unknown_name;
