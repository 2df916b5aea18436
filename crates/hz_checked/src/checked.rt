//! What a description without a fault gives.

ghost use Rattle.std.specs.Prelude.{map};
ghost use Rattle.hz_checked.specs.Shape.{automaton_of, class_of, bypass_of, attribute_of};
ghost use Rattle.hz_description_model.specs.Check.CheckedShape.{IsKept, AskNothingUnderNdfa};
ghost use Rattle.std.proofs.Props.{props};

use hz_grid::Grid;
use hz_mdread::{Condition, Options};
use hz_regexp::Name;
use hz_unitsets::SetRule;

/// A description without a fault: all names are numbers, and each class has its grids.
#[derive(Drop)]
pub struct Checked {
    /// 1 to 16 automata, in the order of the file. Where none is defined there is one, which is written `-`.
    pub automata: Vec<CheckedAutomaton>,
    /// At most 1,024 classes of different names, in the order of the file.
    pub classes: Vec<CheckedClass>,
    /// The bypasses, in the order of the file. No two without the guard give one pair of classes different numbers.
    pub bypasses: Vec<CheckedBypass>,
    /// The attributes with their values, in the order of the file.
    pub attributes: Vec<(Name, Vec<Name>)>,
    /// The default of each attribute.
    pub defaults: Vec<(Name, Name)>,
    pub options: Options,
    pub ghost kept: { IsKept (map automaton_of automata.items) (map class_of classes.items) (map bypass_of bypasses.items) (map attribute_of attributes.items) } by { Prim.hlevel props },
    pub ghost asks: { AskNothingUnderNdfa options.ndfa (map automaton_of automata.items) } by { Prim.hlevel props },
}

/// An automaton.
#[derive(Drop)]
pub struct CheckedAutomaton {
    pub name: Name,
    /// At most `UNITS` of `hz_grid`, by their numbers.
    pub units: Vec<Name>,
    /// The query units among them by their numbers, in order of definition. With the option `ndfa` there are none.
    pub queries: Vec<u8>,
    /// The sets on its units.
    pub sets: Vec<SetRule>,
}

/// An instruction class.
#[derive(Drop)]
pub struct CheckedClass {
    pub name: Name,
    /// The line of its form, counted from 1.
    pub line: u32,
    /// In cycles, at most 1,000.
    pub latency: u32,
    pub condition: Condition,
    /// For each automaton its alternatives cut down to the automaton's units, in order, each later equal one dropped.
    pub lists: Vec<Vec<Grid>>,
}

/// A bypass. The classes are reported by their numbers.
#[derive(Debug, PartialEq, Eq, Drop)]
pub struct CheckedBypass {
    /// The latency between them, in cycles, at most 1,000.
    pub number: u32,
    /// The producing classes.
    pub outs: Vec<u32>,
    /// The consuming classes.
    pub ins: Vec<u32>,
    /// Whether it has the guard `store_data_bypass_p`.
    pub guard: bool,
}
