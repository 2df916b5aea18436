//! Names with one alternative, each from some cycles on: what an expression with one alternative is taken apart into.

ghost use Rattle.std.specs.Prelude.{◌≡◌, ◌↔◌, ◌⊎◌, ◌+◌, ◌<◌, ◌≤◌, ℕ, IfOk, OnOk, IsTrue, length};
ghost use Rattle.std.specs.Option.{option_copied};
ghost use Rattle.hz_grid.specs.Sets.{HasCycle};
ghost use Rattle.hz_altern.specs.Leaves.{HasIn, IsGathered, AddsCopies};
ghost use Rattle.hz_altern.specs.Tables.{alternatives_in, known_alternatives, is_held};
ghost use Rattle.hz_description_model.specs.Reservations.Alternatives.{alternatives_of, in_sequence, together, copies, parts_of};
ghost use Rattle.hz_description_model.specs.Reservations.AlternativeLists.{greatest_length};
ghost use Rattle.hz_description_model.specs.Reservations.Expressions.{is_expression, are_expressions};
ghost use Rattle.hz_description_model.specs.Reservations.NamesIn.{all_names, all_names_in};
ghost use Rattle.hz_base_model.specs.Limits.{cycle_limit};
ghost use Rattle.hz_regexp.specs.Shape.{expression, expressions};

use crate::fault::NoMemory;
use crate::known::Known;
use hz_grid::Cycles;
use hz_regexp::{Expr, Name};
use indexmap::IndexMap;
use std::alloc::Global;

/// Names, each with the cycles in which it begins.
#[derive(Drop)]
pub struct Leaves {
    names: IndexMap<Name, Cycles>,
}

impl Leaves {
    ghost use Rattle.std.specs.Prelude.{◌≡◌, ◌<◌, [], Some, OnOk, length, slice_get};
    ghost use Rattle.hz_altern.specs.Leaves.{BeginsToo};

    /// No name begins. It takes no memory.
    pub fn new(alloc: Global) -> Leaves
        ensures { result.names.entries ≡ [] }
    {
        Leaves {
            names: IndexMap::new(alloc),
        }
    }

    /// The name begins in these cycles too.
    fn add(&mut self, name: &Name, cycles: Cycles) -> Result<(), NoMemory>
        ensures { OnOk result (BeginsToo self.old self.new name.now cycles) }
    {
        let all = joined(self.names.get(name), cycles);
        self.names.insert(name.copy()?, all)?;
        Ok(())
    }

    /// How many names begin.
    pub fn len(&self) -> usize
        ensures { result ≡ length self.now.names.entries }
    {
        self.names.len()
    }

    /// The name at a place, and the cycles in which it begins.
    pub fn at(&self, place: usize) -> (&Name, Cycles)
        requires { place < length self.now.names.entries }
        ensures { slice_get self.now.names.entries place ≡ Some (result.0.now, result.1) }
    {
        match self.names.get_index(place) {
            Some((name, cycles)) => (name, *cycles),
            None => unreachable!(),
        }
    }
}

/// The cycles of a set, where there is one, and of another.
fn joined(first: Option<&Cycles>, second: Cycles) -> Cycles
    ensures { (cycle : ℕ) → HasCycle result cycle ↔ (HasIn (option_copied first.entry) cycle ⊎ HasCycle second cycle) }
{
    match first {
        Some(first) => first.join(second),
        None => second,
    }
}

/// For how many cycles the longest alternative of a name runs.
fn length_of(name: &Name, known: &Known) -> u32
    requires { IsTrue (is_held (alternatives_in known.now) name.now) }
    ensures { result ≡ greatest_length (known_alternatives known.now name.now) }
{
    match known.find(name) {
        Some(entry) => entry.extent.longest,
        None => unreachable!(),
    }
}

/// The set with one cycle.
fn only(cycle: u32) -> Cycles
    requires { cycle < cycle_limit }
    ensures { (other : ℕ) → HasCycle result other ↔ (other ≡ cycle) }
{
    Cycles::none().with(cycle)
}

/// Gathers a name with one alternative.
fn gather_name(name: &Name, start: u32, known: &Known, leaves: &mut Leaves) -> Result<u32, NoMemory>
    requires held { IsTrue (is_held (alternatives_in known.now) name.now) }
    requires one { length (known_alternatives known.now name.now) ≡ 1 }
    requires short { start + greatest_length (known_alternatives known.now name.now) ≤ cycle_limit }
    ensures length { IfOk result (λ length. length ≡ greatest_length (known_alternatives known.now name.now)) }
    ensures gathered { OnOk result (IsGathered known.now start (known_alternatives known.now name.now) leaves.old leaves.new) }
{
    let length = length_of(name, known);
    leaves.add(name, only(start))?;
    Ok(length)
}

/// Adds so many copies of other leaves, each so many cycles after the one before and the first from a cycle on: one step
/// for each name.
fn add_copies(
    once: &Leaves,
    times: u32,
    apart: u32,
    start: u32,
    leaves: &mut Leaves,
) -> Result<(), NoMemory>
    ensures { OnOk result (AddsCopies once.now.names.entries times apart start leaves.old leaves.new) }
{
    for place in 0..once.len() {
        let (name, cycles) = once.at(place);
        leaves.add(name, cycles.copies(times, apart).later(start))?;
    }
    Ok(())
}

/// Gathers what an expression with one alternative is taken apart into, where it begins in this cycle, and tells for how
/// many cycles it runs.
#[cycle(gathering)]
pub fn gather(
    alloc: Global,
    expr: &Expr,
    start: u32,
    known: &Known,
    leaves: &mut Leaves,
) -> Result<u32, NoMemory>
    requires formed { IsTrue (is_expression (expression expr.now)) }
    requires held { IsTrue (all_names (is_held (alternatives_in known.now)) (expression expr.now)) }
    requires one { length (alternatives_of (known_alternatives known.now) (expression expr.now)) ≡ 1 }
    requires short { start + greatest_length (alternatives_of (known_alternatives known.now) (expression expr.now)) ≤ cycle_limit }
    ensures length { IfOk result (λ length. length ≡ greatest_length (alternatives_of (known_alternatives known.now) (expression expr.now))) }
    ensures gathered { OnOk result (IsGathered known.now start (alternatives_of (known_alternatives known.now) (expression expr.now)) leaves.old leaves.new) }
{
    match expr {
        Expr::Named(name) => gather_name(name, start, known, leaves),
        Expr::Nothing => Ok(1),
        Expr::Seq(parts) => gather_sequence(alloc, parts, start, known, leaves),
        Expr::Oneof(_parts) => unreachable!(),
        Expr::Allof(parts) => gather_together(alloc, parts, start, known, leaves),
        Expr::Repeat(part, times) => gather_copies(alloc, part, *times, start, known, leaves),
    }
}

/// The same of parts one after another.
#[cycle(gathering)]
fn gather_sequence(
    alloc: Global,
    parts: &[Expr],
    start: u32,
    known: &Known,
    leaves: &mut Leaves,
) -> Result<u32, NoMemory>
    requires formed { IsTrue (are_expressions (parts_of (expressions parts.now))) }
    requires held { IsTrue (all_names_in (is_held (alternatives_in known.now)) (parts_of (expressions parts.now))) }
    requires one { length (in_sequence (known_alternatives known.now) (parts_of (expressions parts.now))) ≡ 1 }
    requires short { start + greatest_length (in_sequence (known_alternatives known.now) (parts_of (expressions parts.now))) ≤ cycle_limit }
    ensures length { IfOk result (λ length. length ≡ greatest_length (in_sequence (known_alternatives known.now) (parts_of (expressions parts.now)))) }
    ensures gathered { OnOk result (IsGathered known.now start (in_sequence (known_alternatives known.now) (parts_of (expressions parts.now))) leaves.old leaves.new) }
{
    let mut length = 0;
    for part in parts {
        length += gather(alloc, part, start + length, known, leaves)?;
    }
    Ok(length)
}

/// The same of parts that begin in the same cycle.
#[cycle(gathering)]
fn gather_together(
    alloc: Global,
    parts: &[Expr],
    start: u32,
    known: &Known,
    leaves: &mut Leaves,
) -> Result<u32, NoMemory>
    requires formed { IsTrue (are_expressions (parts_of (expressions parts.now))) }
    requires held { IsTrue (all_names_in (is_held (alternatives_in known.now)) (parts_of (expressions parts.now))) }
    requires one { length (together (known_alternatives known.now) (parts_of (expressions parts.now))) ≡ 1 }
    requires short { start + greatest_length (together (known_alternatives known.now) (parts_of (expressions parts.now))) ≤ cycle_limit }
    ensures length { IfOk result (λ length. length ≡ greatest_length (together (known_alternatives known.now) (parts_of (expressions parts.now)))) }
    ensures gathered { OnOk result (IsGathered known.now start (together (known_alternatives known.now) (parts_of (expressions parts.now))) leaves.old leaves.new) }
{
    let mut length = 0;
    for part in parts {
        length = gather(alloc, part, start, known, leaves)?.max(length);
    }
    Ok(length)
}

/// The same of so many copies one after another. The part is gathered once, and each name that it is taken apart into is
/// added once, in the cycles of all copies.
#[cycle(gathering)]
fn gather_copies(
    alloc: Global,
    part: &Expr,
    times: u32,
    start: u32,
    known: &Known,
    leaves: &mut Leaves,
) -> Result<u32, NoMemory>
    requires formed { IsTrue (is_expression (expression part.now)) }
    requires held { IsTrue (all_names (is_held (alternatives_in known.now)) (expression part.now)) }
    requires one { length (alternatives_of (known_alternatives known.now) (expression part.now)) ≡ 1 }
    requires times { 1 ≤ times }
    requires short { start + greatest_length (copies times (alternatives_of (known_alternatives known.now) (expression part.now))) ≤ cycle_limit }
    ensures length { IfOk result (λ length. length ≡ greatest_length (copies times (alternatives_of (known_alternatives known.now) (expression part.now)))) }
    ensures gathered { OnOk result (IsGathered known.now start (copies times (alternatives_of (known_alternatives known.now) (expression part.now))) leaves.old leaves.new) }
{
    if times == 1 {
        return gather(alloc, part, start, known, leaves);
    }
    let mut once = Leaves::new(alloc);
    let length = gather(alloc, part, 0, known, &mut once)?;
    add_copies(&once, times, length, start, leaves)?;
    Ok(times * length)
}
