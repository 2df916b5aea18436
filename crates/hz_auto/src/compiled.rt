//! The machine of a checked description.

ghost use Rattle.std.specs.Prelude.{◌≡◌, ◌<◌, ◌≤◌, ◌^◌, ◌++◌, ◌∷◌, [], length, map, All, IfOk, IfErr, OnOk};
ghost use Rattle.hz_pipeline_model.specs.Compiling.Compiled.{IsCompiled};
ghost use Rattle.hz_checked.specs.Shape.{automaton_of, class_of};
ghost use Rattle.hz_mdread.specs.Shape.{options as options_of};
ghost use Rattle.hz_pipeline_model.specs.Tables.Machines.{IsPart};
ghost use Rattle.hz_tables.specs.Machines.{machine_of};
ghost use Rattle.hz_tables.specs.Parts.{part_of};
ghost use Rattle.hz_auto.specs.Parts.{IsKept};
ghost use Rattle.hz_auto.specs.Machines.{IsFaultOf, IsFaultAt, AreCompiled, AskQueries, reports_of};

use crate::fault::{AutoFault, kind_of};
use crate::part::{Automaton, compile_part};
use crate::report::AutoReport;
use hz_checked::{Checked, CheckedClass};
use hz_determ::StateFault;
use hz_mdread::Options;
use hz_regexp::{Name, NoMemory};
use hz_tables::{Machine, Part};
use std::alloc::Global;

/// The machine of a description, with what is reported of each of its automata.
#[derive(Drop)]
pub struct Compiled {
    pub machine: Machine,
    /// One for each automaton, in their order.
    pub reports: Vec<AutoReport>,
    pub options: Options,
}

// A part and a report for each automaton.
#[derive(Drop)]
struct Automata {
    parts: Vec<Part>,
    reports: Vec<AutoReport>,
}

// The names of classes.
fn names_of(alloc: Global, classes: &[CheckedClass]) -> Result<Vec<Name>, NoMemory>
    ensures { IfOk result (λ names. names.items ≡ map (λ c. c.name) classes.now) }
{
    let mut names = Vec::with_capacity(alloc, classes.len())?;
    for class in classes {
        names.push(class.name.copy()?)?;
    }
    Ok(names)
}

// The fault of the automaton of this number.
fn fault_at(ndfa: bool, automaton: usize, fault: StateFault) -> AutoFault
    requires { automaton < 2 ^ 32 }
    ensures { IsFaultAt ndfa automaton fault result }
{
    match kind_of(ndfa, fault) {
        Some(kind) => AutoFault::Limit {
            automaton: automaton as u32,
            kind,
        },
        None => AutoFault::NoMemory,
    }
}

impl Automata {
    // One more automaton.
    fn add(&mut self, automaton: Automaton) -> Result<(), NoMemory>
        ensures parts { OnOk result (self.new.parts.items ≡ self.old.parts.items ++ automaton.part ∷ []) }
        ensures reports { OnOk result (self.new.reports.items ≡ self.old.reports.items ++ automaton.report ∷ []) }
    {
        let Automaton { part, report } = automaton;
        self.parts.push(part)?;
        self.reports.push(report)?;
        Ok(())
    }
}

// The automata, compiled one after the other, each within its limits.
fn compile_parts(alloc: Global, checked: &Checked) -> Result<Automata, AutoFault>
    ensures compiled { IfOk result (λ all. AreCompiled checked.now (length checked.now.automata.items) all.parts.items all.reports.items) }
    ensures kept { IfOk result (λ all. All (λ part. IsPart (length checked.now.classes.items) (part_of part)) all.parts.items) }
    ensures asks { IfOk result (λ all. AskQueries checked.now all.parts.items) }
    ensures forms { IfOk result (λ all. All (λ part. IsKept checked.now.options.no_comb_vect part.table) all.parts.items) }
    ensures fault { IfErr result (IsFaultOf checked.now) }
{
    let mut all = Automata {
        parts: Vec::new(alloc),
        reports: Vec::new(alloc),
    };
    for automaton in 0..checked.automata.len() {
        let compiled = match compile_part(alloc, checked, automaton) {
            Ok(compiled) => compiled,
            Err(fault) => return Err(fault_at(checked.options.ndfa, automaton, fault)),
        };
        match all.add(compiled) {
            Ok(()) => {}
            Err(_) => return Err(AutoFault::NoMemory),
        }
    }
    Ok(all)
}

// The machine of these classes and parts.
fn machine_on(alloc: Global, checked: &Checked, parts: Vec<Part>) -> Result<Machine, NoMemory>
    requires each { length parts.items ≡ length checked.now.automata.items }
    requires kept { All (λ part. IsPart (length checked.now.classes.items) (part_of part)) parts.items }
    requires asks { AskQueries checked.now parts.items }
    ensures machine { IfOk result (λ machine. machine_of machine ≡ record { classes = map (λ c. c.name) checked.now.classes.items; parts = map part_of parts.items }) }
    ensures parts { IfOk result (λ machine. machine.parts.items ≡ parts.items) }
{
    let classes = names_of(alloc, &checked.classes)?;
    Ok(Machine { classes, parts })
}

/// The machine of a checked description: for each automaton, in their order, a part that walks just what the automaton
/// accepts, and the counts of its grids, states and members before minimisation. Classes with equal lists share a column,
/// numbered by the first class of each; each query unit has a column, which tells where it is held. States are apart from one another, or with `no-minimization` what accepted events
/// leave, and numbered breadth-first. Tables are packed over cells of the least width, or under `no-comb-vect` kept as rows.
/// `Limit` exactly where some automaton has a count above its limit; it tells the first such automaton. docs/RULES.md,
/// 'States and tables'.
pub fn compile(alloc: Global, checked: &Checked) -> Result<Compiled, AutoFault>
    ensures compiled { IfOk result (λ all. IsCompiled (options_of checked.now.options) (map automaton_of checked.now.automata.items) (map class_of checked.now.classes.items) (machine_of all.machine) (reports_of all.reports.items)) }
    ensures options { IfOk result (λ all. all.options ≡ checked.now.options) }
    ensures forms { IfOk result (λ all. All (λ part. IsKept checked.now.options.no_comb_vect part.table) all.machine.parts.items) }
    ensures fault { IfErr result (IsFaultOf checked.now) }
{
    let Automata { parts, reports } = match compile_parts(alloc, checked) {
        Ok(all) => all,
        Err(fault) => return Err(fault),
    };
    match machine_on(alloc, checked, parts) {
        Ok(machine) => Ok(Compiled {
            machine,
            reports,
            options: checked.options,
        }),
        Err(_) => Err(AutoFault::NoMemory),
    }
}
