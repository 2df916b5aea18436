//! One automaton of a checked description, compiled.

ghost use Rattle.std.specs.Prelude.{◌≡◌, ◌<◌, ◌≤◌, ◌&&◌, length, map, All, IfOk, IfErr, if◌then◌else◌, true};
ghost use Rattle.std.specs.List.{sum_by};
ghost use Rattle.hz_pipeline_model.specs.Accepting.Replay.{first_fit, any_fit};
ghost use Rattle.hz_base_model.specs.Limits.{class_limit};
ghost use Rattle.hz_pipeline_model.specs.Tables.Machines.{IsPart};
ghost use Rattle.hz_pipeline_model.specs.Tables.Tables.{IsTable};
ghost use Rattle.hz_pipeline_model.specs.Tables.StateLimits.{grid_limit, member_limit};
ghost use Rattle.hz_tables.specs.Parts.{part_of, rows_of, columns_of};
ghost use Rattle.hz_pipeline_model.specs.Compiling.Compiled.{IsCompiledPart};
ghost use Rattle.hz_checked.specs.Shape.{automaton_of, class_of};
ghost use Rattle.hz_mdread.specs.Shape.{options as options_of};
ghost use Rattle.hz_determ.specs.Explored.{IsCaps, IsBuilt, AreWithin, PassesCap};
ghost use Rattle.hz_determ.specs.Spaces.{pipeline_of};
ghost use Rattle.hz_auto.specs.Asks.{IsAskable, HasRoom, IsAskFault};
ghost use Rattle.hz_auto.specs.Parts.{IsCapped, HasTable, IsKept, IsLeast, IsPastAt, IsWhole, found_part_of, shows};
ghost use Rattle.hz_auto.specs.Reports.{report_of};

use crate::asks::{add_asks, ask_names};
use crate::columns::{Columns, columns_of};
use crate::report::{AutoReport, report_on};
use hz_checked::{Checked, CheckedAutomaton};
use hz_determ::{Caps, Explored, StateFault, first, subset};
use hz_grid::Grid;
use hz_mdread::Options;
use hz_minim::minimise;
use hz_regexp::{Name, NoMemory};
use hz_tables::{Part, Plain, Table};
use hz_unitsets::Rules;
use std::alloc::Global;

/// The part of an automaton, and what is reported of it.
#[derive(Drop)]
pub(crate) struct Automaton {
    pub part: Part,
    pub report: AutoReport,
}

/// The same while its table is plain rows.
#[derive(Drop)]
pub(crate) struct Found {
    pub name: Name,
    pub map: Vec<u32>,
    pub asks: Vec<Name>,
    pub plain: Plain,
    pub report: AutoReport,
}

/// Whether what each state is is to be shown: beside both `v` and `no-minimization`.
pub(crate) fn shows_states(options: &Options) -> bool
    ensures { result ≡ shows options.now }
{
    options.verbose && options.no_minimization
}

// The limits on the counts of an automaton; smaller ones where each state is to be shown.
fn caps_of(shown: bool) -> Caps
    ensures capped { IsCapped shown result }
    ensures caps { IsCaps result }
{
    if shown {
        Caps {
            grids: 4096,
            states: 4096,
            members: 65536,
            cells: 4194304,
        }
    } else {
        Caps {
            grids: 65536,
            states: 65536,
            members: 1048576,
            cells: 4194304,
        }
    }
}

// The automaton of columns in the treatment that the options have.
fn explored(
    alloc: Global,
    ndfa: bool,
    columns: &[Vec<Grid>],
    rules: &Rules,
    caps: &Caps,
) -> Result<Explored, StateFault>
    requires columns { length columns.now ≤ class_limit }
    requires caps { IsCaps caps.now }
    ensures built { IfOk result (IsBuilt (if ndfa then any_fit else first_fit) rules.now columns.now) }
    ensures within { IfOk result (λ _. AreWithin (pipeline_of (if ndfa then any_fit else first_fit) rules.now columns.now) (length columns.now) caps.now) }
    ensures fault { IfErr result (PassesCap (pipeline_of (if ndfa then any_fit else first_fit) rules.now columns.now) (length columns.now) caps.now) }
{
    if ndfa {
        subset(alloc, columns, rules, caps)
    } else {
        first(alloc, columns, rules, caps)
    }
}

// An automaton that is explored, with a column for each of its query units, and its report.
fn whole(
    alloc: Global,
    automaton: &CheckedAutomaton,
    shown: bool,
    map: Vec<u32>,
    explored: Explored,
    caps: &Caps,
) -> Result<Found, StateFault>
    requires members { sum_by (λ set. length set.items) explored.sets.items ≤ member_limit }
    requires numbers { All (λ set. All (λ number. number < length explored.grids.items) set.items) explored.sets.items }
    requires few { length explored.grids.items ≤ grid_limit }
    requires queries { All (λ unit. unit < length automaton.now.units.items) automaton.now.queries.items }
    requires askable { IsAskable explored automaton.now.queries.items caps.now }
    ensures whole { IfOk result (IsWhole (automaton_of automaton.now) shown map.items explored) }
    ensures within { IfOk result (λ _. HasRoom explored automaton.now.queries.items caps.now.cells) }
    ensures fault { IfErr result (IsAskFault explored automaton.now.queries.items caps.now.cells) }
{
    let report = report_on(alloc, shown, &explored)?;
    let name = automaton.name.copy()?;
    let asks = ask_names(alloc, automaton)?;
    match add_asks(alloc, explored, &automaton.queries, caps) {
        Ok(plain) => Ok(Found {
            name,
            map,
            asks,
            plain,
            report,
        }),
        Err(fault) => Err(fault),
    }
}

// The automaton of this number with its states as they were found; else a count of it that is above its limit.
fn found_part(alloc: Global, checked: &Checked, automaton: usize) -> Result<Found, StateFault>
    requires { automaton < length checked.now.automata.items }
    ensures compiled { IfOk result (λ all. IsCompiledPart true (options_of checked.now.options) (map automaton_of checked.now.automata.items) (map class_of checked.now.classes.items) automaton (found_part_of all) (report_of all.report)) }
    ensures kept { IfOk result (λ all. IsPart (length checked.now.classes.items) (found_part_of all)) }
    ensures table { IfOk result HasTable }
    ensures fault { IfErr result (IsPastAt (options_of checked.now.options) (map automaton_of checked.now.automata.items) (map class_of checked.now.classes.items) automaton) }
{
    let parts = &checked.automata[automaton];
    let columns = columns_of(alloc, &checked.classes, automaton)?;
    let rules = Rules::build(alloc, &parts.sets)?;
    let shown = shows_states(&checked.options);
    let caps = caps_of(shown);
    let Columns { lists, map } = columns;
    match explored(alloc, checked.options.ndfa, &lists, &rules, &caps) {
        Ok(explored) => whole(alloc, parts, shown, map, explored, &caps),
        Err(fault) => Err(fault),
    }
}

// The automaton with the least table that walks what its table walks.
fn least(alloc: Global, found: Found) -> Result<Found, NoMemory>
    requires { HasTable found }
    ensures part { IfOk result (λ least. IsLeast (found_part_of found) (found_part_of least)) }
    ensures table { IfOk result HasTable }
    ensures report { IfOk result (λ least. report_of least.report ≡ report_of found.report) }
{
    let Found {
        name,
        map,
        asks,
        plain,
        report,
    } = found;
    let plain = minimise(alloc, &plain)?;
    Ok(Found {
        name,
        map,
        asks,
        plain,
        report,
    })
}

// The table, kept as the options ask.
fn table_of(alloc: Global, no_comb_vect: bool, plain: Plain) -> Result<Table, NoMemory>
    requires { IsTable plain.rows plain.columns }
    ensures rows { IfOk result (λ table. rows_of table ≡ plain.rows) }
    ensures columns { IfOk result (λ table. columns_of table ≡ plain.columns) }
    ensures form { IfOk result (IsKept no_comb_vect) }
{
    if no_comb_vect {
        Ok(Table::Rows(plain))
    } else {
        Table::packed(alloc, &plain)
    }
}

// The automaton, its table kept as the options ask.
fn kept(alloc: Global, no_comb_vect: bool, found: Found) -> Result<Automaton, NoMemory>
    requires { HasTable found }
    ensures part { IfOk result (λ all. part_of all.part ≡ found_part_of found) }
    ensures report { IfOk result (λ all. report_of all.report ≡ report_of found.report) }
    ensures form { IfOk result (λ all. IsKept no_comb_vect all.part.table) }
{
    let Found {
        name,
        map,
        asks,
        plain,
        report,
    } = found;
    let table = table_of(alloc, no_comb_vect, plain)?;
    let part = Part {
        name,
        map,
        asks,
        table,
    };
    Ok(Automaton { part, report })
}

// The automaton of this number: minimised unless the options have `no-minimization`. Else a count of it that is above its limit.
fn minimised(alloc: Global, checked: &Checked, automaton: usize) -> Result<Found, StateFault>
    requires { automaton < length checked.now.automata.items }
    ensures compiled { IfOk result (λ all. IsCompiledPart checked.now.options.no_minimization (options_of checked.now.options) (map automaton_of checked.now.automata.items) (map class_of checked.now.classes.items) automaton (found_part_of all) (report_of all.report)) }
    ensures kept { IfOk result (λ all. IsPart (length checked.now.classes.items) (found_part_of all)) }
    ensures table { IfOk result HasTable }
    ensures fault { IfErr result (IsPastAt (options_of checked.now.options) (map automaton_of checked.now.automata.items) (map class_of checked.now.classes.items) automaton) }
{
    let found = match found_part(alloc, checked, automaton) {
        Ok(found) => found,
        Err(fault) => return Err(fault),
    };
    if checked.options.no_minimization {
        return Ok(found);
    }
    Ok(least(alloc, found)?)
}

/// The automaton of this number, compiled: minimised unless the options have `no-minimization`, and its table packed unless
/// they have `no-comb-vect`. Else a count of it that is above its limit.
pub(crate) fn compile_part(
    alloc: Global,
    checked: &Checked,
    automaton: usize,
) -> Result<Automaton, StateFault>
    requires { automaton < length checked.now.automata.items }
    ensures compiled { IfOk result (λ all. IsCompiledPart checked.now.options.no_minimization (options_of checked.now.options) (map automaton_of checked.now.automata.items) (map class_of checked.now.classes.items) automaton (part_of all.part) (report_of all.report)) }
    ensures kept { IfOk result (λ all. IsPart (length checked.now.classes.items) (part_of all.part)) }
    ensures form { IfOk result (λ all. IsKept checked.now.options.no_comb_vect all.part.table) }
    ensures fault { IfErr result (IsPastAt (options_of checked.now.options) (map automaton_of checked.now.automata.items) (map class_of checked.now.classes.items) automaton) }
{
    let found = match minimised(alloc, checked, automaton) {
        Ok(found) => found,
        Err(fault) => return Err(fault),
    };
    Ok(kept(alloc, checked.options.no_comb_vect, found)?)
}
