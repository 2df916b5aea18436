//! What holds of a compiled description by the types of what it is made of: each part is looked at, and nothing changes.

ghost use Rattle.std.specs.Prelude.{◌≤◌, IsTrue, All, length, map};
ghost use Rattle.std.specs.Option.{ForSome};
ghost use Rattle.hz_base_model.specs.Names.{is_name};
ghost use Rattle.hz_pipeline_model.specs.Tables.StateLimits.{state_limit};
ghost use Rattle.hz_tables.specs.Parts.{rows_of};
ghost use Rattle.hz_tables.specs.Machines.{machine_of};
ghost use Rattle.hz_checked.specs.Shape.{automaton_of};
ghost use Rattle.hz_auto.specs.Reports.{shown_of, report_of};
ghost use Rattle.hz_auto.specs.Machines.{reports_of};
ghost use Rattle.hz_grid.specs.Grids.{IsGrid};
ghost use Rattle.hz_pipeline_model.specs.Single.Reported.{ListsAscending};
ghost use Rattle.hz_tabtext_model.specs.Texts.{AreCounts};
ghost use Rattle.hz_tabtext_model.specs.Said.{counts_said, IsInRange};

use hz_auto::{AutoReport, Compiled, Shown};
use hz_checked::{Checked, CheckedAutomaton};
use hz_grid::Grid;
use hz_regexp::Name;
use hz_tables::{Part, Table};

/// Names are names.
fn are_names(names: &[Name])
    ensures { All (λ name. IsTrue (is_name name)) names.now }
{
    for name in names {
        let _bytes = name.bytes();
    }
}

/// The units of automata have names.
fn are_units(automata: &[CheckedAutomaton])
    ensures { All (λ automaton. All (λ name. IsTrue (is_name name)) automaton.units.items) automata.now }
{
    for automaton in automata {
        are_names(&automaton.units);
    }
}

/// A table has not too many rows.
fn is_table(table: &Table)
    ensures { length (rows_of table.now) ≤ state_limit }
{
    let _states = table.states();
}

/// Asks have names.
fn are_asked(parts: &[Part])
    ensures { All (λ part. All (λ name. IsTrue (is_name name)) part.asks.items) parts.now }
{
    for part in parts {
        are_names(&part.asks);
    }
}

/// Parts have names.
fn are_named(parts: &[Part])
    ensures { All (λ part. IsTrue (is_name part.name)) parts.now }
{
    for part in parts {
        let _bytes = part.name.bytes();
    }
}

/// Parts have not too many rows.
fn are_tables(parts: &[Part])
    ensures { All (λ part. length (rows_of part.table) ≤ state_limit) parts.now }
{
    for part in parts {
        is_table(&part.table);
    }
}

/// Grids are grids: their pairs ascend, and units and cycles are below their limits.
fn are_grids(grids: &[Grid])
    ensures { All IsGrid grids.now }
{
    for grid in grids {
        grid.kept();
    }
}

/// The grids of states are grids.
fn are_states(states: &[Vec<Grid>])
    ensures { All (λ grids. All IsGrid grids.items) states.now }
{
    for grids in states {
        are_grids(grids);
    }
}

/// The grids that are shown are grids.
fn is_shown(shown: &Option<Shown>)
    ensures { ForSome shown.now (λ shown. All (λ grids. All IsGrid grids.items) shown.grids.items) }
{
    match shown {
        Some(shown) => are_states(&shown.grids),
        None => {}
    }
}

/// Counts are below 2 ^ 32.
fn are_counts(grids: u32, states: u32, members: u32)
    ensures { AreCounts (record { grids = grids; states = states; members = members }) }
{
    let _counts = (grids, states, members);
}

/// The counts of reports are below 2 ^ 32.
fn are_counted(reports: &[AutoReport])
    ensures { All (λ report. AreCounts (counts_said (report_of report))) reports.now }
{
    for report in reports {
        are_counts(report.grids, report.states, report.members);
    }
}

/// The grids that reports show are grids.
fn are_shown(reports: &[AutoReport])
    ensures { All (λ report. ForSome report.shown (λ shown. All (λ grids. All IsGrid grids.items) shown.grids.items)) reports.now }
{
    for report in reports {
        is_shown(&report.shown);
    }
}

/// A compiled description is in range, and the grids that are shown of it are listed in ascending order.
pub fn is_in_range(compiled: &Compiled, checked: &Checked)
    ensures range { IsInRange (map automaton_of checked.now.automata.items) (reports_of compiled.now.reports.items) (machine_of compiled.now.machine) }
    ensures listed { All ListsAscending (reports_of compiled.now.reports.items) }
{
    are_names(&compiled.machine.classes);
    are_named(&compiled.machine.parts);
    are_asked(&compiled.machine.parts);
    are_tables(&compiled.machine.parts);
    are_units(&checked.automata);
    are_counted(&compiled.reports);
    are_shown(&compiled.reports);
}
