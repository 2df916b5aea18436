//! Lines of automata, and the whole text.

ghost use Rattle.std.specs.Prelude.{◌≡◌, ◌-◌, ◌^◌, ◌<◌, ◌≤◌, ◌++◌, ◌∷◌, [], ℕ, map, length, decimal, codes};
ghost use Rattle.std.specs.List.{flat_map, enumerate_from};
ghost use Rattle.std.specs.Option.{option_map};
ghost use Rattle.hz_base_model.specs.Limits.{class_limit};
ghost use Rattle.hz_pipeline_model.specs.Tables.Tables.{IsTable};
ghost use Rattle.hz_pipeline_model.specs.Tables.Machines.{advance_of};
ghost use Rattle.hz_tables.specs.Parts.{part_of};
ghost use Rattle.hz_tables.specs.Machines.{machine_of};
ghost use Rattle.hz_checked.specs.Shape.{automaton_of};
ghost use Rattle.hz_tabtext_model.specs.Texts.{line_text, header_line, treatment_line, class_line, part_lines, spelled};
ghost use Rattle.hz_tabtext_model.specs.Said.{part_said};
ghost use Rattle.hz_auto.specs.Reports.{shown_of, report_of};
ghost use Rattle.hz_auto.specs.Machines.{reports_of};
ghost use Rattle.hz_io.specs.Pages.{Adds};
ghost use Rattle.hz_tabfile.specs.Saying.{IsWritable, IsSayable, AreWritable, parts_says, are_asked, front_lines, says};

use crate::writing::lines::{add_asks, add_class, add_count, add_counts, add_head, add_map};
use crate::writing::rows::{add_states, all_columns};
use hz_auto::{AutoReport, Compiled};
use hz_checked::{Checked, CheckedAutomaton};
use hz_io::page::{Page, add};
use hz_io::{Failed, Sink};
use hz_regexp::Name;
use hz_tables::Part;

/// Adds the lines of classes.
fn add_classes<S: Sink>(out: &mut S, page: &mut Page, classes: &[Name]) -> Result<(), Failed>
    requires { S.faults out.old < 2 ^ 64 - 1 }
    ensures { Adds S.written S.room S.faults out.old out.new page.old.items page.new.items (flat_map (λ class. line_text (class_line class)) classes.now) result }
{
    for class in classes {
        match add_class(out, page, class) {
            Ok(()) => {}
            Err(failed) => return Err(failed),
        }
    }
    Ok(())
}

/// How many columns the classes of an automaton have.
fn class_columns(part: &Part) -> u32
    requires { IsTable (part_of part.now).rows (advance_of (part_of part.now)) }
    ensures { result ≡ (part_of part.now).columns }
{
    all_columns(part);
    part.table.columns() - part.asks.len() as u32
}

/// Adds the lines of an automaton with these units, one of its asks where the text has such lines.
fn add_part<S: Sink>(
    out: &mut S,
    page: &mut Page,
    asked: bool,
    stats: bool,
    units: &[Name],
    report: &AutoReport,
    part: &Part,
) -> Result<(), Failed>
    requires faults { S.faults out.old < 2 ^ 64 - 1 }
    requires writable { IsWritable units.now (part_of part.now) (option_map shown_of report.now.shown) }
    ensures { Adds S.written S.room S.faults out.old out.new page.old.items page.new.items (flat_map line_text (part_lines asked (part_said stats units.now (report_of report.now) (part_of part.now)))) result }
{
    add_head(
        out,
        page,
        &part.name,
        class_columns(part),
        part.table.states(),
    )?;
    add_map(out, page, &part.map)?;
    add_asks(out, page, asked, &part.asks)?;
    add_counts(out, page, stats, report)?;
    add_states(out, page, units, report, part)
}

/// Adds the lines of automata.
fn add_parts<S: Sink>(
    out: &mut S,
    page: &mut Page,
    asked: bool,
    stats: bool,
    automata: &[CheckedAutomaton],
    reports: &[AutoReport],
    parts: &[Part],
) -> Result<(), Failed>
    requires faults { S.faults out.old < 2 ^ 64 - 1 }
    requires writable { AreWritable automata.now reports.now parts.now }
    ensures { Adds S.written S.room S.faults out.old out.new page.old.items page.new.items (flat_map (λ part. flat_map line_text (part_lines asked part)) (parts_says stats automata.now reports.now parts.now)) result }
{
    for (number, part) in parts.iter().enumerate() {
        match add_part(
            out,
            page,
            asked,
            stats,
            &automata[number].units,
            &reports[number],
            part,
        ) {
            Ok(()) => {}
            Err(failed) => return Err(failed),
        }
    }
    Ok(())
}

/// Adds the lines before the first automaton.
fn add_front<S: Sink>(
    out: &mut S,
    page: &mut Page,
    asked: bool,
    ndfa: bool,
    classes: &[Name],
    automata: u32,
) -> Result<(), Failed>
    requires faults { S.faults out.old < 2 ^ 64 - 1 }
    requires few { length classes.now ≤ class_limit }
    ensures { Adds S.written S.room S.faults out.old out.new page.old.items page.new.items (flat_map line_text (front_lines asked ndfa classes.now automata)) result }
{
    add_header(out, page, asked)?;
    add_treatment(out, page, ndfa)?;
    add_count(out, page, b"classes", classes.len() as u32)?;
    add_classes(out, page, classes)?;
    add_count(out, page, b"automata", automata)
}

/// Adds the first line: version 2 where the text has lines of asks.
fn add_header<S: Sink>(out: &mut S, page: &mut Page, asked: bool) -> Result<(), Failed>
    requires { S.faults out.old < 2 ^ 64 - 1 }
    ensures { Adds S.written S.room S.faults out.old out.new page.old.items page.new.items (line_text (header_line asked)) result }
{
    if asked {
        add(out, page, b"hazard-tables 2\n")
    } else {
        add(out, page, b"hazard-tables 1\n")
    }
}

/// Adds the line of the treatment.
fn add_treatment<S: Sink>(out: &mut S, page: &mut Page, ndfa: bool) -> Result<(), Failed>
    requires { S.faults out.old < 2 ^ 64 - 1 }
    ensures { Adds S.written S.room S.faults out.old out.new page.old.items page.new.items (line_text (treatment_line ndfa)) result }
{
    if ndfa {
        add(out, page, b"treatment ndfa\n")
    } else {
        add(out, page, b"treatment first\n")
    }
}

/// Whether a part has an ask.
fn are_asked(parts: &[Part]) -> bool
    ensures { result ≡ are_asked parts.now }
{
    for part in parts {
        if !part.asks.is_empty() {
            return true;
        }
    }
    false
}

/// Adds the whole text.
pub fn add_tables<S: Sink>(
    out: &mut S,
    page: &mut Page,
    compiled: &Compiled,
    checked: &Checked,
) -> Result<(), Failed>
    requires faults { S.faults out.old < 2 ^ 64 - 1 }
    requires sayable { IsSayable compiled.now checked.now }
    ensures { Adds S.written S.room S.faults out.old out.new page.old.items page.new.items (spelled (says compiled.now checked.now)) result }
{
    let machine = &compiled.machine;
    let automata = machine.parts.len() as u32;
    let asked = are_asked(&machine.parts);
    add_front(
        out,
        page,
        asked,
        compiled.options.ndfa,
        &machine.classes,
        automata,
    )?;
    add_parts(
        out,
        page,
        asked,
        compiled.options.stats,
        &checked.automata,
        &compiled.reports,
        &machine.parts,
    )?;
    add(out, page, b"end\n")
}
