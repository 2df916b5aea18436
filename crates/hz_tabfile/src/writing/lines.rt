//! Lines of numbers and names.

ghost use Rattle.std.specs.Prelude.{◌-◌, ◌^◌, ◌<◌, [], ◌∷◌, if◌then◌else◌, decimal, codes};
ghost use Rattle.std.specs.List.{flat_map};
ghost use Rattle.hz_tabtext_model.specs.Texts.{entry_field, line_text, map_line, asks_lines, counts_lines, class_line};
ghost use Rattle.hz_tabtext_model.specs.Said.{counts_said};
ghost use Rattle.hz_auto.specs.Reports.{report_of};
ghost use Rattle.hz_io.specs.Pages.{Adds};
ghost use Rattle.hz_tabfile.specs.Spaced.{spaced};

use hz_auto::AutoReport;
use hz_io::page::{Page, add, add_all, end_line};
use hz_io::{Failed, Sink};
use hz_regexp::Name;
use itoa::Buffer;

/// Adds a number after a space.
pub fn add_number<S: Sink>(out: &mut S, page: &mut Page, number: u32) -> Result<(), Failed>
    requires { S.faults out.old < 2 ^ 64 - 1 }
    ensures { Adds S.written S.room S.faults out.old out.new page.old.items page.new.items (spaced (decimal number)) result }
{
    let mut digits = Buffer::new();
    add_all(out, page, &[b" ", digits.format(number).as_bytes()])
}

/// Adds an entry after a space.
pub fn add_entry<S: Sink>(out: &mut S, page: &mut Page, entry: Option<u32>) -> Result<(), Failed>
    requires { S.faults out.old < 2 ^ 64 - 1 }
    ensures { Adds S.written S.room S.faults out.old out.new page.old.items page.new.items (spaced (entry_field entry)) result }
{
    match entry {
        Some(state) => add_number(out, page, state),
        None => add(out, page, b" -"),
    }
}

/// Adds numbers, each after a space.
fn add_numbers<S: Sink>(out: &mut S, page: &mut Page, numbers: &[u32]) -> Result<(), Failed>
    requires { S.faults out.old < 2 ^ 64 - 1 }
    ensures { Adds S.written S.room S.faults out.old out.new page.old.items page.new.items (flat_map (λ number. spaced (decimal number)) numbers.now) result }
{
    for number in numbers {
        match add_number(out, page, *number) {
            Ok(()) => {}
            Err(failed) => return Err(failed),
        }
    }
    Ok(())
}

/// Adds the line of a class.
pub fn add_class<S: Sink>(out: &mut S, page: &mut Page, class: &Name) -> Result<(), Failed>
    requires { S.faults out.old < 2 ^ 64 - 1 }
    ensures { Adds S.written S.room S.faults out.old out.new page.old.items page.new.items (line_text (class_line class.now)) result }
{
    add_all(out, page, &[b"class ", class.bytes(), b"\n"])
}

/// Adds the line of a word and a number.
pub fn add_count<S: Sink>(
    out: &mut S,
    page: &mut Page,
    word: &[u8],
    count: u32,
) -> Result<(), Failed>
    requires { S.faults out.old < 2 ^ 64 - 1 }
    ensures { Adds S.written S.room S.faults out.old out.new page.old.items page.new.items (line_text (word.now ∷ decimal count ∷ [])) result }
{
    let mut digits = Buffer::new();
    add_all(
        out,
        page,
        &[word, b" ", digits.format(count).as_bytes(), b"\n"],
    )
}

/// Adds the first line of an automaton.
pub fn add_head<S: Sink>(
    out: &mut S,
    page: &mut Page,
    name: &Name,
    columns: u32,
    states: u32,
) -> Result<(), Failed>
    requires { S.faults out.old < 2 ^ 64 - 1 }
    ensures { Adds S.written S.room S.faults out.old out.new page.old.items page.new.items (line_text (codes "automaton" ∷ name.now ∷ decimal columns ∷ decimal states ∷ [])) result }
{
    let mut column_digits = Buffer::new();
    let mut state_digits = Buffer::new();
    add_all(
        out,
        page,
        &[
            b"automaton ",
            name.bytes(),
            b" ",
            column_digits.format(columns).as_bytes(),
            b" ",
            state_digits.format(states).as_bytes(),
            b"\n",
        ],
    )
}

/// Adds the line of the columns of classes.
pub fn add_map<S: Sink>(out: &mut S, page: &mut Page, columns: &[u32]) -> Result<(), Failed>
    requires { S.faults out.old < 2 ^ 64 - 1 }
    ensures { Adds S.written S.room S.faults out.old out.new page.old.items page.new.items (line_text (map_line columns.now)) result }
{
    add(out, page, b"map")?;
    add_numbers(out, page, columns)?;
    end_line(out, page)
}

/// Adds a name after a space.
fn add_name<S: Sink>(out: &mut S, page: &mut Page, name: &Name) -> Result<(), Failed>
    requires { S.faults out.old < 2 ^ 64 - 1 }
    ensures { Adds S.written S.room S.faults out.old out.new page.old.items page.new.items (spaced name.now) result }
{
    add_all(out, page, &[b" ", name.bytes()])
}

/// Adds names, each after a space.
fn add_names<S: Sink>(out: &mut S, page: &mut Page, names: &[Name]) -> Result<(), Failed>
    requires { S.faults out.old < 2 ^ 64 - 1 }
    ensures { Adds S.written S.room S.faults out.old out.new page.old.items page.new.items (flat_map spaced names.now) result }
{
    for name in names {
        match add_name(out, page, name) {
            Ok(()) => {}
            Err(failed) => return Err(failed),
        }
    }
    Ok(())
}

/// Adds the line of the names of asks.
fn add_asked<S: Sink>(out: &mut S, page: &mut Page, asks: &[Name]) -> Result<(), Failed>
    requires { S.faults out.old < 2 ^ 64 - 1 }
    ensures { Adds S.written S.room S.faults out.old out.new page.old.items page.new.items (line_text (codes "asks" ∷ asks.now)) result }
{
    add(out, page, b"asks")?;
    add_names(out, page, asks)?;
    end_line(out, page)
}

/// Adds the line of asks, where the text has such lines.
pub fn add_asks<S: Sink>(
    out: &mut S,
    page: &mut Page,
    asked: bool,
    asks: &[Name],
) -> Result<(), Failed>
    requires { S.faults out.old < 2 ^ 64 - 1 }
    ensures { Adds S.written S.room S.faults out.old out.new page.old.items page.new.items (flat_map line_text (asks_lines asked asks.now)) result }
{
    if asked {
        add_asked(out, page, asks)
    } else {
        Ok(())
    }
}

/// Adds the line of counts.
fn add_stats<S: Sink>(out: &mut S, page: &mut Page, report: &AutoReport) -> Result<(), Failed>
    requires { S.faults out.old < 2 ^ 64 - 1 }
    ensures { Adds S.written S.room S.faults out.old out.new page.old.items page.new.items (line_text (codes "stats" ∷ decimal report.now.grids ∷ decimal report.now.states ∷ decimal report.now.members ∷ [])) result }
{
    let mut grid_digits = Buffer::new();
    let mut state_digits = Buffer::new();
    let mut member_digits = Buffer::new();
    add_all(
        out,
        page,
        &[
            b"stats ",
            grid_digits.format(report.grids).as_bytes(),
            b" ",
            state_digits.format(report.states).as_bytes(),
            b" ",
            member_digits.format(report.members).as_bytes(),
            b"\n",
        ],
    )
}

/// Adds the line of counts, where they are reported.
pub fn add_counts<S: Sink>(
    out: &mut S,
    page: &mut Page,
    reported: bool,
    report: &AutoReport,
) -> Result<(), Failed>
    requires { S.faults out.old < 2 ^ 64 - 1 }
    ensures { Adds S.written S.room S.faults out.old out.new page.old.items page.new.items (flat_map line_text (counts_lines (if reported then Some (counts_said (report_of report.now)) else None))) result }
{
    if reported {
        add_stats(out, page, report)
    } else {
        Ok(())
    }
}
