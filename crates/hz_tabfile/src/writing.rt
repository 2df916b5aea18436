//! Writing the tables text.

ghost use Rattle.std.specs.Prelude.{◌-◌, ◌^◌, ◌<◌, All};
ghost use Rattle.hz_auto.specs.Machines.{reports_of};
ghost use Rattle.hz_pipeline_model.specs.Single.Reported.{ListsAscending};
ghost use Rattle.hz_io.specs.Sink.{Writes};
ghost use Rattle.hz_tabtext_model.specs.Texts.{TableText, spelled};
ghost use Rattle.hz_tables.specs.Machines.{machine_of};
ghost use Rattle.hz_tabfile.specs.Saying.{IsSayable, says};

pub mod laws;
mod lines;
mod parts;
mod ranges;
mod rows;
mod shown;

use hz_auto::Compiled;
use hz_checked::Checked;
use hz_io::page::{Page, flush};
use hz_io::{Failed, Sink};
use parts::add_tables;
use ranges::is_in_range;

/// The text of a compiled machine stands for it, and the grids that are shown in it are listed in ascending order of their pairs. It
/// looks at all parts and changes nothing. What is reported of each automaton fits its part and its units, and states are shown exactly
/// beside both `v` and `no-minimization`: the law `compiled_descriptions_are_sayable`.
pub fn text_stands(compiled: &Compiled, checked: &Checked)
    requires sayable { IsSayable compiled.now checked.now }
    ensures stands { TableText (spelled (says compiled.now checked.now)) (machine_of compiled.now.machine) }
    ensures listed { All ListsAscending (reports_of compiled.now.reports.items) }
{
    is_in_range(compiled, checked);
}

/// Writes the text of a compiled machine: its classes and its automata, with the counts of each before minimisation under
/// `stats`, and what each state is beside both `v` and `no-minimization`. It takes no memory. Where the sink fails, a front
/// of the text was written. What is reported fits as `text_stands` asks. docs/FORMATS.md, 'Tables'.
pub fn write_tables<S: Sink>(
    compiled: &Compiled,
    checked: &Checked,
    out: &mut S,
) -> Result<(), Failed>
    requires faults { S.faults out.old < 2 ^ 64 - 1 }
    requires sayable { IsSayable compiled.now checked.now }
    ensures written { Writes S.written S.room S.faults out.old out.new (spelled (says compiled.now checked.now)) result }
    ensures stands { TableText (spelled (says compiled.now checked.now)) (machine_of compiled.now.machine) }
{
    text_stands(compiled, checked);
    let mut page = Page::new();
    match add_tables(out, &mut page, compiled, checked) {
        Ok(()) => flush(out, &mut page),
        Err(failed) => Err(failed),
    }
}
