//! Rows by hand, and by programs of other languages, of what each layer below the commands answers, read from the files of
//! `data/`. `reader` says how they are written, and the file of an answer what its texts are.
#![tactic(auto)]

mod automata;
mod faults;
mod judging;
mod reader;
mod schedules;
mod subject;
mod tables;
mod texts;
mod written;

use automata::StepRow;
use judging::{Counts, judge_file};
use schedules::ScheduleRow;
use std::io;
use subject::Subject;
use subject::Subject::{Schedule, Step, Table, Text};
use tables::TableRow;
use texts::TextRow;

/// The files of rows, each with what its rows ask.
const FILES: [(&str, Subject); 51] = [
    ("texts/forms.rows", Text(TextRow::Forms)),
    ("texts/expressions.rows", Text(TextRow::Expressions)),
    ("texts/lists.rows", Text(TextRow::Lists)),
    ("texts/names.rows", Text(TextRow::Names)),
    ("texts/descriptions.rows", Text(TextRow::Descriptions)),
    ("texts/shapes.rows", Text(TextRow::Descriptions)),
    ("texts/conditions.rows", Text(TextRow::Conditions)),
    ("texts/blocks.rows", Text(TextRow::Blocks)),
    ("texts/words.rows", Text(TextRow::Words)),
    ("texts/reading.rows", Text(TextRow::Reading)),
    ("texts/openings.rows", Text(TextRow::Openings)),
    ("texts/sinks.rows", Text(TextRow::Sinks)),
    ("texts/sites.rows", Text(TextRow::Sites)),
    ("texts/checks.rows", Text(TextRow::Checks)),
    ("texts/orders.rows", Text(TextRow::Orders)),
    ("texts/classes.rows", Text(TextRow::Classes)),
    ("texts/graphs.rows", Text(TextRow::Graphs)),
    ("texts/made_graphs.rows", Text(TextRow::Graphs)),
    ("texts/faults.rows", Text(TextRow::Faults)),
    ("automata/grids.rows", Step(StepRow::Grids)),
    ("automata/joins.rows", Step(StepRow::Joins)),
    ("automata/rows.rows", Step(StepRow::Rows)),
    ("automata/units.rows", Step(StepRow::Units)),
    ("automata/orders.rows", Step(StepRow::Orders)),
    ("automata/cycles.rows", Step(StepRow::Cycles)),
    ("automata/reserved.rows", Step(StepRow::Reserved)),
    ("automata/kept.rows", Step(StepRow::Kept)),
    ("automata/lists.rows", Step(StepRow::Lists)),
    ("automata/alternatives.rows", Step(StepRow::Alternatives)),
    ("automata/limits.rows", Step(StepRow::Limits)),
    ("automata/within.rows", Step(StepRow::Within)),
    ("automata/projected.rows", Step(StepRow::Projected)),
    ("automata/unordered.rows", Step(StepRow::Unordered)),
    ("automata/fits.rows", Step(StepRow::Fits)),
    ("automata/counts.rows", Step(StepRow::Counts)),
    ("automata/automata.rows", Step(StepRow::Automata)),
    ("automata/asked.rows", Step(StepRow::Asked)),
    ("automata/least.rows", Step(StepRow::Least)),
    ("automata/blocks.rows", Step(StepRow::Blocks)),
    ("automata/packed.rows", Step(StepRow::Packed)),
    ("automata/forms.rows", Step(StepRow::Forms)),
    ("automata/faults.rows", Step(StepRow::Faults)),
    ("tables/compiled.rows", Table(TableRow::Compiled)),
    ("tables/read.rows", Table(TableRow::Read)),
    ("tables/written.rows", Table(TableRow::Written)),
    ("tables/faults.rows", Table(TableRow::Faults)),
    ("schedules/schedules.rows", Schedule(ScheduleRow::Schedules)),
    ("schedules/exposed.rows", Schedule(ScheduleRow::Exposed)),
    ("schedules/drawn.rows", Schedule(ScheduleRow::Drawn)),
    ("schedules/walked.rows", Schedule(ScheduleRow::Walked)),
    ("schedules/faults.rows", Schedule(ScheduleRow::Faults)),
];

fn main(rt: HostRuntime) -> io::Result<()> {
    let mut counts = Counts { rows: 0, differ: 0 };
    for file in FILES.iter() {
        judge_file(&rt, file.0, file.1, &mut counts)?;
    }
    let Counts { rows, differ } = counts;
    println!(rt; "{rows} rows, {differ} differ")
}
