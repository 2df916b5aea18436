//! Lines of a text, each judged at its number.

ghost use Rattle.std.specs.Prelude.{◌≡◌, ◌≤◌, ◌<◌, ◌++◌, length, IfOk};
ghost use Rattle.hz_base_model.specs.Limits.{class_limit, unit_limit};
ghost use Rattle.hz_pipeline_model.specs.Tables.StateLimits.{state_limit};
ghost use Rattle.hz_tabtext_model.specs.Reading.{line_by};
ghost use Rattle.hz_tabtext_model.specs.Lines as model;
ghost use Rattle.hz_tabfile.specs.Given.{Gives};
ghost use Rattle.hz_tabfile.specs.Heads.{head_said};
ghost use Rattle.hz_tabfile.specs.Rests.{left_of};
ghost use Rattle.hz_tabfile.specs.Texts.{class_read};

use super::fault::TabFault;
use super::head::Head;
use super::lines::{
    asks, automata, class, classes, counts, end, grid, head, map, origin, row, treatment,
};
use super::rest::Rest;
use super::size::Size;
use hz_regexp::Name;
use indexmap::IndexSet;
use std::alloc::Global;

/// The treatment.
#[tactic(auto, using(crate::proofs::Reported::judged_line))]
pub fn treatment_at(rest: Rest) -> Result<(bool, Rest), TabFault>
    ensures { Gives (λ x. (x.0, left_of x.1)) result (line_by model.treatment_in (left_of rest.entry)) }
{
    let (line, after) = rest.line()?;
    match treatment(line) {
        Ok(ndfa) => Ok((ndfa, after)),
        Err(wrong) => Err(wrong.at(rest.number)),
    }
}

/// How many classes there are.
#[tactic(auto, using(crate::proofs::Reported::judged_line))]
pub fn classes_at(rest: Rest) -> Result<(u32, Rest), TabFault>
    ensures judged { Gives (λ x. (x.0, left_of x.1)) result (line_by model.classes_in (left_of rest.entry)) }
    ensures few { IfOk result (λ x. x.0 ≤ class_limit) }
{
    let (line, after) = rest.line()?;
    match classes(line) {
        Ok(count) => Ok((count, after)),
        Err(wrong) => Err(wrong.at(rest.number)),
    }
}

/// How many automata there are.
#[tactic(auto, using(crate::proofs::Reported::judged_line))]
pub fn automata_at(rest: Rest) -> Result<(u32, Rest), TabFault>
    ensures { Gives (λ x. (x.0, left_of x.1)) result (line_by model.automata_in (left_of rest.entry)) }
{
    let (line, after) = rest.line()?;
    match automata(line) {
        Ok(count) => Ok((count, after)),
        Err(wrong) => Err(wrong.at(rest.number)),
    }
}

/// The head of an automaton.
#[tactic(auto, using(crate::proofs::Reported::judged_line))]
pub fn head_at(alloc: Global, rest: Rest, classes: u32) -> Result<(Head, Rest), TabFault>
    requires { classes ≤ class_limit }
    ensures judged { Gives (λ x. (head_said x.0, left_of x.1)) result (line_by (model.head_in classes) (left_of rest.entry)) }
    ensures columns { IfOk result (λ x. x.0.columns ≤ classes) }
    ensures states { IfOk result (λ x. x.0.states ≤ state_limit) }
    ensures some { IfOk result (λ x. 1 ≤ x.0.states) }
{
    let (line, after) = rest.line()?;
    match head(alloc, line, classes) {
        Ok(head) => Ok((head, after)),
        Err(wrong) => Err(wrong.at(rest.number)),
    }
}

/// The column of each class.
#[tactic(auto, using(crate::proofs::Reported::judged_line))]
pub fn map_at(
    alloc: Global,
    rest: Rest,
    classes: u32,
    columns: u32,
) -> Result<(Vec<u32>, Rest), TabFault>
    ensures { Gives (λ x. (x.0.items, left_of x.1)) result (line_by (model.map_in classes columns) (left_of rest.entry)) }
{
    let (line, after) = rest.line()?;
    match map(alloc, line, classes, columns) {
        Ok(map) => Ok((map, after)),
        Err(wrong) => Err(wrong.at(rest.number)),
    }
}

/// The names of the asks of an automaton, which join those of the asks before them.
#[tactic(auto, using(crate::proofs::Reported::judged_line))]
pub fn asked_at<'a>(
    alloc: Global,
    rest: Rest<'a>,
    columns: u32,
    states: u32,
    known: &mut IndexSet<Name>,
) -> Result<(Vec<Name>, Rest<'a>), TabFault>
    requires columns { columns ≤ class_limit }
    requires states { states ≤ state_limit }
    ensures judged { Gives (λ x. (x.0.items, left_of x.1)) result (line_by (model.asks_in columns states known.old.keys) (left_of rest.entry)) }
    ensures known { IfOk result (λ x. known.new.keys ≡ known.old.keys ++ x.0.items) }
    ensures few { IfOk result (λ x. length x.0.items ≤ unit_limit) }
{
    let (line, after) = rest.line()?;
    match asks(alloc, line, columns, states, known) {
        Ok(asks) => Ok((asks, after)),
        Err(wrong) => Err(wrong.at(rest.number)),
    }
}

/// The counts of an automaton, which are dropped.
#[tactic(auto, using(crate::proofs::Reported::judged_line))]
pub fn stats_at(rest: Rest) -> Result<Rest, TabFault>
    ensures { Gives (λ after. (tt, left_of after)) result (line_by model.counts_in (left_of rest.entry)) }
{
    let (line, after) = rest.line()?;
    match counts(line) {
        Ok(()) => Ok(after),
        Err(wrong) => Err(wrong.at(rest.number)),
    }
}

/// The entries of the state of this number, in place of those in `entries`.
#[tactic(auto, using(crate::proofs::Reported::judged_line))]
pub fn entries_at<'a>(
    rest: Rest<'a>,
    size: Size,
    number: u32,
    entries: &mut Vec<Option<u32>>,
) -> Result<Rest<'a>, TabFault>
    requires columns { size.columns ≤ class_limit }
    requires asks { size.asks ≤ unit_limit }
    ensures { Gives (λ after. (entries.new.items, left_of after)) result (line_by (model.row_in size.columns size.asks size.states number) (left_of rest.entry)) }
{
    let (line, after) = rest.line()?;
    match row(line, size, number, entries) {
        Ok(()) => Ok(after),
        Err(wrong) => Err(wrong.at(rest.number)),
    }
}

/// The origin of a state, which is dropped.
#[tactic(auto, using(crate::proofs::Reported::judged_line))]
pub fn origin_at(rest: Rest, columns: u32, states: u32) -> Result<Rest, TabFault>
    ensures { Gives (λ after. (tt, left_of after)) result (line_by (model.origin_in columns states) (left_of rest.entry)) }
{
    let (line, after) = rest.line()?;
    match origin(line, columns, states) {
        Ok(()) => Ok(after),
        Err(wrong) => Err(wrong.at(rest.number)),
    }
}

/// A grid of a state, which is dropped.
#[tactic(auto, using(crate::proofs::Reported::judged_line))]
pub fn grid_at(rest: Rest) -> Result<Rest, TabFault>
    ensures judged { Gives (λ after. (tt, left_of after)) result (line_by model.grid_in (left_of rest.entry)) }
    ensures shorter { IfOk result (λ after. length after.bytes.now < length rest.entry.bytes.now) }
{
    let (line, after) = rest.line()?;
    match grid(line) {
        Ok(()) => Ok(after),
        Err(wrong) => Err(wrong.at(rest.number)),
    }
}

/// The end.
#[tactic(auto, using(crate::proofs::Reported::judged_line))]
pub fn end_at(rest: Rest) -> Result<Rest, TabFault>
    ensures { Gives (λ after. (tt, left_of after)) result (line_by model.end_in (left_of rest.entry)) }
{
    let (line, after) = rest.line()?;
    match end(line) {
        Ok(()) => Ok(after),
        Err(wrong) => Err(wrong.at(rest.number)),
    }
}

/// The name of a class, after those before it.
#[tactic(auto, using(crate::proofs::Reported::judged_class))]
pub fn class_at<'a>(
    alloc: Global,
    rest: Rest<'a>,
    names: &mut IndexSet<Name>,
) -> Result<Rest<'a>, TabFault>
    ensures { Gives (λ after. (names.new.keys, left_of after)) result (class_read names.old.keys (left_of rest.entry)) }
{
    let (line, after) = rest.line()?;
    match class(alloc, names, line) {
        Ok(()) => Ok(after),
        Err(wrong) => Err(wrong.at(rest.number)),
    }
}
