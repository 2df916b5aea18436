//! A text after its header: classes, automata and their states.

ghost use Rattle.std.specs.Prelude.{◌≡◌, ◌+◌, ◌<◌, ◌≤◌, ◌++◌, [], length, map, All, IfOk};
ghost use Rattle.hz_base_model.specs.Limits.{class_limit, unit_limit};
ghost use Rattle.hz_pipeline_model.specs.Tables.StateLimits.{state_limit};
ghost use Rattle.hz_tables.specs.Parts.{part_of, IsLeastWidth};
ghost use Rattle.hz_tabtext_model.specs.Reading as model;
ghost use Rattle.hz_tabfile.specs.Given.{Gives};
ghost use Rattle.hz_tabfile.specs.Rests.{left_of};
ghost use Rattle.hz_tabfile.specs.Texts.{grids_read, AreTargets};

use super::fault::TabFault;
use super::head::Head;
use super::reported::{
    asked_at, class_at, entries_at, grid_at, head_at, map_at, origin_at, stats_at,
};
use super::rest::Rest;
use super::size::Size;
use hz_regexp::{Name, NoMemory};
use hz_tables::{Part, Plain, Table};
use indexmap::IndexSet;
use std::alloc::Global;

/// The counts of an automaton, where they come; they are dropped.
#[tactic(auto, unfolding(hz_tabtext_model::specs::Reading::counts_at))]
fn counts_at(rest: Rest) -> Result<Rest, TabFault>
    ensures { Gives left_of result (model.counts_at (left_of rest.entry)) }
{
    if !rest.comes(b"stats") {
        return Ok(rest);
    }
    let after = stats_at(rest)?;
    Ok(after)
}

/// The grids of a state, as many as come; they are dropped.
fn grids_at(rest: Rest) -> Result<Rest, TabFault>
    ensures { Gives left_of result (grids_read (left_of rest.entry)) }
{
    let mut rest = rest;
    while rest.comes(b"grid") {
        rest = grid_at(rest)?;
    }
    Ok(rest)
}

/// What is reported of a state, where it comes; it is dropped.
#[tactic(auto, unfolding(hz_tabtext_model::specs::Reading::shown_at, crate::specs::Texts::grids_read))]
fn shown_at(rest: Rest, columns: u32, states: u32) -> Result<Rest, TabFault>
    ensures { Gives left_of result (model.shown_at columns states (left_of rest.entry)) }
{
    if !rest.comes(b"from") {
        return Ok(rest);
    }
    let after = origin_at(rest, columns, states)?;
    let after = grids_at(after)?;
    Ok(after)
}

/// The entries of the state of this number, in place of those in `entries`.
#[tactic(auto, unfolding(hz_tabtext_model::specs::Reading::row_at))]
fn row_at<'a>(
    rest: Rest<'a>,
    size: Size,
    number: u32,
    entries: &mut Vec<Option<u32>>,
) -> Result<Rest<'a>, TabFault>
    requires columns { size.columns ≤ class_limit }
    requires asks { size.asks ≤ unit_limit }
    ensures { Gives (λ after. (entries.new.items, left_of after)) result (model.row_at size.columns size.asks size.states number (left_of rest.entry)) }
{
    let after = entries_at(rest, size, number, entries)?;
    let after = shown_at(after, size.columns, size.states)?;
    Ok(after)
}

/// The table of an automaton of this size.
fn rows_at(alloc: Global, rest: Rest, size: Size) -> Result<(Plain, Rest), TabFault>
    requires columns { size.columns ≤ class_limit }
    requires asks { size.asks ≤ unit_limit }
    requires states { size.states ≤ state_limit }
    ensures rows { Gives (λ x. (x.0.rows, left_of x.1)) result (model.so_many model.next_row (model.row_at size.columns size.asks size.states) size.states 0 (left_of rest.entry)) }
    ensures columns { IfOk result (λ x. x.0.columns ≡ size.columns + size.asks) }
    ensures each { IfOk result (λ x. length x.0.rows ≡ size.states) }
    ensures targets { IfOk result (λ x. AreTargets size.states x.0.rows) }
{
    let mut plain = Plain::new(alloc, size.columns + size.asks);
    let mut row = Vec::new(alloc);
    let mut rest = rest;
    for number in 0..size.states {
        rest = row_at(rest, size, number, &mut row)?;
        plain.push_row(&row)?;
    }
    Ok((plain, rest))
}

/// The names of the asks of an automaton of so many columns and states, which join those of the asks before them. Only
/// version 2 has any.
#[tactic(auto, unfolding(hz_tabtext_model::specs::Reading::asks_at))]
fn asks_at<'a>(
    alloc: Global,
    rest: Rest<'a>,
    asked: bool,
    columns: u32,
    states: u32,
    known: &mut IndexSet<Name>,
) -> Result<(Vec<Name>, Rest<'a>), TabFault>
    requires columns { columns ≤ class_limit }
    requires states { states ≤ state_limit }
    ensures read { Gives (λ x. (x.0.items, left_of x.1)) result (model.asks_at asked columns states known.old.keys (left_of rest.entry)) }
    ensures known { IfOk result (λ x. known.new.keys ≡ known.old.keys ++ x.0.items) }
    ensures few { IfOk result (λ x. length x.0.items ≤ unit_limit) }
{
    if !asked {
        return Ok((Vec::new(alloc), rest));
    }
    asked_at(alloc, rest, columns, states, known)
}

/// The part of a head, a map, asks and a table. The table is packed, over cells of the least width.
fn part_on(
    alloc: Global,
    head: Head,
    map: Vec<u32>,
    asks: Vec<Name>,
    plain: &Plain,
) -> Result<Part, NoMemory>
    requires columns { plain.now.columns ≡ head.columns + length asks.items }
    requires some { 0 < length plain.now.rows }
    requires targets { AreTargets (length plain.now.rows) plain.now.rows }
    ensures part { IfOk result (λ part. part_of part ≡ record { name = head.name; map = map.items; columns = head.columns; asks = asks.items; rows = plain.now.rows }) }
    ensures packed { IfOk result (λ part. IsLeastWidth part.table) }
{
    Ok(Part {
        name: head.name,
        map,
        asks,
        table: Table::packed(alloc, plain)?,
    })
}

/// An automaton beside so many classes, whose asks join those before them.
#[tactic(auto, unfolding(hz_tabtext_model::specs::Reading::part_at))]
fn part_at<'a>(
    alloc: Global,
    rest: Rest<'a>,
    asked: bool,
    classes: u32,
    known: &mut IndexSet<Name>,
) -> Result<(Part, Rest<'a>), TabFault>
    requires { classes ≤ class_limit }
    ensures read { Gives (λ x. (part_of x.0, left_of x.1)) result (model.part_at asked classes known.old.keys (left_of rest.entry)) }
    ensures known { IfOk result (λ x. known.new.keys ≡ known.old.keys ++ x.0.asks.items) }
    ensures packed { IfOk result (λ x. IsLeastWidth x.0.table) }
{
    let (head, rest) = head_at(alloc, rest, classes)?;
    let (map, rest) = map_at(alloc, rest, classes, head.columns)?;
    let (asks, rest) = asks_at(alloc, rest, asked, head.columns, head.states, known)?;
    let rest = counts_at(rest)?;
    let size = Size {
        columns: head.columns,
        asks: asks.len() as u32,
        states: head.states,
    };
    let (plain, rest) = rows_at(alloc, rest, size)?;
    let part = part_on(alloc, head, map, asks, &plain)?;
    Ok((part, rest))
}

/// So many automata beside so many classes.
pub fn parts_at(
    alloc: Global,
    rest: Rest,
    asked: bool,
    classes: u32,
    automata: u32,
) -> Result<(Vec<Part>, Rest), TabFault>
    requires { classes ≤ class_limit }
    ensures read { Gives (λ x. (map part_of x.0.items, left_of x.1)) result (model.so_many model.more_asks (model.part_at asked classes) automata [] (left_of rest.entry)) }
    ensures packed { IfOk result (λ x. All (λ part. IsLeastWidth part.table) x.0.items) }
{
    let mut parts = Vec::new(alloc);
    let mut known = IndexSet::new(alloc);
    let mut rest = rest;
    for _ in 0..automata {
        let (part, after) = part_at(alloc, rest, asked, classes, &mut known)?;
        parts.push(part)?;
        rest = after;
    }
    Ok((parts, rest))
}

/// The names of a set in their order.
fn listed(alloc: Global, names: &IndexSet<Name>) -> Result<Vec<Name>, NoMemory>
    ensures { IfOk result (λ list. list.items ≡ names.now.keys) }
{
    let names = names.as_slice();
    let mut list = Vec::with_capacity(alloc, names.len())?;
    for name in names {
        list.push(name.copy()?)?;
    }
    Ok(list)
}

/// The names of so many classes.
pub fn names_at(alloc: Global, rest: Rest, count: u32) -> Result<(Vec<Name>, Rest), TabFault>
    ensures { Gives (λ x. (x.0.items, left_of x.1)) result (model.classes_at count [] (left_of rest.entry)) }
{
    let mut names = IndexSet::new(alloc);
    let mut rest = rest;
    for _ in 0..count {
        rest = class_at(alloc, rest, &mut names)?;
    }
    let names = listed(alloc, &names)?;
    Ok((names, rest))
}
