//! Alternatives of expressions, their extents, and their grids.
//!
//! Beside an expression stand its names: a unit as `NAME=AUTOMATON.UNIT`, and a reservation as `NAME=EXPRESSION`.

ghost use Rattle.std.specs.Prelude.{◌≡◌, ◌<◌, All, IfOk, IfSome, IsTrue};
ghost use Rattle.std.specs.Bool.{OnTrue};
ghost use Rattle.hz_altern.specs.Shapes.{alternative_of, alternatives};
ghost use Rattle.hz_altern.specs.Tables.{is_held};
ghost use Rattle.hz_description_model.specs.Reservations.AlternativeLists.{AreSound, IsCuttable};
ghost use Rattle.hz_description_model.specs.Reservations.Expressions.{is_expression};
ghost use Rattle.hz_description_model.specs.Reservations.Alternatives.{parts_of};
ghost use Rattle.hz_description_model.specs.Reservations.NamesIn.{all_names, all_names_in};
ghost use Rattle.hz_regexp.specs.Shape.{expression, expressions};

use crate::automata::states::write_grids;
use crate::automata::texts::{pair_of, pairs_of};
use hz_altern::{
    Alt, AlternFault, Extent, Extents, Held, Known, Pair, SIZE_LIMIT, expand, expand_within,
    extent, project,
};
use hz_regexp::{Expr, Name, parse_expr};
use std::alloc::Global;
use std::fmt::Write;

/// Whether each name in an expression is held.
#[cycle(names)]
fn holds<T: Held>(table: &T, expr: &Expr) -> bool
    ensures { result ≡ all_names (is_held (T.held table.now)) (expression expr.now) }
{
    match expr {
        Expr::Named(name) => table.extent(name).is_some(),
        Expr::Nothing => true,
        Expr::Seq(parts) | Expr::Oneof(parts) | Expr::Allof(parts) => holds_all(table, parts),
        Expr::Repeat(part, _times) => holds(table, part),
    }
}

/// Whether each name in parts is held.
#[cycle(names)]
fn holds_all<T: Held>(table: &T, parts: &[Expr]) -> bool
    ensures { result ≡ all_names_in (is_held (T.held table.now)) (parts_of (expressions parts.now)) }
{
    match parts.split_first() {
        None => true,
        Some((part, parts)) => holds(table, part) && holds_all(table, parts),
    }
}

/// The expression of a text.
fn expr_of(alloc: Global, text: &str) -> Option<Expr>
    ensures { IfSome result (λ expr. IsTrue (is_expression (expression expr))) }
{
    if text.len() > 1000 {
        return None;
    }
    parse_expr(alloc, text.as_bytes()).ok()
}

/// The alternatives of a text, which may have so many cycles and pairs together, or the limit that they pass.
fn expanded(alloc: Global, known: &Known, text: &str) -> Option<Result<Vec<Alt>, AlternFault>>
    ensures { IfSome result (λ answer. IfOk answer (λ alts. AreSound (alternatives alts.items))) }
{
    let expr = expr_of(alloc, text)?;
    if holds(known, &expr) {
        return Some(expand(alloc, &expr, known));
    }
    None
}

/// The name of a text.
fn name_of(alloc: Global, text: &str) -> Option<Name> {
    Name::of(alloc, text.as_bytes()).ok()?
}

/// Makes a name known: `NAME=AUTOMATON.UNIT` or `NAME=EXPRESSION`.
fn add_known(alloc: Global, known: &mut Known, word: &str) -> Option<()> {
    let (name, stands) = word.split_once('=')?;
    let name = name_of(alloc, name)?;
    if known.extent(&name).is_some() {
        return None;
    }
    match pair_of(stands) {
        Some((automaton, unit)) if automaton < 16 => {
            known
                .add_unit(&name, automaton, u8::try_from(unit).ok()?)
                .ok()
        }
        _ => {
            let alts = expanded(alloc, known, stands)?.ok()?;
            known.add_reservation(&name, alts).ok()
        }
    }
}

/// What is known of the names of a text.
fn known_of(alloc: Global, text: &str) -> Option<Known> {
    let mut known = Known::new(alloc);
    for word in text.split_whitespace() {
        add_known(alloc, &mut known, word)?;
    }
    Some(known)
}

/// The extent of an expression of a text.
fn extent_of(alloc: Global, extents: &Extents, text: &str) -> Option<Extent> {
    let expr = expr_of(alloc, text)?;
    if holds(extents, &expr) {
        return Some(extent(&expr, extents));
    }
    None
}

/// Holds the extent of a name.
fn add_extent(alloc: Global, extents: &mut Extents, word: &str) -> Option<()> {
    let (name, stands) = word.split_once('=')?;
    let name = name_of(alloc, name)?;
    let found = match pair_of(stands) {
        Some(_) => Extent {
            count: 1,
            longest: 1,
        },
        None => extent_of(alloc, extents, stands)?,
    };
    if extents.extent(&name).is_some() {
        return None;
    }
    extents.add(&name, found).ok()
}

/// The extents of the names of a text.
fn extents_of(alloc: Global, text: &str) -> Option<Extents> {
    let mut extents = Extents::new(alloc);
    for word in text.split_whitespace() {
        add_extent(alloc, &mut extents, word)?;
    }
    Some(extents)
}

/// Writes a pair as a letter for its unit, from `a` on in automaton 0 and from `p` on in others, and its cycle.
fn write_pair(out: &mut String, pair: Pair) -> Option<()> {
    let first = if pair.automaton == 0 { b'a' } else { b'p' };
    out.push(char::from(first + pair.unit % 8)).ok()?;
    write!(out, "{}", pair.cycle).ok()
}

/// Writes the pairs of an alternative, and after a `/` its length.
fn write_alt(out: &mut String, alt: &Alt) -> Option<()> {
    for pair in &alt.pairs {
        write_pair(out, *pair)?;
    }
    write!(out, "/{}", alt.length).ok()
}

/// Writes alternatives, with a bar between them.
fn write_alts(out: &mut String, alts: &[Alt]) -> Option<()> {
    for (place, alt) in alts.iter().enumerate() {
        if place > 0 {
            out.push('|').ok()?;
        }
        write_alt(out, alt)?;
    }
    Some(())
}

/// The alternatives of an expression, or the limit that they pass.
pub fn answer(alloc: Global, text: &str, beside: &str) -> Option<String> {
    let mut out = String::new(alloc);
    let alts = expanded(alloc, &known_of(alloc, beside)?, text)?.ok()?;
    write_alts(&mut out, &alts)?;
    Some(out)
}

/// Writes how many alternatives there are, with the length, the number of pairs and the last cycle of the first.
fn write_first(out: &mut String, alts: &[Alt]) -> Option<()> {
    let first = alts.first()?;
    let last = first.pairs.last().map(|pair| pair.cycle);
    let (count, pairs) = (alts.len(), first.pairs.len());
    write!(out, "{count} {} {pairs} {last:?}", first.length).ok()
}

/// How many alternatives an expression has and how long the longest is, and then how many are made, with the length, the number
/// of pairs and the last cycle of the first, or the limit that they pass.
pub fn answer_limits(alloc: Global, text: &str, beside: &str) -> Option<String> {
    let mut out = String::new(alloc);
    let Extent { count, longest } = extent_of(alloc, &extents_of(alloc, beside)?, text)?;
    write!(out, "{count} {longest}: ").ok()?;
    match &expanded(alloc, &known_of(alloc, beside)?, text)? {
        Ok(alts) => write_first(&mut out, alts)?,
        Err(fault) => write!(out, "{fault}").ok()?,
    }
    Some(out)
}

/// How many alternatives the expression after a `/` has, which may have so many cycles and pairs together as is said before it,
/// or the limit that they pass.
pub fn answer_within(alloc: Global, text: &str, beside: &str) -> Option<String> {
    let (most, expr) = text.split_once('/')?;
    let most = most.trim().parse::<usize>().ok()?;
    let known = known_of(alloc, beside)?;
    let expr = expr_of(alloc, expr)?;
    if most > SIZE_LIMIT || !holds(&known, &expr) {
        return None;
    }
    match expand_within(alloc, &expr, &known, most) {
        Ok(alts) => format!(in alloc; "{}", alts.len()).ok(),
        Err(fault) => fault.to_string(alloc).ok(),
    }
}

/// The grids in an automaton of the alternatives of the expression after a `/`.
pub fn answer_projected(alloc: Global, text: &str, beside: &str) -> Option<String> {
    let (automaton, expr) = text.split_once('/')?;
    let automaton = automaton.trim().parse::<u8>().ok()?;
    let mut out = String::new(alloc);
    let alts = expanded(alloc, &known_of(alloc, beside)?, expr)?.ok()?;
    write_grids(&mut out, &project(alloc, &alts, automaton).ok()?)?;
    Some(out)
}

/// Whether the units of pairs are units of an automaton.
fn units_fit(pairs: &[Pair]) -> bool
    ensures { OnTrue result (All (λ pair. pair.unit < 256) pairs.now) }
{
    pairs.iter().all(|pair| usize::from(pair.unit) < 256)
}

/// Whether the cycles of pairs are cycles of a grid.
fn cycles_fit(pairs: &[Pair]) -> bool
    ensures { OnTrue result (All (λ pair. pair.cycle < 512) pairs.now) }
{
    pairs.iter().all(|pair| pair.cycle < 512)
}

/// Pairs in automaton 0, in their order.
fn taken_of(alloc: Global, pairs: &[(u8, u16)]) -> Option<Vec<Pair>> {
    let mut taken = Vec::new(alloc);
    for (unit, cycle) in pairs {
        let pair = Pair {
            automaton: 0,
            unit: *unit,
            cycle: *cycle,
        };
        taken.push(pair).ok()?;
    }
    Some(taken)
}

/// An alternative of three cycles with these pairs in automaton 0, in their order.
fn alt_of(alloc: Global, text: &str) -> Option<Alt>
    ensures { IfSome result (λ alt. IsCuttable (alternative_of alt)) }
{
    let pairs = taken_of(alloc, &pairs_of(alloc, text)?)?;
    if !units_fit(&pairs) || !cycles_fit(&pairs) {
        return None;
    }
    Some(Alt { pairs, length: 3 })
}

/// The grids of two alternatives of three cycles, whose pairs stand before and after a bar, in any order.
pub fn answer_unordered(alloc: Global, text: &str) -> Option<String> {
    let (first, second) = text.split_once('|')?;
    let first = alt_of(alloc, first)?;
    let second = alt_of(alloc, second)?;
    let alts = vec![in alloc; first, second].ok()?;
    let mut out = String::new(alloc);
    write_grids(&mut out, &project(alloc, &alts, 0).ok()?)?;
    Some(out)
}
