//! The alternatives of an expression. `most` is how many cycles and pairs a list of them may have together. That is asked
//! before a list grows, so that none which passes it is held.

ghost use Rattle.std.specs.Prelude.{◌≡◌, ◌+◌, ◌<◌, ◌≤◌, ◌++◌, List, [], ◌∷◌, All, IsTrue, IfOk, IfErr, OnOk, length, map, take};
ghost use Rattle.hz_altern.specs.Answers.{Expands, Refuses, weight, total_weight};
ghost use Rattle.hz_altern.specs.Beside.{IsBeside};
ghost use Rattle.hz_altern.specs.Joinings.{IsListed, joined_by, joined_parts, left_after, listed_lists, listed_beside, only_listed};
ghost use Rattle.hz_altern.specs.Leaves.{Takes, AreTaken, AllEndBy};
ghost use Rattle.hz_altern.specs.Shapes.{alternative_of, alternatives};
ghost use Rattle.hz_altern.specs.Singles.{TellsSingles, TellSingles};
ghost use Rattle.hz_altern.specs.Tables.{alternatives_in, known_alternatives, is_held};
ghost use Rattle.hz_description_model.specs.Reservations.Alternatives.{alternatives_of, together, each_choice, copies, idle, parts_of};
ghost use Rattle.hz_description_model.specs.Reservations.AlternativeLists.{AreSound, greatest_length};
ghost use Rattle.hz_description_model.specs.Reservations.Automata.{UnitPlace, listed};
ghost use Rattle.hz_description_model.specs.Reservations.Expressions.{is_expression, are_expressions};
ghost use Rattle.hz_base_model.specs.Limits.{cycle_limit};
ghost use Rattle.hz_base_model.specs.Pairs.{Pair as model_pair};
ghost use Rattle.hz_description_model.specs.Reservations.Limits.{size_limit};
ghost use Rattle.hz_description_model.specs.Reservations.NamesIn.{all_names, all_names_in};
ghost use Rattle.hz_regexp.specs.Shape.{expression, expressions};

use crate::alternative::Alt;
use crate::extents::counting::measured;
use crate::extents::measure::{ALTERNATIVE_LIMIT, CYCLE_LIMIT};
use crate::fault::AlternFault;
use crate::known::Known;
use crate::listing::joining::Joining;
use crate::listing::leaves::{Leaves, gather};
use crate::listing::reserving::pairs;
use crate::listing::singles::{Singles, find_singles};
use crate::listing::{Listing, SIZE_LIMIT};
use crate::mark::Mark;
use hz_regexp::Expr;
use std::alloc::Global;

/// Lists copies of alternatives.
fn copied(alloc: Global, alts: &[Alt], most: usize) -> Result<Listing, AlternFault>
    requires most { most ≤ size_limit }
    ensures ok { IfOk result (λ listing. listing ≡ alternatives alts.now) }
    ensures small { IfOk result (λ listing. total_weight listing ≤ most) }
    ensures err { IfErr result (Refuses most (alternatives alts.now)) }
{
    let mut listing = Listing::new(alloc);
    for alt in alts {
        listing.push_copy(alloc, alt, most)?;
    }
    Ok(listing)
}

/// Lists one alternative.
fn list_one(alloc: Global, alt: Alt, most: usize) -> Result<Listing, AlternFault>
    requires most { most ≤ size_limit }
    ensures ok { IfOk result (λ listing. listing ≡ alternative_of alt ∷ []) }
    ensures small { IfOk result (λ listing. total_weight listing ≤ most) }
    ensures err { IfErr result (Refuses most (alternative_of alt ∷ [])) }
{
    let mut listing = Listing::new(alloc);
    listing.push(alt, most)?;
    Ok(listing)
}

/// One alternative of one cycle without a pair.
fn idle(alloc: Global, most: usize) -> Result<Listing, AlternFault>
    requires most { most ≤ size_limit }
    ensures ok { IfOk result (λ listing. listing ≡ idle ∷ []) }
    ensures small { IfOk result (λ listing. total_weight listing ≤ most) }
    ensures err { IfErr result (Refuses most (idle ∷ [])) }
{
    let pairs = Vec::new(alloc);
    list_one(alloc, Alt { pairs, length: 1 }, most)
}

/// The one alternative of what names reserve, each from the cycles on in which it begins.
fn list_leaves(
    alloc: Global,
    leaves: &Leaves,
    length: u32,
    known: &Known,
    most: usize,
) -> Result<Listing, AlternFault>
    requires ends { AllEndBy known.now cycle_limit leaves.now }
    requires within { (p : model_pair UnitPlace) → Takes known.now leaves.now p → p.cycle < length }
    requires short { length ≤ cycle_limit }
    requires most { most ≤ size_limit }
    ensures ok { IfOk result (λ listing. (taken : List (model_pair UnitPlace)) → AreTaken known.now leaves.now taken → listing ≡ only_listed taken length) }
    ensures small { IfOk result (λ listing. total_weight listing ≤ most) }
    ensures err { IfErr result (λ fault. (taken : List (model_pair UnitPlace)) → AreTaken known.now leaves.now taken → Refuses most (only_listed taken length) fault) }
{
    let pairs = pairs(alloc, leaves, length, known)?;
    list_one(alloc, Alt { pairs, length }, most)
}

/// Adds an alternative joined with each of others.
fn push_choices(
    alloc: Global,
    joining: Joining,
    first: &Alt,
    seconds: &[Alt],
    most: usize,
    listing: &mut Listing,
) -> Result<(), AlternFault>
    requires first { IsListed (alternative_of first.now) }
    requires seconds { All IsListed (alternatives seconds.now) }
    requires first_small { weight (alternative_of first.now) ≤ size_limit }
    requires seconds_small { total_weight (alternatives seconds.now) ≤ size_limit }
    requires short { greatest_length (map (joined_by joining (alternative_of first.now)) (alternatives seconds.now)) ≤ cycle_limit }
    requires most { most ≤ size_limit }
    requires so_far { total_weight listing.old ≤ most }
    ensures ok { OnOk result (listing.new ≡ listing.old ++ map (joined_by joining (alternative_of first.now)) (alternatives seconds.now)) }
    ensures small { OnOk result (total_weight listing.new ≤ most) }
    ensures err { IfErr result (Refuses most (listing.old ++ map (joined_by joining (alternative_of first.now)) (alternatives seconds.now))) }
{
    for second in seconds {
        listing.push_joined(alloc, joining, first, second, most)?;
    }
    Ok(())
}

/// One alternative for each choice of one of each list, the first most significant.
fn choices(
    alloc: Global,
    joining: Joining,
    firsts: &[Alt],
    seconds: &[Alt],
    most: usize,
) -> Result<Listing, AlternFault>
    requires firsts { All IsListed (alternatives firsts.now) }
    requires seconds { All IsListed (alternatives seconds.now) }
    requires firsts_small { total_weight (alternatives firsts.now) ≤ size_limit }
    requires seconds_small { total_weight (alternatives seconds.now) ≤ size_limit }
    requires short { greatest_length (each_choice (joined_by joining) (alternatives firsts.now) (alternatives seconds.now)) ≤ cycle_limit }
    requires most { most ≤ size_limit }
    ensures ok { IfOk result (λ listing. listing ≡ each_choice (joined_by joining) (alternatives firsts.now) (alternatives seconds.now)) }
    ensures small { IfOk result (λ listing. total_weight listing ≤ most) }
    ensures err { IfErr result (Refuses most (each_choice (joined_by joining) (alternatives firsts.now) (alternatives seconds.now))) }
{
    let mut listing = Listing::new(alloc);
    for first in firsts {
        push_choices(alloc, joining, first, seconds, most, &mut listing)?;
    }
    Ok(listing)
}

/// The alternatives of two lists one after the other. Their size is asked before one is made.
fn in_sequence(
    alloc: Global,
    first: &Listing,
    second: &Listing,
    most: usize,
) -> Result<Listing, AlternFault>
    requires first { All IsListed first.now }
    requires second { All IsListed second.now }
    requires short { greatest_length (each_choice (joined_by Joining.InSequence) first.now second.now) ≤ cycle_limit }
    requires most { most ≤ size_limit }
    ensures ok { IfOk result (λ listing. listing ≡ each_choice (joined_by Joining.InSequence) first.now second.now) }
    ensures small { IfOk result (λ listing. total_weight listing ≤ most) }
    ensures err { IfErr result (Refuses most (each_choice (joined_by Joining.InSequence) first.now second.now)) }
{
    if first.size_before(second) > most {
        return Err(AlternFault::SizeLimit);
    }
    choices(
        alloc,
        Joining::InSequence,
        first.as_slice(),
        second.as_slice(),
        most,
    )
}

/// The alternatives of two lists from the same cycle on.
fn together(
    alloc: Global,
    first: &Listing,
    second: &Listing,
    most: usize,
) -> Result<Listing, AlternFault>
    requires first { All IsListed first.now }
    requires second { All IsListed second.now }
    requires short { greatest_length (each_choice (joined_by Joining.Together) first.now second.now) ≤ cycle_limit }
    requires most { most ≤ size_limit }
    ensures ok { IfOk result (λ listing. listing ≡ each_choice (joined_by Joining.Together) first.now second.now) }
    ensures small { IfOk result (λ listing. total_weight listing ≤ most) }
    ensures err { IfErr result (Refuses most (each_choice (joined_by Joining.Together) first.now second.now)) }
{
    choices(
        alloc,
        Joining::Together,
        first.as_slice(),
        second.as_slice(),
        most,
    )
}

/// The alternatives of so many copies one after another, each of which chooses by itself. The number is halved until one
/// is left, so that no pair is copied much more often than it stands in the answer.
fn copies(alloc: Global, once: &Listing, times: u32, most: usize) -> Result<Listing, AlternFault>
    requires some { 0 < length once.now }
    requires times { 1 ≤ times }
    requires each { All IsListed once.now }
    requires short { greatest_length (copies times once.now) ≤ cycle_limit }
    requires most { most ≤ size_limit }
    ensures ok { IfOk result (λ listing. listing ≡ copies times once.now) }
    ensures small { IfOk result (λ listing. total_weight listing ≤ most) }
    ensures err { IfErr result (Refuses most (copies times once.now)) }
{
    if times == 1 {
        return copied(alloc, once.as_slice(), most);
    }
    let half = copies(alloc, once, times / 2, most)?;
    let even = in_sequence(alloc, &half, &half, most)?;
    if times % 2 == 0 {
        return Ok(even);
    }
    in_sequence(alloc, &even, once, most)
}

/// How large the second of two lists may be, where with a mark between them they may be no larger than `most`.
fn left_after(mark: Mark, first: &Listing, most: usize) -> usize
    requires { total_weight first.now ≤ most }
    ensures value { result ≡ left_after mark (total_weight first.now) most }
    ensures fits { result ≤ most }
{
    match mark {
        Mark::Bar => most - first.size(),
        Mark::Comma | Mark::Plus => most,
    }
}

/// The alternatives of two lists with a mark between them.
fn joined_lists(
    alloc: Global,
    mark: Mark,
    first: Listing,
    second: Listing,
    most: usize,
) -> Result<Listing, AlternFault>
    requires first { All IsListed first }
    requires second { All IsListed second }
    requires short { greatest_length (listed_lists mark first second) ≤ cycle_limit }
    requires most { most ≤ size_limit }
    ensures ok { IfOk result (λ listing. listing ≡ listed_lists mark first second) }
    ensures small { IfOk result (λ listing. total_weight listing ≤ most) }
    ensures err { IfErr result (Refuses most (listed_lists mark first second)) }
{
    match mark {
        Mark::Comma => in_sequence(alloc, &first, &second, most),
        Mark::Bar => first.with(second, most),
        Mark::Plus => together(alloc, &first, &second, most),
    }
}

/// The alternatives of an expression, of which none is too long.
#[cycle(listing)]
fn listing(
    alloc: Global,
    expr: &Expr,
    singles: &Singles,
    known: &Known,
    most: usize,
) -> Result<Listing, AlternFault>
    requires formed { IsTrue (is_expression (expression expr.now)) }
    requires known { IsTrue (all_names (is_held (alternatives_in known.now)) (expression expr.now)) }
    requires reported { TellsSingles (known_alternatives known.now) (expression expr.now) singles.now }
    requires short { greatest_length (alternatives_of (known_alternatives known.now) (expression expr.now)) ≤ cycle_limit }
    requires most { most ≤ size_limit }
    ensures ok { IfOk result (λ listing. listing ≡ map listed (alternatives_of (known_alternatives known.now) (expression expr.now))) }
    ensures small { IfOk result (λ listing. total_weight listing ≤ most) }
    ensures err { IfErr result (Refuses most (map listed (alternatives_of (known_alternatives known.now) (expression expr.now)))) }
{
    match expr {
        Expr::Named(name) => match known.find(name) {
            Some(entry) => copied(alloc, &entry.alts, most),
            None => unreachable!(),
        },
        Expr::Nothing => idle(alloc, most),
        Expr::Seq(parts) => listing_parts(alloc, parts, singles.parts(), Mark::Comma, known, most),
        Expr::Oneof(parts) => listing_parts(alloc, parts, singles.parts(), Mark::Bar, known, most),
        Expr::Allof(parts) => listing_together(alloc, parts, singles.parts(), known, most),
        Expr::Repeat(part, times) => {
            let once = listing(alloc, part, singles, known, most)?;
            copies(alloc, &once, *times, most)
        }
    }
}

/// The alternatives of parts with a mark between them, of which none is too long. Parts are joined by halves, so that
/// none is copied once for each of the others.
#[cycle(listing)]
fn listing_parts(
    alloc: Global,
    parts: &[Expr],
    singles: &[Singles],
    mark: Mark,
    known: &Known,
    most: usize,
) -> Result<Listing, AlternFault>
    requires some { 0 < length parts.now }
    requires formed { IsTrue (are_expressions (parts_of (expressions parts.now))) }
    requires known { IsTrue (all_names_in (is_held (alternatives_in known.now)) (parts_of (expressions parts.now))) }
    requires reported { TellSingles (known_alternatives known.now) (parts_of (expressions parts.now)) singles.now }
    requires short { greatest_length (joined_parts mark (known_alternatives known.now) (parts_of (expressions parts.now))) ≤ cycle_limit }
    requires most { most ≤ size_limit }
    ensures ok { IfOk result (λ listing. listing ≡ map listed (joined_parts mark (known_alternatives known.now) (parts_of (expressions parts.now)))) }
    ensures small { IfOk result (λ listing. total_weight listing ≤ most) }
    ensures err { IfErr result (Refuses most (map listed (joined_parts mark (known_alternatives known.now) (parts_of (expressions parts.now))))) }
{
    let middle = parts.len() / 2;
    if middle == 0 {
        return listing(alloc, &parts[0], &singles[0], known, most);
    }
    let (front, back) = parts.split_at(middle);
    let (front_singles, back_singles) = singles.split_at(middle);
    let first = listing_parts(alloc, front, front_singles, mark, known, most)?;
    let left = left_after(mark, &first, most);
    let second = listing_parts(alloc, back, back_singles, mark, known, left)?;
    joined_lists(alloc, mark, first, second, most)
}

/// Parts that begin in the same cycle: those with one alternative are taken apart into names and run for so many cycles,
/// and the alternatives of the others are listed.
#[derive(Drop)]
struct Beside {
    leaves: Leaves,
    length: u32,
    others: Listing,
}

/// The alternatives of parts that begin in the same cycle, of which none is too long. Parts with one alternative are taken
/// apart into names, each from its cycle on, so that the pairs of a name are joined once for each cycle in which it begins.
#[cycle(listing)]
fn listing_together(
    alloc: Global,
    parts: &[Expr],
    singles: &[Singles],
    known: &Known,
    most: usize,
) -> Result<Listing, AlternFault>
    requires some { 0 < length parts.now }
    requires formed { IsTrue (are_expressions (parts_of (expressions parts.now))) }
    requires known { IsTrue (all_names_in (is_held (alternatives_in known.now)) (parts_of (expressions parts.now))) }
    requires reported { TellSingles (known_alternatives known.now) (parts_of (expressions parts.now)) singles.now }
    requires short { greatest_length (together (known_alternatives known.now) (parts_of (expressions parts.now))) ≤ cycle_limit }
    requires most { most ≤ size_limit }
    ensures ok { IfOk result (λ listing. listing ≡ map listed (together (known_alternatives known.now) (parts_of (expressions parts.now)))) }
    ensures small { IfOk result (λ listing. total_weight listing ≤ most) }
    ensures err { IfErr result (Refuses most (map listed (together (known_alternatives known.now) (parts_of (expressions parts.now))))) }
{
    let leaves = Leaves::new(alloc);
    let others = idle(alloc, most)?;
    let mut beside = Beside {
        leaves,
        length: 1,
        others,
    };
    listing_added(alloc, parts, singles, known, most, &mut beside)
}

/// The alternatives of parts that begin in the same cycle, of which none is too long. They are added to none.
#[cycle(listing)]
fn listing_added(
    alloc: Global,
    parts: &[Expr],
    singles: &[Singles],
    known: &Known,
    most: usize,
    beside: &mut Beside,
) -> Result<Listing, AlternFault>
    requires some { 0 < length parts.now }
    requires formed { IsTrue (are_expressions (parts_of (expressions parts.now))) }
    requires known { IsTrue (all_names_in (is_held (alternatives_in known.now)) (parts_of (expressions parts.now))) }
    requires reported { TellSingles (known_alternatives known.now) (parts_of (expressions parts.now)) singles.now }
    requires short { greatest_length (together (known_alternatives known.now) (parts_of (expressions parts.now))) ≤ cycle_limit }
    requires most { most ≤ size_limit }
    requires before { IsBeside known.now [] beside.old.leaves beside.old.length beside.old.others }
    ensures ok { IfOk result (λ listing. listing ≡ map listed (together (known_alternatives known.now) (parts_of (expressions parts.now)))) }
    ensures small { IfOk result (λ listing. total_weight listing ≤ most) }
    ensures err { IfErr result (Refuses most (map listed (together (known_alternatives known.now) (parts_of (expressions parts.now))))) }
{
    add_parts(alloc, parts, singles, known, most, beside)?;
    let single = list_leaves(alloc, &beside.leaves, beside.length, known, most)?;
    together(alloc, &single, &beside.others, most)
}

/// Adds parts to none, each to those before it.
#[cycle(listing)]
fn add_parts(
    alloc: Global,
    parts: &[Expr],
    singles: &[Singles],
    known: &Known,
    most: usize,
    beside: &mut Beside,
) -> Result<(), AlternFault>
    requires formed { IsTrue (are_expressions (parts_of (expressions parts.now))) }
    requires known { IsTrue (all_names_in (is_held (alternatives_in known.now)) (parts_of (expressions parts.now))) }
    requires reported { TellSingles (known_alternatives known.now) (parts_of (expressions parts.now)) singles.now }
    requires short { greatest_length (together (known_alternatives known.now) (parts_of (expressions parts.now))) ≤ cycle_limit }
    requires most { most ≤ size_limit }
    requires before { IsBeside known.now [] beside.old.leaves beside.old.length beside.old.others }
    ensures ok { OnOk result (IsBeside known.now (expressions parts.now) beside.new.leaves beside.new.length beside.new.others) }
    ensures err { IfErr result (Refuses most (map listed (together (known_alternatives known.now) (parts_of (expressions parts.now))))) }
{
    for place in 0..parts.len() {
        add_part(alloc, parts, singles, place, known, most, beside)?;
    }
    Ok(())
}

/// Adds the part at a place to those before it.
#[cycle(listing)]
fn add_part(
    alloc: Global,
    parts: &[Expr],
    singles: &[Singles],
    place: usize,
    known: &Known,
    most: usize,
    beside: &mut Beside,
) -> Result<(), AlternFault>
    requires place { place < length parts.now }
    requires formed { IsTrue (are_expressions (parts_of (expressions parts.now))) }
    requires known { IsTrue (all_names_in (is_held (alternatives_in known.now)) (parts_of (expressions parts.now))) }
    requires reported { TellSingles (known_alternatives known.now) (parts_of (expressions parts.now)) singles.now }
    requires short { greatest_length (together (known_alternatives known.now) (parts_of (expressions parts.now))) ≤ cycle_limit }
    requires most { most ≤ size_limit }
    requires before { IsBeside known.now (expressions (take place parts.now)) beside.old.leaves beside.old.length beside.old.others }
    ensures ok { OnOk result (IsBeside known.now (expressions (take (place + 1) parts.now)) beside.new.leaves beside.new.length beside.new.others) }
    ensures err { IfErr result (Refuses most (map listed (together (known_alternatives known.now) (parts_of (expressions parts.now))))) }
{
    let part = &parts[place];
    let reported = &singles[place];
    if reported.is_single() {
        let length = gather(alloc, part, 0, known, &mut beside.leaves)?;
        beside.length = length.max(beside.length);
        return Ok(());
    }
    let others = listing_beside(alloc, &beside.others, part, reported, known, most)?;
    beside.others = others;
    Ok(())
}

/// The alternatives of others and of one more part from the same cycle on, of which none is too long.
#[cycle(listing)]
fn listing_beside(
    alloc: Global,
    others: &Listing,
    part: &Expr,
    singles: &Singles,
    known: &Known,
    most: usize,
) -> Result<Listing, AlternFault>
    requires some { 0 < length others.now }
    requires each { All IsListed others.now }
    requires formed { IsTrue (is_expression (expression part.now)) }
    requires known { IsTrue (all_names (is_held (alternatives_in known.now)) (expression part.now)) }
    requires reported { TellsSingles (known_alternatives known.now) (expression part.now) singles.now }
    requires short_part { greatest_length (alternatives_of (known_alternatives known.now) (expression part.now)) ≤ cycle_limit }
    requires short { greatest_length (listed_beside others.now (alternatives_of (known_alternatives known.now) (expression part.now))) ≤ cycle_limit }
    requires most { most ≤ size_limit }
    ensures ok { IfOk result (λ listing. listing ≡ listed_beside others.now (alternatives_of (known_alternatives known.now) (expression part.now))) }
    ensures small { IfOk result (λ listing. total_weight listing ≤ most) }
    ensures err { IfErr result (Refuses most (listed_beside others.now (alternatives_of (known_alternatives known.now) (expression part.now)))) }
{
    let more = listing(alloc, part, singles, known, most)?;
    together(alloc, others, &more, most)
}

/// The alternatives of a well-formed expression in their order, where each name in it is known. Choices are ordered with
/// the leftmost part most significant, and equal alternatives stand each time. Number and cycles are counted before an
/// alternative is made, the size while they are: the first limit that they pass is reported, of number, cycles and size.
/// `NoMemory` stands in place of any answer where there was none. This profile, docs/RULES.md, 'Expressions' and 'Limits'.
pub fn expand(alloc: Global, expr: &Expr, known: &Known) -> Result<Vec<Alt>, AlternFault>
    requires formed { IsTrue (is_expression (expression expr.now)) }
    requires known { IsTrue (all_names (is_held (alternatives_in known.now)) (expression expr.now)) }
    ensures answer { Expands size_limit (alternatives_of (known_alternatives known.now) (expression expr.now)) result }
    ensures sound { IfOk result (λ alts. AreSound (alternatives alts.items)) }
{
    expand_within(alloc, expr, known, SIZE_LIMIT)
}

/// What `expand` answers, where the alternatives may have no more than `most` cycles and pairs together: `SizeLimit` tells
/// that they have more. That is asked before a list of alternatives grows, so that none which passes it is held.
pub fn expand_within(
    alloc: Global,
    expr: &Expr,
    known: &Known,
    most: usize,
) -> Result<Vec<Alt>, AlternFault>
    requires formed { IsTrue (is_expression (expression expr.now)) }
    requires known { IsTrue (all_names (is_held (alternatives_in known.now)) (expression expr.now)) }
    requires most { most ≤ size_limit }
    ensures answer { Expands most (alternatives_of (known_alternatives known.now) (expression expr.now)) result }
    ensures sound { IfOk result (λ alts. AreSound (alternatives alts.items)) }
{
    let extent = measured(expr, known);
    if extent.count > ALTERNATIVE_LIMIT {
        return Err(AlternFault::AlternativesLimit);
    }
    if extent.longest > CYCLE_LIMIT {
        return Err(AlternFault::CyclesLimit);
    }
    let singles = find_singles(alloc, expr, known)?;
    Ok(listing(alloc, expr, &singles, known, most)?.into_alts())
}
