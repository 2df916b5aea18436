//! A picture of what stands reserved, and of what the alternatives of a class ask for.

ghost use Rattle.std.specs.Prelude.{◌≡◌, ◌<◌, ◌+◌, ◌||◌, ◌++◌, ◌∷◌, [], ℕ, List, OnOk, IfOk, false, filter, length, map, min, decimal, replicate, vec_len, slice_get, true, Some, ◌-◌, if◌then◌else◌};
ghost use Rattle.std.specs.List.{list_any};
ghost use Rattle.std.specs.Option.{option_map};
ghost use Rattle.hz_check_reservations.specs.Shape.{place_of};
ghost use Rattle.hz_description_model.specs.Reservations.Automata.{UnitPlace as Unit};
ghost use Rattle.hz_base_model.specs.Pairs.{Pair};
ghost use Rattle.hz_pipeline_model.specs.Accepting.Events as events;
ghost use Rattle.hz_pipeline_model.specs.Accepting.Events.{Event};
ghost use Rattle.hz_pipeline_model.specs.Accepting.Replay.{Pipeline};
ghost use Rattle.hz_why_model.specs.Holders.{entries, entries_from};
ghost use Rattle.hz_why_model.specs.Pictures.{line_limit, picture};
ghost use Rattle.hz_why_model.specs.Reasons.{same_place};
ghost use Rattle.hz_reasons.specs.Holding.{age_of, most, AreHolders};
ghost use Rattle.hz_reasons.specs.Plans.{unit_of, choices_at, pairs_at, IsPlanOf};
ghost use Rattle.hz_explain.specs.Showing.{mark_of, is_marked, is_of, is_asked, is_kept, is_shown, cycles_asked, cycles_shown, lists_of, list_at, listed_for, each_time, times_held, holders_of, longest_shown, lines_shown, shown_in, shown_by, shown_held, rows_of_unit, AskFor, FindAlike};
ghost use Rattle.hz_explain.specs.Showing as showing;
ghost use Rattle.hz_explain.specs.Telling as reported;
ghost use Rattle.hz_explain.specs.Telling.{holder_in};

use crate::drawing::{LINE, Row, add_picture};
use crate::telling::{holder, unit_name};
use hz_check::Parts;
use hz_check_reservations::UnitPlace;
use hz_grid::NoMemory;
use hz_reasons::{AutomatonUnit, Choice, Holder, Place, Plan, cycles_left};
use itoa::Buffer;
use std::alloc::Global;

/// How many marks there are: one for each unit that an automaton of 256 may have.
const MARKS: usize = 65_536;

/// So many marks, none of which is set.
fn blank(alloc: Global, count: usize) -> Result<Vec<bool>, NoMemory>
    ensures { IfOk result (λ marks. marks.items ≡ replicate count false) }
{
    let marks = vec![in alloc; false; count]?;
    Ok(marks)
}

/// No unit is marked, of so many marks.
fn unmarked(alloc: Global, count: usize) -> Result<Vec<bool>, NoMemory>
    ensures each { IfOk result (λ marks. length marks.items ≡ count) }
    ensures none { IfOk result (λ marks. (u : Unit) → is_marked marks.items u ≡ false) }
{
    let marks = blank(alloc, count)?;
    Ok(marks)
}

/// The place of the mark of a unit.
fn mark_place(unit: AutomatonUnit) -> usize
    ensures place { result ≡ mark_of (unit_of unit) }
    ensures automaton { unit.automaton < 256 }
    ensures unit { unit.unit < 256 }
{
    usize::from(unit.automaton) * 256 + usize::from(unit.unit)
}

/// Marks a unit.
fn mark(marks: &mut Vec<bool>, unit: AutomatonUnit)
    requires { length marks.old.items ≡ 65536 }
    ensures each { length marks.new.items ≡ 65536 }
    ensures marked { (u : Unit) → is_marked marks.new.items u ≡ (same_place (unit_of unit) u || is_marked marks.old.items u) }
{
    let place = mark_place(unit);
    marks[place] = true;
}

/// Marks the unit of a pair, unless its cycle is before this one.
fn mark_pair(marks: &mut Vec<bool>, pair: Place, age: u16)
    requires { length marks.old.items ≡ 65536 }
    ensures each { length marks.new.items ≡ 65536 }
    ensures marked { (u : Unit) → is_marked marks.new.items u ≡ (is_of age u pair || is_marked marks.old.items u) }
{
    if pair.cycle < age {
        return;
    }
    let unit = AutomatonUnit {
        automaton: pair.automaton,
        unit: pair.unit,
    };
    mark(marks, unit);
}

/// Marks the units of pairs whose cycle is not before this one.
fn mark_pairs(marks: &mut Vec<bool>, pairs: &[Place], age: u16)
    requires { length marks.old.items ≡ 65536 }
    ensures each { length marks.new.items ≡ 65536 }
    ensures marked { (u : Unit) → is_marked marks.new.items u ≡ (list_any (is_of age u) pairs.now || is_marked marks.old.items u) }
{
    for place in 0..pairs.len() {
        let pair = pairs[place];
        mark_pair(marks, pair, age);
    }
}

/// Marks the units that alternatives ask for.
fn mark_asked(marks: &mut Vec<bool>, choices: &[Choice])
    requires { length marks.old.items ≡ 65536 }
    ensures each { length marks.new.items ≡ 65536 }
    ensures marked { (u : Unit) → is_marked marks.new.items u ≡ (is_asked choices.now u || is_marked marks.old.items u) }
{
    for choice in choices {
        mark_pairs(marks, &choice.pairs, 0);
    }
}

/// The pairs of the alternative that an issue took. It takes no memory.
fn pairs_taken(plan: &Plan, holder: Holder) -> &[Place]
    ensures { result.now ≡ pairs_at (choices_at plan.now holder.class) holder.number }
{
    match plan.classes.get(holder.class as usize) {
        Some(choices) => match choices.get(holder.number) {
            Some(choice) => &choice.pairs,
            None => &[],
        },
        None => &[],
    }
}

/// How many cycles ago an issue was.
fn age(holder: Holder) -> u16
    ensures { result ≡ age_of holder }
{
    holder.last.saturating_sub(holder.left)
}

/// Marks the units that an issue holds from the present cycle on.
fn mark_holder(marks: &mut Vec<bool>, plan: &Plan, holder: Holder)
    requires { length marks.old.items ≡ 65536 }
    ensures each { length marks.new.items ≡ 65536 }
    ensures marked { (u : Unit) → is_marked marks.new.items u ≡ (list_any (is_of (age_of holder) u) (pairs_at (choices_at plan.now holder.class) holder.number) || is_marked marks.old.items u) }
{
    mark_pairs(marks, pairs_taken(plan, holder), age(holder));
}

/// Marks the units that issues hold from the present cycle on.
fn mark_kept(marks: &mut Vec<bool>, plan: &Plan, issues: &[Holder])
    requires { length marks.old.items ≡ 65536 }
    ensures each { length marks.new.items ≡ 65536 }
    ensures marked { (u : Unit) → is_marked marks.new.items u ≡ (is_kept plan.now issues.now u || is_marked marks.old.items u) }
{
    for place in 0..issues.len() {
        let holder = issues[place];
        mark_holder(marks, plan, holder);
    }
}

/// Marks of the units that are held from the present cycle on, or asked for.
fn marks(
    alloc: Global,
    plan: &Plan,
    issues: &[Holder],
    asked: &[Choice],
) -> Result<Vec<bool>, NoMemory>
    ensures each { IfOk result (λ marks. length marks.items ≡ 65536) }
    ensures marked { IfOk result (λ marks. (u : Unit) → is_marked marks.items u ≡ is_shown plan.now issues.now asked.now u) }
{
    let mut marks = unmarked(alloc, MARKS)?;
    mark_kept(&mut marks, plan, issues);
    mark_asked(&mut marks, asked);
    Ok(marks)
}

/// So many empty lists.
fn empty_lists(alloc: Global, count: usize) -> Result<Vec<Vec<Holder>>, NoMemory>
    ensures size { IfOk result (λ lists. vec_len lists ≡ count) }
    ensures empty { IfOk result (λ lists. (place : ℕ) → list_at (lists_of lists.items) place ≡ []) }
{
    let mut lists = Vec::with_capacity(alloc, count)?;
    while lists.len() < count {
        lists.push(Vec::new(alloc))?;
    }
    Ok(lists)
}

/// Whether two issues are the same.
fn is_same(one: Holder, other: Holder) -> bool
    ensures { result ≡ true → one ≡ other }
{
    one.line == other.line
        && one.class == other.class
        && one.number == other.number
        && one.last == other.last
        && one.left == other.left
}

/// Whether a list ends with an issue.
fn ends_with(list: &[Holder], holder: Holder) -> bool
    ensures { result ≡ true → slice_get list.now (length list.now - 1) ≡ Some holder }
{
    match list.last() {
        Some(last) => is_same(*last, holder),
        None => false,
    }
}

/// Adds an issue to a list, unless the list ends with it.
fn put(list: &mut Vec<Holder>, holder: Holder) -> Result<(), NoMemory>
    ensures { OnOk result (FindAlike list.new.items (list.old.items ++ holder ∷ [])) }
{
    if !ends_with(list, holder) {
        list.push(holder)?;
    }
    Ok(())
}

/// Adds an issue to the list of a unit, unless the list ends with it.
fn add_to_unit(
    held: &mut Vec<Vec<Holder>>,
    unit: AutomatonUnit,
    holder: Holder,
) -> Result<(), NoMemory>
    requires { vec_len held.old ≡ 65536 }
    ensures size { vec_len held.new ≡ 65536 }
    ensures added { OnOk result ((u : Unit) → FindAlike (listed_for held.new.items u) (listed_for held.old.items u ++ (if same_place (unit_of unit) u then holder ∷ [] else []))) }
{
    let place = mark_place(unit);
    put(&mut held[place], holder)?;
    Ok(())
}

/// Adds an issue to the list of the unit of a pair, unless the pair's cycle is before this one.
fn add_by_pair(
    held: &mut Vec<Vec<Holder>>,
    pair: Place,
    age: u16,
    holder: Holder,
) -> Result<(), NoMemory>
    requires { vec_len held.old ≡ 65536 }
    ensures size { vec_len held.new ≡ 65536 }
    ensures added { OnOk result ((u : Unit) → FindAlike (listed_for held.new.items u) (listed_for held.old.items u ++ (if is_of age u pair then holder ∷ [] else []))) }
{
    if pair.cycle < age {
        return Ok(());
    }
    let unit = AutomatonUnit {
        automaton: pair.automaton,
        unit: pair.unit,
    };
    add_to_unit(held, unit, holder)?;
    Ok(())
}

/// Adds an issue to the lists of the units of pairs whose cycle is not before this one.
fn add_by_pairs(
    held: &mut Vec<Vec<Holder>>,
    pairs: &[Place],
    age: u16,
    holder: Holder,
) -> Result<(), NoMemory>
    requires { vec_len held.old ≡ 65536 }
    ensures size { vec_len held.new ≡ 65536 }
    ensures added { OnOk result ((u : Unit) → FindAlike (listed_for held.new.items u) (listed_for held.old.items u ++ each_time age u holder pairs.now)) }
{
    for place in 0..pairs.len() {
        let pair = pairs[place];
        add_by_pair(held, pair, age, holder)?;
    }
    Ok(())
}

/// Adds an issue to the lists of the units that it holds from the present cycle on.
fn add_holder(held: &mut Vec<Vec<Holder>>, plan: &Plan, holder: Holder) -> Result<(), NoMemory>
    requires { vec_len held.old ≡ 65536 }
    ensures size { vec_len held.new ≡ 65536 }
    ensures added { OnOk result ((u : Unit) → FindAlike (listed_for held.new.items u) (listed_for held.old.items u ++ times_held plan.now u holder)) }
{
    add_by_pairs(held, pairs_taken(plan, holder), age(holder), holder)?;
    Ok(())
}

/// Adds issues to the lists of the units that they hold from the present cycle on.
fn add_holders(held: &mut Vec<Vec<Holder>>, plan: &Plan, issues: &[Holder]) -> Result<(), NoMemory>
    requires { vec_len held.old ≡ 65536 }
    ensures { OnOk result ((u : Unit) → FindAlike (listed_for held.new.items u) (listed_for held.old.items u ++ holders_of plan.now issues.now u)) }
{
    for place in 0..issues.len() {
        let holder = issues[place];
        add_holder(held, plan, holder)?;
    }
    Ok(())
}

/// For each unit the issues that hold it from the present cycle on, in their order, each once.
fn holders_by_unit(
    alloc: Global,
    plan: &Plan,
    issues: &[Holder],
) -> Result<Vec<Vec<Holder>>, NoMemory>
    ensures { IfOk result (λ held. (u : Unit) → FindAlike (listed_for held.items u) (holders_of plan.now issues.now u)) }
{
    let mut held = empty_lists(alloc, MARKS)?;
    add_holders(&mut held, plan, issues)?;
    Ok(held)
}

/// The list of a place, which is empty where there is none. It takes no memory.
fn list_of(held: &[Vec<Holder>], place: usize) -> &[Holder]
    ensures { result.now ≡ list_at (lists_of held.now) place }
{
    match held.get(place) {
        Some(list) => list.as_slice(),
        None => &[],
    }
}

/// The issues in the list of a unit. It takes no memory.
fn holders_at(held: &[Vec<Holder>], unit: AutomatonUnit) -> &[Holder]
    ensures { result.now ≡ listed_for held.now (unit_of unit) }
{
    let place = mark_place(unit);
    list_of(held, place)
}

/// How many cycles there are up to the last of a pair. It takes no memory.
fn cycles_of_pairs(pairs: &[Place]) -> u32
    ensures { result ≡ most (λ p. p.cycle + 1) pairs.now }
{
    let mut cycles = 0;
    for pair in pairs {
        cycles = (u32::from(pair.cycle) + 1).max(cycles);
    }
    cycles
}

/// How many cycles there are up to the last of a pair of alternatives. It takes no memory.
fn cycles_of_all(choices: &[Choice]) -> u32
    ensures { result ≡ cycles_asked choices.now }
{
    let mut cycles = 0;
    for choice in choices {
        cycles = cycles_of_pairs(&choice.pairs).max(cycles);
    }
    cycles
}

/// How many cycles there are up to the last that is held or asked for. It takes no memory.
fn cycles_of(issues: &[Holder], asked: &[Choice]) -> u32
    ensures { result ≡ cycles_shown issues.now asked.now }
{
    cycles_left(issues).max(cycles_of_all(asked))
}

/// How many of so many cycles a row has.
fn cycles_drawn(cycles: u32) -> u16
    ensures { result ≡ min cycles line_limit }
{
    cycles.min(LINE as u32) as u16
}

/// The length of a number.
fn digits(number: u32) -> usize
    ensures { result ≡ length (decimal number) }
{
    Buffer::new().format(number).len()
}

/// The length of the longest text of a cell: the number of the last cycle, or a line.
fn longest_cell(issues: &[Holder], cycles: u32) -> usize
    ensures { result ≡ longest_shown issues.now cycles }
{
    let mut most = digits(cycles.saturating_sub(1));
    for holder in issues {
        most = digits(holder.line).max(most);
    }
    most
}

/// The line of the issue that holds the unit in a cycle; None if it is free. It takes no memory.
fn line_of(plan: &Plan, issues: &[Holder], unit: AutomatonUnit, cycle: u16) -> Option<u32>
    ensures { result ≡ option_map (λ h. h.line) (holder_in plan.now issues.now (unit_of unit) cycle) }
{
    match holder(plan, issues, unit, cycle) {
        Some(holder) => Some(holder.line),
        None => None,
    }
}

/// The lines of the issues that hold the unit in each of so many cycles.
fn lines(
    alloc: Global,
    plan: &Plan,
    issues: &[Holder],
    unit: AutomatonUnit,
    cycles: u16,
) -> Result<Vec<Option<u32>>, NoMemory>
    ensures { IfOk result (λ lines. lines.items ≡ lines_shown plan.now issues.now cycles (unit_of unit)) }
{
    let mut lines = Vec::with_capacity(alloc, usize::from(cycles))?;
    for cycle in 0..cycles {
        lines.push(line_of(plan, issues, unit, cycle))?;
    }
    Ok(lines)
}

/// The row of a unit, for so many cycles, by the issues in its list.
fn row<'a>(
    alloc: Global,
    parts: &'a Parts,
    plan: &Plan,
    held: &[Vec<Holder>],
    unit: AutomatonUnit,
    cycles: u16,
) -> Result<Row<'a>, NoMemory>
    ensures { IfOk result (λ row. shown_in row ≡ shown_by parts.now plan.now held.now cycles (unit_of unit)) }
{
    let lines = lines(alloc, plan, holders_at(held, unit), unit, cycles)?;
    Ok(Row {
        name: unit_name(parts, unit),
        lines,
    })
}

/// The unit of a place, if its numbers are below 256.
fn small_unit(place: &UnitPlace) -> Option<AutomatonUnit>
    ensures { option_map unit_of result ≡ showing.small_unit (place_of place.now) }
{
    if place.automaton < 256 && place.unit < 256 {
        return Some(AutomatonUnit {
            automaton: place.automaton as u8,
            unit: place.unit as u8,
        });
    }
    None
}

/// Whether a unit is marked. It takes no memory.
fn is_marked(marks: &[bool], unit: AutomatonUnit) -> bool
    requires { length marks.now ≡ 65536 }
    ensures { result ≡ is_marked marks.now (unit_of unit) }
{
    let place = mark_place(unit);
    marks[place]
}

/// The unit of a place, if it is marked. It takes no memory.
fn marked_unit(marks: &[bool], place: &UnitPlace) -> Option<AutomatonUnit>
    requires { length marks.now ≡ 65536 }
    ensures { option_map unit_of result ≡ showing.marked_unit marks.now (place_of place.now) }
{
    match small_unit(place) {
        Some(unit) => {
            if is_marked(marks, unit) {
                return Some(unit);
            }
            None
        }
        None => None,
    }
}

/// Adds the row of the unit of a place, for so many cycles, if it is marked.
fn add_row<'a>(
    alloc: Global,
    rows: &mut Vec<Row<'a>>,
    parts: &'a Parts,
    plan: &Plan,
    held: &[Vec<Holder>],
    marked: Option<AutomatonUnit>,
    cycles: u16,
) -> Result<(), NoMemory>
    ensures { OnOk result (map shown_in rows.new.items ≡ map shown_in rows.old.items ++ rows_of_unit parts.now plan.now held.now cycles (option_map unit_of marked)) }
{
    match marked {
        Some(unit) => {
            let row = row(alloc, parts, plan, held, unit, cycles)?;
            rows.push(row)?;
            Ok(())
        }
        None => Ok(()),
    }
}

/// The rows of the marked units of places, for so many cycles, in their order.
fn rows<'a>(
    alloc: Global,
    parts: &'a Parts,
    places: &[UnitPlace],
    plan: &Plan,
    held: &[Vec<Holder>],
    marks: &[bool],
    cycles: u16,
) -> Result<Vec<Row<'a>>, NoMemory>
    requires { length marks.now ≡ 65536 }
    ensures { IfOk result (λ rows. map shown_in rows.items ≡ map (shown_by parts.now plan.now held.now cycles) (filter (is_marked marks.now) (map place_of places.now))) }
{
    let mut rows = Vec::new(alloc);
    for place in places {
        let marked = marked_unit(marks, place);
        add_row(alloc, &mut rows, parts, plan, held, marked, cycles)?;
    }
    Ok(rows)
}

/// The rows of what is held from the present cycle on, and of what alternatives ask for, for so many cycles.
fn shown_rows<'a>(
    alloc: Global,
    parts: &'a Parts,
    plan: &Plan,
    issues: &[Holder],
    asked: &[Choice],
    cycles: u16,
) -> Result<Vec<Row<'a>>, NoMemory>
    ensures { IfOk result (λ rows. map shown_in rows.items ≡ map (shown_held parts.now plan.now issues.now cycles) (filter (is_shown plan.now issues.now asked.now) (map place_of parts.now.places.items))) }
{
    let marks = marks(alloc, plan, issues, asked)?;
    let held = holders_by_unit(alloc, plan, issues)?;
    rows(alloc, parts, &parts.places, plan, &held, &marks, cycles)
}

/// Adds the picture of what is held from the present cycle on, and of what alternatives ask for.
pub(crate) fn add_shown(
    alloc: Global,
    text: &mut Vec<u8>,
    parts: &Parts,
    plan: &Plan,
    issues: &[Holder],
    asked: &[Choice],
) -> Result<(), NoMemory>
    ensures { OnOk result ((m : Pipeline Unit) (t : List Event) (lines choices : List ℕ) (pairs : List (Pair Unit)) → IsPlanOf m plan.now → AreHolders m t lines choices issues.now → AskFor asked.now pairs → text.new.items ≡ text.old.items ++ picture same_place (reported.unit_name parts.now) (entries_from (events.cycles_of t) (entries m 0 t lines choices)) (map place_of parts.now.places.items) pairs) }
{
    let cycles = cycles_of(issues, asked);
    if cycles == 0 {
        return Ok(());
    }
    let shown = cycles_drawn(cycles);
    let rows = shown_rows(alloc, parts, plan, issues, asked, shown)?;
    add_picture(text, &rows, cycles as usize, longest_cell(issues, cycles))?;
    Ok(())
}
