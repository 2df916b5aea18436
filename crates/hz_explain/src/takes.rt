//! What the alternatives of a class take.

ghost use Rattle.std.specs.Prelude.{◌≡◌, ◌+◌, ◌-◌, ◌<◌, ◌≤◌, ◌++◌, ◌∷◌, ◌==◌, ◌&&◌, [], List, OnOk, IfOk, codes, length, map, nat_lt, slice_index, take, vec_len, if◌then◌else◌};
ghost use Rattle.std.specs.List.{concat};
ghost use Rattle.hz_base_model.specs.Pairs.{same_pair};
ghost use Rattle.hz_why_model.specs.Groups as groups;
ghost use Rattle.hz_why_model.specs.Groups.{first_place, groups_from};
ghost use Rattle.hz_why_model.specs.Pictures as pictures;
ghost use Rattle.hz_why_model.specs.Reasons.{same_place};
ghost use Rattle.hz_why_model.specs.Takes as model;
ghost use Rattle.hz_why_model.specs.Takes.{stretch_text};
ghost use Rattle.hz_reasons.specs.Plans.{place_of, unit_of};
ghost use Rattle.hz_reasons.specs.Taken.{is_held};
ghost use Rattle.hz_explain.specs.Detailing.{texts_of};
ghost use Rattle.hz_explain.specs.Taking as taking;
ghost use Rattle.hz_explain.specs.Taking.{pairs_in, stretch_of, runs_to, stretch_at, stretches_at, stretches_by, stretches_in, taken_by, take_alike, line_reported, takes_reported};
ghost use Rattle.hz_explain.specs.Telling as reported;
ghost use Rattle.hz_explain.specs.Telling.{unit_in};

use crate::drawing::{LINE, add};
use crate::groups::led_by;
use crate::lists::{add_listed, add_range, alternatives};
use crate::telling::{add_count, unit_name};
use hz_check::Parts;
use hz_grid::{NoMemory, Usage};
use hz_reasons::{AutomatonUnit, Choice, Place, adds};
use std::alloc::Global;

/// How many alternatives are written, at most.
const WRITTEN: usize = 64;

/// How many stretches are looked for, at most: one more than a line may show.
const LOOKED_FOR: usize = 81;

/// A unit that is taken in each cycle from the first to the last.
#[derive(Clone, Copy)]
struct Stretch {
    unit: AutomatonUnit,
    first: usize,
    last: usize,
}

/// The unit of a pair.
fn unit_at(pair: Place) -> AutomatonUnit
    ensures { result ≡ unit_in pair }
{
    AutomatonUnit {
        automaton: pair.automaton,
        unit: pair.unit,
    }
}

/// How many cycles there are up to the last of a pair. It takes no memory.
fn count_cycles(pairs: &[Place]) -> usize
    ensures few { result ≤ 65536 }
    ensures count { result ≡ pictures.cycles_in (map place_of pairs.now) }
{
    let mut cycles = 0;
    for pair in pairs {
        cycles = cycles.max(usize::from(pair.cycle) + 1);
    }
    cycles
}

/// Whether the unit of a pair is taken in the cycle before it, too. It takes no memory.
fn runs_before(parts: &[Usage], pair: Place) -> bool
    ensures { result ≡ taking.runs_before parts.now (place_of pair) }
{
    pair.cycle > 0 && adds(parts, unit_at(pair), pair.cycle - 1)
}

/// Whether a unit is taken in the cycle after this one, of so many cycles. It takes no memory.
fn is_taken_after(parts: &[Usage], cycles: usize, unit: AutomatonUnit, cycle: usize) -> bool
    requires few { cycles ≤ 65536 }
    requires low { cycle < 65536 }
    ensures { result ≡ (nat_lt (cycle + 1) cycles && is_held parts.now (cycle + 1) (unit_of unit)) }
{
    cycle + 1 < cycles && adds(parts, unit, (cycle + 1) as u16)
}

/// The last cycle in which the unit of a pair is taken without a break, of so many cycles. It takes no memory.
fn last_cycle(parts: &[Usage], cycles: usize, pair: Place) -> usize
    requires { cycles ≤ 65536 }
    ensures { result ≡ runs_to parts.now cycles (unit_of (unit_in pair)) pair.cycle }
{
    let unit = unit_at(pair);
    let mut last = usize::from(pair.cycle);
    while is_taken_after(parts, cycles, unit, last) {
        last += 1;
    }
    last
}

/// The stretch that begins with a pair, of so many cycles. It takes no memory.
fn stretch_from(parts: &[Usage], cycles: usize, pair: Place) -> Stretch
    requires { cycles ≤ 65536 }
    ensures { stretch_of result ≡ stretch_at parts.now cycles (place_of pair) }
{
    Stretch {
        unit: unit_at(pair),
        first: usize::from(pair.cycle),
        last: last_cycle(parts, cycles, pair),
    }
}

/// Adds the stretch that begins with a pair, unless its unit is taken in the cycle before.
fn add_stretch(
    found: &mut Vec<Stretch>,
    parts: &[Usage],
    cycles: usize,
    pair: Place,
) -> Result<(), NoMemory>
    requires { cycles ≤ 65536 }
    ensures few { vec_len found.new ≤ vec_len found.old + 1 }
    ensures added { OnOk result (map stretch_of found.new.items ≡ map stretch_of found.old.items ++ stretches_at parts.now cycles (place_of pair)) }
{
    if !runs_before(parts, pair) {
        found.push(stretch_from(parts, cycles, pair))?;
    }
    Ok(())
}

/// Adds the stretches that begin with these pairs, until there are so many as are looked for.
fn add_stretches(
    found: &mut Vec<Stretch>,
    parts: &[Usage],
    cycles: usize,
    pairs: &[Place],
) -> Result<(), NoMemory>
    requires few { cycles ≤ 65536 }
    requires room { vec_len found.old ≤ 81 }
    ensures { OnOk result (map stretch_of found.new.items ≡ take 81 (map stretch_of found.old.items ++ stretches_by parts.now cycles (map place_of pairs.now))) }
{
    for place in 0..pairs.len() {
        if found.len() >= LOOKED_FOR {
            return Ok(());
        }
        let pair = pairs[place];
        add_stretch(found, parts, cycles, pair)?;
    }
    Ok(())
}

/// The first stretches of an alternative, as many as are looked for.
fn stretches(alloc: Global, choice: &Choice) -> Result<Vec<Stretch>, NoMemory>
    ensures { IfOk result (λ found. map stretch_of found.items ≡ take 81 (stretches_in choice.now)) }
{
    let mut found = Vec::new(alloc);
    let cycles = count_cycles(&choice.pairs);
    add_stretches(&mut found, &choice.parts, cycles, &choice.pairs)?;
    Ok(found)
}

/// Adds a stretch.
fn add_stretch_text(text: &mut Vec<u8>, parts: &Parts, stretch: Stretch) -> Result<(), NoMemory>
    ensures { OnOk result (text.new.items ≡ text.old.items ++ stretch_text (reported.unit_name parts.now) (stretch_of stretch)) }
{
    add(text, unit_name(parts, stretch.unit))?;
    add(text, b" ")?;
    add_range(text, stretch.first, stretch.last)?;
    Ok(())
}

/// The text of a stretch.
fn text_of(alloc: Global, parts: &Parts, stretch: Stretch) -> Result<Vec<u8>, NoMemory>
    ensures { IfOk result (λ text. text.items ≡ stretch_text (reported.unit_name parts.now) (stretch_of stretch)) }
{
    let mut text = Vec::new(alloc);
    add_stretch_text(&mut text, parts, stretch)?;
    Ok(text)
}

/// The texts of stretches.
fn texts(alloc: Global, parts: &Parts, stretches: &[Stretch]) -> Result<Vec<Vec<u8>>, NoMemory>
    ensures { IfOk result (λ texts. texts_of texts.items ≡ map (stretch_text (reported.unit_name parts.now)) (map stretch_of stretches.now)) }
{
    let mut texts = Vec::new(alloc);
    for place in 0..stretches.len() {
        let text = text_of(alloc, parts, stretches[place])?;
        texts.push(text)?;
    }
    Ok(texts)
}

/// The texts of the first stretches of an alternative, as many as are looked for.
fn taken_texts(alloc: Global, parts: &Parts, choice: &Choice) -> Result<Vec<Vec<u8>>, NoMemory>
    ensures { IfOk result (λ texts. texts_of texts.items ≡ map (stretch_text (reported.unit_name parts.now)) (take 81 (stretches_in choice.now))) }
{
    let stretches = stretches(alloc, choice)?;
    texts(alloc, parts, &stretches)
}

/// Adds texts of stretches in so many columns.
fn add_taken(text: &mut Vec<u8>, columns: usize, texts: &[Vec<u8>]) -> Result<(), NoMemory>
    ensures { OnOk result (text.new.items ≡ text.old.items ++ taken_by columns (texts_of texts.now)) }
{
    if texts.is_empty() {
        return add(text, b" nothing");
    }
    add_listed(text, columns, b" ", b", ", texts)
}

/// ` takes`, or of more than one alternative ` take`. It takes no memory.
fn takes_word(numbers: &[usize]) -> &[u8]
    ensures { result.now ≡ model.takes_word numbers.now }
{
    if numbers.len() == 1 {
        b" takes"
    } else {
        b" take"
    }
}

/// Adds the line of alternatives that take these stretches: what they are called, the word, and the stretches.
fn add_words(
    text: &mut Vec<u8>,
    named: &[u8],
    word: &[u8],
    texts: &[Vec<u8>],
) -> Result<(), NoMemory>
    ensures { OnOk result (text.new.items ≡ text.old.items ++ concat (named.now ∷ word.now ∷ taken_by (80 - (length named.now + length word.now)) (texts_of texts.now) ∷ codes "\n" ∷ [])) }
{
    add(text, named)?;
    add(text, word)?;
    let columns = LINE.saturating_sub(named.len()).saturating_sub(word.len());
    add_taken(text, columns, texts)?;
    add(text, b"\n")?;
    Ok(())
}

/// Adds the line of the alternatives of these numbers, which take the same as this one.
fn add_line(
    alloc: Global,
    text: &mut Vec<u8>,
    parts: &Parts,
    numbers: &[usize],
    choice: &Choice,
) -> Result<(), NoMemory>
    ensures { OnOk result (text.new.items ≡ text.old.items ++ line_reported (reported.unit_name parts.now) numbers.now choice.now) }
{
    let named = alternatives(alloc, numbers)?;
    let texts = taken_texts(alloc, parts, choice)?;
    add_words(text, &named, takes_word(numbers), &texts)?;
    Ok(())
}

/// Whether two pairs are the same.
fn is_same(one: Place, other: Place) -> bool
    ensures { result ≡ same_pair same_place (place_of one) (place_of other) }
{
    one.automaton == other.automaton && one.unit == other.unit && one.cycle == other.cycle
}

/// Whether two lists of pairs are the same. It takes no memory.
fn are_same(one: &[Place], other: &[Place]) -> bool
    ensures { result ≡ model.are_same same_place (map place_of one.now) (map place_of other.now) }
{
    if one.len() != other.len() {
        return false;
    }
    for place in 0..one.len() {
        if !is_same(one[place], other[place]) {
            return false;
        }
    }
    true
}

/// The place of the first alternative that takes the same as this one. It takes no memory.
fn leader(choices: &[Choice], choice: &Choice) -> usize
    ensures { result ≡ first_place (take_alike choice.now) choices.now }
{
    for place in 0..choices.len() {
        if are_same(&choice.pairs, &choices[place].pairs) {
            return place;
        }
    }
    choices.len()
}

/// For each alternative the place of the first that takes the same.
fn leaders(alloc: Global, choices: &[Choice]) -> Result<Vec<usize>, NoMemory>
    ensures { IfOk result (λ leaders. leaders.items ≡ groups.leaders take_alike choices.now) }
{
    let mut leaders = Vec::with_capacity(alloc, choices.len())?;
    for place in 0..choices.len() {
        leaders.push(leader(choices, &choices[place]))?;
    }
    Ok(leaders)
}

/// Adds the line of the alternatives that take the same as the one at this place, if no alternative before does.
fn add_group(
    alloc: Global,
    text: &mut Vec<u8>,
    parts: &Parts,
    leaders: &[usize],
    place: usize,
    choice: &Choice,
) -> Result<(), NoMemory>
    requires { place < length leaders.now }
    ensures { OnOk result (text.new.items ≡ text.old.items ++ (if slice_index leaders.now place == place then line_reported (reported.unit_name parts.now) (groups.led_by place 1 leaders.now) choice.now else [])) }
{
    if leaders[place] != place {
        return Ok(());
    }
    let numbers = led_by(alloc, leaders, place)?;
    add_line(alloc, text, parts, &numbers, choice)?;
    Ok(())
}

/// Adds the lines of alternatives, those that take the same as one.
fn add_groups(
    alloc: Global,
    text: &mut Vec<u8>,
    parts: &Parts,
    leaders: &[usize],
    choices: &[Choice],
) -> Result<(), NoMemory>
    requires { length leaders.now ≡ length choices.now }
    ensures { OnOk result (text.new.items ≡ text.old.items ++ groups_from (line_reported (reported.unit_name parts.now)) leaders.now 0 choices.now) }
{
    for place in 0..choices.len() {
        add_group(alloc, text, parts, leaders, place, &choices[place])?;
    }
    Ok(())
}

/// Adds how many more alternatives there are than are written, if there are more.
fn add_more(text: &mut Vec<u8>, count: usize) -> Result<(), NoMemory>
    ensures { OnOk result (text.new.items ≡ text.old.items ++ taking.more_reported count) }
{
    if count <= WRITTEN {
        return Ok(());
    }
    add(text, b"more alternatives: ")?;
    add_count(text, count - WRITTEN)?;
    add(text, b"\n")?;
    Ok(())
}

/// Adds what alternatives take: of the first of them a line each, those that take the same as one, and how many more there are.
pub(crate) fn add_takes(
    alloc: Global,
    text: &mut Vec<u8>,
    parts: &Parts,
    choices: &[Choice],
) -> Result<(), NoMemory>
    ensures { OnOk result (text.new.items ≡ text.old.items ++ takes_reported (reported.unit_name parts.now) choices.now) }
{
    let written = &choices[..WRITTEN.min(choices.len())];
    let leaders = leaders(alloc, written)?;
    add_groups(alloc, text, parts, &leaders, written)?;
    add_more(text, choices.len())?;
    Ok(())
}
