//! The trace that tells two machines apart, as a text.

ghost use Rattle.std.specs.Prelude.{◌≡◌, ◌++◌, ◌∷◌, [], if◌then◌else◌, OnOk, IfOk, map, filter, slice_index_or};
ghost use Rattle.hz_pipeline_model.specs.Tables.Machines.{names_of};
ghost use Rattle.hz_tables.specs.Machines.{machine_of};
ghost use Rattle.hz_tables.specs.Parts.{part_of};
ghost use Rattle.hz_same_model.specs.Common as model;
ghost use Rattle.hz_same_model.specs.Texts.{advance_lines, difference_text, last_line, refused_line, reserved_line, symbol_line, trace_lines};
ghost use Rattle.hz_same_top.specs.Names.{common_in, names_in};

use crate::adding::add_all;
use hz_product::{has_ask, has_class};
use hz_regexp::Name;
use hz_tables::{Machine, NoMemory, Part};
use itoa::Buffer;
use std::alloc::Global;

/// The names of the classes and of the query units that two machines have in common, in the order of the first.
#[derive(Drop)]
pub(crate) struct Names<'a> {
    classes: Vec<&'a Name>,
    asks: Vec<&'a Name>,
}

/// Adds a name, if it is common.
#[tactic(auto, using(crate::proofs::NameLaws::pushed_name))]
fn push_common<'a>(
    names: &mut Vec<&'a Name>,
    is_common: bool,
    name: &'a Name,
) -> Result<(), NoMemory>
    ensures { OnOk result (names_in names.new.items ≡ names_in names.old.items ++ (if is_common then name.now ∷ [] else [])) }
{
    if !is_common {
        return Ok(());
    }
    names.push(name)?;
    Ok(())
}

/// The classes that the second machine has too.
fn common_classes<'a>(
    alloc: Global,
    classes: &'a [Name],
    second: &Machine,
) -> Result<Vec<&'a Name>, NoMemory>
    ensures { IfOk result (λ names. names_in names.items ≡ filter (model.has_class (machine_of second.now)) classes.now) }
{
    let mut names = Vec::new(alloc);
    for name in classes {
        push_common(&mut names, has_class(second, name), name)?;
    }
    Ok(names)
}

/// Adds the query units of a part that the second machine has too.
fn add_common_asks<'a>(
    asks: &'a [Name],
    second: &Machine,
    names: &mut Vec<&'a Name>,
) -> Result<(), NoMemory>
    ensures { OnOk result (names_in names.new.items ≡ names_in names.old.items ++ filter (model.has_ask (machine_of second.now)) asks.now) }
{
    for name in asks {
        push_common(names, has_ask(second, name), name)?;
    }
    Ok(())
}

/// The query units that the second machine has too.
fn common_asks<'a>(
    alloc: Global,
    parts: &'a [Part],
    second: &Machine,
) -> Result<Vec<&'a Name>, NoMemory>
    ensures { IfOk result (λ names. names_in names.items ≡ filter (model.has_ask (machine_of second.now)) (names_of (map part_of parts.now))) }
{
    let mut names = Vec::new(alloc);
    for part in parts {
        add_common_asks(&part.asks, second, &mut names)?;
    }
    Ok(names)
}

/// The names that two machines have in common.
pub(crate) fn common_names<'a>(
    alloc: Global,
    first: &'a Machine,
    second: &Machine,
) -> Result<Names<'a>, NoMemory>
    ensures { IfOk result (λ names. common_in names ≡ model.common_of (machine_of first.now) (machine_of second.now)) }
{
    let classes = common_classes(alloc, &first.classes, second)?;
    let asks = common_asks(alloc, &first.parts, second)?;
    Ok(Names { classes, asks })
}

/// Adds the line of so many cycles, or none.
fn add_advance(text: &mut Vec<u8>, cycles: u64) -> Result<(), NoMemory>
    ensures { OnOk result (text.new.items ≡ text.old.items ++ advance_lines cycles) }
{
    if cycles == 0 {
        return Ok(());
    }
    let mut digits = Buffer::new();
    add_all(
        text,
        &[b"advance ", digits.format(cycles).as_bytes(), b"\n"],
    )
}

/// The bytes of the name at a place, or none.
fn name_at<'a>(names: &[&'a Name], place: usize) -> &'a [u8]
    ensures { result.now ≡ slice_index_or (names_in names.now) place [] }
{
    match names.get(place) {
        Some(name) => name.bytes(),
        None => &[],
    }
}

/// Adds the line of an issue, or of an ask.
fn add_symbol(text: &mut Vec<u8>, names: &Names<'_>, symbol: usize) -> Result<(), NoMemory>
    ensures { OnOk result (text.new.items ≡ text.old.items ++ symbol_line (common_in names.now) symbol) }
{
    let classes = names.classes.len();
    if symbol < classes {
        return add_all(text, &[b"issue ", name_at(&names.classes, symbol), b"\n"]);
    }
    let place = (symbol - classes).saturating_sub(1);
    add_all(text, &[b"ask ", name_at(&names.asks, place), b"\n"])
}

/// Adds the lines of a trace. Advances side by side are one line.
fn add_trace(text: &mut Vec<u8>, names: &Names<'_>, trace: &[usize]) -> Result<(), NoMemory>
    ensures { OnOk result (text.new.items ≡ text.old.items ++ trace_lines (common_in names.now) 0 trace.now) }
{
    let mut waiting = 0;
    for symbol in trace {
        if *symbol == names.classes.len() {
            waiting += 1;
        } else {
            add_advance(text, waiting)?;
            waiting = 0;
            add_symbol(text, names, *symbol)?;
        }
    }
    add_advance(text, waiting)
}

/// Adds the line of machines of which the one refuses the last event, and the other takes it.
fn add_refused(text: &mut Vec<u8>, refuses: &str, accepts: &str) -> Result<(), NoMemory>
    ensures { OnOk result (text.new.items ≡ text.old.items ++ refused_line refuses.now accepts.now) }
{
    add_all(
        text,
        &[
            b"; refused by ",
            refuses.as_bytes(),
            b", accepted by ",
            accepts.as_bytes(),
            b"\n",
        ],
    )
}

/// Adds the line of machines of which the one has the unit reserved that is asked for last, and the other has it free.
fn add_reserved(text: &mut Vec<u8>, reserved: &str, free: &str) -> Result<(), NoMemory>
    ensures { OnOk result (text.new.items ≡ text.old.items ++ reserved_line reserved.now free.now) }
{
    add_all(
        text,
        &[
            b"; reserved in ",
            reserved.as_bytes(),
            b", free in ",
            free.as_bytes(),
            b"\n",
        ],
    )
}

/// Adds the line that says who refuses the last event, or where the unit is reserved that is asked for last.
fn add_last(
    text: &mut Vec<u8>,
    file: &str,
    other_file: &str,
    asks: bool,
    answer: bool,
) -> Result<(), NoMemory>
    ensures { OnOk result (text.new.items ≡ text.old.items ++ last_line file.now other_file.now asks answer) }
{
    match (asks, answer) {
        (false, true) => add_refused(text, other_file, file),
        (false, false) => add_refused(text, file, other_file),
        (true, true) => add_reserved(text, file, other_file),
        (true, false) => add_reserved(text, other_file, file),
    }
}

/// Adds the trace that tells two machines apart, and which of them answers its last event how.
pub(crate) fn add_difference(
    text: &mut Vec<u8>,
    file: &str,
    other_file: &str,
    names: &Names<'_>,
    trace: &[usize],
    last: usize,
    answer: bool,
) -> Result<(), NoMemory>
    ensures { OnOk result (text.new.items ≡ text.old.items ++ difference_text file.now other_file.now (common_in names.now) trace.now last answer) }
{
    add_trace(text, names, trace)?;
    add_last(text, file, other_file, last > names.classes.len(), answer)
}
