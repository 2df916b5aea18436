//! The lines of names that one machine has alone.

ghost use Rattle.std.specs.Prelude.{◌≡◌, ◌++◌, OnOk, codes, if◌then◌else◌, [], map, filter, not};
ghost use Rattle.std.specs.List.{flat_map};
ghost use Rattle.hz_pipeline_model.specs.Tables.Machines.{names_of};
ghost use Rattle.hz_tables.specs.Machines.{machine_of};
ghost use Rattle.hz_tables.specs.Parts.{part_of};
ghost use Rattle.hz_same_model.specs.Common as common;
ghost use Rattle.hz_same_model.specs.Texts.{alone_line, alone_lines, names_alone};

use crate::adding::add_all;
use hz_product::{has_ask, has_class};
use hz_regexp::Name;
use hz_tables::{Machine, NoMemory, Part};

/// Adds the line of a class or a query unit, if it is alone.
fn add_alone(
    text: &mut Vec<u8>,
    is_alone: bool,
    kind: &[u8],
    file: &str,
    name: &Name,
) -> Result<(), NoMemory>
    ensures { OnOk result (text.new.items ≡ text.old.items ++ (if is_alone then alone_line kind.now file.now name.now else [])) }
{
    if !is_alone {
        return Ok(());
    }
    add_all(
        text,
        &[
            b"; ",
            kind,
            b" ",
            name.bytes(),
            b" is of ",
            file.as_bytes(),
            b" alone\n",
        ],
    )
}

/// Adds the lines of these classes that the other machine has not.
fn add_classes(
    text: &mut Vec<u8>,
    file: &str,
    classes: &[Name],
    other: &Machine,
) -> Result<(), NoMemory>
    ensures { OnOk result (text.new.items ≡ text.old.items ++ flat_map (alone_line (codes "class") file.now) (filter (λ name. not (common.has_class (machine_of other.now) name)) classes.now)) }
{
    for name in classes {
        add_alone(text, !has_class(other, name), b"class", file, name)?;
    }
    Ok(())
}

/// Adds the lines of these query units that the other machine has not.
fn add_asks(text: &mut Vec<u8>, file: &str, asks: &[Name], other: &Machine) -> Result<(), NoMemory>
    ensures { OnOk result (text.new.items ≡ text.old.items ++ flat_map (alone_line (codes "ask") file.now) (filter (λ name. not (common.has_ask (machine_of other.now) name)) asks.now)) }
{
    for name in asks {
        add_alone(text, !has_ask(other, name), b"ask", file, name)?;
    }
    Ok(())
}

/// Adds the lines of the query units of these parts that the other machine has not.
fn add_all_asks(
    text: &mut Vec<u8>,
    file: &str,
    parts: &[Part],
    other: &Machine,
) -> Result<(), NoMemory>
    ensures { OnOk result (text.new.items ≡ text.old.items ++ flat_map (alone_line (codes "ask") file.now) (filter (λ name. not (common.has_ask (machine_of other.now) name)) (names_of (map part_of parts.now)))) }
{
    for part in parts {
        add_asks(text, file, &part.asks, other)?;
    }
    Ok(())
}

/// Adds the lines of all names that a machine has and the other has not.
fn add_names(
    text: &mut Vec<u8>,
    file: &str,
    machine: &Machine,
    other: &Machine,
) -> Result<(), NoMemory>
    ensures { OnOk result (text.new.items ≡ text.old.items ++ alone_lines file.now (machine_of machine.now) (machine_of other.now)) }
{
    add_classes(text, file, &machine.classes, other)?;
    add_all_asks(text, file, &machine.parts, other)
}

/// Adds the lines of all names that one of two machines has alone.
pub(crate) fn add_names_alone(
    text: &mut Vec<u8>,
    file: &str,
    first: &Machine,
    other_file: &str,
    second: &Machine,
) -> Result<(), NoMemory>
    ensures { OnOk result (text.new.items ≡ text.old.items ++ names_alone file.now other_file.now (machine_of first.now) (machine_of second.now)) }
{
    add_names(text, file, first, second)?;
    add_names(text, other_file, second, first)
}
