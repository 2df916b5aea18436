//! The classes of a description without a fault.

ghost use Rattle.std.specs.Prelude.{◌≡◌, ◌≤◌, IfOk, All, length, map, vec_len};
ghost use Rattle.hz_altern.specs.Shapes.{alternatives};
ghost use Rattle.hz_mdread.specs.Shape.{class_item};
ghost use Rattle.hz_checked.specs.Shape.{class_of};
ghost use Rattle.hz_check.specs.Parts.Classes.{lists_in, class_with, classes_with};
ghost use Rattle.hz_description_model.specs.Reservations.AlternativeLists.{IsCuttable};
ghost use Rattle.hz_description_model.specs.Reservations.Alternatives.{alternatives_of};
ghost use Rattle.hz_description_model.specs.Reservations.Automata.{listed};
ghost use Rattle.hz_description_model.specs.Check.Places.{Known};
ghost use Rattle.hz_description_model.specs.Check.CheckedParts.{automaton_count, class_parts};
ghost use Rattle.hz_description_model.specs.Reading.Descriptions as model;
ghost use Rattle.hz_base_model.specs.Limits.{automaton_limit};

use hz_altern::{Alt, project};
use hz_checked::CheckedClass;
use hz_grid::Grid;
use hz_mdread::ClassItem;
use hz_regexp::NoMemory;
use std::alloc::Global;

/// What alternatives take of each of so many automata.
fn lists_of(alloc: Global, alts: &[Alt], automata: usize) -> Result<Vec<Vec<Grid>>, NoMemory>
    requires few { automata ≤ automaton_limit }
    requires cuttable { All IsCuttable (alternatives alts.now) }
    ensures { IfOk result (λ lists. map (λ list. list.items) lists.items ≡ lists_in automata (alternatives alts.now)) }
{
    let mut lists = Vec::new(alloc);
    for automaton in 0..automata {
        lists.push(project(alloc, alts, automaton as u8)?)?;
    }
    Ok(lists)
}

/// A class of these alternatives.
fn checked_class(
    alloc: Global,
    class: ClassItem,
    alts: &[Alt],
    automata: usize,
) -> Result<CheckedClass, NoMemory>
    requires few { automata ≤ automaton_limit }
    requires cuttable { All IsCuttable (alternatives alts.now) }
    ensures { IfOk result (λ made. class_of made ≡ class_with automata (alternatives alts.now) (class_item class)) }
{
    let lists = lists_of(alloc, alts, automata)?;
    let ClassItem {
        line,
        form: _,
        name,
        latency,
        condition,
        expr: _,
    } = class;
    Ok(CheckedClass {
        name,
        line,
        latency,
        condition,
        lists,
    })
}

/// Classes, each with its alternatives.
fn with_lists(
    alloc: Global,
    classes: Vec<ClassItem>,
    alts: &[Vec<Alt>],
    automata: usize,
) -> Result<Vec<CheckedClass>, NoMemory>
    requires few { automata ≤ automaton_limit }
    requires cuttable { All (λ each. All IsCuttable (alternatives each.items)) alts.now }
    requires each { length alts.now ≡ vec_len classes }
    ensures { IfOk result (λ made. map class_of made.items ≡ classes_with automata (map (λ each. alternatives each.items) alts.now) (map class_item classes.items)) }
{
    let mut made = Vec::new(alloc);
    for class in classes {
        let each = &alts[made.len()];
        made.push(checked_class(alloc, class, each, automata)?)?;
    }
    Ok(made)
}

/// The classes with their lists for so many automata. The alternatives of each class stand in the order of the file.
pub(crate) fn checked_classes(
    alloc: Global,
    classes: Vec<ClassItem>,
    alts: &[Vec<Alt>],
    automata: usize,
) -> Result<Vec<CheckedClass>, NoMemory>
    requires few { automata ≤ automaton_limit }
    requires cuttable { All (λ each. All IsCuttable (alternatives each.items)) alts.now }
    requires each { length alts.now ≡ vec_len classes }
    ensures { IfOk result (λ made. (d : model.Description) (known : Known) → automaton_count d ≡ automata → map (λ each. alternatives each.items) alts.now ≡ map (λ c. map listed (alternatives_of known c.expression)) (map class_item classes.items) → map class_of made.items ≡ map (class_parts d known) (map class_item classes.items)) }
{
    let made = with_lists(alloc, classes, alts, automata)?;
    Ok(made)
}
