//! The class of an instruction.

ghost use Rattle.std.specs.Prelude.{◌≡◌, ◌<◌, ◌≤◌, length, map, IfOk, IfErr, Ok, Err};
ghost use Rattle.std.specs.List.{find, list_any};
ghost use Rattle.std.specs.Option.{option_map, option_copied};
ghost use Rattle.std.specs.Str.{bytes_eq};
ghost use Rattle.hz_base_model.specs.Limits.{class_limit};
ghost use Rattle.hz_checked.specs.Shape.{attribute_of};
ghost use Rattle.hz_block_model.specs.Dependences.Classes as model;
ghost use Rattle.hz_depend.specs.Faults.{fault};
ghost use Rattle.hz_depend.specs.Shape.{class_for, conditions_of};
ghost use Rattle.hz_description_model.specs.Reading.Conditions.{value_of};

use hz_checked::{Checked, CheckedClass};
use hz_regexp::Name;
use hz_rtl::Insn;
use thiserror::Error;

/// What is wrong with the class of an instruction.
#[derive(Clone, Copy, Debug, PartialEq, Eq, Error)]
pub enum ClassFault {
    /// An attribute that is not defined is given.
    #[error("an unknown attribute")]
    UnknownAttribute,
    /// A value is given that the attribute doesn't have.
    #[error("an unknown value")]
    UnknownValue,
    /// No condition of a class holds.
    #[error("no class")]
    NoClass,
    /// Two conditions hold, of these classes; the first two in the order of the file.
    #[error("classes {a} and {b}")]
    Ambiguous { a: u32, b: u32 },
}

impl ClassFault {
    ghost use Rattle.hz_depend.specs.Faults.{classes_in};

    /// The word by which the fault is reported. docs/FORMATS.md, 'Answers'.
    pub fn word(&self) -> &'static str
        ensures { result.now ≡ model.class_word (fault self.now) }
    {
        match self {
            ClassFault::UnknownAttribute => "UnknownAttribute",
            ClassFault::UnknownValue => "UnknownValue",
            ClassFault::NoClass => "NoClass",
            ClassFault::Ambiguous { .. } => "Ambiguous",
        }
    }

    /// The two classes that the fault names, by their numbers from 0; None of a fault that names none.
    pub fn classes(&self) -> Option<(u32, u32)>
        ensures { classes_in result ≡ model.classes_named (fault self.now) }
    {
        match self {
            ClassFault::Ambiguous { a, b } => Some((*a, *b)),
            _ => None,
        }
    }
}

/// The first attribute of this name, with its values.
fn attribute_named<'a>(
    defined: &'a [(Name, Vec<Name>)],
    name: &Name,
) -> Option<&'a (Name, Vec<Name>)>
    ensures { option_copied result ≡ find (λ attribute. bytes_eq attribute.0 name.now) defined.now }
{
    defined.iter().find(|attribute| attribute.0 == *name)
}

/// Whether an attribute has a value.
fn has_value(attribute: &(Name, Vec<Name>), value: &Name) -> bool
    ensures { result ≡ list_any (λ v. bytes_eq v value.now) attribute.now.1.items }
{
    attribute.1.contains(value)
}

/// What is wrong with an attribute that is given.
fn fault_of_attribute(defined: &[(Name, Vec<Name>)], given: &(Name, Name)) -> Option<ClassFault>
    ensures { option_map fault result ≡ model.fault_of_attribute (map attribute_of defined.now) given.now }
{
    match attribute_named(defined, &given.0) {
        None => Some(ClassFault::UnknownAttribute),
        Some(attribute) => {
            if has_value(attribute, &given.1) {
                None
            } else {
                Some(ClassFault::UnknownValue)
            }
        }
    }
}

/// The fault of the first attribute that has one.
fn first_fault(defined: &[(Name, Vec<Name>)], given: &[(Name, Name)]) -> Option<ClassFault>
    ensures { option_map fault result ≡ model.first_fault (map attribute_of defined.now) given.now }
{
    for one in given {
        if let Some(fault) = fault_of_attribute(defined, one) {
            return Some(fault);
        }
    }
    None
}

/// The one class whose condition holds.
fn one_class(
    classes: &[CheckedClass],
    given: &[(Name, Name)],
    defaults: &[(Name, Name)],
) -> Result<u32, ClassFault>
    requires { length classes.now ≤ class_limit }
    ensures ok { IfOk result (λ class. model.the_one (model.holding_from 0 (value_of given.now defaults.now) (conditions_of classes.now)) ≡ Ok class) }
    ensures within { IfOk result (λ class. class < length classes.now) }
    ensures err { IfErr result (λ e. model.the_one (model.holding_from 0 (value_of given.now defaults.now) (conditions_of classes.now)) ≡ Err (fault e)) }
{
    let mut found: Option<u32> = None;
    for (number, class) in classes.iter().enumerate() {
        if class.condition.holds(given, defaults) {
            if let Some(a) = found {
                return Err(ClassFault::Ambiguous {
                    a,
                    b: number as u32,
                });
            }
            found = Some(number as u32);
        }
    }
    match found {
        Some(class) => Ok(class),
        None => Err(ClassFault::NoClass),
    }
}

/// The class of an instruction, by its number: the one whose condition holds. The leftmost attribute that isn't defined, or
/// whose value isn't one of its values, is reported first, then that no condition holds or that two do. It takes no memory.
pub fn class_of(checked: &Checked, insn: &Insn) -> Result<u32, ClassFault>
    ensures ok { IfOk result (λ class. class_for checked.now insn.now ≡ Ok class) }
    ensures within { IfOk result (λ class. class < length checked.now.classes.items) }
    ensures err { IfErr result (λ e. class_for checked.now insn.now ≡ Err (fault e)) }
{
    match first_fault(&checked.attributes, &insn.attrs) {
        Some(fault) => Err(fault),
        None => one_class(&checked.classes, &insn.attrs, &checked.defaults),
    }
}
