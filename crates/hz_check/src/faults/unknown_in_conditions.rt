//! Names in conditions.

ghost use Rattle.std.specs.Prelude.{◌≡◌};
ghost use Rattle.std.specs.Option.{option_copied};
ghost use Rattle.hz_mdread.specs.Shape.{description, condition, conditions};
ghost use Rattle.hz_check.specs.Names.First.{first_of};
ghost use Rattle.hz_description_model.specs.Check.CheckFaults.{values_of, unknown_in_test, unknown_in_condition, unknown_in_conditions};

use crate::names::Names;
use crate::names::tables::first_missing;
use hz_mdread::Condition;
use hz_regexp::Name;

/// An attribute that is not defined, or the first of the values that it does not have.
fn unknown_in_test<'a>(
    names: &Names<'a>,
    attribute: &'a Name,
    values: &'a [Name],
) -> Option<&'a Name>
    ensures { option_copied result ≡ first_of (unknown_in_test (values_of (description names.now.desc.now).attributes attribute.now) attribute.now values.now) }
{
    match names.values.find(attribute) {
        Some(defined) => first_missing(defined, values),
        None => Some(attribute),
    }
}

/// The first name in a condition that is not known.
#[cycle(conditions)]
pub(crate) fn unknown_in_condition<'a>(names: &Names<'a>, test: &'a Condition) -> Option<&'a Name>
    ensures { option_copied result ≡ first_of (unknown_in_condition (description names.now.desc.now) (condition test.now)) }
{
    match test {
        Condition::ConstInt(_) => None,
        Condition::EqAttr { name, values, .. } => unknown_in_test(names, name, values),
        Condition::Not(other) => unknown_in_condition(names, other),
        Condition::And(tests) => unknown_in_tests(names, tests),
        Condition::Ior(tests) => unknown_in_tests(names, tests),
    }
}

/// The first such name in tests.
#[cycle(conditions)]
fn unknown_in_tests<'a>(names: &Names<'a>, tests: &'a [Condition]) -> Option<&'a Name>
    ensures { option_copied result ≡ first_of (unknown_in_conditions (description names.now.desc.now) (conditions tests.now)) }
{
    for test in tests {
        if let Some(name) = unknown_in_condition(names, test) {
            return Some(name);
        }
    }
    None
}
