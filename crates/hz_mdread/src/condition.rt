//! Conditions of instructions.

ghost use Rattle.std.specs.Prelude.{◌≡◌};
ghost use Rattle.std.specs.Option.{option_copied};
ghost use Rattle.hz_description_model.specs.Reading.Conditions as model;
ghost use Rattle.hz_mdread.specs.Shape.{condition, conditions};

use hz_regexp::Name;

/// A condition of an instruction. `And` and `Ior` that were read have two tests or more.
#[derive(Debug, Drop)]
pub enum Condition {
    /// `(const_int i)`: it holds if i is not 0.
    ConstInt(i128),
    /// `(eq_attr "name" "values")`: the attribute has one of the values, or with `!` none of them.
    EqAttr {
        name: Name,
        values: Vec<Name>,
        negated: bool,
    },
    /// `(not t)`
    Not(Box<Condition>),
    /// `(and t t ..)`
    And(Vec<Condition>),
    /// `(ior t t ..)`
    Ior(Vec<Condition>),
}

/// The value of the first entry of an attribute.
fn value_in<'a>(entries: &'a [(Name, Name)], attribute: &Name) -> Option<&'a Name>
    ensures { option_copied result ≡ model.value_in entries.now attribute.now }
{
    let entry = entries.iter().find(|entry| entry.0 == *attribute)?;
    Some(&entry.1)
}

/// The value that is given for an attribute, else its default.
fn value_of<'a>(
    given: &'a [(Name, Name)],
    defaults: &'a [(Name, Name)],
    attribute: &Name,
) -> Option<&'a Name>
    ensures { option_copied result ≡ model.value_of given.now defaults.now attribute.now }
{
    match value_in(given, attribute) {
        Some(value) => Some(value),
        None => value_in(defaults, attribute),
    }
}

/// Whether each of the tests holds.
#[tactic(auto, using(crate::proofs::ConditionLemmas::conditions_from_place))]
#[cycle(holds)]
fn all_hold(tests: &[Condition], given: &[(Name, Name)], defaults: &[(Name, Name)]) -> bool
    ensures { result ≡ model.all_hold (model.value_of given.now defaults.now) (conditions tests.now) }
{
    for test in tests {
        if !test.holds(given, defaults) {
            return false;
        }
    }
    true
}

/// Whether one of the tests holds.
#[tactic(auto, using(crate::proofs::ConditionLemmas::conditions_from_place))]
#[cycle(holds)]
fn some_holds(tests: &[Condition], given: &[(Name, Name)], defaults: &[(Name, Name)]) -> bool
    ensures { result ≡ model.some_holds (model.value_of given.now defaults.now) (conditions tests.now) }
{
    for test in tests {
        if test.holds(given, defaults) {
            return true;
        }
    }
    false
}

impl Condition {
    /// Whether the condition holds for an instruction with these values of attributes; an attribute
    /// that is not among them has its default, and without a default its test is false, with `!` too.
    /// Of several entries of one attribute the first counts. It takes no memory.
    #[cycle(holds)]
    pub fn holds(&self, given: &[(Name, Name)], defaults: &[(Name, Name)]) -> bool
        ensures { result ≡ model.holds (model.value_of given.now defaults.now) (condition self.now) }
    {
        match self {
            Condition::ConstInt(number) => *number != 0,
            Condition::EqAttr {
                name,
                values,
                negated,
            } => match value_of(given, defaults, name) {
                Some(value) => values.contains(value) != *negated,
                None => false,
            },
            Condition::Not(test) => !test.holds(given, defaults),
            Condition::And(tests) => all_hold(tests, given, defaults),
            Condition::Ior(tests) => some_holds(tests, given, defaults),
        }
    }
}
