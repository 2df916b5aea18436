//! Laws of what tells machines apart.

ghost use Rattle.std.specs.Prelude.{◌≡◌, [], ℕ, List};
ghost use Rattle.hz_pipeline_model.specs.Tables.Machines.{Machine};
ghost use Rattle.hz_same_model.specs.Common.{asks_alone, classes_alone};
ghost use Rattle.hz_same_model.specs.Telling.{IsLeast, AnswerTheSame, AreSame};
ghost use Rattle.hz_same_model.specs.Groups.{AreGrouped};

/// There is at most one least trace: none tells machines apart where they answer the same, and no two are the least.
pub fn one_least_trace()
    ensures one { (first second : Machine) (trace other : List ℕ) → IsLeast first second trace → IsLeast first second other → trace ≡ other }
    ensures none { (first second : Machine) (trace : List ℕ) → AnswerTheSame first second → IsLeast first second trace → ⊥ }
{}

/// A machine answers as itself.
pub fn machines_answer_as_themselves()
    ensures { (m : Machine) → AnswerTheSame m m }
{}

/// Machines answer the same where the automata of both are in groups, each of which has no difference by itself, whatever the groups are.
/// If no name is of one alone, they are the same.
pub fn machines_of_groups_answer_the_same()
    ensures answers { (first second : Machine) → AreGrouped first second → AnswerTheSame first second }
    ensures same { (first second : Machine) → AreGrouped first second → classes_alone first second ≡ [] → classes_alone second first ≡ [] → asks_alone first second ≡ [] → asks_alone second first ≡ [] → AreSame first second }
{}
