//! The habits of expressions, by those of their names.

ghost use Rattle.std.specs.Prelude.{◌≡◌, ◌<◌, ℕ, Bool, List, length, IsTrue};
ghost use Rattle.hz_altern.specs.Tables.{is_held};
ghost use Rattle.hz_description_model.specs.Reservations.Alternatives.{Alternative, parts_of};
ghost use Rattle.hz_description_model.specs.Reservations.Automata.{UnitPlace};
ghost use Rattle.hz_description_model.specs.Reservations.Expressions.{is_expression, are_expressions};
ghost use Rattle.hz_description_model.specs.Reservations.NamesIn.{all_names, all_names_in};
ghost use Rattle.hz_regexp.specs.Shape.{expression, expressions};
ghost use Rattle.hz_check_reservations.specs.Habits.{FitsExpression, FitsParts};
ghost use Rattle.hz_check_reservations.specs.HabitTables.{habits_in, AreRight, AreRightIn};

use crate::rules::habits::Habits;
use crate::rules::mark::Mark;
use crate::rules::table::Table;
use hz_regexp::Expr;

/// The habits of a well-formed expression, where those of each name in it are kept. It takes no memory.
#[cycle(measuring)]
pub fn habits_of(expr: &Expr, table: &Table) -> Habits
    requires formed { IsTrue (is_expression (expression expr.now)) }
    requires held { IsTrue (all_names (is_held (habits_in table.now)) (expression expr.now)) }
    ensures { (known : List ℕ → List (Alternative UnitPlace)) (mixed uneven : List ℕ → Bool) → AreRight (habits_in table.now) known mixed uneven (expression expr.now) → FitsExpression known mixed uneven (expression expr.now) result }
{
    match expr {
        Expr::Named(name) => match table.find(name) {
            Some(habits) => habits,
            None => unreachable!(),
        },
        Expr::Nothing => Habits::of_nothing(),
        Expr::Seq(parts) => habits_of_parts(parts, Mark::Comma, table),
        Expr::Oneof(parts) => habits_of_parts(parts, Mark::Bar, table).alternated(),
        Expr::Allof(parts) => habits_of_parts(parts, Mark::Plus, table),
        Expr::Repeat(part, times) => habits_of(part, table).repeated(*times),
    }
}

/// The habits of parts with a mark between them, but for the alternation that they may be together.
#[cycle(measuring)]
fn habits_of_parts(parts: &[Expr], mark: Mark, table: &Table) -> Habits
    requires some { 0 < length parts.now }
    requires formed { IsTrue (are_expressions (parts_of (expressions parts.now))) }
    requires held { IsTrue (all_names_in (is_held (habits_in table.now)) (parts_of (expressions parts.now))) }
    ensures { (known : List ℕ → List (Alternative UnitPlace)) (mixed uneven : List ℕ → Bool) → AreRightIn (habits_in table.now) known mixed uneven (parts_of (expressions parts.now)) → FitsParts mark known mixed uneven (parts_of (expressions parts.now)) result }
{
    let last = parts.len() - 1;
    let mut habits = habits_of(&parts[last], table);
    for i in (0..last).rev() {
        habits = habits_of(&parts[i], table).joined(mark, habits);
    }
    habits
}
