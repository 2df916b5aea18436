//! Laws of alternatives over the units of several automata, and of the lists that a class has in them.

ghost use Rattle.std.specs.Prelude.{◌≡◌, ◌≢◌, ◌↔◌, ◌<◌, ℕ, Bool, List, length, All, Contains, IsTrue};
ghost use Rattle.std.specs.List.{AllPairs};
ghost use Rattle.hz_base_model.specs.Pairs.{Pair, SamePairs};
ghost use Rattle.hz_description_model.specs.Reservations.Alternatives.{Alternative, SameAs, Expression, alternatives_of};
ghost use Rattle.hz_description_model.specs.Reservations.Automata.{UnitPlace, ascending, listed, cut, list_in};
ghost use Rattle.hz_description_model.specs.Reservations.AlternativeLists.{IsAscending, IsPlaced, AreSound, IsCuttable};
ghost use Rattle.hz_description_model.specs.Reservations.Expressions.{is_expression};
ghost use Rattle.hz_description_model.specs.Reservations.Meanings.{Mentions};
ghost use Rattle.hz_description_model.specs.Reservations.NamesIn.{all_names};

/// A set of pairs has one list in which each pair precedes all later ones.
pub fn pairs_are_listed_one_way()
    ensures same { (pairs : List (Pair UnitPlace)) → SamePairs (ascending pairs) pairs }
    ensures ascending { (pairs : List (Pair UnitPlace)) → IsAscending (ascending pairs) }
    ensures one { (xs ys : List (Pair UnitPlace)) → SamePairs xs ys → ascending xs ≡ ascending ys }
    ensures itself { (pairs : List (Pair UnitPlace)) → IsAscending pairs → ascending pairs ≡ pairs }
{}

/// An alternative that is listed the one way is the same alternative.
pub fn listed_alternatives_are_the_same()
    ensures { (a : Alternative UnitPlace) → SameAs (listed a) a }
{}

/// The names of an expression that can be written stand for alternatives that a description can have; then so does the
/// expression: each of its alternatives runs for some cycle, its pairs lie within its cycles, and its units can be.
pub fn expressions_keep_within_cycles()
    ensures { (known : List ℕ → List (Alternative UnitPlace)) (e : Expression) → IsTrue (is_expression e) → ((name : List ℕ) → Mentions e name → All IsPlaced (known name)) → All IsPlaced (alternatives_of known e) }
{}

/// A test passes for all names of an expression where it passes for each name in it.
pub fn all_names_are_each_name()
    ensures { (test : List ℕ → Bool) (e : Expression) → IsTrue (all_names test e) ↔ ((name : List ℕ) → Mentions e name → IsTrue (test name)) }
{}

/// The list of a class in an automaton has what each of its alternatives takes there, nothing else, and nothing twice.
pub fn lists_have_each_cut_once()
    ensures each { (automaton : ℕ) (alternatives : List (Alternative UnitPlace)) (a : Alternative UnitPlace) → Contains alternatives a → Contains (list_in automaton alternatives) (cut automaton a.pairs) }
    ensures only { (automaton : ℕ) (alternatives : List (Alternative UnitPlace)) (pairs : List (Pair ℕ)) → Contains (list_in automaton alternatives) pairs → (a : Alternative UnitPlace) × Contains alternatives a × (cut automaton a.pairs ≡ pairs) }
    ensures once { (automaton : ℕ) (alternatives : List (Alternative UnitPlace)) → AllPairs (λ x y. x ≢ y) (list_in automaton alternatives) }
    ensures some { (automaton : ℕ) (alternatives : List (Alternative UnitPlace)) → 0 < length alternatives → 0 < length (list_in automaton alternatives) }
{}

/// Sound alternatives can be cut down to grids.
pub fn sound_alternatives_are_cut()
    ensures { (alternatives : List (Alternative UnitPlace)) → AreSound alternatives → All IsCuttable alternatives }
{}
