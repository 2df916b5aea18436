//! At which sites each fault of names stands, in the words of the rules. Which of them is reported, `first_reported` says.

ghost use Rattle.std.specs.Prelude.{◌↔◌, Contains};
ghost use Rattle.hz_description_model.specs.Reading.Descriptions.{Description};
ghost use Rattle.hz_description_model.specs.Check.CheckFaults.{IsSound, second_definitions, reserved_names, unknown_names, unknown_automata, units_without_automaton, self_exclusions, sets_across_automata};
ghost use Rattle.hz_description_model.specs.Check.Places.{Known};
ghost use Rattle.hz_description_model.specs.Check.Sites.{Site};
ghost use Rattle.hz_laws.specs.Names.NameFaults.{IsSecondName, IsReservedName, IsUnknownAutomaton, IsWithoutAutomaton, IsSelfExclusion, IsStranger};
ghost use Rattle.hz_laws.specs.Names.UnknownNames.{IsUnknownName};

/// A name is defined twice exactly where an equal one stands before it in its name space.
pub fn second_names_stand_in_their_name_space()
    ensures { (d : Description) (s : Site) → Contains (second_definitions d) s ↔ IsSecondName d s }
{}

/// A name is reserved exactly where a unit or a reservation is called `nothing`.
pub fn reserved_names_are_called_nothing()
    ensures { (d : Description) (s : Site) → Contains (reserved_names d) s ↔ IsReservedName d s }
{}

/// A name is unknown exactly where it stands and is not defined as what is wanted there: in an expression as a unit or a
/// reservation, in a bypass as a class, in a set as a unit, in a condition as an attribute or one of its values, and as a default
/// among the attribute's values.
pub fn unknown_names_are_not_defined()
    ensures { (d : Description) (s : Site) → Contains (unknown_names d) s ↔ IsUnknownName d s }
{}

/// An automaton is unknown exactly where a unit names it and none is called so.
pub fn unknown_automata_are_named_by_units()
    ensures { (d : Description) (s : Site) → Contains (unknown_automata d) s ↔ IsUnknownAutomaton d s }
{}

/// A unit needs an automaton exactly where it names none, though some automaton is defined.
pub fn units_need_an_automaton_where_there_is_one()
    ensures { (d : Description) (s : Site) → Contains (units_without_automaton d) s ↔ IsWithoutAutomaton d s }
{}

/// A unit excludes itself exactly where it stands in both strings of an exclusion.
pub fn self_exclusions_stand_in_both_strings()
    ensures { (d : Description) (s : Site) → Contains (self_exclusions d) s ↔ IsSelfExclusion d s }
{}

/// A unit of a set is across automata exactly where its automaton is not that of the set's first unit.
pub fn strangers_have_another_automaton_than_the_first()
    ensures { (d : Description) (s : Site) → Contains (sets_across_automata d) s ↔ IsStranger d s }
{}

/// A description without a fault has none of these: no name stands twice in its name space, none is reserved, each name is defined
/// as what is wanted, each unit has an automaton where there is one, no unit excludes itself, and each set is of one automaton.
pub fn sound_descriptions_have_right_names()
    ensures apart { (d : Description) (known : Known) → IsSound d known → (s : Site) → IsSecondName d s → ⊥ }
    ensures unreserved { (d : Description) (known : Known) → IsSound d known → (s : Site) → IsReservedName d s → ⊥ }
    ensures known { (d : Description) (known : Known) → IsSound d known → (s : Site) → IsUnknownName d s → ⊥ }
    ensures defined { (d : Description) (known : Known) → IsSound d known → (s : Site) → IsUnknownAutomaton d s → ⊥ }
    ensures housed { (d : Description) (known : Known) → IsSound d known → (s : Site) → IsWithoutAutomaton d s → ⊥ }
    ensures unexcluded { (d : Description) (known : Known) → IsSound d known → (s : Site) → IsSelfExclusion d s → ⊥ }
    ensures together { (d : Description) (known : Known) → IsSound d known → (s : Site) → IsStranger d s → ⊥ }
{}
