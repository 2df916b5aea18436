//! Laws of what can be wrong with a description.

ghost use Rattle.std.specs.Prelude.{◌≡◌, ◌≢◌, ◌<◌, ◌≤◌, ◌↔◌, ◌⊎◌, ℕ, List, [], ◌∷◌, ◌++◌, length, slice_get, map, All, Contains, Some, None, IsTrue, IsFalse};
ghost use Rattle.std.specs.List.{AllPairs, flat_map};
ghost use Rattle.hz_description_model.specs.Reservations.Limits.{size_limit};
ghost use Rattle.hz_description_model.specs.Check.CheckFaults.{CheckFault, CheckFaultAt, IsSound, IsFirst, IsUnfolded, past_units, second_numbers, unit_site, queries_under_ndfa};
ghost use Rattle.hz_description_model.specs.Check.CountingOrder.{Reserving, past_size, reservations_of, classes_of};
ghost use Rattle.hz_description_model.specs.Check.Places.{automaton_number, unit_places, Known, meaning};
ghost use Rattle.hz_description_model.specs.Check.ReportedPlaces.{ReportedAfter, StandsBefore, IsPastUnits, units_beside, PassesSize, size_together, TellsSecondNumber, TellsFirstQuery};
ghost use Rattle.hz_description_model.specs.Check.CheckedParts.{AutomatonParts, ClassParts, BypassParts, unit_items_in, queries_in, ask_names_in, automaton_parts, automata_of, class_parts, bypass_parts, attributes_of};
ghost use Rattle.hz_description_model.specs.Check.CheckedShape.{IsKept, ask_names, AskNothingUnderNdfa};
ghost use Rattle.hz_description_model.specs.Reading.Descriptions.{Description, UnitItem, ClassItem, unguarded};
ghost use Rattle.hz_description_model.specs.Reading.DescriptionShape.{IsCheckable};
ghost use Rattle.hz_description_model.specs.Splits.Rules.{is_mixed_class, is_uneven_class};
ghost use Rattle.hz_description_model.specs.Check.Sites.{Site, earliest, repeated};

/// A description has at most one fault, at one place.
pub fn one_fault_of_checks()
    ensures { (d : Description) (f g : CheckFault) (s t : Site) → CheckFaultAt d f s → CheckFaultAt d g t → (f ≡ g) × (s ≡ t) }
{}

/// No description has both a fault and alternatives for its names.
pub fn fault_or_sound()
    ensures { (d : Description) (fault : CheckFault) (site : Site) (known : Known) → CheckFaultAt d fault site → IsSound d known → ⊥ }
{}

/// The names of a description without a fault have one assignment of alternatives.
pub fn one_assignment_of_sound_descriptions()
    ensures { (d : Description) (known other : Known) → IsSound d known → IsSound d other → known ≡ other }
{}

/// Every description that can be checked is sound or has a fault.
pub fn every_description_is_sound_or_has_a_fault()
    ensures { (d : Description) → IsCheckable d → ((known : Known) × IsSound d known) ⊎ ((fault : CheckFault) × (site : Site) × CheckFaultAt d fault site) }
{}

/// Of sites, the earliest is the first of those whose form none of the others precedes; there is one where there are sites.
pub fn earliest_is_the_first_of_the_first_form()
    ensures some { (sites : List Site) (s : Site) → earliest sites ≡ Some s ↔ IsFirst (λ (t : Site). All (λ o. t.form ≤ o.form) sites) sites s }
    ensures none { (sites : List Site) → earliest sites ≡ None → sites ≡ [] }
{}

/// The parts of every description without a fault keep the limits and the rules of names.
pub fn parts_are_kept()
    ensures { (d : Description) (known : Known) → IsCheckable d → IsSound d known → IsKept (automata_of d) (map (class_parts d known) d.classes) (map (bypass_parts d) d.bypasses) (attributes_of d) }
{}

/// A name is reported to be defined twice exactly where an equal name stands before it in its name space: among the names of
/// its own list, or of the other list by an earlier form.
pub fn second_names_are_reported()
    ensures { (others sites : List Site) → ReportedAfter (StandsBefore others) (λ s. s) [] sites (repeated others [] sites) }
{}

/// A unit is reported to be past the limit exactly where so many units of its automaton stand before it.
pub fn units_past_their_limit_are_reported()
    ensures { (d : Description) → ReportedAfter (IsPastUnits d) unit_site [] d.units (past_units d.units (unit_places d)) }
{}

/// A unit's number is the number of the units of its automaton before it.
pub fn places_count_units_before()
    ensures { (d : Description) (before after : List UnitItem) (u : UnitItem) → d.units ≡ before ++ u ∷ after → slice_get (unit_places d) (length before) ≡ Some (record { automaton = automaton_number d u.automaton; unit = units_beside d before u }) }
{}

/// Each reservation and each class counts once, however often it is used: the counting order has each of them, no other,
/// and none of them twice.
pub fn each_counts_once()
    ensures once { (d : Description) (known : Known) (order : List Reserving) → IsCheckable d → IsUnfolded d known order → AllPairs (λ a b. a ≢ b) order }
    ensures all { (d : Description) (known : Known) (order : List Reserving) → IsCheckable d → IsUnfolded d known order → (r : Reserving) → Contains order r ↔ (Contains (reservations_of d) r ⊎ Contains (classes_of d) r) }
{}

/// The size is reported exactly at the first item with which the sum of sizes passes its limit, where items count in this order;
/// nowhere where the sum of all does not.
pub fn size_is_reported_where_it_passes()
    ensures some { (known : Known) (order : List Reserving) (s : Site) → past_size known 0 order ≡ s ∷ [] ↔ PassesSize known order s }
    ensures none { (known : Known) (order : List Reserving) → past_size known 0 order ≡ [] ↔ (size_together known order ≤ size_limit) }
{}

/// A producing class is reported of a bypass exactly where the bypass gives it, with some consuming class, another number than
/// an earlier bypass, where bypasses with the guard are left out.
pub fn second_numbers_are_reported()
    ensures { (d : Description) (s : Site) → Contains (second_numbers d) s ↔ TellsSecondNumber (unguarded d.bypasses) s }
{}

/// A query unit is reported under the option `ndfa` exactly where the option is given: the first of the file.
pub fn first_query_units_are_reported()
    ensures { (d : Description) → IsCheckable d → (s : Site) → earliest (queries_under_ndfa d) ≡ Some s ↔ TellsFirstQuery d s }
{}

/// The query units of an automaton are those of its units that a form of query units defines, by their numbers, which ascend;
/// their names are in the same order.
pub fn query_units_are_units()
    ensures places { (d : Description) (automaton n : ℕ) → Contains (queries_in d automaton) n ↔ ((u : UnitItem) × (slice_get (unit_items_in d automaton) n ≡ Some u) × IsTrue u.query) }
    ensures ascending { (d : Description) (automaton : ℕ) → AllPairs (λ m n. m < n) (queries_in d automaton) }
    ensures names { (d : Description) (automaton : ℕ) (name : List ℕ) → ask_names (automaton_parts d automaton name) ≡ ask_names_in d automaton }
{}

/// No two query units of all automata have one name.
pub fn query_units_have_names_of_their_own()
    ensures { (automata : List AutomatonParts) (classes : List ClassParts) (bypasses : List BypassParts) (attributes : List (List ℕ × List (List ℕ))) → IsKept automata classes bypasses attributes → AllPairs (λ a b. a ≢ b) (flat_map ask_names automata) }
{}

/// A description without a fault has no query unit where the option `ndfa` is given.
pub fn query_units_are_without_ndfa()
    ensures units { (d : Description) (known : Known) → IsSound d known → IsTrue (d.options).ndfa → All (λ u. IsFalse u.query) d.units }
    ensures automata { (d : Description) (known : Known) → IsSound d known → AskNothingUnderNdfa (d.options).ndfa (automata_of d) }
{}

/// No class of a description without a fault breaks one of the two rules on units of several automata.
pub fn sound_classes_keep_the_rules()
    ensures unmixed { (d : Description) (known : Known) → IsSound d known → (c : ClassItem) → Contains d.classes c → IsFalse (is_mixed_class (meaning d) (length d.reservations) known c.expression) }
    ensures even { (d : Description) (known : Known) → IsSound d known → (c : ClassItem) → Contains d.classes c → IsFalse (is_uneven_class (meaning d) (length d.reservations) known c.expression) }
{}
