//! Worked examples of the rules, computed on the definitions.

ghost use Rattle.std.specs.Prelude.{◌≡◌, List, [], ◌∷◌, codes};
ghost use Rattle.hz_pipeline_model.specs.Accepting.Events.{issue, advance, ask};
ghost use Rattle.hz_pipeline_model.specs.Accepting.Replay.{first_fit, any_fit, Accepted, FirstRefused};
ghost use Rattle.hz_pipeline_model.specs.Accepting.Asking.{IsHeld};
ghost use Rattle.hz_description_model.specs.Reservations.Sets.{final_presence};
ghost use Rattle.hz_pipeline_model.specs.Accepting.Examples.{superscalar, simple, mult, div, float, divider, choice, slot_present, slots_together, slot_absent, pattern_present, excluded_later, two_stages, two_lengths};

/// The superscalar example: a third `simple` finds both integer pipelines taken; after a `float` two `simple` would need
/// one port more; the divider is held for eight cycles.
pub fn superscalar_rows()
    ensures empty { Accepted superscalar [] }
    ensures three_simple { FirstRefused superscalar (issue simple ∷ issue simple ∷ issue simple ∷ []) 2 }
    ensures three_classes { Accepted superscalar (issue mult ∷ issue simple ∷ issue float ∷ []) }
    ensures ports { FirstRefused superscalar (issue float ∷ advance 1 ∷ issue simple ∷ issue simple ∷ []) 3 }
    ensures divider_taken { FirstRefused superscalar (issue div ∷ advance 7 ∷ issue div ∷ []) 2 }
    ensures divider_free { Accepted superscalar (issue div ∷ advance 8 ∷ issue div ∷ []) }
{}

/// `x` of `a|b` takes `a`, so `y` of `a` is refused; under `ndfa` an `x` may take `b`, and two of them leave nothing.
pub fn choice_rows()
    ensures first { FirstRefused (choice first_fit) (issue 0 ∷ issue 1 ∷ []) 1 }
    ensures any { Accepted (choice any_fit) (issue 0 ∷ issue 1 ∷ []) }
    ensures any_refused { FirstRefused (choice any_fit) (issue 0 ∷ issue 0 ∷ issue 1 ∷ []) 2 }
{}

/// A plain presence looks at what stood there, a final one at the result; an absence looks at what stood there, and all
/// units of a pattern count.
pub fn set_rows()
    ensures together { FirstRefused (slots_together slot_present) (issue 0 ∷ []) 0 }
    ensures finally_together { Accepted (slots_together (record slot_present { kind = final_presence })) (issue 0 ∷ []) }
    ensures absent { FirstRefused slot_absent (issue 1 ∷ issue 0 ∷ []) 1 }
    ensures absent_before { Accepted slot_absent (issue 0 ∷ issue 1 ∷ []) }
    ensures half_a_pattern { FirstRefused pattern_present (issue 0 ∷ issue 2 ∷ []) 1 }
    ensures whole_pattern { Accepted pattern_present (issue 0 ∷ issue 1 ∷ issue 2 ∷ []) }
{}

/// An exclusion is met in the cycle after both issues; units of two automata are reserved together; an alternative may
/// be longer than another, and the first that fits is taken.
pub fn cycle_rows()
    ensures alone { Accepted excluded_later (issue 1 ∷ []) }
    ensures later { FirstRefused excluded_later (issue 0 ∷ issue 1 ∷ []) 1 }
    ensures two_automata { FirstRefused two_stages (issue 0 ∷ issue 0 ∷ issue 0 ∷ []) 2 }
    ensures two_lengths { Accepted two_lengths (issue 0 ∷ advance 2 ∷ issue 0 ∷ []) }
{}

/// The divider is held from the cycle after the issue of a `div` to the eighth, and asks change nothing.
pub fn query_rows()
    ensures at_issue { IsHeld superscalar (issue div ∷ []) divider → ⊥ }
    ensures first { IsHeld superscalar (issue div ∷ advance 1 ∷ []) divider }
    ensures last { IsHeld superscalar (issue div ∷ ask 0 0 ∷ advance 8 ∷ []) divider }
    ensures past { IsHeld superscalar (issue div ∷ advance 9 ∷ []) divider → ⊥ }
    ensures asked { FirstRefused superscalar (issue div ∷ ask 0 0 ∷ advance 7 ∷ ask 0 0 ∷ issue div ∷ []) 4 }
{}
