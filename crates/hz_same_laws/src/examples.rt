//! Worked examples of machines that are compared, computed on the definitions. Symbols are numbers: the common classes, then the advance,
//! then the common query units.

ghost use Rattle.std.specs.Prelude.{◌≡◌, [], ◌∷◌, Some, None, codes, replicate};
ghost use Rattle.hz_same_model.specs.Common.{classes_alone};
ghost use Rattle.hz_same_model.specs.Telling.{AnswerTheSame, AreSame, TellsApart};
ghost use Rattle.hz_same_laws.specs.Examples.{always, asked, held_for, in_one_part, in_two_parts, machine_of_x, of_x, once};

/// Two units in two automata and in one are the same, whatever the order of the classes.
pub fn parts_and_their_product()
    ensures { AreSame in_two_parts in_one_part }
{}

/// One automaton refuses a second issue in a cycle, and the other doesn't. Beside a third that refuses it too, that is no difference.
pub fn hidden_differences()
    ensures alone { TellsApart (machine_of_x (of_x once ∷ [])) (machine_of_x (of_x always ∷ [])) (0 ∷ []) 0 }
    ensures hidden { AreSame (machine_of_x (of_x once ∷ of_x once ∷ [])) (machine_of_x (of_x once ∷ of_x always ∷ [])) }
{}

/// After the issue the one has both units reserved, and the other the first alone.
pub fn two_asks()
    ensures first { TellsApart (asked (Some 1)) (asked None) (0 ∷ []) 2 → ⊥ }
    ensures second { TellsApart (asked (Some 1)) (asked None) (0 ∷ []) 3 }
{}

/// A class that one machine has alone is no difference of traces; but then they aren't the same.
pub fn names_alone()
    ensures names { classes_alone in_one_part (machine_of_x (of_x once ∷ [])) ≡ codes "y" ∷ [] }
    ensures answers { AnswerTheSame in_one_part (machine_of_x (of_x once ∷ [])) }
    ensures differ { AreSame in_one_part (machine_of_x (of_x once ∷ [])) → ⊥ }
{}

/// An issue holds its unit for 300 cycles, or for 301: after 300 cycles the next issue shows it, and after 299 it does not.
pub fn late_differences()
    ensures late { TellsApart (held_for 300) (held_for 301) (0 ∷ replicate 300 1) 0 }
    ensures early { TellsApart (held_for 300) (held_for 301) (0 ∷ replicate 299 1) 0 → ⊥ }
{}
