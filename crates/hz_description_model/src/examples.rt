//! Worked examples of the two rules, computed on the definitions.

ghost use Rattle.std.specs.Prelude.{◌≡◌, true, false};
ghost use Rattle.hz_description_model.specs.Reservations.Alternatives.{nothing, sequence, one_of, all_of, repeat as repeat_of};
ghost use Rattle.hz_description_model.specs.Splits.Examples.{two, three, a0, a1, b0, b1, either, wide, deep, far, joint, mixes, varies};

/// Each automaton of a class may have alternations of its own; none holds units of two, at whatever depth.
pub fn alternations()
    ensures two_automata { mixes (one_of (two a0 b0)) ≡ true }
    ensures each_by_itself { mixes (sequence (two either (one_of (two b0 b1)))) ≡ false }
    ensures side_by_side { mixes (one_of (two (all_of (two a0 b0)) nothing)) ≡ true }
    ensures in_a_repeat { mixes (all_of (two a1 (repeat_of (one_of (three a0 a1 b0)) 1))) ≡ true }
    ensures in_reservations { mixes (sequence (two a0 joint)) ≡ true }
    ensures without_units { mixes (sequence (two (one_of (two nothing nothing)) (all_of (two a0 b0)))) ≡ false }
    ensures of_one { mixes (one_of (two a0 (one_of (two nothing either)))) ≡ false }
{}

/// In a class of two automata a part before a comma has one length, and the last part any.
pub fn sequences()
    ensures two_lengths { varies (sequence (two (one_of (two (sequence (two a0 a0)) a0)) b0)) ≡ true }
    ensures last { varies (sequence (two b0 wide)) ≡ false }
    ensures one_automaton { varies (sequence (two wide a0)) ≡ false }
    ensures beside_another { varies (all_of (two (sequence (two wide a0)) b0)) ≡ true }
    ensures in_reservations { varies (sequence (two deep b0)) ≡ true }
    ensures inside_reservations { varies (all_of (two b0 far)) ≡ true }
    ensures without_units { varies (sequence (two (one_of (two nothing (repeat_of nothing 2))) (all_of (two a0 b0)))) ≡ true }
    ensures equal_by_chance { varies (sequence (two (one_of (two (sequence (two a0 a0)) (repeat_of a1 2))) b0)) ≡ false }
    ensures hidden_by_a_longer_part { varies (sequence (two (all_of (two wide (repeat_of nothing 3))) b0)) ≡ false }
{}

/// A repeat of two or more copies is a sequence of them, and one copy is the part itself.
pub fn repeats()
    ensures twice { varies (all_of (two b0 (repeat_of wide 2))) ≡ true }
    ensures once { varies (all_of (two b0 (repeat_of wide 1))) ≡ false }
    ensures twice_of_one_length { varies (all_of (two b0 (repeat_of either 2))) ≡ false }
    ensures inside { varies (all_of (two b0 (repeat_of (repeat_of wide 2) 1))) ≡ true }
    ensures one_automaton { varies (repeat_of wide 2) ≡ false }
{}
