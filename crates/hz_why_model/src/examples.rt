//! Worked examples of what is reported, computed on the definitions.

ghost use Rattle.std.specs.Prelude.{◌≡◌, ◌++◌, ◌==◌, List, [], ◌∷◌, codes, decimal, replicate, Some, None};
ghost use Rattle.std.specs.List.{concat};
ghost use Rattle.hz_pipeline_model.specs.Accepting.Events.{issue, advance};
ghost use Rattle.hz_pipeline_model.specs.Accepting.Replay.{first_fit, any_fit};
ghost use Rattle.hz_pipeline_model.specs.Accepting.Examples.{superscalar, superscalar_units, simple, div, choice, choice_units, slot_units, slots_together, slot_present, slot_absent, excluded_later, later_units};
ghost use Rattle.hz_why_model.specs.Explanations.{refusal_text, left_text};
ghost use Rattle.hz_why_model.specs.Lists.{listed, narrow, alternatives_text};
ghost use Rattle.hz_why_model.specs.Takes.{stretches, taken_text, takes_line};
ghost use Rattle.hz_why_model.specs.Examples.{worded};

/// The third `simple` of one cycle: the four alternatives are reported by the first unit that is held, and by whom, two by two; then
/// what each takes, and which alternatives the two issues before took.
pub fn superscalar_text()
    ensures { refusal_text (worded superscalar_units (codes "simple" ∷ codes "mult" ∷ codes "div" ∷ codes "float" ∷ []) []) superscalar (issue simple ∷ issue simple ∷ []) (2 ∷ 5 ∷ []) (0 ∷ 3 ∷ []) simple (Some 1)
        ≡ concat (codes "fits 1 cycle later\n"
        ∷ codes "alternatives 1-2: i0_pipeline in cycle 0 is held from line 2, simple\n"
        ∷ codes "alternatives 3-4: i1_pipeline in cycle 0 is held from line 5, simple\n"
        ∷ codes "alternative 1 takes i0_pipeline 0, port0 1\n"
        ∷ codes "alternative 2 takes i0_pipeline 0, port1 1\n"
        ∷ codes "alternative 3 takes i1_pipeline 0, port0 1\n"
        ∷ codes "alternative 4 takes i1_pipeline 0, port1 1\n"
        ∷ codes "line 2 simple in cycle 0 took alternative 1\n"
        ∷ codes "line 5 simple in cycle 0 took alternative 4\n"
        ∷ codes "cycle         0 1\n"
        ∷ codes "i0_pipeline   2 .\n"
        ∷ codes "i1_pipeline   5 .\n"
        ∷ codes "port0         . 2\n"
        ∷ codes "port1         . 5\n"
        ∷ []) }
{}

/// What the superscalar example has reserved after an accepted `div`, a cycle later: which alternative the `div` took, and the divider
/// for seven cycles, and a port with its last.
pub fn left_picture()
    ensures { left_text (worded superscalar_units (codes "simple" ∷ codes "mult" ∷ codes "div" ∷ codes "float" ∷ []) []) superscalar (issue div ∷ advance 1 ∷ []) (4 ∷ 5 ∷ []) (0 ∷ [])
        ≡ concat (codes "line 4 div in cycle -1 took alternative 1\n"
        ∷ codes "cycle   0 1 2 3 4 5 6 7\n"
        ∷ codes "port0   . . . . . . . 4\n"
        ∷ codes "div     4 4 4 4 4 4 4 4\n"
        ∷ []) }
{}

/// Statements that are broken: an absence names the unit that is added and the pattern that stands there; a presence, which no wait
/// helps, has no pattern, and says which it wants; an exclusion is broken in the cycle in which both units are held, of which one is
/// planned and one asked for.
pub fn statement_texts()
    ensures absence { refusal_text (worded slot_units (codes "x" ∷ codes "y" ∷ []) (codes "absence_set" ∷ [])) slot_absent (issue 1 ∷ []) (1 ∷ []) (0 ∷ []) 0 (Some 1)
        ≡ concat (codes "fits 1 cycle later\n"
        ∷ codes "alternative 1: absence_set line 9, slot0 in cycle 0 with slot1\n"
        ∷ codes "  slot0 is asked for; slot1 is held from line 1, y\n"
        ∷ codes "alternative 1 takes slot0 0\n"
        ∷ codes "line 1 y in cycle 0 took alternative 1\n"
        ∷ codes "cycle   0\n"
        ∷ codes "slot0   .\n"
        ∷ codes "slot1   1\n"
        ∷ []) }
    ensures presence { refusal_text (worded slot_units [] (codes "presence_set" ∷ [])) (slots_together slot_present) [] [] [] 0 None
        ≡ concat (codes "fits in no later cycle\n"
        ∷ codes "alternative 1: presence_set line 9, slot1 in cycle 0 without a pattern\n"
        ∷ codes "  wants slot0\n"
        ∷ codes "alternative 1 takes slot0 0, slot1 0\n"
        ∷ codes "cycle   0\n"
        ∷ codes "slot0   .\n"
        ∷ codes "slot1   .\n"
        ∷ []) }
    ensures exclusion { refusal_text (worded later_units (codes "x" ∷ codes "y" ∷ []) (codes "exclusion_set" ∷ [])) excluded_later (issue 0 ∷ []) (3 ∷ []) (0 ∷ []) 1 (Some 1)
        ≡ concat (codes "fits 1 cycle later\n"
        ∷ codes "alternative 1: exclusion_set line 9, f1 in cycle 1 with f2\n"
        ∷ codes "  f1 is planned by line 3, x; f2 is asked for\n"
        ∷ codes "alternative 1 takes e 0, f2 1\n"
        ∷ codes "line 3 x in cycle 0 took alternative 1\n"
        ∷ codes "cycle   0 1\n"
        ∷ codes "d       3 .\n"
        ∷ codes "e       . .\n"
        ∷ codes "f1      . 3\n"
        ∷ codes "f2      . .\n"
        ∷ []) }
{}

/// Under `ndfa` it is said that the choices are one of several lists.
pub fn choice_text()
    ensures { refusal_text (worded choice_units (codes "x" ∷ codes "y" ∷ []) []) (choice any_fit) (issue 0 ∷ issue 0 ∷ []) (1 ∷ 2 ∷ []) (0 ∷ 1 ∷ []) 1 (Some 1)
        ≡ concat (codes "by one of the choices\n"
        ∷ codes "fits 1 cycle later\n"
        ∷ codes "alternative 1: a in cycle 0 is held from line 1, x\n"
        ∷ codes "alternative 1 takes a 0\n"
        ∷ codes "line 1 x in cycle 0 took alternative 1\n"
        ∷ codes "line 2 x in cycle 0 took alternative 2\n"
        ∷ codes "cycle   0\n"
        ∷ codes "a       1\n"
        ∷ codes "b       2\n"
        ∷ []) }
{}

/// How lists and lines are cut: numbers in runs; ` ..` in place of items for which there is no room; `..` at the end of a line that is too long.
pub fn cut_texts()
    ensures numbers { alternatives_text (1 ∷ 2 ∷ 3 ∷ 4 ∷ 7 ∷ []) ≡ codes "alternatives 1-4, 7" }
    ensures one { alternatives_text (3 ∷ []) ≡ codes "alternative 3" }
    ensures many { alternatives_text (1 ∷ 3 ∷ 5 ∷ 7 ∷ 9 ∷ 11 ∷ 13 ∷ 15 ∷ 17 ∷ 19 ∷ []) ≡ codes "alternatives 1, 3, 5, 7, 9, 11, 13, 15 .." }
    ensures all { listed 7 [] (codes ", ") (codes "ab" ∷ codes "cde" ∷ []) ≡ codes "ab, cde" }
    ensures some { listed 6 [] (codes ", ") (codes "ab" ∷ codes "cde" ∷ []) ≡ codes "ab .." }
    ensures line { narrow (replicate 81 65) ≡ replicate 78 65 ++ codes ".." }
{}

/// What pairs take, as stretches: a unit that is taken again after a break has two.
pub fn taken_texts()
    ensures stretches { taken_text (λ u. codes "u" ++ decimal u) 40 (stretches ◌==◌ (record { unit = 1; cycle = 0 } ∷ record { unit = 2; cycle = 0 } ∷ record { unit = 1; cycle = 1 } ∷ record { unit = 1; cycle = 3 } ∷ [])) ≡ codes " u1 0-1, u2 0, u1 3" }
    ensures nothing { takes_line ◌==◌ (λ u. decimal u) (1 ∷ 2 ∷ []) [] ≡ codes "alternatives 1-2 take nothing\n" }
{}
