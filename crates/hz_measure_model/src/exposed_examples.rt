//! Reads on an exposed pipeline, computed.

ghost use Rattle.std.specs.Prelude.{◌≡◌, [], ◌∷◌, ◌++◌, codes, decimal, Some, None};
ghost use Rattle.hz_block_model.specs.Running.States.{reg, cell};
ghost use Rattle.hz_measure_model.specs.Exposed.Exposed.{Read, exposed};
ghost use Rattle.hz_measure_model.specs.Exposed.Texts.{read_line, text_of_reads};
ghost use Rattle.hz_measure_model.specs.Exposed.Examples.{sum_used, choice_stored, five_and_seven, four, slot};

/// A read four cycles later sees what was written; one cycle too early it sees the state before all, and so computes another word.
pub fn reads_see_what_is_ripe()
    ensures ripe { (exposed sum_used four five_and_seven (slot 0 0 ∷ slot 1 4 ∷ [])).reads ≡ record { slot = 0; what = reg 1; from = None } ∷ record { slot = 0; what = reg 2; from = None } ∷ record { slot = 1; what = reg 3; from = Some 0 } ∷ [] }
    ensures ripe_text { text_of_reads sum_used (slot 0 0 ∷ slot 1 4 ∷ []) (exposed sum_used four five_and_seven (slot 0 0 ∷ slot 1 4 ∷ [])).reads ≡ read_line 0 1 (reg 1) (codes "start") ++ (read_line 0 1 (reg 2) (codes "start") ++ (read_line 4 2 (reg 3) (decimal 1) ++ [])) }
    ensures ripe_word { (exposed sum_used four five_and_seven (slot 0 0 ∷ slot 1 4 ∷ [])).state (reg 4) ≡ 13 }
    ensures early { (exposed sum_used four five_and_seven (slot 0 0 ∷ slot 1 3 ∷ [])).reads ≡ record { slot = 0; what = reg 1; from = None } ∷ record { slot = 0; what = reg 2; from = None } ∷ record { slot = 1; what = reg 3; from = None } ∷ [] }
    ensures early_word { (exposed sum_used four five_and_seven (slot 0 0 ∷ slot 1 3 ∷ [])).state (reg 4) ≡ 1 }
    ensures written { (exposed sum_used four five_and_seven (slot 0 0 ∷ slot 1 3 ∷ [])).state (reg 3) ≡ 12 }
{}

/// All operands of a choice are read; the cell that is written is read only where a value asks for it.
pub fn reads_are_of_all_operands()
    ensures { (exposed choice_stored four five_and_seven (slot 0 0 ∷ [])).reads ≡ record { slot = 0; what = reg 1; from = None } ∷ record { slot = 0; what = reg 2; from = None } ∷ record { slot = 0; what = cell 5; from = None } ∷ record { slot = 0; what = cell 9; from = None } ∷ [] }
{}
