//! Lines of tables texts, judged.

ghost use Rattle.std.specs.Prelude.{◌≡◌, [], ◌∷◌, Some, None, Ok, Err, codes};
ghost use Rattle.hz_tabtext_model.specs.Judging.{bad_line, bad_number, out_of_range};
ghost use Rattle.hz_tabtext_model.specs.Lines.{head_in, map_in, asks_in, row_in, origin_in, grid_in};

/// What is wrong with a line as a whole comes first, then its fields from left to right.
#[tactic(auto, unfolding(crate::specs::Judging::each_by, crate::specs::Fields::operands, crate::specs::Fields::number_in, crate::specs::Fields::number_below, crate::specs::Fields::entry_in, crate::specs::Fields::ask_entry_in, crate::specs::Fields::advance_in, crate::specs::Fields::cycle_in, crate::specs::Lines::head_in, crate::specs::Lines::map_in, crate::specs::Lines::asks_of, crate::specs::Lines::asks_in, crate::specs::Lines::row_in, crate::specs::Lines::origin_in, crate::specs::Lines::grid_in))]
pub fn line_rows()
    ensures row { row_in 2 0 3 1 (codes "row 2 - 0") ≡ Ok (Some 2 ∷ None ∷ Some 0 ∷ []) }
    ensures two_fields { row_in 2 0 3 1 (codes "row 01 3") ≡ Err bad_line }
    ensures empty_field { row_in 2 0 3 1 (codes "row 01  0") ≡ Err bad_line }
    ensures leading_zero { row_in 2 0 3 1 (codes "row 01 3 0") ≡ Err bad_number }
    ensures target { row_in 2 0 3 1 (codes "row 3 01 0") ≡ Err out_of_range }
    ensures advance { row_in 2 0 3 1 (codes "row 1 1 -") ≡ Err bad_number }
    ensures reserved { row_in 1 1 4 2 (codes "row - 2 0") ≡ Ok (None ∷ Some 2 ∷ Some 0 ∷ []) }
    ensures free { row_in 1 1 4 2 (codes "row 3 - 0") ≡ Ok (Some 3 ∷ None ∷ Some 0 ∷ []) }
    ensures other_row { row_in 1 1 4 2 (codes "row - 1 0") ≡ Err out_of_range }
    ensures no_ask_entry { row_in 1 1 4 2 (codes "row - x 0") ≡ Err bad_number }
    ensures asks { asks_in 1 4 (codes "c" ∷ []) (codes "asks a b") ≡ Ok (codes "a" ∷ codes "b" ∷ []) }
    ensures no_asks { asks_in 1 4 (codes "c" ∷ []) (codes "asks") ≡ Ok [] }
    ensures earlier_ask { asks_in 1 4 (codes "c" ∷ []) (codes "asks a c") ≡ Err bad_line }
    ensures same_ask { asks_in 1 4 (codes "c" ∷ []) (codes "asks a a") ≡ Err bad_line }
    ensures many_entries { asks_in 1024 4092 [] (codes "asks a") ≡ Err out_of_range }
    ensures same_of_many { asks_in 1024 4092 [] (codes "asks a a") ≡ Err bad_line }
    ensures no_column { map_in 1 0 (codes "map 0") ≡ Err out_of_range }
    ensures columns { head_in 2 (codes "automaton a 3 01") ≡ Err out_of_range }
    ensures name { head_in 2 (codes "automaton a,b 3 01") ≡ Err bad_line }
    ensures start { origin_in 1 4 (codes "from -") ≡ Ok tt }
    ensures one_number { origin_in 1 4 (codes "from 0") ≡ Err bad_line }
    ensures colons { grid_in (codes "grid 511:a:b") ≡ Ok tt }
    ensures no_cycle { grid_in (codes "grid :a") ≡ Err bad_number }
    ensures past { grid_in (codes "grid 512:a") ≡ Err out_of_range }
    ensures no_unit { grid_in (codes "grid 512:a 1:") ≡ Err bad_line }
{}
