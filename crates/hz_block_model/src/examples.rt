//! The dependences of some blocks, computed.

ghost use Rattle.std.specs.Prelude.{◌≡◌, [], ◌∷◌};
ghost use Rattle.hz_block_model.specs.Dependences.Examples.{edges_of, from_to, slow_first, product_used, written_twice, read_then_written, base_written, one_base, two_bases, base_written_by_first, base_written_by_second, same_constant, no_base, clobbered};
ghost use Rattle.hz_block_model.specs.Dependences.BypassExamples.{product, product_clobbering, product_in_cell, stored, addressed, stored_at_itself, load_stored, stored_with_clobber, stored_with_cell_clobbered, stored_with_sum, added, guarded, later_guarded, plain, wide, edges_by};
ghost use Rattle.hz_block_model.specs.Dependences.Classes.{number_between};

/// Dependences by registers: a true one costs the latency, an output dependence the difference of latencies, an anti-dependence
/// nothing; the second writer hides the first.
pub fn dependences_by_registers()
    ensures true_ { edges_of product_used slow_first ≡ from_to 0 1 4 ∷ [] }
    ensures output { edges_of written_twice slow_first ≡ from_to 0 1 2 ∷ [] }
    ensures anti { edges_of read_then_written slow_first ≡ from_to 0 1 0 ∷ [] }
    ensures last { edges_of clobbered slow_first ≡ from_to 0 1 4 ∷ from_to 0 2 2 ∷ from_to 1 2 0 ∷ from_to 2 3 2 ∷ [] }
{}

/// Dependences by memory: cells are apart where they have one base and different constants, and the base isn't written by the
/// first or between them.
pub fn dependences_by_memory()
    ensures written { edges_of base_written slow_first ≡ from_to 0 1 0 ∷ from_to 0 2 4 ∷ from_to 1 2 2 ∷ [] }
    ensures apart { edges_of one_base slow_first ≡ [] }
    ensures bases { edges_of two_bases slow_first ≡ from_to 0 1 4 ∷ [] }
    ensures by_first { edges_of base_written_by_first slow_first ≡ from_to 0 1 4 ∷ [] }
    ensures by_second { edges_of base_written_by_second slow_first ≡ from_to 0 1 0 ∷ [] }
    ensures same { edges_of same_constant slow_first ≡ from_to 0 1 4 ∷ [] }
    ensures none { edges_of no_base slow_first ≡ from_to 0 1 2 ∷ [] }
{}

/// The cycles of a true dependence by bypasses without the guard: from a class among the outs to a class among the ins, and else
/// by the latency of the first.
pub fn dependences_by_bypasses()
    ensures listed { edges_by (plain ∷ []) (1 ∷ 0 ∷ []) (product ∷ added ∷ []) ≡ from_to 0 1 3 ∷ [] }
    ensures turned { edges_by (plain ∷ []) (0 ∷ 1 ∷ []) (product ∷ added ∷ []) ≡ from_to 0 1 2 ∷ [] }
    ensures same { edges_by (plain ∷ []) (1 ∷ 1 ∷ []) (product ∷ added ∷ []) ≡ from_to 0 1 4 ∷ [] }
    ensures other { edges_by (plain ∷ []) (2 ∷ 0 ∷ []) (product ∷ added ∷ []) ≡ from_to 0 1 6 ∷ [] }
    ensures second_out { edges_by (wide ∷ []) (2 ∷ 0 ∷ []) (product ∷ added ∷ []) ≡ from_to 0 1 3 ∷ [] }
    ensures second_in { edges_by (wide ∷ []) (1 ∷ 2 ∷ []) (product ∷ added ∷ []) ≡ from_to 0 1 3 ∷ [] }
    ensures out_alone { edges_by (wide ∷ []) (1 ∷ 1 ∷ []) (product ∷ added ∷ []) ≡ from_to 0 1 4 ∷ [] }
    ensures in_alone { edges_by (wide ∷ []) (0 ∷ 0 ∷ []) (product ∷ added ∷ []) ≡ from_to 0 1 2 ∷ [] }
{}

/// The same by bypasses with the guard: where the second instruction only stores what the first makes.
pub fn dependences_by_guarded_bypasses()
    ensures stored { edges_by (guarded ∷ []) (1 ∷ 0 ∷ []) (product ∷ stored ∷ []) ≡ from_to 0 1 1 ∷ [] }
    ensures addressed { edges_by (guarded ∷ []) (1 ∷ 0 ∷ []) (product ∷ addressed ∷ []) ≡ from_to 0 1 4 ∷ [] }
    ensures both { edges_by (guarded ∷ []) (1 ∷ 0 ∷ []) (product ∷ stored_at_itself ∷ []) ≡ from_to 0 1 4 ∷ [] }
    ensures load { edges_by (guarded ∷ []) (1 ∷ 0 ∷ []) (product ∷ load_stored ∷ []) ≡ from_to 0 1 1 ∷ [] }
    ensures sum { edges_by (guarded ∷ []) (1 ∷ 0 ∷ []) (product ∷ stored_with_sum ∷ []) ≡ from_to 0 1 4 ∷ [] }
    ensures used { edges_by (guarded ∷ []) (1 ∷ 0 ∷ []) (product ∷ added ∷ []) ≡ from_to 0 1 4 ∷ [] }
    ensures turned { edges_by (guarded ∷ []) (0 ∷ 1 ∷ []) (product ∷ stored ∷ []) ≡ from_to 0 1 2 ∷ [] }
    ensures clobber { edges_by (guarded ∷ []) (1 ∷ 0 ∷ []) (product ∷ stored_with_clobber ∷ []) ≡ from_to 0 1 1 ∷ [] }
    ensures cell { edges_by (guarded ∷ []) (1 ∷ 0 ∷ []) (product ∷ stored_with_cell_clobbered ∷ []) ≡ from_to 0 1 1 ∷ [] }
    ensures first_clobbers { edges_by (guarded ∷ []) (1 ∷ 0 ∷ []) (product_clobbering ∷ stored ∷ []) ≡ from_to 0 1 1 ∷ [] }
    ensures first_stores { number_between (guarded ∷ []) 4 1 0 product_in_cell load_stored ≡ 1 }
    ensures plain { edges_by (guarded ∷ plain ∷ []) (1 ∷ 0 ∷ []) (product ∷ addressed ∷ []) ≡ from_to 0 1 3 ∷ [] }
    ensures beyond { edges_by (plain ∷ guarded ∷ []) (1 ∷ 0 ∷ []) (product ∷ stored ∷ []) ≡ from_to 0 1 1 ∷ [] }
    ensures first { edges_by (guarded ∷ later_guarded ∷ []) (1 ∷ 0 ∷ []) (product ∷ stored ∷ []) ≡ from_to 0 1 1 ∷ [] }
    ensures later { edges_by (later_guarded ∷ guarded ∷ []) (1 ∷ 0 ∷ []) (product ∷ stored ∷ []) ≡ from_to 0 1 5 ∷ [] }
{}
