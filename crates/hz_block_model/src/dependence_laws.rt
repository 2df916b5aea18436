//! Laws of dependences.

ghost use Rattle.std.specs.Prelude.{◌≡◌, ◌<◌, ℕ, List, length, slice_index, IsTrue};
ghost use Rattle.std.specs.List.{range_with_len, Contains};
ghost use Rattle.hz_block_model.specs.Running.Blocks.{Instruction};
ghost use Rattle.hz_block_model.specs.Running.States.{State, run};
ghost use Rattle.hz_block_model.specs.Dependences.Dependences.{depends, Timing};
ghost use Rattle.hz_block_model.specs.Dependences.Graphs.{Edge, IsGraph, IsHeight};
ghost use Rattle.hz_block_model.specs.Dependences.Orders.{IsOrder, Keeps, KeepsEdges};

/// Commutation: every order that holds each place of a block once and keeps each dependence leaves, from every state, what the
/// order of the source leaves.
pub fn orders_that_keep_dependences_commute()
    ensures { (block : List Instruction) (order : List ℕ) (state : State) → IsOrder (length block) order → Keeps block order → run block order state ≡ run block (range_with_len 0 (length block)) state }
{}

/// A dependence leads upwards, inside the block.
pub fn dependences_lead_upwards()
    ensures { (block : List Instruction) (i j : ℕ) → IsTrue (depends block i j) → (i < j) × (j < length block) }
{}

/// The same of every order that keeps the edges of the block's graph.
pub fn orders_that_keep_edges_commute()
    ensures { (block : List Instruction) (t : Timing) (edges : List Edge) (order : List ℕ) (state : State) → IsGraph block t edges → IsOrder (length block) order → KeepsEdges edges order → run block order state ≡ run block (range_with_len 0 (length block)) state }
{}

/// Edges that lead upwards have one list of heights.
pub fn one_list_of_heights()
    ensures { (edges : List Edge) (latency hs gs : List ℕ) (n : ℕ) → ((e : Edge) → Contains edges e → (e.from < e.to) × (e.to < n)) → ((i : ℕ) → i < n → IsHeight edges latency hs i) → ((i : ℕ) → i < n → IsHeight edges latency gs i) → (i : ℕ) → i < n → slice_index hs i ≡ slice_index gs i }
{}
