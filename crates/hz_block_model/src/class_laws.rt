//! Laws of the classes of instructions, and of the bypasses between them.

ghost use Rattle.std.specs.Prelude.{◌≡◌, ◌↔◌, ℕ, true, false, List, Ok, All, slice_index};
ghost use Rattle.std.specs.List.{Contains};
ghost use Rattle.hz_description_model.specs.Reading.Descriptions.{Condition};
ghost use Rattle.hz_description_model.specs.Reading.Conditions.{value_of};
ghost use Rattle.hz_description_model.specs.Check.CheckFaults.{IsFirst};
ghost use Rattle.hz_description_model.specs.Check.CheckedParts.{BypassParts};
ghost use Rattle.hz_block_model.specs.Running.Blocks.{Instruction};
ghost use Rattle.hz_block_model.specs.Dependences.Classes.{class_of, timing_of};
ghost use Rattle.hz_block_model.specs.Dependences.ClassWords.{IsRight, IsOnlyClass, Lists, StoresAt};
ghost use Rattle.hz_block_model.specs.Dependences.Stores.{stores_data, StoresData};

/// An instruction has a class exactly where each attribute that it gives is defined and has one of its values, and where the
/// condition of that class holds and no other's.
pub fn class_is_the_one_that_holds()
    ensures { (defined : List (List ℕ × List (List ℕ))) (defaults : List (List ℕ × List ℕ)) (conditions : List Condition) (given : List (List ℕ × List ℕ)) (class : ℕ) → class_of defined defaults conditions given ≡ Ok class ↔ (All (IsRight defined) given × IsOnlyClass (value_of given defaults) conditions class) }
{}

/// An instruction only stores what another makes exactly where one of its `set` effects writes a cell, none writes a register, and
/// no register that a `set` of the other writes occurs in the address of a cell that it sets.
pub fn stores_are_of_set_effects()
    ensures { (first second : Instruction) → stores_data first second ≡ true ↔ StoresData first second }
{}

/// A true dependence takes the cycles of the first bypass with the guard that lists both classes, where the second instruction
/// only stores what the first makes; where none does, those of the first bypass without the guard that lists both; where none
/// does either, the latency of the first class.
pub fn numbers_are_of_bypasses()
    ensures guarded { (latencies : List ℕ) (bypasses : List BypassParts) (classes : List ℕ) (block : List Instruction) (i j : ℕ) → StoresAt block i j → (b : BypassParts) → IsFirst (Lists true (slice_index classes i) (slice_index classes j)) bypasses b → (timing_of latencies bypasses classes block).number i j ≡ b.number }
    ensures unguarded { (latencies : List ℕ) (bypasses : List BypassParts) (classes : List ℕ) (block : List Instruction) (i j : ℕ) → ((c : BypassParts) → Contains bypasses c → Lists true (slice_index classes i) (slice_index classes j) c → StoresAt block i j → ⊥) → (b : BypassParts) → IsFirst (Lists false (slice_index classes i) (slice_index classes j)) bypasses b → (timing_of latencies bypasses classes block).number i j ≡ b.number }
    ensures latency { (latencies : List ℕ) (bypasses : List BypassParts) (classes : List ℕ) (block : List Instruction) (i j : ℕ) → ((c : BypassParts) → Contains bypasses c → Lists true (slice_index classes i) (slice_index classes j) c → StoresAt block i j → ⊥) → ((c : BypassParts) → Contains bypasses c → Lists false (slice_index classes i) (slice_index classes j) c → ⊥) → (timing_of latencies bypasses classes block).number i j ≡ slice_index latencies (slice_index classes i) }
{}
