//! Laws of the texts of blocks and states: what forms say, and which of them is wrong, by cases on how they are spelled.

ghost use Rattle.std.specs.Prelude.{◌≡◌, ◌↔◌, ◌+◌, ◌*◌, ◌^◌, ◌<◌, ℕ, pos, negsuc, List};
ghost use Rattle.hz_base_model.specs.Forms.Trees.{Trees};
ghost use Rattle.hz_block_model.specs.Running.Blocks.{Instruction};
ghost use Rattle.hz_block_model.specs.Running.Signed.{IsWordOf};
ghost use Rattle.hz_block_model.specs.Running.States.{State};
ghost use Rattle.hz_block_model.specs.Texts.Operands.{RtlFault, word_of};
ghost use Rattle.hz_block_model.specs.Texts.BlockForms as blocks;
ghost use Rattle.hz_block_model.specs.Texts.StateForms as states;
ghost use Rattle.hz_block_model.specs.Texts.Grammar.{IsBlock, IsState};
ghost use Rattle.hz_block_model.specs.Texts.WrongForms.{IsWrongBlock, IsWrongState};

/// Forms are read as a block exactly where each form is an instruction by the grammar, no two have one number, and there are not too
/// many.
pub fn blocks_are_what_their_grammar_says()
    ensures { (forms : Trees) (block : List Instruction) → blocks.Reads forms block ↔ IsBlock forms block }
{}

/// A block has a fault exactly where a form after a block is wrong by itself, with all to its left right.
pub fn wrong_blocks_have_a_wrong_form()
    ensures { (forms : Trees) (fault : RtlFault) (line : ℕ) → blocks.FaultAt forms fault line ↔ IsWrongBlock forms fault line }
{}

/// Forms are read as a state exactly where they give words for places, no place twice, and the state holds them, and 0 elsewhere.
pub fn states_are_what_their_grammar_says()
    ensures { (forms : Trees) (state : State) → states.Reads forms state ↔ IsState forms state }
{}

/// A state has a fault exactly where a form after such forms is wrong by itself, with all to its left right.
pub fn wrong_states_have_a_wrong_form()
    ensures { (forms : Trees) (fault : RtlFault) (line : ℕ) → states.FaultAt forms fault line ↔ IsWrongState forms fault line }
{}

/// A number is taken modulo 2^64, also one below 0.
pub fn numbers_are_taken_modulo()
    ensures from_zero { (n : ℕ) → IsWordOf n (word_of (pos n)) }
    ensures short { (n : ℕ) → word_of (negsuc n) < 2 ^ 64 }
    ensures below_zero { (n : ℕ) → (turns : ℕ) × (word_of (negsuc n) + (n + 1) ≡ turns * 2 ^ 64) }
{}
