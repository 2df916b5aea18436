//! Laws of the texts of blocks and states.

ghost use Rattle.std.specs.Prelude.{◌≡◌, ◌↔◌, ℕ, List, ◌≤◌, ◌==◌, length, IsFalse};
ghost use Rattle.std.specs.List.{AllPairs};
ghost use Rattle.hz_base_model.specs.Forms.Trees.{Trees};
ghost use Rattle.hz_block_model.specs.Running.Blocks.{Instruction};
ghost use Rattle.hz_block_model.specs.Running.States.{State, Place, Store, same_place};
ghost use Rattle.hz_block_model.specs.Texts.Operands.{RtlFault};
ghost use Rattle.hz_block_model.specs.Texts.BlockForms as blocks;
ghost use Rattle.hz_block_model.specs.Texts.StateForms as states;
ghost use Rattle.hz_block_model.specs.Texts.StateTexts.{Listing, IsListing, IsText};
ghost use Rattle.hz_block_model.specs.Running.Limits.{instruction_limit};

/// A block has a fault exactly where a form is wrong after a front that is a block.
pub fn blocks_fail_at_their_first_wrong_form()
    ensures { (forms : Trees) (fault : RtlFault) (line : ℕ) → blocks.FaultAt forms fault line ↔ blocks.FirstWrong forms fault line }
{}

/// No two instructions of a block have one number, and there are not too many.
pub fn numbers_of_a_block_differ()
    ensures numbers { (forms : Trees) (block : List Instruction) → blocks.Reads forms block → AllPairs (λ a b. IsFalse (a.number == b.number)) block }
    ensures count { (forms : Trees) (block : List Instruction) → blocks.Reads forms block → length block ≤ instruction_limit }
{}

/// A state has a fault exactly where a form is wrong after a front that gives words.
pub fn states_fail_at_their_first_wrong_form()
    ensures { (forms : Trees) (fault : RtlFault) (line : ℕ) → states.FaultAt forms fault line ↔ states.FirstWrong forms fault line }
{}

/// A state has one listing, and so one text.
pub fn one_listing()
    ensures listing { (state : State) (l m : Listing) → IsListing state l → IsListing state m → l ≡ m }
    ensures text { (state : State) (s t : List ℕ) → IsText state s → IsText state t → s ≡ t }
{}
