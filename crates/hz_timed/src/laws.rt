//! A law of what is written.

ghost use Rattle.hz_rtl.specs.declared.block.Block.{Block};
ghost use Rattle.hz_rtl.specs.Shape.{instructions};
ghost use Rattle.hz_sched.specs.declared.parts.Schedule.{Schedule};
ghost use Rattle.hz_sched.specs.Shape.{slots_of};
ghost use Rattle.hz_measure_model.specs.Exposed.Texts.{IsTimedText};
ghost use Rattle.hz_timed.specs.declared.parts.Timed.{Timed};
ghost use Rattle.hz_timed.specs.Shape.{timed_of, timed_text};

/// What is written is the text of what is left.
pub fn texts_are_of_what_is_left()
    ensures { (block : Block) (schedule : Schedule) (t : Timed) → IsTimedText (instructions block) (slots_of schedule.slots.items) (timed_of t) (timed_text block schedule t) }
{}
