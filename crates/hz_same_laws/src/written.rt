//! The trace that is written is a trace of both tables texts.

ghost use Rattle.std.specs.Prelude.{◌≤◌, ℕ, List, length, nat_le};
ghost use Rattle.hz_answer_model.specs.TableAnswers.{HasTables, WalksTrace};
ghost use Rattle.hz_pipeline_model.specs.Tables.Machines.{Machine};
ghost use Rattle.hz_pipeline_model.specs.Traces.TraceLimits.{advance_limit};
ghost use Rattle.hz_same_model.specs.Answers.{SaysDifference};
ghost use Rattle.hz_same_model.specs.Common.{advance_symbol, common_of};
ghost use Rattle.hz_same_laws.specs.Written.{AnswerApart, IsOneLine};
ghost use Rattle.hz_tabtext_model.specs.Texts.{TableText};

/// What is written of two machines that differ is a trace text, if no name of a file has a line feed and a trace may have so many cycles.
/// `walk` answers to it with status 0 on one of both tables texts, and with 1 on the other; if its last event is an ask, with 0 on both.
pub fn traces_that_are_written_are_walked()
    ensures { (file other_file : List ℕ) (first second : Machine) (text : List ℕ) → IsOneLine file → IsOneLine other_file → (said : SaysDifference file other_file first second text) → length said.trace ≤ advance_limit → (tables other_tables name other_name trace : List ℕ) → TableText tables first → TableText other_tables second → (status other : ℕ) (answer other_answer : List ℕ) → HasTables name tables (WalksTrace trace text) status answer → HasTables other_name other_tables (WalksTrace trace text) other other_answer → AnswerApart (nat_le said.least.last (advance_symbol (common_of first second))) status other }
{}
