//! Laws of what `hz_why` answers, beside what `replay` answers.

ghost use Rattle.std.specs.Prelude.{ℕ, List};
ghost use Rattle.hz_base_model.specs.Names.{Held};
ghost use Rattle.hz_words_model.specs.Words.{replay};
ghost use Rattle.hz_answer_model.specs.Answers.{AnswersOrder};
ghost use Rattle.hz_why_model.specs.Answers.{AnswersFiles};
ghost use Rattle.hz_why_laws.specs.Beginnings.{Begins};

/// What is answered begins with what `replay` answers to the same files, with the same status; or else `replay` answers that an
/// automaton of the description has too many states, which stands in no way here.
pub fn explanations_begin_as_replays_answer()
    ensures { (held : Held) (description trace : List ℕ) (status : ℕ) (text : List ℕ) → AnswersFiles held (description, trace) status text → Begins description (AnswersOrder held (replay description trace)) status text }
{}
