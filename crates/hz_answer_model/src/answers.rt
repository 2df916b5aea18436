//! Laws of answers.

ghost use Rattle.std.specs.Prelude.{◌≡◌, ℕ, List};
ghost use Rattle.hz_answer_model.specs.Answers.{Answer, AnswersOrder};
ghost use Rattle.hz_answer_model.specs.Headline.{Promised, WritesSchedule, ReplayAccepts, ReplayAcceptsEvents, WritesDrill, WritesTables, WalkIsReplay};
ghost use Rattle.hz_base_model.specs.Names.{Held};
ghost use Rattle.hz_words_model.specs.Words.{Order, compile, drill, schedule};

/// The words and what is held have one answer at most: one status and one text.
pub fn one_answer()
    ensures { (words : List (List ℕ)) (held : Held) (s s' : ℕ) (t t' : List ℕ) → Answer words held s t → Answer words held s' t' → (s ≡ s') × (t ≡ t') }
{}

/// What `schedule` answers with status 0 is the text of a schedule that keeps its block: the instructions each once, every
/// latency and bypass, in an order that `replay` accepts and that from every state leaves what source order leaves.
pub fn schedules_keep_their_blocks()
    ensures { (held : Held) (description block text : List ℕ) → AnswersOrder held (schedule description block) 0 text → WritesSchedule held description block text }
{}

/// `replay` accepts each schedule that `schedule` writes: to every trace within its limit of bytes that says the schedule it
/// answers with status 0, and tells as many issues as the block has instructions, and the cycle of the last.
pub fn replay_accepts_schedules()
    ensures { (held : Held) (description block text : List ℕ) (w : WritesSchedule held description block text) → AnswersOrder held (schedule description block) 0 text → ReplayAccepts held description w.d w.g w.slots }
{}

/// What `compile` answers with status 0 says what is compiled of the description: it stands for a machine that has its classes and its
/// automata, each of which walks just what it accepts, with states that are reached, apart unless they stay as they were found, and
/// numbered breadth-first; and it tells beside that what the options ask for, as it is. It is within its limit of bytes, unless both
/// `v` and `no-minimization` ask for what each state is.
pub fn compile_writes_tables()
    ensures { (held : Held) (description text : List ℕ) → AnswersOrder held (compile description) 0 text → WritesTables held description text }
{}

/// `walk` on a text that `compile` wrote of a description has the status and the text of `replay` on the description, for every trace,
/// where the text is within its limit of bytes.
pub fn walk_is_replay()
    ensures { (held : Held) (description text : List ℕ) → AnswersOrder held (compile description) 0 text → WalkIsReplay held description text }
{}

/// What `drill` answers with status 0 tells of the trace that is drawn by what the description accepts, which accepts it, and of the
/// states that the trace leaves in the tables that `compile` writes of the description.
pub fn drills_are_of_accepted_traces()
    ensures { (held : Held) (description : List ℕ) (number turns : ℕ) (text : List ℕ) → AnswersOrder held (drill description number turns) 0 text → WritesDrill held description number turns text }
{}

/// `replay` accepts the trace of each drill: to every trace within its limit of bytes that says it, it answers with status 0, and tells
/// as many issues and cycles as the drill does.
pub fn replay_accepts_drills()
    ensures { (held : Held) (description : List ℕ) (number turns : ℕ) (text : List ℕ) (w : WritesDrill held description number turns text) → AnswersOrder held (drill description number turns) 0 text → ReplayAcceptsEvents held description w.d w.drill.events }
{}

/// What each command answers with status 0 is what is promised of it.
pub fn promises_are_kept()
    ensures { (held : Held) (order : Order) (text : List ℕ) → AnswersOrder held order 0 text → Promised held order text }
{}

/// All words have an answer, whatever is held: with `one_answer`, exactly one.
pub fn some_answer()
    ensures { (words : List (List ℕ)) (held : Held) → (status : ℕ) × (text : List ℕ) × Answer words held status text }
{}
