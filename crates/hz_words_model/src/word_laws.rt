//! Laws of the words of the command line.

ghost use Rattle.std.specs.Prelude.{◌≡◌, ◌==◌, ℕ, true, false, List, [], ◌∷◌, Some, codes};
ghost use Rattle.std.specs.List.{count_by, list_all};
ghost use Rattle.std.specs.Str.{bytes_eq};
ghost use Rattle.hz_words_model.specs.Words.{commands, compile, replay, walk, schedule, eval, drill, timed, bound, duo, modulo, has_option, number_in, number_limit, order_of, turn_limit, usage_line};

/// What the words of each command ask for, if none of its operands begins with `-`.
pub fn commands_ask()
    ensures compiles { (d : List ℕ) → has_option (d ∷ []) ≡ false → order_of (codes "compile" ∷ d ∷ []) ≡ Some (compile d) }
    ensures replays { (d t : List ℕ) → has_option (d ∷ t ∷ []) ≡ false → order_of (codes "replay" ∷ d ∷ t ∷ []) ≡ Some (replay d t) }
    ensures walks { (b t : List ℕ) → has_option (b ∷ t ∷ []) ≡ false → order_of (codes "walk" ∷ b ∷ t ∷ []) ≡ Some (walk b t) }
    ensures schedules { (d b : List ℕ) → has_option (d ∷ b ∷ []) ≡ false → order_of (codes "schedule" ∷ d ∷ b ∷ []) ≡ Some (schedule d b) }
    ensures evaluates { (b s : List ℕ) → has_option (b ∷ s ∷ []) ≡ false → order_of (codes "eval" ∷ b ∷ s ∷ []) ≡ Some (eval b s) }
    ensures drills { (d n c : List ℕ) (number turns : ℕ) → has_option (d ∷ n ∷ c ∷ []) ≡ false → number_in number_limit n ≡ Some number → number_in turn_limit c ≡ Some turns
        → order_of (codes "drill" ∷ d ∷ n ∷ c ∷ []) ≡ Some (drill d number turns) }
    ensures times { (d b s : List ℕ) → has_option (d ∷ b ∷ s ∷ []) ≡ false → order_of (codes "timed" ∷ d ∷ b ∷ s ∷ []) ≡ Some (timed d b s) }
    ensures bounds { (d b : List ℕ) → has_option (d ∷ b ∷ []) ≡ false → order_of (codes "bound" ∷ d ∷ b ∷ []) ≡ Some (bound d b) }
    ensures pairs { (d b c : List ℕ) → has_option (d ∷ b ∷ c ∷ []) ≡ false → order_of (codes "duo" ∷ d ∷ b ∷ c ∷ []) ≡ Some (duo d b c) }
    ensures overlaps { (d b : List ℕ) → has_option (d ∷ b ∷ []) ≡ false → order_of (codes "modulo" ∷ d ∷ b ∷ []) ≡ Some (modulo d b) }
{}

/// No two commands have one name.
pub fn names_differ()
    ensures { list_all (λ command. count_by (λ other. bytes_eq other.name command.name) commands == 1) commands ≡ true }
{}

/// The text of the usage line.
pub fn usage_names_commands()
    ensures { usage_line ≡ codes "usage: hz compile DESC | replay DESC TRACE | walk TABLES TRACE | schedule DESC BLOCK | eval BLOCK STATE | drill DESC NUMBER COUNT | timed DESC BLOCK STATE | bound DESC BLOCK | duo DESC BLOCK BLOCK | modulo DESC BLOCK\n" }
{}
