//! Laws of expressions, of their alternatives and of the names in them, for any units.

ghost use Rattle.std.specs.Prelude.{◌≡◌, ℕ, ◌+◌, ◌*◌, ◌<◌, ◌^◌, slice_index_or, List, length, Option, IsTrue, IsSome};
ghost use Rattle.hz_description_model.specs.Reservations.Alternatives.{Alternative, SameAs, beside, Expression, Parts, none, more, sequence, one_of, all_of, repeat as repeat_of, alternatives_of, each_choice};
ghost use Rattle.hz_description_model.specs.Reservations.Expressions.{is_expression, repeated, product_of_counts, sum_of_counts};
ghost use Rattle.std.specs.Option.{option_map};
ghost use Rattle.hz_base_model.specs.Lines.{place_of};
ghost use Rattle.hz_description_model.specs.Reservations.Meanings.{unit_alternatives, Meaning, unit, Expands, Alts, Mentions, Reaches, Unwinds, IsClosed};

/// `e * n` has the alternatives of the sequence of n copies of e.
pub fn repeats_are_sequences<U>()
    ensures { (known : List ℕ → List (Alternative U)) (part : Expression) (n : ℕ) → alternatives_of known (repeat_of part n) ≡ alternatives_of known (sequence (repeated n part)) }
{}

/// One part by itself is that part, whatever the mark.
pub fn one_part_is_itself<U>()
    ensures in_sequence { (known : List ℕ → List (Alternative U)) (part : Expression) → alternatives_of known (sequence (more part none)) ≡ alternatives_of known part }
    ensures together { (known : List ℕ → List (Alternative U)) (part : Expression) → alternatives_of known (all_of (more part none)) ≡ alternatives_of known part }
    ensures any { (known : List ℕ → List (Alternative U)) (part : Expression) → alternatives_of known (one_of (more part none)) ≡ alternatives_of known part }
{}

/// A sequence has as many alternatives as the product of its parts' numbers, parts side by side too, an alternation as
/// many as their sum, and a repeat as many as a power. Equal ones are counted each time.
pub fn counts_of_alternatives<U>()
    ensures in_sequence { (known : List ℕ → List (Alternative U)) (parts : Parts) → length (alternatives_of known (sequence parts)) ≡ product_of_counts known parts }
    ensures together { (known : List ℕ → List (Alternative U)) (parts : Parts) → length (alternatives_of known (all_of parts)) ≡ product_of_counts known parts }
    ensures any { (known : List ℕ → List (Alternative U)) (parts : Parts) → length (alternatives_of known (one_of parts)) ≡ sum_of_counts known parts }
    ensures repeats { (known : List ℕ → List (Alternative U)) (part : Expression) (n : ℕ) → length (alternatives_of known (repeat_of part n)) ≡ length (alternatives_of known part) ^ n }
{}

/// Alternatives side by side are in no order, and one beside itself is that one: their pairs are sets.
pub fn side_by_side_is_in_no_order<U>()
    ensures swapped { (a b : Alternative U) → SameAs (beside a b) (beside b a) }
    ensures itself { (a : Alternative U) → SameAs (beside a a) a }
{}

/// Choices are ordered with the leftmost of two parts most significant; a sequence of more is such parts nested.
pub fn choices_are_ordered<A>()
    ensures { (join : A → A → A) (xs ys : List A) (i j : ℕ) (d : A) → i < length xs → j < length ys → slice_index_or (each_choice join xs ys) (i * length ys + j) d ≡ join (slice_index_or xs i d) (slice_index_or ys j d) }
{}

/// An expression that can be written has alternatives where the names in it have some; and so has every name of a
/// description whose expressions use such names and in which no reservation reaches itself.
pub fn alternatives_are_never_empty<U>()
    ensures expressions { (known : List ℕ → List (Alternative U)) (e : Expression) → IsTrue (is_expression e) → ((name : List ℕ) → Mentions e name → 0 < length (known name)) → 0 < length (alternatives_of known e) }
    ensures names { (defined : List ℕ → Option (Meaning U)) → Unwinds defined → IsClosed defined → (known : List ℕ → List (Alternative U)) → Expands defined known → (name : List ℕ) → IsSome (defined name) → 0 < length (known name) }
{}

/// Where no reservation reaches itself, exactly one assignment of alternatives to names is right.
pub fn names_have_one_meaning<U>()
    ensures some { (defined : List ℕ → Option (Meaning U)) → Unwinds defined → (known : List ℕ → List (Alternative U)) × Expands defined known }
    ensures one { (defined : List ℕ → Option (Meaning U)) → Unwinds defined → (known other : List ℕ → List (Alternative U)) → Expands defined known → Expands defined other → (name : List ℕ) → known name ≡ other name }
{}

/// In a description where no reservation reaches itself, every expression has its alternatives, and no others.
pub fn expressions_have_one_meaning<U>()
    ensures some { (defined : List ℕ → Option (Meaning U)) → Unwinds defined → (e : Expression) → (alternatives : List (Alternative U)) × Alts defined e alternatives }
    ensures one { (defined : List ℕ → Option (Meaning U)) (e : Expression) (xs ys : List (Alternative U)) → Alts defined e xs → Alts defined e ys → xs ≡ ys }
{}

/// A rank that falls from each reservation to the names in its expression keeps each from reaching itself.
pub fn ranks_keep_from_circles<U>()
    ensures { (defined : List ℕ → Option (Meaning U)) → Unwinds defined → (name : List ℕ) → Reaches defined name name → ⊥ }
{}

/// The names of units alone have the alternatives that the worked examples give them.
pub fn names_of_units_are_right()
    ensures { (units : List (List ℕ)) → Expands (λ name. option_map unit (place_of name units)) (unit_alternatives units) }
{}
