//! Laws of operators: what they compute, in the words of arithmetic.

ghost use Rattle.std.specs.Prelude.{◌≡◌, ◌+◌, ◌-◌, ◌*◌, ◌^◌, ◌<◌, ◌≤◌, ℕ, min, max, ◌%◌, pos, ◌+ℤ◌, ◌<ℤ◌};
ghost use Rattle.std.specs.Int.{bit_at};
ghost use Rattle.hz_block_model.specs.Running.Operators.{UnaryOperator, neg, complement, unary_word, BinaryOperator, plus, minus, mult, udiv, umod, conjunction, disjunction, exclusive, ashift, lshiftrt, ashiftrt, eq, ne, ltu, lt, binary_word};
ghost use Rattle.hz_block_model.specs.Running.Signed.{signed, IsWordOf, IsFloor, IsSignedFloor, Tells};

/// In two's complement a word is itself below 2^63, and from there on it is below 0, by 2^64 less.
pub fn words_with_sign()
    ensures low { (a : ℕ) → a < 2 ^ 63 → signed a ≡ pos a }
    ensures high { (a : ℕ) → 2 ^ 63 ≤ a → a < 2 ^ 64 → (signed a +ℤ pos (2 ^ 64)) ≡ pos a }
{}

/// Operators of words give words.
pub fn operators_give_words()
    ensures unary { (operator : UnaryOperator) (a : ℕ) → a < 2 ^ 64 → unary_word operator a < 2 ^ 64 }
    ensures binary { (operator : BinaryOperator) (a b : ℕ) → a < 2 ^ 64 → b < 2 ^ 64 → binary_word operator a b < 2 ^ 64 }
{}

/// Sums and products are taken modulo 2^64. A difference and a negative are inverse to the sum.
pub fn sums_and_products()
    ensures plus { (a b : ℕ) → IsWordOf (a + b) (binary_word plus a b) }
    ensures mult { (a b : ℕ) → IsWordOf (a * b) (binary_word mult a b) }
    ensures neg { (a : ℕ) → a < 2 ^ 64 → binary_word plus a (unary_word neg a) ≡ 0 }
    ensures minus { (a b : ℕ) → a < 2 ^ 64 → b < 2 ^ 64 → binary_word plus (binary_word minus a b) b ≡ a }
    ensures back { (a b : ℕ) → a < 2 ^ 64 → b < 2 ^ 64 → binary_word minus (binary_word plus a b) b ≡ a }
{}

/// A quotient and a remainder make the dividend. By 0 the quotient has all ones, and the remainder is the dividend.
pub fn quotients_and_remainders()
    ensures make { (a b : ℕ) → 0 < b → binary_word udiv a b * b + binary_word umod a b ≡ a }
    ensures short { (a b : ℕ) → 0 < b → binary_word umod a b < b }
    ensures by_none { (a : ℕ) → (binary_word udiv a 0 ≡ 2 ^ 64 - 1) × (binary_word umod a 0 ≡ a) }
{}

/// A shift goes by its second operand modulo 64: to the left it is a product modulo 2^64, to the right the floor of the word, or of
/// the word with its sign, by a power of two.
pub fn shifts_are_by_powers_of_two()
    ensures left { (a b turns : ℕ) → b < 64 → IsWordOf (a * 2 ^ b) (binary_word ashift a (b + 64 * turns)) }
    ensures right { (a b turns : ℕ) → b < 64 → IsFloor a (2 ^ b) (binary_word lshiftrt a (b + 64 * turns)) }
    ensures signed { (a b turns : ℕ) → a < 2 ^ 64 → b < 64 → IsSignedFloor (signed a) (2 ^ b) (signed (binary_word ashiftrt a (b + 64 * turns))) }
{}

/// Comparisons give 1 or 0: of words, and for `lt` of words with their sign.
pub fn comparisons_tell()
    ensures eq { (a b : ℕ) → Tells (binary_word eq a b) (a ≡ b) }
    ensures ne { (a b : ℕ) → Tells (binary_word ne a b) (a ≡ b → ⊥) }
    ensures ltu { (a b : ℕ) → Tells (binary_word ltu a b) (a < b) }
    ensures lt { (a b : ℕ) → a < 2 ^ 64 → b < 2 ^ 64 → Tells (binary_word lt a b) (signed a <ℤ signed b) }
{}

/// The operators by bits, bit by bit.
pub fn operators_by_bits()
    ensures complement { (a i : ℕ) → a < 2 ^ 64 → i < 64 → bit_at (unary_word complement a) i ≡ 1 - bit_at a i }
    ensures conjunction { (a b i : ℕ) → bit_at (binary_word conjunction a b) i ≡ min (bit_at a i) (bit_at b i) }
    ensures disjunction { (a b i : ℕ) → bit_at (binary_word disjunction a b) i ≡ max (bit_at a i) (bit_at b i) }
    ensures exclusive { (a b i : ℕ) → bit_at (binary_word exclusive a b) i ≡ (bit_at a i + bit_at b i) % 2 }
{}
