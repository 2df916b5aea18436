//! Operators on words.

ghost use Rattle.std.specs.Prelude.{◌≡◌};
ghost use Rattle.hz_block_model.specs.Running.Operators as model;
ghost use Rattle.hz_rtl.specs.Shape.{unary_operator, binary_operator};

use hz_rtl::{Op1, Op2};

/// Where the sign stands in two's complement.
const SIGN: u64 = 1 << 63;

/// The word of an operator with one operand.
pub fn unary_word(operator: Op1, a: u64) -> u64
    ensures { result ≡ model.unary_word (unary_operator operator) a }
{
    match operator {
        Op1::Neg => 0u64.wrapping_sub(a),
        Op1::Not => !a,
    }
}

/// To the right by `b` modulo 64, with copies of the sign.
fn arithmetic_shift(a: u64, b: u64) -> u64
    ensures { result ≡ model.arithmetic_shift a b }
{
    let by = b % 64;
    if a < SIGN { a >> by } else { !(!a >> by) }
}

/// The quotient; by 0 all ones.
fn quotient(a: u64, b: u64) -> u64
    ensures { result ≡ model.binary_word model.udiv a b }
{
    if b == 0 { u64::MAX } else { a / b }
}

/// The remainder; by 0 the dividend.
fn remainder(a: u64, b: u64) -> u64
    ensures { result ≡ model.binary_word model.umod a b }
{
    if b == 0 { a } else { a % b }
}

/// Whether `a` is below `b` in two's complement.
fn is_below(a: u64, b: u64) -> bool
    ensures { model.truth result ≡ model.binary_word model.lt a b }
{
    a.wrapping_add(SIGN) < b.wrapping_add(SIGN)
}

/// The word of an operator with two operands.
pub fn binary_word(operator: Op2, a: u64, b: u64) -> u64
    ensures { result ≡ model.binary_word (binary_operator operator) a b }
{
    match operator {
        Op2::Plus => a.wrapping_add(b),
        Op2::Minus => a.wrapping_sub(b),
        Op2::Mult => a.wrapping_mul(b),
        Op2::Udiv => quotient(a, b),
        Op2::Umod => remainder(a, b),
        Op2::And => a & b,
        Op2::Ior => a | b,
        Op2::Xor => a ^ b,
        Op2::Ashift => a << (b % 64),
        Op2::Lshiftrt => a >> (b % 64),
        Op2::Ashiftrt => arithmetic_shift(a, b),
        Op2::Eq => u64::from(a == b),
        Op2::Ne => u64::from(a != b),
        Op2::Ltu => u64::from(a < b),
        Op2::Lt => u64::from(is_below(a, b)),
    }
}
