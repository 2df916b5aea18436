//! The marks between the parts of an expression.

/// What stands between parts.
#[derive(Clone, Copy, Debug, PartialEq, Eq)]
pub enum Mark {
    /// `,`: one after another.
    Comma,
    /// `|`: one of them.
    Bar,
    /// `+`: all from the same cycle on.
    Plus,
}
