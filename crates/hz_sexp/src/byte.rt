//! What a byte is, by itself.

ghost use Rattle.std.specs.Prelude.{◌≡◌, IsTrue};
ghost use Rattle.hz_base_model.specs.Forms.Forms as model;
ghost use Rattle.hz_sexp.specs.Kinds.{role_of};

/// The two kinds of brackets.
#[derive(Clone, Copy, PartialEq, Eq)]
pub enum Bracket {
    /// `( )`
    Round,
    /// `[ ]`
    Square,
}

/// What a byte is outside strings and comments.
#[derive(Clone, Copy)]
pub enum Role {
    Blank,
    Semicolon,
    Quote,
    Letter,
    Foreign,
    Opener(Bracket),
    Closer(Bracket),
}

/// Whether it is space, tab, line feed, form feed or carriage return.
fn is_blank(b: u8) -> bool
    ensures { result ≡ model.is_blank b }
{
    b == b' ' || b == b'\t' || b == b'\n' || b == 0x0c || b == b'\r'
}

/// Whether it is a bracket, a brace, a quote or a semicolon.
fn is_mark(b: u8) -> bool
    ensures { result ≡ model.is_mark b }
{
    b == b'('
        || b == b')'
        || b == b'['
        || b == b']'
        || b == b'{'
        || b == b'}'
        || b == b'"'
        || b == b';'
}

/// Whether words are made of it.
pub fn is_letter(b: u8) -> bool
    ensures { result ≡ model.is_letter b }
{
    33 <= b && b <= 126 && !is_mark(b)
}

/// What the byte is outside strings and comments.
pub fn role_at(b: u8) -> Role
    ensures { role_of result ≡ model.role b }
{
    if is_letter(b) {
        Role::Letter
    } else if is_blank(b) {
        Role::Blank
    } else if b == b'(' {
        Role::Opener(Bracket::Round)
    } else if b == b')' {
        Role::Closer(Bracket::Round)
    } else if b == b'[' {
        Role::Opener(Bracket::Square)
    } else if b == b']' {
        Role::Closer(Bracket::Square)
    } else if b == b'"' {
        Role::Quote
    } else if b == b';' {
        Role::Semicolon
    } else {
        Role::Foreign
    }
}

/// Whether it may stand in a string: a line feed, a tab or a printable byte.
pub fn is_string_byte(b: u8) -> bool
    ensures { result ≡ model.is_string_byte b }
{
    b == b'\n' || b == b'\t' || 32 <= b && b <= 126
}
