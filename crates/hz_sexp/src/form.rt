//! What a form is.

ghost use Rattle.std.specs.Prelude.{◌≡◌};

use std::marker::Model;

/// The bytes of an atom or of a quoted string, its escapes replaced. Contracts see them as a list.
#[derive(Debug, Drop)]
pub struct Text {
    bytes: Vec<u8>,
}

impl Model for Text {
    ghost use Rattle.std.specs.Prelude.{ℕ, List};

    ghost Value = { List ℕ };

    ghost view = { λ t. t.bytes.items };
}

impl Text {
    /// The text of these bytes.
    pub fn new(bytes: Vec<u8>) -> Text
        ensures { result ≡ bytes.items }
    {
        Text { bytes }
    }

    /// The bytes, without taking memory.
    pub fn bytes(&self) -> &[u8]
        ensures { result.now ≡ self.now }
    {
        self.bytes.as_slice()
    }
}

/// What a form is, without its place.
#[derive(Debug, Drop)]
#[cycle(form)]
pub enum Node {
    /// `( .. )`
    List(Vec<Form>),
    /// `[ .. ]`
    Vector(Vec<Form>),
    /// A word that is no number.
    Atom(Text),
    /// `" .. "`, with its escapes replaced.
    Quoted(Text),
    /// A number from -2^63 to 2^64 - 1.
    Number(i128),
}

/// A form and the line of its first byte, counted from 1.
#[derive(Debug, Drop)]
#[cycle(form)]
pub struct Form {
    pub line: u32,
    pub node: Node,
}
