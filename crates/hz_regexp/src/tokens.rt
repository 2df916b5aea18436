//! The tokens of an expression's text.

ghost use Rattle.std.specs.Prelude.{◌≡◌, ◌+◌, ◌-◌, ◌*◌, ◌≤◌, ◌<◌, ◌^◌, ◌∷◌, [], ℕ, not, min, length, take, drop, MatchOption, IfSome, IsTrue, Some};
ghost use Rattle.std.specs.Char.{is_ascii_whitespace};
ghost use Rattle.std.specs.List.{prefix_len};
ghost use Rattle.std.specs.Option.{option_map};
ghost use Rattle.hz_description_model.specs.Grammar.ExpressionTexts as model;
ghost use Rattle.hz_base_model.specs.Lines.{number_of};
ghost use Rattle.hz_base_model.specs.Names as names;
ghost use Rattle.hz_regexp.specs.Tokens.{IsNamed, token_of, tokens_at};

use crate::names::is_name_byte;

/// The greatest number of a repeat.
pub const REPEAT_LIMIT: u32 = 65535;

/// The marks that join parts.
#[derive(Clone, Copy, Debug, PartialEq, Eq)]
pub enum Mark {
    Comma,
    Bar,
    Plus,
}

/// What a text is made of.
#[derive(Clone, Copy, Debug)]
pub enum Token<'a> {
    Word(&'a [u8]),
    Mark(Mark),
    Star,
    Opens,
    Closes,
    Foreign,
}

/// What is left of a text, and the place of its first byte.
#[derive(Clone, Copy)]
pub struct Place<'a> {
    pub rest: &'a [u8],
    pub at: u32,
    ghost fits: { at + length rest.now < 2 ^ 32 },
}

/// The token that a byte is, if no name holds it.
fn lone_token(b: u8) -> Token<'static>
    ensures token { (at : ℕ) → token_of at result ≡ model.lone_token at b }
    ensures named { IsNamed result }
{
    match b {
        b',' => Token::Mark(Mark::Comma),
        b'|' => Token::Mark(Mark::Bar),
        b'+' => Token::Mark(Mark::Plus),
        b'*' => Token::Star,
        b'(' => Token::Opens,
        b')' => Token::Closes,
        _ => Token::Foreign,
    }
}

/// How many bytes of a name stand at the front of a text.
fn name_length(text: &[u8]) -> usize
    ensures { result ≡ prefix_len names.is_name_byte text.now }
{
    text.iter()
        .position(|b| !is_name_byte(*b))
        .unwrap_or(text.len())
}

/// How many bytes of white space stand at the front of a text.
fn blank_length(text: &[u8]) -> usize
    ensures { result ≡ prefix_len is_ascii_whitespace text.now }
{
    text.iter()
        .position(|b| !b.is_ascii_whitespace())
        .unwrap_or(text.len())
}

impl<'a> Place<'a> {
    /// The first place of a text.
    pub fn start(text: &'a [u8]) -> Place<'a>
        requires { length text.now < 2 ^ 32 }
        ensures { tokens_at result.at result.rest.now ≡ model.tokens text.now }
    {
        Place { rest: text, at: 0 }
    }

    /// The place some bytes further on.
    fn along(self, count: usize) -> Place<'a>
        requires { count ≤ length self.rest.now }
        ensures rest { result.rest.now ≡ drop count self.entry.rest.now }
        ensures at { result.at ≡ self.entry.at + count }
    {
        Place {
            rest: &self.rest[count..],
            at: self.at + count as u32,
        }
    }

    /// The next token, its place, and the place after it.
    pub fn next_token(self) -> Option<(Token<'a>, u32, Place<'a>)>
        ensures token { MatchOption result (tokens_at self.entry.at self.entry.rest.now ≡ []) (λ found. tokens_at self.entry.at self.entry.rest.now ≡ token_of found.1 found.0 ∷ tokens_at found.2.at found.2.rest.now) }
        ensures named { IfSome result (λ found. IsNamed found.0) }
        ensures shorter { IfSome result (λ found. length found.2.rest.now < length self.entry.rest.now) }
    {
        let here = self.along(blank_length(self.rest));
        let (first, _) = here.rest.split_first()?;
        if !is_name_byte(*first) {
            return Some((lone_token(*first), here.at, here.along(1)));
        }
        let count = name_length(here.rest);
        let word = Token::Word(&here.rest[..count]);
        Some((word, here.at, here.along(count)))
    }
}

/// The number that digits spell, or 65,536 if it is greater. Other bytes spell none.
pub fn number_of(bytes: &[u8]) -> Option<u32>
    ensures { result ≡ option_map (min 65536) (number_of bytes.now) }
{
    if bytes.is_empty() {
        return None;
    }
    let mut number = 0;
    for b in bytes {
        if !b.is_ascii_digit() {
            return None;
        }
        number = (number * 10 + u32::from(*b - b'0')).min(REPEAT_LIMIT + 1);
    }
    Some(number)
}
