//! One step over a text.

ghost use Rattle.std.specs.Prelude.{◌≡◌, ℕ, ◌<◌, ◌∷◌, [], length, IfOk, IfErr, IsTrue, Some};
ghost use Rattle.hz_base_model.specs.Forms.Forms as model;
ghost use Rattle.hz_sexp.specs.Faults.{Tells};
ghost use Rattle.hz_sexp.specs.Shape.{tree};
ghost use Rattle.hz_sexp.specs.Steps.{IsStep, IsWrong};
ghost use Rattle.hz_sexp.specs.State.{tokens_of};

use crate::byte::{Bracket, Role, role_at};
use crate::fault::SexpFault;
use crate::form::{Form, Node, Text};
use crate::place::{Place, begins_with};
use crate::string::quoted;
use crate::word::{Spelled, value_of, word_length};
use std::alloc::Global;

/// What a text is made of: brackets, and forms without brackets.
#[derive(Drop)]
pub enum Token {
    Open(Bracket),
    Close(Bracket),
    Leaf(Form),
}

/// The place after the comment that begins here.
fn comment<'a>(place: Place<'a>) -> Result<Place<'a>, SexpFault>
    requires { IsTrue (model.begins_comment place.rest.now) }
    ensures ok { IfOk result (λ after. IsStep place.entry [] after) }
    ensures err { IfErr result (Tells (IsWrong place.entry.line place.entry.rest.now)) }
{
    match place.along(2).end_of_comment() {
        Some(after) => Ok(after),
        None => Err(SexpFault::Unclosed {
            line: place.line as u32,
        }),
    }
}

/// The number or atom that begins here, and the place after it.
fn word<'a>(alloc: Global, place: Place<'a>) -> Result<(Form, Place<'a>), SexpFault>
    requires { IsTrue (model.goes_on place.rest.now) }
    ensures ok { IfOk result (λ found. IsStep place.entry (model.leaf (tree found.0) ∷ []) found.1) }
    ensures err { IfErr result (Tells (IsWrong place.entry.line place.entry.rest.now)) }
{
    let line = place.line as u32;
    let count = word_length(place.rest);
    let bytes = &place.rest[..count];
    let after = place.along(count);
    match value_of(bytes) {
        Spelled::Number(value) => {
            let node = Node::Number(value);
            Ok((Form { line, node }, after))
        }
        Spelled::Other => {
            let node = Node::Atom(Text::new(Vec::from_slice(alloc, bytes)?));
            Ok((Form { line, node }, after))
        }
        Spelled::TooLarge => Err(SexpFault::NumberTooLarge { line }),
    }
}

/// The token that begins with the byte `b` at this place, if one does, and the place after it.
/// `next` is the place after the byte.
pub fn next_step<'a>(
    alloc: Global,
    place: Place<'a>,
    b: u8,
    next: Place<'a>,
) -> Result<(Option<Token>, Place<'a>), SexpFault>
    requires byte { place.rest.now ≡ b ∷ next.rest.now }
    requires line { next.line ≡ model.line_after b place.line }
    ensures ok { IfOk result (λ found. IsStep place.entry (tokens_of place.entry.line found.0) found.1) }
    ensures err { IfErr result (Tells (IsWrong place.entry.line place.entry.rest.now)) }
{
    if begins_with(place.rest, b'/', b'*') {
        let after = comment(place)?;
        return Ok((None, after));
    }
    let line = place.line as u32;
    match role_at(b) {
        Role::Blank => Ok((None, next)),
        Role::Semicolon => Ok((None, place.along(1).end_of_line())),
        Role::Quote => {
            let (text, after) = quoted(alloc, place.along(1), line)?;
            let node = Node::Quoted(text);
            Ok((Some(Token::Leaf(Form { line, node })), after))
        }
        Role::Letter => {
            let (form, after) = word(alloc, place)?;
            Ok((Some(Token::Leaf(form)), after))
        }
        Role::Foreign => Err(SexpFault::BadByte { line }),
        Role::Opener(bracket) => Ok((Some(Token::Open(bracket)), place.along(1))),
        Role::Closer(bracket) => Ok((Some(Token::Close(bracket)), place.along(1))),
    }
}
