//! The reader of expressions.

ghost use Rattle.std.specs.Prelude.{◌≡◌, ◌<◌, ◌^◌, length, IsTrue, IfOk, IfErr, Some, None};
ghost use Rattle.hz_description_model.specs.Grammar.ExpressionTexts.{Reads, FaultAt, unexpected, element_of};
ghost use Rattle.hz_description_model.specs.Reservations.Expressions.{is_expression};
ghost use Rattle.hz_description_model.specs.Grammar.ExpressionSteps as steps;
ghost use Rattle.hz_regexp.specs.Faults.{Tells};
ghost use Rattle.hz_regexp.specs.Shape.{expression};
ghost use Rattle.hz_regexp.specs.State.{state_of, state_with, Takes, Refuses};
ghost use Rattle.hz_regexp.specs.Tokens.{IsNamed};

use crate::expr::Expr;
use crate::fault::ExprFault;
use crate::level::Level;
use crate::names::{Name, NoMemory};
use crate::tokens::{Place, REPEAT_LIMIT, Token, number_of};
use std::alloc::Global;

/// The depth to which parentheses may nest.
pub const DEPTH_LIMIT: usize = 64;

/// What the last tokens are: none since a mark or parenthesis, an element, an element and `*`, or a repeat.
#[derive(Drop)]
pub enum Last {
    NothingYet,
    Element(Expr),
    Starred(Expr),
    Repeated(Expr),
}

/// The parts in the innermost parentheses, and those in each one around them, the outermost first.
#[derive(Drop)]
pub struct Levels {
    pub inner: Level,
    pub outer: Vec<Level>,
}

/// What is held of the tokens that were read.
#[derive(Drop)]
pub struct Reader {
    pub levels: Levels,
    pub last: Last,
}

/// What a name stands for.
fn element(alloc: Global, bytes: &[u8]) -> Result<Expr, NoMemory>
    requires { IsNamed (Token.Word bytes) }
    ensures { IfOk result (λ expr. expression expr ≡ element_of bytes.now) }
{
    if bytes == b"nothing".as_slice() {
        return Ok(Expr::Nothing);
    }
    let name = Name::new(alloc, bytes)?;
    Ok(Expr::Named(name))
}

impl Levels {
    /// Takes a token where an element is wanted.
    fn first(self, alloc: Global, token: Token<'_>, at: u32) -> Result<Reader, ExprFault>
        requires { IsNamed token }
        ensures ok { IfOk result (Takes (state_with self steps.nothing_yet) at token.entry) }
        ensures err { IfErr result (Refuses (state_with self steps.nothing_yet) at token.entry) }
    {
        let Levels { inner, mut outer } = self;
        match token {
            Token::Word(bytes) => {
                let last = Last::Element(element(alloc, bytes)?);
                let levels = Levels { inner, outer };
                Ok(Reader { levels, last })
            }
            Token::Opens => {
                if outer.len() >= DEPTH_LIMIT {
                    return Err(ExprFault::TooDeep { at });
                }
                outer.push(inner)?;
                let inner = Level::new(alloc);
                let levels = Levels { inner, outer };
                let last = Last::NothingYet;
                Ok(Reader { levels, last })
            }
            _ => Err(ExprFault::Unexpected { at }),
        }
    }

    /// Takes a token after an element and `*`.
    fn number(
        self,
        alloc: Global,
        value: Expr,
        token: Token<'_>,
        at: u32,
    ) -> Result<Reader, ExprFault>
        ensures ok { IfOk result (Takes (state_with self (steps.starred (expression value))) at token.entry) }
        ensures err { IfErr result (Refuses (state_with self (steps.starred (expression value))) at token.entry) }
    {
        let Token::Word(bytes) = token else {
            return Err(ExprFault::Unexpected { at });
        };
        match number_of(bytes) {
            None => Err(ExprFault::Unexpected { at }),
            Some(0) => Err(ExprFault::RepeatZero { at }),
            Some(number) if number > REPEAT_LIMIT => Err(ExprFault::NumberTooLarge { at }),
            Some(number) => {
                let part = Box::new(alloc, value)?;
                let last = Last::Repeated(Expr::Repeat(part, number));
                Ok(Reader { levels: self, last })
            }
        }
    }

    /// Takes a token after a part.
    fn beyond(
        self,
        alloc: Global,
        part: Expr,
        token: Token<'_>,
        at: u32,
    ) -> Result<Reader, ExprFault>
        ensures ok { IfOk result (Takes (state_with self (steps.repeated (expression part))) at token.entry) }
        ensures err { IfErr result (Refuses (state_with self (steps.repeated (expression part))) at token.entry) }
    {
        let Levels { inner, mut outer } = self;
        match token {
            Token::Mark(mark) => {
                let inner = inner.before(alloc, mark, part)?;
                let levels = Levels { inner, outer };
                let last = Last::NothingYet;
                Ok(Reader { levels, last })
            }
            Token::Closes => {
                let Some(around) = outer.pop() else {
                    return Err(ExprFault::Unexpected { at });
                };
                let last = Last::Element(inner.whole(part)?);
                let inner = around;
                let levels = Levels { inner, outer };
                Ok(Reader { levels, last })
            }
            _ => Err(ExprFault::Unexpected { at }),
        }
    }
}

impl Reader {
    /// A reader that has read nothing.
    fn new(alloc: Global) -> Reader
        ensures { state_of result ≡ steps.start }
    {
        let inner = Level::new(alloc);
        let outer = Vec::new(alloc);
        let levels = Levels { inner, outer };
        let last = Last::NothingYet;
        Reader { levels, last }
    }

    /// Takes the next token, which begins at a place.
    fn take(self, alloc: Global, token: Token<'_>, at: u32) -> Result<Reader, ExprFault>
        requires { IsNamed token }
        ensures ok { IfOk result (Takes (state_of self) at token.entry) }
        ensures err { IfErr result (Refuses (state_of self) at token.entry) }
    {
        let Reader { levels, last } = self;
        match last {
            Last::NothingYet => levels.first(alloc, token, at),
            Last::Element(value) => {
                if let Token::Star = token {
                    let last = Last::Starred(value);
                    return Ok(Reader { levels, last });
                }
                levels.beyond(alloc, value, token, at)
            }
            Last::Starred(value) => levels.number(alloc, value, token, at),
            Last::Repeated(value) => levels.beyond(alloc, value, token, at),
        }
    }

    /// The expression that was read, if it may end here.
    fn finish(self, end: u32) -> Result<Expr, ExprFault>
        ensures ok { IfOk result (λ expr. steps.finish (state_of self) ≡ Some (expression expr)) }
        ensures err { IfErr result (Tells (λ fault place. (steps.finish (state_of self) ≡ None) × (fault ≡ unexpected) × (place ≡ end))) }
    {
        let Reader { levels, last } = self;
        let Levels { inner, outer } = levels;
        if !outer.is_empty() {
            return Err(ExprFault::Unexpected { at: end });
        }
        match last {
            Last::Element(part) | Last::Repeated(part) => Ok(inner.whole(part)?),
            _ => Err(ExprFault::Unexpected { at: end }),
        }
    }
}

/// The expression of a text of fewer than 2^32 bytes, or what is wrong at the first token from the left
/// that is wrong. `+` holds tighter than `|`, and `|` than `,`; a `*` repeats one element.
pub fn parse_expr(alloc: Global, text: &[u8]) -> Result<Expr, ExprFault>
    requires { length text.now < 2 ^ 32 }
    ensures reads { IfOk result (λ expr. Reads text.now (expression expr)) }
    ensures formed { IfOk result (λ expr. IsTrue (is_expression (expression expr))) }
    ensures faults { IfErr result (Tells (FaultAt text.now)) }
{
    let Some((token, at, mut place)) = Place::start(text).next_token() else {
        return Err(ExprFault::Empty { at: 0 });
    };
    let mut reader = Reader::new(alloc).take(alloc, token, at)?;
    while let Some((token, at, next)) = place.next_token() {
        reader = reader.take(alloc, token, at)?;
        place = next;
    }
    reader.finish(text.len() as u32)
}
