//! The reader of forms.

ghost use Rattle.std.specs.Prelude.{◌≡◌, [], ◌∷◌, ◌++◌, ◌<◌, ◌^◌, length, IfOk, IfErr};
ghost use Rattle.hz_base_model.specs.Forms.Forms.{Reads, FaultAt, leaf};
ghost use Rattle.hz_base_model.specs.Forms.FormFronts.{enclosed_by};
ghost use Rattle.hz_sexp.specs.Faults.{Tells};
ghost use Rattle.hz_sexp.specs.Kinds.{bracket_of};
ghost use Rattle.hz_sexp.specs.Shape.{tree, trees};
ghost use Rattle.hz_sexp.specs.State.{Takes, IsRefused, IsOpen, IsSimple, token_of};

use crate::byte::Bracket;
use crate::fault::SexpFault;
use crate::form::{Form, Node};
use crate::place::Place;
use crate::step::{Token, next_step};
use std::alloc::Global;
use std::mem;

/// The depth to which brackets may nest.
pub const DEPTH_LIMIT: usize = 64;

/// An open bracket, and the forms that stand before it in the list or vector around it.
#[derive(Drop)]
pub struct Frame {
    pub bracket: Bracket,
    pub line: u32,
    pub before: Vec<Form>,
}

/// The brackets that are open, and the forms that come after the innermost.
#[derive(Drop)]
pub struct Reader {
    pub open: Vec<Frame>,
    pub forms: Vec<Form>,
}

impl Reader {
    /// A reader that has read nothing.
    pub fn new(alloc: Global) -> Reader
        ensures open { result.open.items ≡ [] }
        ensures forms { result.forms.items ≡ [] }
    {
        Reader {
            open: Vec::new(alloc),
            forms: Vec::new(alloc),
        }
    }

    /// Takes an open bracket at a line.
    fn open_bracket(&mut self, alloc: Global, bracket: Bracket, line: u32) -> Result<(), SexpFault>
        ensures ok { IfOk result (λ _. Takes self.old (token_of line (Token.Open bracket)) self.new) }
        ensures err { IfErr result (Tells (IsRefused self.old (Token.Open bracket) line)) }
    {
        if self.open.len() >= DEPTH_LIMIT {
            return Err(SexpFault::TooDeep { line });
        }
        let before = mem::replace(&mut self.forms, Vec::new(alloc));
        self.open.push(Frame {
            bracket,
            line,
            before,
        })?;
        Ok(())
    }

    /// Takes a closing bracket at a line.
    fn close_bracket(&mut self, bracket: Bracket, line: u32) -> Result<(), SexpFault>
        ensures ok { IfOk result (λ _. Takes self.old (token_of line (Token.Close bracket)) self.new) }
        ensures err { IfErr result (Tells (IsRefused self.old (Token.Close bracket) line)) }
    {
        let Some(frame) = self.open.pop() else {
            return Err(SexpFault::Stray { line });
        };
        if frame.bracket != bracket {
            return Err(SexpFault::Stray { line });
        }
        let Frame {
            bracket: _,
            line: start,
            before,
        } = frame;
        let forms = mem::replace(&mut self.forms, before);
        self.forms.push(enclosed(bracket, start, forms))?;
        Ok(())
    }

    /// Takes a form without brackets.
    fn leaf(&mut self, form: Form) -> Result<(), SexpFault>
        requires { IsSimple (Token.Leaf form) }
        ensures ok { IfOk result (λ _. Takes self.old (leaf (tree form)) self.new) }
        ensures err { IfErr result (λ e. e ≡ SexpFault.NoMemory) }
    {
        self.forms.push(form)?;
        Ok(())
    }

    /// Takes a token that begins at a line.
    pub fn take(&mut self, alloc: Global, token: Token, line: u32) -> Result<(), SexpFault>
        requires { IsSimple token }
        ensures ok { IfOk result (λ _. Takes self.old (token_of line token) self.new) }
        ensures err { IfErr result (Tells (IsRefused self.old token line)) }
    {
        match token {
            Token::Open(bracket) => self.open_bracket(alloc, bracket, line),
            Token::Close(bracket) => self.close_bracket(bracket, line),
            Token::Leaf(form) => self.leaf(form),
        }
    }

    /// The forms that were read, if no bracket is open.
    pub fn finish(self) -> Result<Vec<Form>, SexpFault>
        ensures ok { IfOk result (λ forms. (self.open.items ≡ []) × (forms.items ≡ self.forms.items)) }
        ensures err { IfErr result (Tells (IsOpen self)) }
    {
        let Reader { mut open, forms } = self;
        match open.pop() {
            Some(frame) => Err(SexpFault::Unclosed { line: frame.line }),
            None => Ok(forms),
        }
    }
}

/// The form that a bracket of this kind and its partner enclose; it begins at `line`.
fn enclosed(bracket: Bracket, line: u32, forms: Vec<Form>) -> Form
    ensures { tree result ≡ enclosed_by (bracket_of bracket) line (trees forms.items) }
{
    let node = match bracket {
        Bracket::Round => Node::List(forms),
        Bracket::Square => Node::Vector(forms),
    };
    Form { line, node }
}

/// The forms of a text of fewer than 2^32 bytes: lists, vectors, strings, atoms and numbers, with
/// white space and comments between them. Where something is wrong, the first such place from the
/// left decides which fault is reported.
pub fn read_forms(alloc: Global, bytes: &[u8]) -> Result<Vec<Form>, SexpFault>
    requires { length bytes.now < 2 ^ 32 }
    ensures forms { IfOk result (λ forms. Reads bytes.now (trees forms.items)) }
    ensures faults { IfErr result (Tells (FaultAt bytes.now)) }
{
    let mut reader = Reader::new(alloc);
    let mut place = Place::start(bytes);
    while let Some((b, next)) = place.first() {
        let (token, after) = next_step(alloc, place, b, next)?;
        if let Some(token) = token {
            reader.take(alloc, token, place.line as u32)?;
        }
        place = after;
    }
    reader.finish()
}
