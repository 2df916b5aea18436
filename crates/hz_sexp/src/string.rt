//! Quoted strings.

ghost use Rattle.std.specs.Prelude.{◌≡◌, ◌≤◌, ◌<◌, ◌+◌, ◌^◌, ◌∷◌, length, IfOk, IfErr};
ghost use Rattle.hz_base_model.specs.Forms.Forms.{Inside, Faulty, role, quote, OpenBracket};
ghost use Rattle.hz_sexp.specs.Faults.{Tells};
ghost use Rattle.hz_sexp.specs.Steps.{IsPart, IsString, IsWrongInString};

use crate::byte::is_string_byte;
use crate::fault::SexpFault;
use crate::form::Text;
use crate::place::Place;
use std::alloc::Global;

/// The next part of a string: its end, a byte that it stands for, or an escaped line feed, which
/// stands for nothing.
pub enum Part<'a> {
    End(Place<'a>),
    Byte(u8, Place<'a>),
    Nothing(Place<'a>),
}

/// The part after a backslash that stands at a line of a string which began at `start`.
fn escape<'a>(after: Place<'a>, line: u32, start: u32) -> Result<Part<'a>, SexpFault>
    requires { after.line ≡ line }
    ensures ok { IfOk result (IsPart line (92 ∷ after.entry.rest.now)) }
    ensures err { IfErr result (Tells (IsWrongInString start line (92 ∷ after.entry.rest.now))) }
{
    let Some((b, next)) = after.first() else {
        return Err(SexpFault::Unclosed { line: start });
    };
    if b == b'\n' {
        Ok(Part::Nothing(next))
    } else if b == b'"' || b == b'\\' {
        Ok(Part::Byte(b, next))
    } else {
        Err(SexpFault::BadEscape { line })
    }
}

/// The part at a place of a string that began at the line `start`.
fn next_part<'a>(place: Place<'a>, start: u32) -> Result<Part<'a>, SexpFault>
    ensures ok { IfOk result (IsPart place.entry.line place.entry.rest.now) }
    ensures err { IfErr result (Tells (IsWrongInString start place.entry.line place.entry.rest.now)) }
{
    let Some((b, next)) = place.first() else {
        return Err(SexpFault::Unclosed { line: start });
    };
    let line = place.line as u32;
    if b == b'"' {
        Ok(Part::End(next))
    } else if b == b'\\' {
        escape(next, line, start)
    } else if is_string_byte(b) {
        Ok(Part::Byte(b, next))
    } else {
        Err(SexpFault::BadByte { line })
    }
}

/// The bytes of a string that began at the line `start`, and the place after its end quote.
pub fn quoted<'a>(
    alloc: Global,
    place: Place<'a>,
    start: u32,
) -> Result<(Text, Place<'a>), SexpFault>
    ensures ok { IfOk result (IsString place.entry) }
    ensures err { IfErr result (Tells (IsWrongInString start place.entry.line place.entry.rest.now)) }
{
    let mut bytes = Vec::new(alloc);
    let mut place = place;
    loop {
        match next_part(place, start)? {
            Part::End(after) => return Ok((Text::new(bytes), after)),
            Part::Byte(b, after) => {
                bytes.push(b)?;
                place = after;
            }
            Part::Nothing(after) => place = after,
        }
    }
}
