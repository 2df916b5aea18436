//! Texts of rows: what stands for bytes that are written otherwise.

use std::alloc::{AllocError, Global};

/// A name of 300 bytes, which `%@` stands for.
const LONG_NAME: [u8; 300] = [b'n'; 300];

/// The text, or `?` where these bytes are none.
pub fn text_of(bytes: &[u8]) -> &str {
    str::from_utf8(bytes).unwrap_or("?")
}

/// Adds what a piece after a `%` stands for, and the rest of the piece: `@` for the long name, and two hexadecimal digits
/// for a byte. It answers whether the piece begins with one of these.
fn add_piece(out: &mut Vec<u8>, piece: &str) -> Result<bool, AllocError> {
    if let Some(rest) = piece.strip_prefix('@') {
        out.extend_from_slice(&LONG_NAME)?;
        out.extend_from_slice(rest.as_bytes())?;
        return Ok(true);
    }
    let Some((digits, rest)) = piece.split_at_checked(2) else {
        return Ok(false);
    };
    let Ok(byte) = u8::from_str_radix(digits, 16) else {
        return Ok(false);
    };
    out.push(byte)?;
    out.extend_from_slice(rest.as_bytes())?;
    Ok(true)
}

/// The bytes that a written text stands for, or None where it is written wrongly.
pub fn bytes_of(alloc: Global, written: &str) -> Result<Option<Vec<u8>>, AllocError> {
    let mut out = Vec::new(alloc);
    let Some((front, rest)) = written.split_once('%') else {
        out.extend_from_slice(written.as_bytes())?;
        return Ok(Some(out));
    };
    out.extend_from_slice(front.as_bytes())?;
    for piece in rest.split('%') {
        if !add_piece(&mut out, piece)? {
            return Ok(None);
        }
    }
    Ok(Some(out))
}

/// Adds a piece once for each number of `FROM..TO`, with the number in place of each `%#` and the next one in place of each
/// `%+`. It answers whether the numbers can be read.
pub fn add_repeated(out: &mut String, numbers: &str, piece: &str) -> Result<bool, AllocError> {
    let alloc = *out.allocator();
    let Some((from, to)) = numbers.split_once("..") else {
        return Ok(false);
    };
    let (Ok(from), Ok(to)) = (from.parse::<u32>(), to.parse::<u32>()) else {
        return Ok(false);
    };
    for number in from..to {
        let next = (number + 1).to_string(alloc)?;
        let number = number.to_string(alloc)?;
        let one = piece.replace(alloc, "%#", number.as_str())?;
        out.push_str(one.replace(alloc, "%+", next.as_str())?.as_str())?;
    }
    Ok(true)
}

/// The text of an outer frame with the parts of an inner one round a text in it, or None where the inner one has no `%*`.
pub fn framed(
    alloc: Global,
    outer: &str,
    frame: &str,
    text: &str,
) -> Result<Option<String>, AllocError> {
    let Some((front, back)) = frame.split_once("%*") else {
        return Ok(None);
    };
    let begun = outer.replace(alloc, "%<", front)?;
    let ended = begun.replace(alloc, "%>", back)?;
    Ok(Some(ended.replace(alloc, "%*", text)?))
}
