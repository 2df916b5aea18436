//! A text cut at a byte.

ghost use Rattle.std.specs.Prelude.{◌≡◌, ◌+◌, ◌==◌, ◌∷◌, IfSome, length, position};
ghost use Rattle.std.specs.List.{slice_split};
ghost use Rattle.std.specs.Str.{bytes_eq};
ghost use Rattle.hz_tabfile.specs.Cutting.{pieces, fields_in, counted};

/// The place of the first such byte.
pub fn place(text: &[u8], byte: u8) -> Option<usize>
    ensures { result ≡ position (λ b. b == byte) text.now }
{
    text.iter().position(|b| *b == byte)
}

/// The piece of a text before the first such byte, and what comes after it, if the byte stands there.
pub fn cut(text: &[u8], byte: u8) -> (&[u8], Option<&[u8]>)
    ensures pieces { slice_split (λ b. b == byte) text.now ≡ result.0.now ∷ pieces byte result.1 }
    ensures long { IfSome result.1 (λ rest. length result.0.now + 1 + length rest.now ≡ length text.now) }
{
    match place(text, byte) {
        Some(end) => (&text[..end], Some(&text[end + 1..])),
        None => (text, None),
    }
}

/// Whether the bytes are this word.
pub fn is_word(bytes: &[u8], word: &[u8]) -> bool
    ensures { result ≡ bytes_eq bytes.now word.now }
{
    bytes == word
}

/// How many fields are left of a line; none where one of them is empty.
pub fn field_count(fields: Option<&[u8]>) -> Option<usize>
    ensures { result ≡ counted (fields_in fields.entry) }
{
    let mut count = 0;
    let mut rest = fields;
    while let Some(text) = rest {
        let (field, after) = cut(text, b' ');
        if field.is_empty() {
            return None;
        }
        count += 1;
        rest = after;
    }
    Some(count)
}
