//! The fields after the word of a line.

ghost use Rattle.std.specs.Prelude.{◌≡◌, ◌∷◌, [], length, IfOk, IfErr};
ghost use Rattle.hz_tabtext_model.specs.Fields as model;
ghost use Rattle.hz_tabfile.specs.Cutting.{fields_in};
ghost use Rattle.hz_tabfile.specs.Judged.{Judges};

use super::cutting::{cut, field_count, is_word};
use super::wrong::Wrong;

/// What comes after the word of a line: fields, none of them empty, and how many they are.
#[derive(Clone, Copy)]
pub struct Fields<'a> {
    pub left: Option<&'a [u8]>,
    pub count: usize,
}

/// The fields after the word that a line must begin with.
#[tactic(auto, unfolding(hz_tabtext_model::specs::Fields::operands, crate::specs::Cutting::counted))]
pub fn operands<'a>(line: &'a [u8], word: &[u8]) -> Result<Fields<'a>, Wrong>
    ensures judged { Judges (λ o. fields_in o.left) result (model.operands word.now line.now) }
    ensures count { IfOk result (λ o. o.count ≡ length (fields_in o.left)) }
{
    let (first, left) = cut(line, b' ');
    if !is_word(first, word) {
        return Err(Wrong::BadLine);
    }
    match field_count(left) {
        Some(count) => Ok(Fields { left, count }),
        None => Err(Wrong::BadLine),
    }
}

/// The next field, and those after it.
pub fn next_field(fields: Option<&[u8]>) -> Result<(&[u8], Option<&[u8]>), Wrong>
    ensures found { IfOk result (λ x. fields_in fields.entry ≡ x.0.now ∷ fields_in x.1) }
    ensures none { IfErr result (λ wrong. (wrong ≡ Wrong.BadLine) × (fields_in fields.entry ≡ [])) }
{
    match fields {
        Some(text) => Ok(cut(text, b' ')),
        None => Err(Wrong::BadLine),
    }
}

/// The one field after the word of a line.
#[tactic(auto, using(crate::proofs::Pieces::nil_fields))]
pub fn one<'a>(line: &'a [u8], word: &[u8]) -> Result<&'a [u8], Wrong>
    ensures { Judges (λ f. f.now) result (model.one_in word.now line.now) }
{
    let fields = operands(line, word)?;
    let (field, others) = next_field(fields.left)?;
    if others.is_some() {
        return Err(Wrong::BadLine);
    }
    Ok(field)
}

/// The three fields after the word of a line.
#[tactic(auto, using(crate::proofs::Pieces::nil_fields))]
pub fn three<'a>(line: &'a [u8], word: &[u8]) -> Result<(&'a [u8], &'a [u8], &'a [u8]), Wrong>
    ensures { Judges (λ f. (f.0.now, f.1.now, f.2.now)) result (model.three_in word.now line.now) }
{
    let fields = operands(line, word)?;
    let (first, others) = next_field(fields.left)?;
    let (second, others) = next_field(others)?;
    let (third, others) = next_field(others)?;
    if others.is_some() {
        return Err(Wrong::BadLine);
    }
    Ok((first, second, third))
}
