//! Patterns of units.

ghost use Rattle.std.specs.Prelude.{◌≡◌, ◌==◌, not, map, IfOk, Some};
ghost use Rattle.std.specs.List.{list_all, slice_split};
ghost use Rattle.std.specs.Option.{option_map};
ghost use Rattle.hz_description_model.specs.Reading.DescriptionForms as model;
ghost use Rattle.hz_description_model.specs.Reading.DescriptionShape.{are_names, are_patterns};
ghost use Rattle.hz_base_model.specs.Lines as lines;
ghost use Rattle.hz_base_model.specs.Names.{is_name};

use hz_regexp::{Name, NoMemory};
use std::alloc::Global;

/// The pieces between commas.
pub fn pieces(alloc: Global, text: &[u8]) -> Result<Vec<&[u8]>, NoMemory>
    ensures { IfOk result (λ pieces. map (λ piece. piece.now) pieces.items ≡ slice_split (λ b. b == 44) text.now) }
{
    text.split(|b| *b == b',').collect(alloc)
}

/// A piece without the white space at both ends.
pub fn trimmed(piece: &[u8]) -> &[u8]
    ensures { result.now ≡ lines.trimmed piece.now }
{
    piece.trim_ascii()
}

/// Whether a part has a byte.
#[tactic(auto, using(crate::proofs::PatternLemmas::empty_is))]
fn is_word(part: &[u8]) -> bool
    ensures { result ≡ not (model.is_empty part.now) }
{
    !part.is_empty()
}

/// The words between white space.
fn words(alloc: Global, text: &[u8]) -> Result<Vec<&[u8]>, NoMemory>
    ensures { IfOk result (λ words. map (λ word. word.now) words.items ≡ model.words text.now) }
{
    text.split(|b| b.is_ascii_whitespace())
        .filter(|part| is_word(part))
        .collect(alloc)
}

/// The names that words are. `None` where one is no name.
fn names_of_words(alloc: Global, words: &[&[u8]]) -> Result<Option<Vec<Name>>, NoMemory>
    ensures { IfOk result (λ found. option_map (λ names. names.items) found ≡ model.kept (list_all is_name (map (λ word. word.now) words.now)) (map (λ word. word.now) words.now)) }
{
    let mut names = Vec::new(alloc);
    for word in words {
        match Name::of(alloc, word)? {
            Some(name) => names.push(name)?,
            None => return Ok(None),
        }
    }
    Ok(Some(names))
}

/// The names of a pattern, with white space between them. `None` where there is none, or a word is no name.
#[tactic(auto, using(crate::proofs::PatternLemmas::none_kept, crate::proofs::PatternLemmas::all_kept))]
fn pattern_of(alloc: Global, piece: &[u8]) -> Result<Option<Vec<Name>>, NoMemory>
    ensures { IfOk result (λ found. option_map (λ names. names.items) found ≡ model.kept (are_names (model.words piece.now)) (model.words piece.now)) }
{
    let words = words(alloc, piece)?;
    if words.is_empty() {
        return Ok(None);
    }
    names_of_words(alloc, &words)
}

/// The patterns between commas. `None` where one is empty or has a word that is no name.
pub fn patterns_of(alloc: Global, bytes: &[u8]) -> Result<Option<Vec<Vec<Name>>>, NoMemory>
    ensures { IfOk result (λ found. option_map (λ patterns. map (λ pattern. pattern.items) patterns.items) found ≡ model.kept (are_patterns (model.patterns_of bytes.now)) (model.patterns_of bytes.now)) }
{
    let mut patterns = Vec::new(alloc);
    for piece in &pieces(alloc, bytes)? {
        match pattern_of(alloc, piece)? {
            Some(pattern) => patterns.push(pattern)?,
            None => return Ok(None),
        }
    }
    Ok(Some(patterns))
}

/// Each name as a pattern by itself.
pub fn single_patterns(alloc: Global, names: Vec<Name>) -> Result<Vec<Vec<Name>>, NoMemory>
    ensures { IfOk result (λ patterns. map (λ pattern. pattern.items) patterns.items ≡ model.single_patterns names.items) }
{
    let mut patterns = Vec::new(alloc);
    for name in names {
        let mut pattern = Vec::new(alloc);
        pattern.push(name)?;
        patterns.push(pattern)?;
    }
    Ok(patterns)
}
