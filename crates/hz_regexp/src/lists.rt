//! Lists of names.

ghost use Rattle.std.specs.Prelude.{◌≡◌, ◌==◌, map, IsTrue, IsFalse, IfOk, IsErrOf};
ghost use Rattle.std.specs.List.{list_all, slice_split};
ghost use Rattle.hz_base_model.specs.Lines.{separated, trimmed};
ghost use Rattle.hz_base_model.specs.Names.{is_name};
ghost use Rattle.hz_regexp.specs.declared.lists.NamesFault.TheVariants.{NoMemory as no_memory};

use crate::names::{Name, NoMemory};
use std::alloc::{AllocFailed, Global};
use thiserror::Error;

/// Why a text is no list of names.
#[derive(Clone, Copy, Debug, PartialEq, Eq, Error)]
pub enum NamesFault {
    /// A piece is empty, or is not one name.
    #[error("not a list of names")]
    BadList,
    /// Memory ran out.
    #[error("out of memory")]
    NoMemory,
}

impl From<NoMemory> for NamesFault {
    ghost from_gives = { λ _ fault. fault ≡ no_memory };

    fn from(_error: NoMemory) -> NamesFault {
        NamesFault::NoMemory
    }
}

impl<T: Drop> From<AllocFailed<T>> for NamesFault {
    ghost from_gives = { λ _ fault. fault ≡ no_memory };

    fn from(_error: AllocFailed<T>) -> NamesFault {
        NamesFault::NoMemory
    }
}

/// The pieces between commas.
fn pieces(alloc: Global, text: &[u8]) -> Result<Vec<&[u8]>, NoMemory>
    ensures { IfOk result (λ pieces. map (λ piece. piece.now) pieces.items ≡ slice_split (λ b. b == 44) text.now) }
{
    text.split(|b| *b == b',').collect(alloc)
}

/// A piece without the white space at both ends.
fn trimmed(piece: &[u8]) -> &[u8]
    ensures { result.now ≡ trimmed piece.now }
{
    piece.trim_ascii()
}

/// The names of a list: they stand between commas, and white space round each is dropped.
/// `BadList` comes exactly where a piece is empty or is not one name.
pub fn parse_names(alloc: Global, text: &[u8]) -> Result<Vec<Name>, NamesFault>
    ensures names { IfOk result (λ names. names.items ≡ separated text.now) }
    ensures good { IfOk result (λ names. IsTrue (list_all is_name (separated text.now))) }
    ensures bad { IsErrOf result NamesFault.BadList → IsFalse (list_all is_name (separated text.now)) }
{
    let mut names = Vec::new(alloc);
    for piece in &pieces(alloc, text)? {
        match Name::of(alloc, trimmed(piece))? {
            Some(name) => names.push(name)?,
            None => return Err(NamesFault::BadList),
        }
    }
    Ok(names)
}
