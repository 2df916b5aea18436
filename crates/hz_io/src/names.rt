//! Names of files.
ghost use Rattle.std.specs.Prelude.{◌≡◌, List, ℕ, IsTrue, IfOk, OnErr};
ghost use Rattle.hz_base_model.specs.Names.{is_name, is_name_byte};
ghost use Rattle.hz_base_model.specs.Names.{name_of};

use super::faults::NoMemory;
use std::alloc::Global;
use std::marker::Model;

/// The name of a file: one or more printable ASCII bytes other than the blank and the separators
/// `,` `|` `+` `*` `(` `)` `"`. Contracts see its bytes.
#[derive(Debug, Drop)]
pub struct FileName {
    bytes: Vec<u8>,
}

impl Model for FileName {
    ghost Value = { List ℕ };

    ghost view = { λ name. name.bytes.items };

    ghost invariant = { λ name. IsTrue (is_name name.bytes.items) };
}

impl FileName {
    /// The name that these bytes are, and `None` exactly where they are none.
    pub fn of(alloc: Global, bytes: &[u8]) -> Result<Option<FileName>, NoMemory>
        ensures named { IfOk result (λ name. name ≡ name_of bytes.now) }
        ensures refused { OnErr result (IsTrue (is_name bytes.now)) }
    {
        if !is_name(bytes) {
            return Ok(None);
        }
        let bytes = Vec::from_slice(alloc, bytes)?;
        Ok(Some(FileName { bytes }))
    }

    /// Its bytes.
    pub fn bytes(&self) -> &[u8]
        ensures value { result.now ≡ self.now }
        ensures name { IsTrue (is_name self.now) }
    {
        self.bytes.as_slice()
    }
}

/// Whether the bytes are a name.
fn is_name(bytes: &[u8]) -> bool
    ensures { result ≡ is_name bytes.now }
{
    !bytes.is_empty() && bytes.iter().all(|byte| is_name_byte(*byte))
}

/// Whether a name may hold the byte.
fn is_name_byte(byte: u8) -> bool
    ensures { result ≡ is_name_byte byte }
{
    byte.is_ascii_graphic() && !matches!(byte, b',' | b'|' | b'+' | b'*' | b'(' | b')' | b'"')
}
