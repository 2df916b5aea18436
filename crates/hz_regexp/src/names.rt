//! Names.

ghost use Rattle.std.specs.Prelude.{◌≡◌, ◌↔◌, List, ℕ, IsTrue, IfOk, OnErr};
ghost use Rattle.hz_base_model.specs.Names.{is_name, is_name_byte};
ghost use Rattle.hz_base_model.specs.Names.{name_of};
ghost use Rattle.std.specs.Rc.{rc_slice_items};

pub use std::alloc::AllocError as NoMemory;
use std::alloc::Global;
use std::cmp::Ordering;
use std::hash::{Hash, Hasher};
use std::marker::Model;
use std::rc::RcSlice;

/// A name: one or more printable ASCII bytes other than the blank and the separators
/// `,` `|` `+` `*` `(` `)` `"`. Contracts see its bytes. Names are ordered by their bytes. Copies share them.
#[derive(Debug, Drop)]
pub struct Name {
    bytes: RcSlice<u8>,
}

impl Model for Name {
    ghost Value = { List ℕ };

    ghost view = { λ name. rc_slice_items name.bytes };

    ghost invariant = { λ name. IsTrue (is_name (rc_slice_items name.bytes)) };
}

impl Name {
    /// The name that these bytes are, and `None` exactly where they are none.
    pub fn of(alloc: Global, bytes: &[u8]) -> Result<Option<Name>, NoMemory>
        ensures named { IfOk result (λ name. name ≡ name_of bytes.now) }
        ensures refused { OnErr result (IsTrue (is_name bytes.now)) }
    {
        if !is_name(bytes) {
            return Ok(None);
        }
        let name = Name::new(alloc, bytes)?;
        Ok(Some(name))
    }

    /// The name that these bytes are.
    pub(crate) fn new(alloc: Global, bytes: &[u8]) -> Result<Name, NoMemory>
        requires { IsTrue (is_name bytes.now) }
        ensures { IfOk result (λ name. name ≡ bytes.now) }
    {
        let bytes = RcSlice::from_slice(alloc, bytes)?;
        Ok(Name { bytes })
    }

    /// An equal name, which shares the bytes. It takes no memory; `NoMemory` where a name has no room for one more copy.
    pub fn copy(&self) -> Result<Name, NoMemory>
        ensures { IfOk result (λ name. name ≡ self.now) }
    {
        let bytes = self.bytes.clone()?;
        Ok(Name { bytes })
    }

    /// Its bytes, without taking memory.
    pub fn bytes(&self) -> &[u8]
        ensures value { result.now ≡ self.now }
        ensures name { IsTrue (is_name self.now) }
    {
        self.bytes.as_slice()
    }
}

/// Whether the bytes are a name: one or more printable ASCII bytes, none of them a blank or a separator. It takes no memory.
pub fn is_name(bytes: &[u8]) -> bool
    ensures { result ≡ is_name bytes.now }
{
    !bytes.is_empty() && bytes.iter().all(|byte| is_name_byte(*byte))
}

/// Whether a name may hold the byte.
pub(crate) fn is_name_byte(byte: u8) -> bool
    ensures { result ≡ is_name_byte byte }
{
    byte.is_ascii_graphic() && !matches!(byte, b',' | b'|' | b'+' | b'*' | b'(' | b')' | b'"')
}

impl PartialEq for Name {
    ghost use Rattle.std.specs.Prelude.{◌≡◌, ◌↔◌, IsTrue, bytes_eq};
    ghost use Rattle.std.specs.Cmp.{partial_equiv_from_equiv};
    ghost use Rattle.std.specs.Cmp.Lexicographic.{nat_list_eq_equiv};

    ghost eq = { bytes_eq };

    ghost laws = { partial_equiv_from_equiv nat_list_eq_equiv };

    fn eq(&self, other: &Name) -> bool
        ensures same { result ≡ bytes_eq self.now other.now }
        ensures equal { IsTrue result ↔ (self.now ≡ other.now) }
    {
        self.bytes() == other.bytes()
    }
}

impl Eq for Name {
    ghost use Rattle.std.specs.Cmp.Lexicographic.{nat_list_eq_equiv};

    ghost laws = { nat_list_eq_equiv };
}

impl PartialOrd for Name {
    ghost use Rattle.std.specs.Prelude.{Some};
    ghost use Rattle.std.specs.Ordering.{nat_cmp};
    ghost use Rattle.std.specs.Cmp.Lexicographic.{slice_cmp, texts_po};

    ghost partial_cmp = { λ a b. Some (slice_cmp nat_cmp a b) };

    ghost laws = { texts_po };

    fn partial_cmp(&self, other: &Name) -> Option<Ordering> {
        Some(self.cmp(other))
    }
}

impl Ord for Name {
    ghost use Rattle.std.specs.Prelude.{refl};
    ghost use Rattle.std.specs.Ordering.{nat_cmp};
    ghost use Rattle.std.specs.Cmp.Lexicographic.{slice_cmp, nat_list_cmp_total, texts_ties};

    ghost cmp = { slice_cmp nat_cmp };

    ghost total = { nat_list_cmp_total };

    ghost matches_partial_cmp = { λ a b. refl };

    ghost matches_eq = { texts_ties };

    fn cmp(&self, other: &Name) -> Ordering {
        self.bytes().cmp(&other.bytes())
    }
}

impl Hash for Name {
    ghost use Rattle.std.proofs.Common.{rules};
    ghost use Rattle.std.specs.Hash as fed;
    ghost use Rattle.std.specs.Cmp.Rules.{hashing};

    ghost hash_input = { fed.slice fed.u8 };

    ghost respects_eq = { Prim.search (hashing, rules) };

    fn hash<H: Hasher>(&self, state: &mut H) {
        self.bytes().hash(state);
    }
}
