//! Names of tables, aggregates and columns.
ghost use Rattle.std.specs.Prelude.{◌≡◌, false, IsTrue, IfOk};
ghost use Rattle.ts_schema.specs.Names.{is_name, is_head, is_tail, IsNameOf};
ghost use Rattle.std.specs.List.{list_all};

use crate::memory::NoMemory;
use std::alloc::{AllocError, Global};
use std::marker::Model;

/// The greatest number of bytes of a name.
pub const NAME_BYTES: usize = 63;

/// A name in lower case: 1 to 63 bytes, a letter or `_` and then letters, digits and `_`.
/// Contracts see it as its bytes.
#[derive(Drop, Debug)]
pub struct Name {
    bytes: Vec<u8>,
}

impl Model for Name {
    ghost use Rattle.std.specs.Prelude.{List, ℕ, IsTrue};
    ghost use Rattle.ts_schema.specs.Names.{is_name};

    ghost Value = { List ℕ };

    ghost view = { λ n. n.bytes.items };

    ghost invariant = { λ n. IsTrue (is_name n.bytes.items) };
}

impl Name {
    /// Returns the name with this text, or `None` if the text isn't a name in lower case.
    pub fn read(alloc: Global, text: &[u8]) -> Result<Option<Name>, NoMemory>
        ensures read { IfOk result (IsNameOf text.now) }
    {
        if !is_name_text(text) {
            return Ok(None);
        }
        Ok(Some(Name {
            bytes: Vec::from_slice(alloc, text)?,
        }))
    }

    /// The text of the name.
    pub fn bytes(&self) -> &[u8]
        ensures bytes { result.now ≡ self.now }
        ensures name { IsTrue (is_name self.now) }
    {
        self.bytes.as_slice()
    }

    /// A copy of the name.
    pub fn copy(&self) -> Result<Name, NoMemory>
        ensures same { IfOk result (λ copy. copy ≡ self.now) }
    {
        Ok(Name {
            bytes: self.bytes.clone()?,
        })
    }
}

impl Clone for Name {
    ghost is_clone = { λ a b. a ≡ b };

    fn clone(&self) -> Result<Name, AllocError> {
        Ok(Name {
            bytes: self.bytes.clone()?,
        })
    }
}

impl PartialEq for Name {
    ghost use Rattle.std.specs.Prelude.{◌==◌};
    ghost use Rattle.std.specs.Cmp.Lexicographic.{pointwise};
    ghost use Rattle.std.proofs.Common.{rules};
    ghost use Rattle.std.specs.Cmp.Rules.{comparing};

    ghost eq = { pointwise ◌==◌ };

    ghost laws = { Prim.search (comparing, rules) };

    fn eq(&self, other: &Name) -> bool {
        self.bytes.as_slice() == other.bytes.as_slice()
    }
}

impl Eq for Name {
    ghost use Rattle.std.proofs.Common.{rules};
    ghost use Rattle.std.specs.Cmp.Rules.{comparing};

    ghost laws = { Prim.search (comparing, rules) };
}

/// Whether a text is a name in lower case.
pub fn is_name_text(text: &[u8]) -> bool
    ensures name { result ≡ is_name text.now }
{
    match text {
        [] => false,
        [head, tail @ ..] => {
            text.len() <= NAME_BYTES && is_head_byte(*head) && are_tail_bytes(tail)
        }
    }
}

/// Whether a name may begin with this byte.
fn is_head_byte(byte: u8) -> bool
    ensures { result ≡ is_head byte }
{
    matches!(byte, b'a'..=b'z' | b'_')
}

/// Whether a name may continue with these bytes.
fn are_tail_bytes(bytes: &[u8]) -> bool
    ensures { result ≡ list_all is_tail bytes.now }
{
    bytes.iter().all(|b| is_tail_byte(*b))
}

/// Whether a name may continue with this byte.
fn is_tail_byte(byte: u8) -> bool
    ensures { result ≡ is_tail byte }
{
    matches!(byte, b'a'..=b'z' | b'_' | b'0'..=b'9')
}
