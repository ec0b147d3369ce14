//! Names as they are written.
ghost use Rattle.std.specs.Prelude.{◌≡◌, ◌≤◌, length, IsTrue, IfOk};
ghost use Rattle.ts_schema.specs.Names.{is_name};
ghost use Rattle.stmt_tokens.specs.Bytes.{lower};

use std::alloc::Global;
use ts_schema::{Name, NoMemory};

/// The greatest number of bytes of a word.
pub const WORD_BYTES: usize = 63;

/// The name that a word is, in lower case.
pub fn name_of(alloc: Global, word: &[u8]) -> Result<Name, NoMemory>
    requires short { length (lower word.now) ≤ 63 }
    requires name { IsTrue (is_name (lower word.now)) }
    ensures { IfOk result (λ n. n ≡ lower word.now) }
{
    let mut buffer = [0; WORD_BYTES];
    let lowered = &mut buffer[..word.len()];
    lowered.copy_from_slice(word);
    lowered.make_ascii_lowercase();
    match Name::read(alloc, lowered)? {
        Some(name) => Ok(name),
        None => unreachable!(),
    }
}
