//! The names of sessions.
ghost use Rattle.std.specs.Prelude.{◌≡◌, ◌≤◌, length, IsTrue, IfOk, suc};
ghost use Rattle.ts_schema.specs.Names.{is_name};
ghost use Rattle.stmt_tokens.specs.Lines.{session_name};

use std::alloc::Global;
use ts_schema::{Name, NoMemory};

/// The name of the session, which precedes the colon, the last of the bytes to skip.
pub(crate) fn name_in(line: &[u8], name_len: u32, skip: u32) -> &[u8]
    requires colon { suc name_len ≤ skip }
    requires within { skip ≤ length line.now }
    ensures name { result.now ≡ session_name line.now name_len skip }
{
    let colon = skip as usize - 1;
    &line[colon - name_len as usize..colon]
}

/// The name with this text, which must be valid.
pub(crate) fn name_of(alloc: Global, text: &[u8]) -> Result<Name, NoMemory>
    requires name { IsTrue (is_name text.now) }
    ensures same { IfOk result (λ name. name ≡ text.now) }
{
    match Name::read(alloc, text)? {
        Some(name) => Ok(name),
        None => unreachable!(),
    }
}
