//! The read positions that a reply prints.
ghost use Rattle.std.specs.Prelude.{◌≡◌, ◌+◌, IfOk, length, drop};
ghost use Rattle.audit_looks.specs.Replies.{looks_in};

use crate::lines::{head_of, put_looks};
use crate::numbers::{ahead, behind};
use std::alloc::Global;
use ts_schema::NoMemory;

/// The text of a line after the name, a colon and a blank.
fn behind_name<'a>(name: &[u8], line: &'a [u8]) -> &'a [u8]
    ensures { result.now ≡ drop (length name.now + 2) line.now }
{
    if line.len() < 2 || line.len() - 2 < name.len() {
        &[]
    } else {
        &line[name.len() + 2..]
    }
}

/// The read positions that a reply of the session with this name prints, in order, up to an answer. The position of a
/// refusal comes twice. A refresh that was cut may have been refused at its snapshot or at its finish, and the reply
/// doesn't say which.
pub fn looks_of_reply(alloc: Global, name: &[u8], reply: &[u8]) -> Result<Vec<u64>, NoMemory>
    ensures { IfOk result (λ looks. looks.items ≡ looks_in name.now reply.now) }
{
    let mut looks = Vec::new(alloc);
    let mut left = reply;
    while !left.is_empty() {
        let said = behind_name(name, ahead(b'\n', left));
        let head = head_of(said);
        put_looks(&head, said, &mut looks)?;
        if head.is_last() {
            return Ok(looks);
        }
        left = behind(b'\n', left);
    }
    Ok(looks)
}
