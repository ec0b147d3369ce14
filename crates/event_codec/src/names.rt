//! Names: their length in one byte, and their bytes.
ghost use Rattle.std.specs.Prelude.{◌≡◌, ◌≤◌, IfOk, IsTrue, length, take};
ghost use Rattle.ts_schema.specs.Names.{is_head, is_name, is_tail};
ghost use Rattle.event_codec.specs.Formed.{IsName};
ghost use Rattle.event_codec.specs.Spelling.{name};
ghost use Rattle.event_codec.specs.Reading.{Gives, Matches, byte_where, is_name_length, items, name_at, name_text};

use crate::errors::ReadError;
use crate::fields::Field;
use crate::reader::Reader;
use ts_schema::{Name, NoMemory};

/// The greatest length of a name.
const NAME_BYTES: u8 = 63;

impl Field for Name {
    ghost spelling = { name };

    ghost fits = { IsName };

    ghost reading = { name_at };

    #[tactic(auto, using(crate::proofs::NameLaws::short, std::proofs::lemmas::List::append_assoc, crate::proofs::GrowthLaws::grows_by, crate::proofs::GrowthLaws::grows_not, crate::proofs::GrowthLaws::grows_on))]
    fn put(&self, out: &mut Vec<u8>) -> Result<(), NoMemory> {
        out.push(self.bytes().len() as u8)?;
        out.extend_from_slice(self.bytes())?;
        Ok(())
    }

    fn read(reader: &mut Reader<'_>) -> Result<Name, ReadError> {
        reader.name()
    }
}

/// Whether a name may begin with this byte.
fn may_begin(byte: u8) -> bool
    ensures { result ≡ is_head byte }
{
    matches!(byte, b'a'..=b'z' | b'_')
}

/// Whether a name may continue with this byte.
fn may_go_on(byte: u8) -> bool
    ensures { result ≡ is_tail byte }
{
    matches!(byte, b'a'..=b'z' | b'_' | b'0'..=b'9')
}

/// The bytes after `count` bytes with which a name may continue, or after fewer if only those are in front.
#[tactic(auto, using(crate::proofs::NameLaws::no_tail, crate::proofs::NameLaws::tails_end, crate::proofs::NameLaws::not_tail, crate::proofs::NameLaws::tail_then, crate::proofs::NameLaws::tail_fails))]
fn after_tails(bytes: &[u8], count: usize) -> Result<&[u8], &[u8]>
    ensures { Matches (λ rest. (take count bytes.now, rest.now)) (λ left. left.now) result
        (items count (byte_where is_tail) bytes.now) }
{
    if count == 0 {
        return Ok(bytes);
    }
    let [byte, rest @ ..] = bytes else {
        return Err(bytes);
    };
    if !may_go_on(*byte) {
        return Err(bytes);
    }
    after_tails(rest, count - 1)
}

/// The bytes after a name of `len` bytes, or, if none is in front, after the longest prefix that begins one.
#[tactic(auto, using(crate::proofs::NameLaws::nothing_there, crate::proofs::NameLaws::no_head, crate::proofs::NameLaws::head_then, crate::proofs::NameLaws::head_fails))]
fn after_name(bytes: &[u8], len: u8) -> Result<&[u8], &[u8]>
    requires { IsTrue (is_name_length len) }
    ensures { Matches (λ rest. (take len bytes.now, rest.now)) (λ left. left.now) result (name_text len bytes.now) }
{
    let [byte, rest @ ..] = bytes else {
        return Err(bytes);
    };
    if !may_begin(*byte) {
        return Err(bytes);
    }
    after_tails(rest, len as usize - 1)
}

impl Reader<'_> {
    /// Reads the length of a name.
    fn name_length(&mut self) -> Result<u8, ReadError>
        ensures read { Gives result (byte_where is_name_length self.old) self.new }
        ensures length { IfOk result (λ len. IsTrue (is_name_length len)) }
    {
        let [byte, rest @ ..] = self.rest() else {
            return Err(ReadError::Bad);
        };
        if *byte == 0 || *byte > NAME_BYTES {
            return Err(ReadError::Bad);
        }
        self.pass_to(rest);
        Ok(*byte)
    }

    /// Reads a name.
    #[tactic(auto, using(crate::proofs::NameLaws::text_is_name, crate::proofs::NameLaws::text_fits), unfolding(crate::specs::Reading::name_at))]
    pub fn name(&mut self) -> Result<Name, ReadError>
        ensures { Gives result (name_at self.old) self.new }
    {
        let len = self.name_length()?;
        let text = self.rest();
        match after_name(text, len) {
            Ok(rest) => {
                self.pass_to(rest);
                let name = Name::read(self.alloc(), &text[..len as usize])?;
                name.ok_or(ReadError::Bad)
            }
            Err(left) => {
                self.pass_to(left);
                Err(ReadError::Bad)
            }
        }
    }
}
