//! Reads a whole input, and writes a whole text.
ghost use Rattle.std.specs.Prelude.{◌≡◌, ◌≤◌, false, [], length, OnOk, OnErr, is_err};
ghost use Rattle.std.specs.Io.KnownBytes.{Appends};
ghost use Rattle.ts_io.specs.Faults.{Counted};
ghost use Rattle.ts_io.specs.Whole.{AppendsPart, ReadsAll, is_read_fault};

use crate::limits::INPUT_LIMIT;
use crate::pieces::{PIECE, read_into};
use crate::sinks::{Put, Sink};
use crate::sources::{Got, Source};

/// A write failed, and the sink's count of faults rose.
#[derive(Clone, Copy, Debug, PartialEq, Eq)]
pub struct WriteFault;

/// Writes all the bytes in order. After a fault a prefix of them was written.
pub fn write_whole<K: Sink>(sink: &mut K, bytes: &[u8]) -> Result<(), WriteFault>
    ensures all { OnOk result (Appends (K.written sink.old) (K.written sink.new) bytes.now) }
    ensures part { OnErr result (AppendsPart (K.written sink.old) (K.written sink.new) bytes.now) }
    ensures counted { Counted (K.faults sink.old) (K.faults sink.new) (is_err result) }
{
    let mut rest = bytes;
    while !rest.is_empty() {
        match sink.write(rest) {
            Put::Bytes(n) => rest = &rest[n..],
            Put::Failed => return Err(WriteFault),
        }
    }
    Ok(())
}

/// How the reading of a whole input ended.
#[derive(Clone, Copy, Debug, PartialEq, Eq)]
pub enum AllEnd {
    /// The source ended within the limit.
    End,
    /// The source returned a byte beyond the limit.
    InputLong,
    /// A read failed, and the source's count of faults rose.
    ReadFault,
    /// It ran out of memory. The bytes read so far are kept.
    NoMemory,
}

/// Reads a whole input into `out`, which must be empty. If the input is longer than 67,108,864 bytes, reads
/// that many, and then reads one more byte and drops it. Doesn't read after the source has reported its end.
/// After a fault, or when out of memory, `out` holds all bytes read before.
pub fn read_all<S: Source>(source: &mut S, out: &mut Vec<u8>) -> AllEnd
    requires untold { S.ended source.old ≡ false }
    requires empty { out.old.items ≡ [] }
    ensures read { ReadsAll result (S.left source.old) (S.left source.new) out.new.items }
    ensures within { length out.new.items ≤ INPUT_LIMIT }
    ensures counted { Counted (S.faults source.old) (S.faults source.new) (is_read_fault result) }
{
    let mut piece = [0; PIECE];
    while out.len() <= INPUT_LIMIT {
        let room = (INPUT_LIMIT + 1 - out.len()).min(PIECE);
        if let Err(_) = out.reserve(room) {
            return AllEnd::NoMemory;
        }
        match read_into(source, &mut piece, room, out) {
            Got::Bytes(0) => return AllEnd::End,
            Got::Bytes(_) => {}
            Got::Failed => return AllEnd::ReadFault,
        }
    }
    out.truncate(INPUT_LIMIT);
    AllEnd::InputLong
}
