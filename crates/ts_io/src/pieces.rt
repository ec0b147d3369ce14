//! Reads one piece into existing room.
ghost use Rattle.std.specs.Prelude.{◌≡◌, false, ◌+◌, ◌<◌, ◌≤◌, ◌++◌, length, vec_len, vec_capacity};
ghost use Rattle.ts_io.specs.Faults.{Counted};
ghost use Rattle.ts_io.specs.Source.{Fills, is_end, is_failed};

use crate::sources::{Got, Source};

/// The greatest number of bytes that one read requests.
pub const PIECE: usize = 65_536;

/// Reads once, at most `most` bytes, into `piece`, and appends the bytes read to `out`, which must have room
/// for them.
pub fn read_into<S: Source>(source: &mut S, piece: &mut [u8], most: usize, out: &mut Vec<u8>) -> Got
    requires untold { S.ended source.old ≡ false }
    requires asks { 0 < most }
    requires fits { most ≤ length piece.old }
    requires room { vec_len out.old + most ≤ vec_capacity out.old }
    ensures filled { Fills (S.left source.old) (S.left source.new) result out.old.items out.new.items }
    ensures within { length out.new.items ≤ length out.old.items + most }
    ensures capacity { vec_capacity out.old ≤ vec_capacity out.new }
    ensures ended { S.ended source.new ≡ is_end result }
    ensures counted { Counted (S.faults source.old) (S.faults source.new) (is_failed result) }
{
    let front = &mut piece[..most];
    let got = source.read(front);
    if let Got::Bytes(n) = got {
        append_reserved(out, &front[..n]);
    }
    got
}

/// Appends bytes for which there is room.
fn append_reserved(out: &mut Vec<u8>, bytes: &[u8])
    requires { vec_len out.old + length bytes.now ≤ vec_capacity out.old }
    ensures items { out.new.items ≡ out.old.items ++ bytes.now }
    ensures capacity { vec_capacity out.old ≤ vec_capacity out.new }
{
    match out.extend_from_slice(bytes) {
        Ok(()) => {}
        Err(_) => unreachable!(),
    }
}
