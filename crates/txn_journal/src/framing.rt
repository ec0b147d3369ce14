//! Construction of frames.
ghost use Rattle.std.specs.Prelude.{◌≡◌, ◌<◌, ◌^◌, drop, IfOk};
ghost use Rattle.std.specs.Int.{w32, to_le_bytes};
ghost use Rattle.txn_journal.specs.Frames.{Fits, body};

use crate::frames::Frame;
use std::alloc::Global;
use ts_schema::{NoMemory, Seq};

/// The number of bytes of a length and a commit byte.
const AROUND: usize = 5;

/// Returns the frame of a payload that is in a list. The program builds its frames with `open_frame` and
/// `close_frame`, without such a list.
pub fn frame(alloc: Global, payload: &Seq<u8>) -> Result<Frame, NoMemory>
    requires fits { Fits payload.now }
    ensures same { IfOk result (λ made. made ≡ payload.now) }
{
    let mut bytes = open_frame(alloc, payload.len())?;
    bytes.extend_from_slice(payload.items())?;
    close_frame(bytes)
}

/// Returns the beginning of a frame of a payload of `length` bytes, with room for all of it. The caller
/// appends the payload, and `close_frame` completes the frame, so no payload is copied.
pub fn open_frame(alloc: Global, length: usize) -> Result<Vec<u8>, NoMemory>
    requires { length < 2 ^ 32 }
    ensures begun { IfOk result (λ bytes. bytes.items ≡ to_le_bytes w32 length) }
{
    let mut bytes = Vec::with_capacity(alloc, length + AROUND)?;
    bytes.extend_from_slice(&(length as u32).to_le_bytes())?;
    Ok(bytes)
}

/// Returns the frame of the payload that follows its length in `bytes`.
pub fn close_frame(bytes: Vec<u8>) -> Result<Frame, NoMemory>
    requires begun { bytes.items ≡ body (drop 4 bytes.items) }
    requires fits { Fits (drop 4 bytes.items) }
    ensures payload { IfOk result (λ made. made ≡ drop 4 bytes.items) }
{
    let mut bytes = bytes;
    bytes.push(0)?;
    Ok(Frame::of(bytes))
}
