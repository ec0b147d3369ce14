//! The beginning of a file and of its frames.
ghost use Rattle.std.specs.Prelude.{◌≡◌, ◌≢◌, ℕ, ◌+◌, ◌<◌, ◌≤◌, List, Some, length, slice_index, IfOk};
ghost use Rattle.ts_disk.specs.Disk.{Counted, HasLength, HasRange, Keeps};
ghost use Rattle.txn_journal.specs.Contents.{version_of};
ghost use Rattle.txn_journal.specs.Frames.{magic, header};
ghost use Rattle.txn_journal.specs.Reading.{StartsAs, IsHead, IsStart, IsSized, JudgesHead, EndsWithin};

use crate::versions::Version;
use ts_disk::{Disk, Failed, MOST_BYTES};

/// The first seven bytes of a journal. The version byte follows them.
pub const MAGIC: [u8; 7] = *b"TSCTLJ0";

/// The magic bytes, the byte of version 1, and a commit byte of 0.
pub const HEADER: [u8; 9] = *b"TSCTLJ01\0";

/// The place of the version byte.
pub const VERSION_BYTE: u64 = 7;

/// The place of the first commit byte.
pub const FIRST_GATE: u64 = 8;

/// The commit byte before a frame that counts.
pub const OPEN: u8 = 1;

/// The number of bytes of a commit byte and a length.
const GATE_AND_LENGTH: u64 = 5;

/// The number of bytes of a commit byte, a length, and the byte after it: the first of a payload, or the next
/// commit byte.
const HEAD_BYTES: usize = 6;

/// The beginning of a file.
#[derive(Clone, Copy)]
pub enum Start {
    /// The file has at most nine bytes, and isn't a header.
    Bare,
    /// The file begins with the magic bytes and is longer than a header, or it is a header.
    Journal(Version),
    /// The file is longer than a header, and begins with other bytes.
    Foreign,
}

/// Reads the beginning of a file of `size` bytes.
pub fn read_start<D: Disk>(disk: &mut D, size: u64) -> Result<Start, Failed>
    requires size { HasLength (D.bytes disk.old) size }
    ensures starts { (file : List ℕ) → D.bytes disk.old ≡ Some file → IfOk result (λ start. StartsAs start file) }
    ensures sized { IfOk result (λ start. IsSized start size) }
    ensures kept { Keeps D.bytes D.may_leave D.moment D.left_since disk.old disk.new }
    ensures counted { Counted (D.faults disk.old) (D.faults disk.new) result }
{
    if size < HEADER.len() as u64 {
        return Ok(Start::Bare);
    }
    let mut head = [0; 9];
    disk.read_at(0, &mut head)?;
    Ok(judge_start(&head, size))
}

/// The beginning of a file of `size` bytes, by its first nine bytes.
fn judge_start(head: &[u8; 9], size: u64) -> Start
    requires { 9 ≤ size }
    ensures { IsStart result head.now size }
{
    if size > HEADER.len() as u64 {
        if &head[..7] == MAGIC.as_slice() {
            Start::Journal(Version::of(head[7]))
        } else {
            Start::Foreign
        }
    } else if *head == HEADER {
        Start::Journal(Version::One)
    } else {
        Start::Bare
    }
}

/// Reads the version from the byte after the magic bytes.
pub fn read_version<D: Disk>(disk: &mut D) -> Result<Version, Failed>
    requires range { HasRange (D.bytes disk.old) 8 }
    ensures version { (file : List ℕ) → D.bytes disk.old ≡ Some file
        → IfOk result (λ version. version ≡ version_of (slice_index file 7)) }
    ensures kept { Keeps D.bytes D.may_leave D.moment D.left_since disk.old disk.new }
    ensures counted { Counted (D.faults disk.old) (D.faults disk.new) result }
{
    let mut mark = [0; 1];
    disk.read_at(VERSION_BYTE, &mut mark)?;
    Ok(Version::of(mark[0]))
}

/// The meaning of a commit byte and the bytes after it.
#[derive(Clone, Copy)]
pub enum Head {
    /// The commit byte isn't 1.
    Closed,
    /// The commit byte is 1, and a whole frame follows, of a payload of `length` bytes. `first` is the byte after
    /// the length: the first of the payload, or the next commit byte.
    Frame { length: u64, first: u8 },
    /// The commit byte is 1, and too few bytes follow.
    Short,
}

/// Reads the commit byte at place `at` of a file of `size` bytes, and the beginning of its frame.
pub fn read_head<D: Disk>(disk: &mut D, at: u64, size: u64) -> Result<Head, Failed>
    requires within { at < size }
    requires most { size ≤ MOST_BYTES }
    requires size { HasLength (D.bytes disk.old) size }
    ensures head { (file : List ℕ) → D.bytes disk.old ≡ Some file → IfOk result (λ head. IsHead head file at) }
    ensures within { IfOk result (λ head. EndsWithin head at size) }
    ensures kept { Keeps D.bytes D.may_leave D.moment D.left_since disk.old disk.new }
    ensures counted { Counted (D.faults disk.old) (D.faults disk.new) result }
{
    let room = (size - at).min(HEAD_BYTES as u64) as usize;
    let mut head = [0; HEAD_BYTES];
    disk.read_at(at, &mut head[..room])?;
    Ok(judge_head(&head, size - at))
}

/// The meaning of a commit byte and the bytes after it, and the number of bytes of the file.
#[derive(Clone, Copy)]
pub struct GateAt {
    pub head: Head,
    pub size: u64,
}

/// Reads the commit byte at place `at` of a file that had `size` bytes, and the beginning of its frame.
/// Another process may be writing the file. If the frame looks short, this function reads the length again
/// until it stops growing.
pub fn sight_head<D: Disk>(disk: &mut D, at: u64, size: u64) -> Result<GateAt, Failed>
    requires within { at < size }
    requires most { size ≤ MOST_BYTES }
    requires size { HasLength (D.bytes disk.old) size }
    ensures head { (file : List ℕ) → D.bytes disk.old ≡ Some file → IfOk result (λ seen. IsHead seen.head file at) }
    ensures within { IfOk result (λ seen. EndsWithin seen.head at seen.size) }
    ensures grown { IfOk result (λ seen. size ≤ seen.size) }
    ensures most { IfOk result (λ seen. seen.size ≤ MOST_BYTES) }
    ensures length { IfOk result (λ seen. HasLength (D.bytes disk.new) seen.size) }
    ensures kept { Keeps D.bytes D.may_leave D.moment D.left_since disk.old disk.new }
    ensures counted { Counted (D.faults disk.old) (D.faults disk.new) result }
{
    let mut size = size;
    'longer: loop {
        let head = read_head(disk, at, size)?;
        let now = match head {
            Head::Short => disk.len()?,
            Head::Closed => size,
            Head::Frame { .. } => size,
        };
        if now <= size {
            return Ok(GateAt { head, size });
        }
        size = now;
    }
}

/// The meaning of a commit byte and the five bytes after it, if the file has `left` bytes from it on.
fn judge_head(head: &[u8; 6], left: u64) -> Head
    requires { 0 < left }
    ensures { JudgesHead result head.now left }
{
    if head[0] != OPEN {
        return Head::Closed;
    }
    if left < GATE_AND_LENGTH {
        return Head::Short;
    }
    let length = u32::from_le_bytes([head[1], head[2], head[3], head[4]]) as u64;
    if left - GATE_AND_LENGTH <= length {
        return Head::Short;
    }
    Head::Frame {
        length,
        first: head[5],
    }
}
