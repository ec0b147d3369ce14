//! Writes that are synced before anything else is written.
ghost use Rattle.std.specs.Prelude.{◌≡◌, ℕ, ◌+◌, ◌≤◌, [], ◌∷◌, ◌++◌, List, Some, length, OnOk, IsSomeAnd};
ghost use Rattle.ts_disk.specs.CrashImage.{file_after_write, Torn, Only, LeavesOnly};
ghost use Rattle.ts_disk.specs.Disk.{Counted, HasRange};
ghost use Rattle.txn_journal.specs.Contents.{Content, content_of_version_2, with_payload};
ghost use Rattle.txn_journal.specs.Frames.{Fits, StandsForEither, WithOrWithout};
ghost use Rattle.txn_journal.specs.Writes.{IsWritten, Rests, Tells};
ghost use Rattle.txn_journal.specs.declared.versions.Version.{Version};
ghost use Rattle.txn_journal.specs.declared.versions.Version.TheVariants.{One, Two};

use crate::frames::Frame;
use crate::heads::{OPEN, VERSION_BYTE};
use crate::versions::SECOND;
use ts_disk::{Disk, Failed, MOST_BYTES};

/// Writes bytes at a place and syncs.
pub fn write_synced<D: Disk>(disk: &mut D, at: u64, piece: &[u8]) -> Result<(), Failed>
    requires most { at ≤ MOST_BYTES }
    requires range { HasRange (D.bytes disk.old) at }
    // If all bytes of the disk are on it, a crash at any moment leaves them, or an outcome of the torn write.
    ensures crash { (file : List ℕ) → D.bytes disk.old ≡ Some file → Only file (D.may_leave disk.old)
        → LeavesOnly D.moment D.left_since disk.old disk.new (Torn at (length piece.now) file) }
    // Reads also return such bytes, whether or not all of them were on the disk.
    ensures shown { (file : List ℕ) → D.bytes disk.old ≡ Some file
        → IsSomeAnd (D.bytes disk.new) (Torn at (length piece.now) file) }
    ensures done { OnOk result ((file : List ℕ) → D.bytes disk.old ≡ Some file
        → IsWritten D.bytes D.may_leave disk.new (file_after_write file at piece.now)) }
    ensures grown { (end : ℕ) → HasRange (D.bytes disk.old) end → OnOk result (HasRange (D.bytes disk.new) end) }
    ensures reaches { OnOk result (HasRange (D.bytes disk.new) (at + length piece.now)) }
    ensures most { OnOk result (at + length piece.now ≤ MOST_BYTES) }
    ensures counted { Counted (D.faults disk.old) (D.faults disk.new) result }
{
    disk.write_at(at, piece)?;
    disk.sync()
}

/// Writes a frame after the commit byte at place `end`, which isn't 1, and syncs. Then sets that byte to 1
/// and syncs.
pub fn put_frame<D: Disk>(disk: &mut D, end: u64, frame: &Frame) -> Result<(), Failed>
    requires most { end + 1 ≤ MOST_BYTES }
    requires range { HasRange (D.bytes disk.old) (end + 1) }
    ensures any_moment { (version : Version) (content : Content) → Rests D.bytes D.may_leave disk.old version end content
        → LeavesOnly D.moment D.left_since disk.old disk.new (WithOrWithout version content frame.now) }
    ensures shown { (version : Version) (content : Content) → Tells D.bytes disk.old version end content
        → IsSomeAnd (D.bytes disk.new) (WithOrWithout version content frame.now) }
    ensures done { OnOk result ((version : Version) (content : Content) → Tells D.bytes disk.old version end content
        → Rests D.bytes D.may_leave disk.new version (end + 5 + length frame.now) (with_payload version content frame.now)) }
    ensures reaches { OnOk result (HasRange (D.bytes disk.new) (end + 6 + length frame.now)) }
    ensures most { OnOk result (end + 6 + length frame.now ≤ MOST_BYTES) }
    ensures counted { Counted (D.faults disk.old) (D.faults disk.new) result }
{
    // A separate write sets the commit byte, over a byte that isn't 1 on the disk. With the frame in one write, a
    // crash might leave the commit byte at 1 and the frame torn.
    write_synced(disk, end + 1, frame.bytes())?;
    write_synced(disk, end, &[OPEN])
}

/// Writes the byte of version 2 and syncs.
pub fn put_version<D: Disk>(disk: &mut D) -> Result<(), Failed>
    requires range { HasRange (D.bytes disk.old) 8 }
    // While the write may be torn, the byte may have any value.
    ensures any_moment { (end : ℕ) (content : Content) → Rests D.bytes D.may_leave disk.old One end content
        → LeavesOnly D.moment D.left_since disk.old disk.new (StandsForEither content (content_of_version_2 content)) }
    ensures shown { (end : ℕ) (content : Content) → Tells D.bytes disk.old One end content
        → IsSomeAnd (D.bytes disk.new) (StandsForEither content (content_of_version_2 content)) }
    ensures done { OnOk result ((end : ℕ) (content : Content) → Tells D.bytes disk.old One end content
        → Rests D.bytes D.may_leave disk.new Two end (content_of_version_2 content)) }
    ensures grown { (end : ℕ) → HasRange (D.bytes disk.old) end → OnOk result (HasRange (D.bytes disk.new) end) }
    ensures counted { Counted (D.faults disk.old) (D.faults disk.new) result }
{
    write_synced(disk, VERSION_BYTE, &[SECOND])
}
