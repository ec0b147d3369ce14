//! The contract of a disk.
ghost use Rattle.std.specs.Prelude.{◌≡◌, ◌⊎◌, ℕ, ◌+◌, ◌≤◌, List, Option, length, IfOk, OnOk, IfSome};
ghost use Rattle.ts_disk.specs.CrashImage.{Torn, Follows, LeavesNoMore, Only, Elapses};
ghost use Rattle.ts_disk.specs.Disk.{Counted, HasLength, HasRange, IsRange, Writes, Keeps};

/// The greatest number of bytes of a disk.
pub const MOST_BYTES: u64 = 1 << 62;

/// A call of a disk failed, and its count of faults rose.
#[derive(Clone, Copy, Debug, PartialEq, Eq)]
pub struct Failed;

/// Bytes by their places, with a count of failed calls. A crash may lose writes that weren't synced.
///
/// A crash between two syncs may leave any bytes in each written range and past the old end. It may leave any
/// length from the old to the new one. Bytes outside stay. After a successful sync, a crash leaves the bytes
/// that a read returns. After a failed write, even a read may return any bytes in its range and past the old
/// end.
pub trait Disk {
    /// The bytes that reads return, if they are known.
    ghost bytes: { Self → Option (List ℕ) };

    /// What a crash at this moment may leave.
    ghost may_leave: { Self → List ℕ → Type 0 };

    /// The moment, as a number that doesn't fall.
    ghost moment: { Self → ℕ };

    /// What a crash at some moment from that one on might have left, during a call or between two.
    ghost left_since: { Self → ℕ → List ℕ → Type 0 };

    /// The number of calls that have failed.
    ghost faults: { Self → ℕ };

    /// Returns the number of calls that have failed, at most `u64::MAX`.
    fn faults(&self) -> u64
        ensures { result ≡ faults self.now };

    /// Returns the number of bytes.
    fn len(&mut self) -> Result<u64, Failed>
        ensures length { IfOk result (λ n. HasLength (bytes self.old) n) }
        ensures most { IfOk result (λ n. n ≤ MOST_BYTES) }
        ensures kept { Keeps bytes may_leave moment left_since self.old self.new }
        ensures counted { Counted (faults self.old) (faults self.new) result };

    /// Fills `into` with the bytes from place `at` on. If it fails, `into` may hold any bytes.
    fn read_at(&mut self, at: u64, into: &mut [u8]) -> Result<(), Failed>
        requires most { at + length into.old ≤ MOST_BYTES }
        requires range { HasRange (bytes self.old) (at + length into.old) }
        ensures bytes { OnOk result (IsRange (bytes self.old) at into.new) }
        ensures kept { Keeps bytes may_leave moment left_since self.old self.new }
        ensures counted { Counted (faults self.old) (faults self.new) result };

    /// Writes bytes at place `at`, over existing bytes and past the end. A write that would end above
    /// `MOST_BYTES` fails.
    fn write_at(&mut self, at: u64, piece: &[u8]) -> Result<(), Failed>
        requires most { at ≤ MOST_BYTES }
        requires range { HasRange (bytes self.old) at }
        ensures written { Writes (bytes self.old) at piece.now result (bytes self.new) }
        ensures most { OnOk result (at + length piece.now ≤ MOST_BYTES) }
        ensures crash { Follows (Torn at (length piece.now)) (may_leave self.old) (may_leave self.new) }
        ensures time { Elapses (moment self.old) (moment self.new) (left_since self.old) (left_since self.new)
            (may_leave self.new) }
        ensures counted { Counted (faults self.old) (faults self.new) result };

    /// Writes all bytes through to the disk. Once this succeeds, a crash leaves the bytes that a read returns.
    fn sync(&mut self) -> Result<(), Failed>
        ensures same { bytes self.new ≡ bytes self.old }
        ensures durable { OnOk result (IfSome (bytes self.old) (λ file. Only file (may_leave self.new))) }
        ensures crash { LeavesNoMore (may_leave self.old) (may_leave self.new) }
        ensures time { Elapses (moment self.old) (moment self.new) (left_since self.old) (left_since self.new)
            (may_leave self.new) }
        ensures counted { Counted (faults self.old) (faults self.new) result };

    /// This moment is one of those since an earlier one.
    ghost counts_now: { (disk : Self) (t : ℕ) (c : List ℕ) → t ≤ moment disk → may_leave disk c → left_since disk t c };

    /// No moment is later than this one.
    ghost only_now: { (disk : Self) (c : List ℕ) → left_since disk (moment disk) c → may_leave disk c };

    /// A crash may leave the bytes that a read returns.
    ghost shows_an_image: { (disk : Self) → IfSome (bytes disk) (may_leave disk) };
}
