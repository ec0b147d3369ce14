//! The place at which reading begins in a journal of version 2.
ghost use Rattle.std.specs.Prelude.{◌≡◌, ℕ, cond, ◌<◌, ◌≤◌, List, Some, IfOk};
ghost use Rattle.ts_disk.specs.Disk.{Counted, HasLength, Keeps};
ghost use Rattle.txn_journal.specs.Contents.{nothing};
ghost use Rattle.txn_journal.specs.Reading.{ReadsTo, StartsAs};
ghost use Rattle.txn_journal.specs.declared.heads.Start.TheVariants.{Journal as StartsJournal};
ghost use Rattle.txn_journal.specs.declared.versions.Version.TheVariants.{Two};

use crate::heads::{FIRST_GATE, Head, sight_head};
use crate::versions::begins_base;
use ts_disk::{Disk, Failed, MOST_BYTES};

/// The place at which reading begins, and the number of bytes of the file.
#[derive(Clone, Copy)]
pub struct ReadStart {
    pub at: u64,
    pub size: u64,
}

/// Finds the commit byte of the last base, or the first commit byte if there is no base. Passes frames by
/// their lengths, and reads only the first byte of each payload.
pub fn find_base<D: Disk>(disk: &mut D, size: u64) -> Result<ReadStart, Failed>
    requires gate { 9 ≤ size }
    requires most { size ≤ MOST_BYTES }
    requires size { HasLength (D.bytes disk.old) size }
    ensures found { (file : List ℕ) → D.bytes disk.old ≡ Some file → StartsAs (StartsJournal Two) file
        → IfOk result (λ found. ReadsTo file Two found.at nothing) }
    ensures behind { IfOk result (λ found. 8 ≤ found.at) }
    ensures within { IfOk result (λ found. found.at < found.size) }
    ensures most { IfOk result (λ found. found.size ≤ MOST_BYTES) }
    ensures length { IfOk result (λ found. HasLength (D.bytes disk.new) found.size) }
    ensures kept { Keeps D.bytes D.may_leave D.moment D.left_since disk.old disk.new }
    ensures counted { Counted (D.faults disk.old) (D.faults disk.new) result }
{
    let mut size = size;
    let mut at = FIRST_GATE;
    let mut base = FIRST_GATE;
    'frames: loop {
        let seen = sight_head(disk, at, size)?;
        size = seen.size;
        match seen.head {
            Head::Frame { length, first } => {
                base = last_base(base, at, begins_base(length, first));
                at += 5 + length;
            }
            Head::Closed => return Ok(ReadStart { at: base, size }),
            Head::Short => return Ok(ReadStart { at: base, size }),
        }
    }
}

/// Returns the place of the last base's commit byte, once the frame at place `at` was passed.
fn last_base(base: u64, at: u64, is_base: bool) -> u64
    requires { base ≤ at }
    ensures last { result ≡ cond is_base at base }
    ensures from { base ≤ result }
    ensures upto { result ≤ at }
{
    if is_base { at } else { base }
}
