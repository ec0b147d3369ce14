//! Reading a whole journal in one call.
ghost use Rattle.std.specs.Prelude.{◌≡◌, ℕ, [], ◌∷◌, ◌++◌, List, Some, IfOk, OnErr};
ghost use Rattle.ts_disk.specs.CrashImage.{Only};
ghost use Rattle.ts_disk.specs.Disk.{Keeps};
ghost use Rattle.txn_journal.specs.Contents.{nothing};
ghost use Rattle.txn_journal.specs.Reading.{HasRead};
ghost use Rattle.txn_journal.specs.Recovering.{CountsRecovered, GoesOn, Recovers, RestsAfter, TellsAfter, disk_of};

use crate::journals::Journal;
use crate::openings::OpenOutcome;
use crate::payloads::Payload;
use crate::readers::{Next, Reader};
use std::alloc::Global;
use ts_disk::Disk;
use ts_schema::{NoMemory, Seq};

/// The result of reading a journal.
#[derive(Drop)]
pub enum Recovered<D: Disk> {
    /// The payloads that count, and the journal, ready for more.
    Ready {
        journal: Journal<D>,
        payloads: Seq<Payload>,
    },
    /// The first damaged place, and the payloads that count before it.
    Damaged {
        disk: D,
        payloads: Seq<Payload>,
        at: u64,
    },
    /// The disk failed.
    DiskFault(D),
    /// It ran out of memory for the payloads.
    NoMemory(D),
}

/// Reads a journal from its base on. Writes nothing. Holds all these payloads at once, for callers that want a
/// list of them. The program uses `Reader`, which holds one at a time.
pub fn recover<D: Disk>(alloc: Global, disk: D) -> Recovered<D>
    ensures recovers { (file : List ℕ) → D.bytes disk ≡ Some file → Recovers result file }
    ensures tells { (file : List ℕ) → D.bytes disk ≡ Some file → TellsAfter D.bytes file result }
    ensures at_rest { (file : List ℕ) → D.bytes disk ≡ Some file → Only file (D.may_leave disk)
        → RestsAfter D.bytes D.may_leave file result }
    ensures goes_on { GoesOn result }
    ensures kept { Keeps D.bytes D.may_leave D.moment D.left_since disk (disk_of result) }
    ensures counted { CountsRecovered result (D.faults disk) (D.faults (disk_of result)) }
{
    match Reader::open(alloc, disk) {
        OpenOutcome::Reading(reader) => read_all(alloc, reader),
        OpenOutcome::Damaged { disk, at } => Recovered::Damaged {
            disk,
            payloads: Seq::new(alloc),
            at,
        },
        OpenOutcome::DiskFault(disk) => Recovered::DiskFault(disk),
    }
}

/// Reads all payloads with a reader that has read none.
fn read_all<D: Disk>(alloc: Global, reader: Reader<D>) -> Recovered<D>
    ensures recovers { (file : List ℕ) → HasRead D.bytes reader file nothing → Recovers result file }
    ensures tells { (file : List ℕ) → HasRead D.bytes reader file nothing → TellsAfter D.bytes file result }
    ensures at_rest { (file : List ℕ) → HasRead D.bytes reader file nothing → Only file (D.may_leave reader.disk)
        → RestsAfter D.bytes D.may_leave file result }
    ensures goes_on { GoesOn result }
    ensures kept { Keeps D.bytes D.may_leave D.moment D.left_since reader.disk (disk_of result) }
    ensures counted { CountsRecovered result (D.faults reader.disk) (D.faults (disk_of result)) }
{
    let mut reader = reader;
    let mut payloads = Seq::new(alloc);
    'payloads: loop {
        match reader.next() {
            Next::Base(at) => match keep_alone(alloc, &mut payloads, reader.payload(), at) {
                Ok(()) => {}
                Err(NoMemory) => return Recovered::NoMemory(reader.close()),
            },
            Next::Payload(at) => match keep(alloc, &mut payloads, reader.payload(), at) {
                Ok(()) => {}
                Err(NoMemory) => return Recovered::NoMemory(reader.close()),
            },
            Next::End => {
                return Recovered::Ready {
                    journal: reader.finish(),
                    payloads,
                };
            }
            Next::Damaged(at) => {
                return Recovered::Damaged {
                    disk: reader.close(),
                    payloads,
                    at,
                };
            }
            Next::DiskFault => return Recovered::DiskFault(reader.close()),
            Next::NoMemory => return Recovered::NoMemory(reader.close()),
        }
    }
}

/// Keeps a copy of a payload.
fn keep(alloc: Global, payloads: &mut Seq<Payload>, bytes: &[u8], at: u64) -> Result<(), NoMemory>
    ensures kept { IfOk result (λ _. payloads.new ≡ payloads.old ++ record { bytes = bytes.now; at = at } ∷ []) }
{
    let copy = Seq::of(Vec::from_slice(alloc, bytes)?);
    payloads.push(Payload { bytes: copy, at })
}

/// Keeps a copy of a payload, and drops the others.
fn keep_alone(
    alloc: Global,
    payloads: &mut Seq<Payload>,
    bytes: &[u8],
    at: u64,
) -> Result<(), NoMemory>
    ensures kept { IfOk result (λ _. payloads.new ≡ record { bytes = bytes.now; at = at } ∷ []) }
{
    *payloads = Seq::new(alloc);
    keep(alloc, payloads, bytes, at)
}
