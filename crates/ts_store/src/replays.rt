//! Reading the events of a journal in order.
ghost use Rattle.std.specs.Prelude.{◌≡◌, ℕ, List, IsTrue, None};
ghost use Rattle.event_codec.specs.Formed.{IsFormed};
ghost use Rattle.event_codec.specs.Spelling as spelling;
ghost use Rattle.std.specs.Thread.{IsSync};
ghost use Rattle.ts_disk.specs.CrashImage.{Only};
ghost use Rattle.ts_disk.specs.Disk.{Keeps};
ghost use Rattle.ts_model.specs.Allowed.{allowed};
ghost use Rattle.engine_core.specs.Histories.{history_of, past_from};
ghost use Rattle.txn_journal.specs.Contents.{nothing};
ghost use Rattle.txn_journal.specs.Reading.{HasRead};
ghost use Rattle.ts_store.specs.Starts.{CountsReplayed, GoesOn, Replays, RestsReplayed, SoundReplayed, TellsReplayed};
ghost use Rattle.ts_store.specs.Starts.{disk_of_replayed};
ghost use Rattle.ts_store.specs.Takes.{Resumes, Takes};

use base_image::{ReadImage, read};
use engine_core::Follower;
use event_codec::{Decoded, decode};
use std::alloc::Global;
use std::thread::Threads;
use ts_disk::Disk;
use ts_model::Event;
use ts_schema::{NoMemory, Seq};
use txn_journal::{Journal, Next, Reader};

/// The result of reading the events of a journal.
#[derive(Drop)]
pub(crate) enum ReplayOutcome<D: Disk, T> {
    /// The journal, and the follower of its history.
    Ready { journal: Journal<D>, follower: T },
    /// The first damaged place.
    Damaged { disk: D, at: u64 },
    /// The disk failed.
    DiskFault(D),
    /// It ran out of memory.
    NoMemory(D),
}

/// The outcome of a payload.
#[derive(Clone, Copy)]
pub(crate) enum PayloadOutcome {
    /// Its event took effect, or its image replaced the earlier history.
    Done,
    /// It isn't the bytes of an event that may come next, or of a valid image.
    NoEvent,
    /// It ran out of memory.
    NoMemory,
}

/// Applies the payloads of a journal that count, from its base on. Holds one payload at a time.
pub(crate) fn replay<R: Threads + Sync, D: Disk, T: Follower + Drop>(
    rt: &R,
    alloc: Global,
    reader: Reader<D>,
    follower: T,
) -> ReplayOutcome<D, T>
    requires sync { IsSync R.row }
    requires empty { T.past follower ≡ past_from None }
    ensures replays { (file : List ℕ) → HasRead D.bytes reader file nothing → Replays T.past result file }
    ensures tells { (file : List ℕ) → HasRead D.bytes reader file nothing → TellsReplayed T.past D.bytes result }
    ensures at_rest { (file : List ℕ) → HasRead D.bytes reader file nothing → Only file (D.may_leave reader.disk)
        → RestsReplayed T.past D.bytes D.may_leave result }
    ensures sound { SoundReplayed T.past result }
    ensures goes_on { GoesOn result }
    ensures kept { Keeps D.bytes D.may_leave D.moment D.left_since reader.disk (disk_of_replayed result) }
    ensures counted { CountsReplayed result (D.faults reader.disk) (D.faults (disk_of_replayed result)) }
{
    let mut reader = reader;
    let mut follower = follower;
    'events: loop {
        match reader.next() {
            Next::Base(at) => match take_base(alloc, &mut follower, reader.take_out(alloc)) {
                PayloadOutcome::Done => {}
                PayloadOutcome::NoEvent => {
                    return ReplayOutcome::Damaged {
                        disk: reader.close(),
                        at,
                    };
                }
                PayloadOutcome::NoMemory => return ReplayOutcome::NoMemory(reader.close()),
            },
            Next::Payload(at) => match take_payload(rt, alloc, &mut follower, reader.payload()) {
                PayloadOutcome::Done => {}
                PayloadOutcome::NoEvent => {
                    return ReplayOutcome::Damaged {
                        disk: reader.close(),
                        at,
                    };
                }
                PayloadOutcome::NoMemory => return ReplayOutcome::NoMemory(reader.close()),
            },
            Next::End => {
                return ReplayOutcome::Ready {
                    journal: reader.finish(),
                    follower,
                };
            }
            Next::Damaged(at) => {
                return ReplayOutcome::Damaged {
                    disk: reader.close(),
                    at,
                };
            }
            Next::DiskFault => return ReplayOutcome::DiskFault(reader.close()),
            Next::NoMemory => return ReplayOutcome::NoMemory(reader.close()),
        }
    }
}

/// Starts over at the image of a base. Frees the base's bytes first.
fn take_base<T: Follower + Drop>(
    alloc: Global,
    follower: &mut T,
    payload: Seq<u8>,
) -> PayloadOutcome
    ensures resumed { Resumes result payload (T.past follower.new) }
{
    let found = read(alloc, payload.items());
    drop(payload);
    match found {
        ReadImage::Image(image) => match T::begin(alloc, image) {
            Ok(made) => {
                *follower = made;
                PayloadOutcome::Done
            }
            Err(NoMemory) => PayloadOutcome::NoMemory,
        },
        ReadImage::BadImage => PayloadOutcome::NoEvent,
        ReadImage::NoMemory => PayloadOutcome::NoMemory,
    }
}

/// Applies the event of a payload.
fn take_payload<R: Threads + Sync, T: Follower>(
    rt: &R,
    alloc: Global,
    follower: &mut T,
    payload: &[u8],
) -> PayloadOutcome
    requires sync { IsSync R.row }
    ensures taken { Takes result payload.now (T.past follower.old) (T.past follower.new) }
{
    match decode(alloc, payload) {
        Decoded::Event(event) => take_event(rt, follower, event),
        Decoded::BadEvent(_) => PayloadOutcome::NoEvent,
        Decoded::NoMemory => PayloadOutcome::NoMemory,
    }
}

/// Applies an event, if it is allowed next.
fn take_event<R: Threads + Sync, T: Follower>(
    rt: &R,
    follower: &mut T,
    event: Event,
) -> PayloadOutcome
    requires sync { IsSync R.row }
    requires formed { IsFormed event }
    ensures taken { Takes result (spelling.event event) (T.past follower.old) (T.past follower.new) }
    ensures memory { result ≡ PayloadOutcome.NoMemory → IsTrue (allowed (history_of (T.past follower.old)) event) }
{
    match follower.check_next(&event) {
        Ok(()) => match follower.follow(rt, event) {
            Ok(()) => PayloadOutcome::Done,
            Err(NoMemory) => PayloadOutcome::NoMemory,
        },
        Err(_) => PayloadOutcome::NoEvent,
    }
}
