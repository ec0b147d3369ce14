//! A run on a disk that fails. A header takes a write and a sync. An event takes two of both: one pair for its frame,
//! whose commit byte isn't set yet, and one pair to set the commit byte.
use crate::calls::{ALL, CallRecord, call, lines, replies, sound_disk, stands_for};
use crate::script::SCRIPT;
use std::sync::Wait;
use std::test::Fail;
use std::thread::Threads;
use ts_disk::{DiskCall, FailDisk};
use ts_top::Status;

/// How many events were acknowledged before a call of the disk failed, and how many a read gives then.
type Counts = (usize, usize);

/// Runs the statements from number `first` on, on a disk. Returns false if the run ends otherwise, prints anything
/// but the replies up to the last acknowledged event, or leaves other events.
fn runs_to<R: Threads + Wait + Sync + AllocGlobal>(
    rt: &R,
    first: usize,
    disk: FailDisk,
    status: Status,
    counts: Counts,
) -> Result<(bool, CallRecord), Fail> {
    let input = lines(rt.alloc(), first, SCRIPT.len())?;
    let text = replies(rt.alloc(), first, counts.0)?;
    let ran = call(rt, "run", &input, ALL, (0, 0), disk)?;
    let kept = stands_for(rt, ran.disk.inner().bytes(), counts.1)?;
    Ok((ran.status == status && ran.text == text && kept, ran))
}

/// A kind of call, how many statements ran on the disk before, and how many events these have. Then how many calls of
/// the kind the header takes, and how many the run makes in all.
type Series = (DiskCall, usize, usize, u64, u64);

/// A header and twelve events on an empty disk, and the last five of them on the journal of seven. A run reads no byte
/// of an empty disk.
const SERIES: [Series; 8] = [
    (DiskCall::Len, 0, 0, 0, 1),
    (DiskCall::Read, 0, 0, 0, 0),
    (DiskCall::Write, 0, 0, 1, 25),
    (DiskCall::Sync, 0, 0, 1, 25),
    (DiskCall::Len, 6, 7, 0, 1),
    (DiskCall::Read, 6, 7, 0, 16),
    (DiskCall::Write, 6, 7, 0, 10),
    (DiskCall::Sync, 6, 7, 0, 10),
];

/// The counts if this call fails, by its number after the header's calls. Before the second sync of an event its commit
/// byte was written.
fn counts_at(kind: DiskCall, before: usize, nth: u64) -> Counts {
    let done = before.saturating_add(nth.saturating_sub(1) as usize / 2);
    match kind {
        DiskCall::Len | DiskCall::Read => (before, before),
        DiskCall::Write => (done, done),
        DiskCall::Sync => (done, before.saturating_add(nth as usize / 2)),
    }
}

/// The journal of the first `count` statements. It is empty if `count` is 0.
fn journal_of<R: Threads + Wait + Sync + AllocGlobal>(
    rt: &R,
    count: usize,
) -> Result<Vec<u8>, Fail> {
    if count == 0 {
        return Ok(Vec::new(rt.alloc()));
    }
    let input = lines(rt.alloc(), 0, count)?;
    let disk = sound_disk(rt.alloc(), b"")?;
    let ran = call(rt, "run", &input, ALL, (0, 0), disk)?;
    Ok(ran.disk.inner().bytes().to_vec(rt.alloc())?)
}

#[test]
fn each_call_of_the_disk_fails_in_turn(rt: HostRuntime) -> Result<(), Fail> {
    for (kind, first, before, header, calls) in SERIES {
        let journal = journal_of(&rt, first)?;
        for nth in 1..=calls {
            let disk = FailDisk::new(rt.alloc(), journal.to_vec(rt.alloc())?, kind, nth);
            let counts = counts_at(kind, before, nth.saturating_sub(header));
            let (is_right, _) = runs_to(&rt, first, disk, Status::DiskFault, counts)?;
            assert!(rt; is_right, "{kind:?} {nth} from {first} on");
        }
        let disk = FailDisk::new(rt.alloc(), journal, kind, calls.saturating_add(1));
        let (is_right, _) = runs_to(&rt, first, disk, Status::Done, (12, 12))?;
        assert!(rt; is_right, "{kind:?} from {first} on");
    }
    Ok(())
}

/// The crash images to check: with none or all of the writes since the last sync, with one of them, and with half of
/// the last one.
const PICKS: [u64; 8] = [0, 1, 2, 3, 1 << 63, 1 << 63 | 1, 1 << 63 | 2, 1 << 63 | 3];

/// Whether each crash image of a disk represents this many events. If a commit byte was written since the last sync,
/// the images that keep that write have one event more.
fn images_stand<R: Threads + Wait + Sync + AllocGlobal>(
    rt: &R,
    disk: &FailDisk,
    events: usize,
    opened: bool,
) -> Result<bool, Fail> {
    for pick in PICKS {
        let mut image = Vec::new(rt.alloc());
        disk.inner().crash(pick, &mut image)?;
        let one_more = opened && pick % 2 == 1;
        if !stands_for(rt, &image, events.saturating_add(usize::from(one_more)))? {
            return Ok(false);
        }
    }
    Ok(true)
}

#[test]
fn the_disk_stops_after_each_number_of_calls(rt: HostRuntime) -> Result<(), Fail> {
    // One call reads the length, two create the header, and four each event.
    for calls in 0..=51_u64 {
        let behind = calls.saturating_sub(3);
        let done = (behind / 4) as usize;
        let opened = behind % 4 == 3;
        let counts = (done, done.saturating_add(usize::from(opened)));
        let status = if calls == 51 {
            Status::Done
        } else {
            Status::DiskFault
        };
        let disk = FailDisk::stop_after(rt.alloc(), Vec::new(rt.alloc()), calls);
        let (is_right, ran) = runs_to(&rt, 0, disk, status, counts)?;
        assert!(rt; is_right, "{calls}");
        assert!(rt; images_stand(&rt, &ran.disk, done, opened)?, "{calls}");
    }
    Ok(())
}
