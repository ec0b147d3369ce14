//! Calls over a source, a sink and a disk that may fail.
ghost use Rattle.std.specs.Prelude.{◌<◌};

use crate::script::{LOG, SCRIPT};
use std::alloc::Global;
use std::sync::Wait;
use std::test::Fail;
use std::thread::Threads;
use ts_disk::FailDisk;
use ts_io::{MemSink, MemSource};
use ts_model::NoGate;
use ts_top::{Status, run_words};

/// A number of bytes that no input of these tests reaches.
pub(crate) const ALL: usize = 65_536;

/// How a call ended, what it printed, how many stored rows it read, and the disk that it left.
#[derive(Drop)]
pub(crate) struct CallRecord {
    pub(crate) status: Status,
    pub(crate) text: Vec<u8>,
    pub(crate) reads: u64,
    pub(crate) disk: FailDisk,
}

/// A disk with these bytes that never fails.
pub(crate) fn sound_disk(alloc: Global, bytes: &[u8]) -> Result<FailDisk, Fail> {
    Ok(FailDisk::stop_after(alloc, bytes.to_vec(alloc)?, u64::MAX))
}

/// Makes a call on this disk. Its source and its sink move at most `most` bytes a call, and the read and the write
/// with these numbers fail, counted from 1.
pub(crate) fn call<R: Threads + Wait + Sync + AllocGlobal>(
    rt: &R,
    word: &str,
    input: &[u8],
    most: usize,
    fails: (u64, u64),
    disk: FailDisk,
) -> Result<CallRecord, Fail>
    requires { 0 < most }
{
    let alloc = rt.alloc();
    let mut words = Vec::new(alloc);
    words.push(String::from_str(alloc, word)?)?;
    let mut source = MemSource::new(input.to_vec(alloc)?, most, vec![in alloc; fails.0]?);
    let mut sink = MemSink::new(alloc, most, vec![in alloc; fails.1]?);
    let ended = run_words(rt, alloc, &words, &mut source, &mut sink, disk, &NoGate);
    Ok(CallRecord {
        status: ended.status,
        text: sink.bytes().to_vec(alloc)?,
        reads: ended.reads,
        disk: ended.disk,
    })
}

/// The lines of the statements with these numbers, counted from 0.
pub(crate) fn lines(alloc: Global, from: usize, to: usize) -> Result<Vec<u8>, Fail> {
    let mut lines = Vec::new(alloc);
    for (line, _, _) in SCRIPT.iter().take(to).skip(from) {
        lines.extend_from_slice(line)?;
    }
    Ok(lines)
}

/// The replies to the statements from number `from` on that create no event after the first `events`.
pub(crate) fn replies(alloc: Global, from: usize, events: usize) -> Result<Vec<u8>, Fail> {
    let mut text = Vec::new(alloc);
    for (_, reply, position) in SCRIPT.iter().skip(from) {
        if *position <= events {
            text.extend_from_slice(reply)?;
        }
    }
    Ok(text)
}

/// Whether a journal with these bytes has the first `events` events of the script and no others.
pub(crate) fn stands_for<R: Threads + Wait + Sync + AllocGlobal>(
    rt: &R,
    bytes: &[u8],
    events: usize,
) -> Result<bool, Fail> {
    let mut want = Vec::new(rt.alloc());
    for line in LOG.iter().take(events) {
        want.extend_from_slice(line)?;
    }
    let disk = sound_disk(rt.alloc(), bytes)?;
    let ran = call(rt, "log", b"", ALL, (0, 0), disk)?;
    Ok(ran.status == Status::Done && ran.text == want)
}
