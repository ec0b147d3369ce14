//! A checkpoint with a sink that fails, and on a disk that fails or stops. The journal that it leaves represents the
//! history as before, or its image. Later calls continue from both alike.
use crate::calls::{ALL, CallRecord, call, lines, sound_disk};
use crate::script::SCRIPT;
use std::sync::Wait;
use std::test::Fail;
use std::thread::Threads;
use ts_disk::{Disk, DiskCall, FailDisk};
use ts_top::Status;

/// How many of the script's statements run before the checkpoint. They create ten events.
const FIRST: usize = 10;

const SAVED: &[u8] = b"CHECKPOINT @10 bytes 477\n";

const NOTHING: &[u8] = b"NOTHING @10\n";

const CHECK: &[u8] = b"HISTORY @10\n";

/// The crash images to check: with none or all of the writes since the last sync, with one of them, and with half of
/// the last one.
const PICKS: [u64; 8] = [0, 1, 2, 3, 1 << 63, 1 << 63 | 1, 1 << 63 | 2, 1 << 63 | 3];

/// The journal of the first statements.
fn journal<R: Threads + Wait + Sync + AllocGlobal>(rt: &R) -> Result<Vec<u8>, Fail> {
    let input = lines(rt.alloc(), 0, FIRST)?;
    let disk = sound_disk(rt.alloc(), b"")?;
    let ran = call(rt, "run", &input, ALL, (0, 0), disk)?;
    Ok(ran.disk.inner().bytes().to_vec(rt.alloc())?)
}

/// Runs a checkpoint on a disk. Its input is a statement, which it doesn't read.
fn checkpoint<R: Threads + Wait + Sync + AllocGlobal>(
    rt: &R,
    disk: FailDisk,
) -> Result<CallRecord, Fail> {
    let input = lines(rt.alloc(), 3, 4)?;
    call(rt, "checkpoint", &input, ALL, (0, 0), disk)
}

/// Whether a journal with these bytes has the ten events or their image, and answers the query after them. It must also
/// continue with the statements after that, and a checkpoint of it must succeed.
fn goes_on<R: Threads + Wait + Sync + AllocGlobal>(rt: &R, bytes: &[u8]) -> Result<bool, Fail> {
    let check = call(
        rt,
        "check",
        b"",
        ALL,
        (0, 0),
        sound_disk(rt.alloc(), bytes)?,
    )?;
    let mut want = Vec::new(rt.alloc());
    for (_, reply, _) in SCRIPT.iter().skip(FIRST) {
        want.extend_from_slice(reply)?;
    }
    let rest = lines(rt.alloc(), FIRST, SCRIPT.len())?;
    let ran = call(
        rt,
        "run",
        &rest,
        ALL,
        (0, 0),
        sound_disk(rt.alloc(), bytes)?,
    )?;
    let again = checkpoint(rt, sound_disk(rt.alloc(), bytes)?)?;
    let saved = again.text.as_slice() == SAVED || again.text.as_slice() == NOTHING;
    Ok(check.text.as_slice() == CHECK && ran.text == want && saved)
}

/// How many calls of a kind a checkpoint makes. It reads the length once. It raises the version, writes its frame and
/// writes the frame's commit byte, each with a write and a sync.
const SERIES: [(DiskCall, u64); 3] = [
    (DiskCall::Len, 1),
    (DiskCall::Write, 3),
    (DiskCall::Sync, 3),
];

#[test]
fn each_call_of_the_disk_fails_in_turn(rt: HostRuntime) -> Result<(), Fail> {
    let journal = journal(&rt)?;
    for (kind, calls) in SERIES {
        for nth in 1..=calls {
            let disk = FailDisk::new(rt.alloc(), journal.to_vec(rt.alloc())?, kind, nth);
            let ran = checkpoint(&rt, disk)?;
            assert!(rt;
                ran.status == Status::DiskFault && ran.text.is_empty(),
                "{kind:?} {nth}"
            );
            assert!(rt; goes_on(&rt, ran.disk.inner().bytes())?, "{kind:?} {nth}");
        }
        let disk = FailDisk::new(
            rt.alloc(),
            journal.to_vec(rt.alloc())?,
            kind,
            calls.saturating_add(1),
        );
        let ran = checkpoint(&rt, disk)?;
        assert!(rt;
            ran.status == Status::Done && ran.text.as_slice() == SAVED,
            "{kind:?}"
        );
    }
    Ok(())
}

#[test]
fn each_read_of_the_disk_fails_in_turn(rt: HostRuntime) -> Result<(), Fail> {
    let journal = journal(&rt)?;
    for nth in 1..100 {
        let disk = FailDisk::new(rt.alloc(), journal.to_vec(rt.alloc())?, DiskCall::Read, nth);
        let ran = checkpoint(&rt, disk)?;
        if ran.disk.faults() == 0 {
            assert!(rt; ran.status == Status::Done && ran.text.as_slice() == SAVED);
            return Ok(());
        }
        // A checkpoint reads the journal before it writes anything.
        assert!(rt;
            ran.status == Status::DiskFault && ran.text.is_empty(),
            "{nth}"
        );
        assert!(rt; ran.disk.inner().bytes() == journal.as_slice(), "{nth}");
    }
    assert!(rt; false, "a hundred reads");
    Ok(())
}

#[test]
fn the_disk_stops_after_each_number_of_calls(rt: HostRuntime) -> Result<(), Fail> {
    let journal = journal(&rt)?;
    for calls in 0..100 {
        let disk = FailDisk::stop_after(rt.alloc(), journal.to_vec(rt.alloc())?, calls);
        let ran = checkpoint(&rt, disk)?;
        for pick in PICKS {
            let mut image = Vec::new(rt.alloc());
            ran.disk.inner().crash(pick, &mut image)?;
            assert!(rt; goes_on(&rt, &image)?, "{calls}, image {pick}");
        }
        if ran.disk.faults() == 0 {
            assert!(rt; ran.status == Status::Done && ran.text.as_slice() == SAVED);
            return Ok(());
        }
        assert!(rt;
            ran.status == Status::DiskFault && ran.text.is_empty(),
            "{calls}"
        );
    }
    assert!(rt; false, "a hundred calls");
    Ok(())
}

#[test]
fn a_line_that_is_not_written_leaves_the_image(rt: HostRuntime) -> Result<(), Fail> {
    let disk = sound_disk(rt.alloc(), &journal(&rt)?)?;
    let ran = call(&rt, "checkpoint", b"", 5, (0, 2), disk)?;
    assert!(rt; ran.status == Status::WriteFault && ran.text.as_slice() == b"CHECK".as_slice());
    let again = checkpoint(&rt, sound_disk(rt.alloc(), ran.disk.inner().bytes())?)?;
    assert!(rt; again.status == Status::Done && again.text.as_slice() == NOTHING);
    Ok(())
}
