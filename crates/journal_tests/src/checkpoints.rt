//! Tests of checkpoints by the bytes that they leave.
use std::alloc::Global;
use std::test::Fail;
use std::thread::Threads;
use ts_disk::{Disk, DiskCall, FailDisk, MemDisk};
use ts_schema::NoMemory;
use ts_store::{CheckEnd, Started, Store};
use txn_journal::Append;

/// The journal of one event, a table with two columns.
const ONE: [u8; 27] = [
    0x54, 0x53, 0x43, 0x54, 0x4c, 0x4a, 0x30, 0x31, 0x01, 0x0d, 0x00, 0x00, 0x00, 0x01, 0x01, 0x6d,
    0x02, 0x04, 0x74, 0x69, 0x6d, 0x65, 0x01, 0x01, 0x76, 0x00, 0x00,
];

/// `ONE` with the image of its history after it.
const SAVED: [u8; 78] = [
    0x54, 0x53, 0x43, 0x54, 0x4c, 0x4a, 0x30, 0x32, 0x01, 0x0d, 0x00, 0x00, 0x00, 0x01, 0x01, 0x6d,
    0x02, 0x04, 0x74, 0x69, 0x6d, 0x65, 0x01, 0x01, 0x76, 0x00, 0x01, 0x2e, 0x00, 0x00, 0x00, 0x08,
    0x01, 0x00, 0x00, 0x00, 0x00, 0x00, 0x00, 0x00, 0x01, 0x00, 0x00, 0x00, 0x0d, 0x00, 0x00, 0x00,
    0x01, 0x01, 0x6d, 0x02, 0x04, 0x74, 0x69, 0x6d, 0x65, 0x01, 0x01, 0x76, 0x00, 0x00, 0x00, 0x00,
    0x00, 0x00, 0x00, 0x00, 0x00, 0x00, 0x00, 0x00, 0x00, 0x00, 0x00, 0x00, 0x00, 0x00,
];

/// The end of a checkpoint, or the reason why the store didn't open its journal.
#[derive(Clone, Copy, Debug, PartialEq, Eq)]
enum CheckpointOutcome {
    Checkpoint(CheckEnd),
    Damaged(u64),
    DiskFault,
}

/// Writes a checkpoint of the store on a disk. Returns the disk and the outcome.
fn run_checkpoint<R: Threads + Sync, D: Disk + Drop>(
    rt: &R,
    alloc: Global,
    disk: D,
    most: u32,
) -> Result<(D, CheckpointOutcome), NoMemory> {
    let mut store = match Store::start(rt, alloc, disk) {
        Started::Ready(store) => store,
        Started::Damaged { disk, at } => return Ok((disk, CheckpointOutcome::Damaged(at))),
        Started::DiskFault(disk) => return Ok((disk, CheckpointOutcome::DiskFault)),
        Started::NoMemory(_) => return Err(NoMemory),
    };
    match store.arm() {
        Append::Done => {
            let saved = store.checkpoint(most as u64);
            Ok((saved.disk, CheckpointOutcome::Checkpoint(saved.end)))
        }
        Append::DiskFault | Append::Stopped => Ok((store.close(), CheckpointOutcome::DiskFault)),
    }
}

/// A disk in memory with these bytes.
fn disk_of(alloc: Global, bytes: &[u8]) -> Result<MemDisk, NoMemory> {
    Ok(MemDisk::new(alloc, Vec::from_slice(alloc, bytes)?))
}

#[test]
fn an_image_is_put_behind_its_journal(rt: HostRuntime) -> Result<(), Fail> {
    let alloc = rt.alloc();
    let (disk, end) = run_checkpoint(&rt, alloc, disk_of(alloc, &ONE)?, 46)?;
    assert_eq!(rt;
        end,
        CheckpointOutcome::Checkpoint(CheckEnd::Done { pos: 1, bytes: 46 })
    );
    assert_eq!(rt; disk.bytes(), SAVED.as_slice());
    let (disk, end) = run_checkpoint(&rt, alloc, disk, 46)?;
    assert_eq!(rt;
        end,
        CheckpointOutcome::Checkpoint(CheckEnd::Nothing { pos: 1 })
    );
    assert_eq!(rt; disk.bytes(), SAVED.as_slice());
    Ok(())
}

#[test]
fn an_image_that_is_too_long_is_not_put(rt: HostRuntime) -> Result<(), Fail> {
    let alloc = rt.alloc();
    let (disk, end) = run_checkpoint(&rt, alloc, disk_of(alloc, &ONE)?, 45)?;
    assert_eq!(rt;
        end,
        CheckpointOutcome::Checkpoint(CheckEnd::TooLong { pos: 1, bytes: 46 })
    );
    assert_eq!(rt; disk.bytes(), ONE.as_slice());
    Ok(())
}

#[test]
fn each_failing_call_leaves_the_history_or_its_image(rt: HostRuntime) -> Result<(), Fail> {
    let alloc = rt.alloc();
    for kind in [
        DiskCall::Len,
        DiskCall::Read,
        DiskCall::Write,
        DiskCall::Sync,
    ] {
        for nth in 1..9 {
            let bytes = Vec::from_slice(alloc, &ONE)?;
            let failing = FailDisk::new(alloc, bytes, kind, nth);
            let (disk, end) = run_checkpoint(&rt, alloc, failing, 46)?;
            let done = end == CheckpointOutcome::Checkpoint(CheckEnd::Done { pos: 1, bytes: 46 });
            assert_eq!(rt; done, disk.faults() == 0, "call {nth}");
            for pick in 0..4 {
                let mut image = Vec::new(alloc);
                disk.inner().crash(pick, &mut image)?;
                let (_disk, again) = run_checkpoint(&rt, alloc, MemDisk::new(alloc, image), 46)?;
                let sound = again
                    == CheckpointOutcome::Checkpoint(CheckEnd::Done { pos: 1, bytes: 46 })
                    || again == CheckpointOutcome::Checkpoint(CheckEnd::Nothing { pos: 1 });
                assert_eq!(rt; sound, true, "call {nth}, image {pick}");
            }
        }
    }
    Ok(())
}
