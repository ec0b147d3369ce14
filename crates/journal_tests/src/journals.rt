use std::alloc::Global;
use std::test::Fail;
use ts_disk::{Disk, DiskCall, FailDisk, MemDisk};
use ts_schema::{NoMemory, Seq};
use txn_journal::*;

/// The journal of one event, a table with two columns.
const ONE: [u8; 27] = [
    0x54, 0x53, 0x43, 0x54, 0x4c, 0x4a, 0x30, 0x31, 0x01, 0x0d, 0x00, 0x00, 0x00, 0x01, 0x01, 0x6d,
    0x02, 0x04, 0x74, 0x69, 0x6d, 0x65, 0x01, 0x01, 0x76, 0x00, 0x00,
];

/// The bytes that a second event of 17 bytes appends to `ONE`.
const MORE: [u8; 22] = [
    0x11, 0x00, 0x00, 0x00, 0x02, 0x00, 0x00, 0x00, 0x00, 0x00, 0x00, 0x00, 0x00, 0x64, 0x00, 0x00,
    0x00, 0x00, 0x00, 0x00, 0x00, 0x00,
];

/// How many payloads a journal has, and where it is damaged.
#[derive(Clone, Copy, Debug, PartialEq, Eq)]
struct ReadCounts {
    payloads: usize,
    damaged: Option<u64>,
}

/// The result of reading a journal that isn't damaged.
fn sound_journal(payloads: usize) -> ReadCounts {
    ReadCounts {
        payloads,
        damaged: None,
    }
}

/// The result of reading a journal that is damaged at a place.
fn damaged_journal(payloads: usize, at: u64) -> ReadCounts {
    ReadCounts {
        payloads,
        damaged: Some(at),
    }
}

/// Reads a journal with these bytes.
fn read_journal(alloc: Global, bytes: &[u8]) -> Result<ReadCounts, NoMemory> {
    let disk = MemDisk::new(alloc, Vec::from_slice(alloc, bytes)?);
    match recover(alloc, disk) {
        Recovered::Ready { payloads, .. } => Ok(sound_journal(payloads.len())),
        Recovered::Damaged { payloads, at, .. } => Ok(damaged_journal(payloads.len(), at)),
        Recovered::DiskFault(_) | Recovered::NoMemory(_) => Err(NoMemory),
    }
}

/// The bytes of two events, with a byte changed.
fn changed_bytes(alloc: Global, at: usize, byte: u8) -> Result<Vec<u8>, NoMemory> {
    let mut bytes = Vec::from_slice(alloc, &ONE)?;
    bytes.extend_from_slice(&MORE)?;
    if let Some(place) = bytes.get_mut(26) {
        *place = 1;
    }
    if let Some(place) = bytes.get_mut(at) {
        *place = byte;
    }
    Ok(bytes)
}

#[test]
fn an_event_is_appended_to_an_empty_disk(rt: HostRuntime) -> Result<(), Fail> {
    let alloc = rt.alloc();
    let disk = MemDisk::new(alloc, Vec::new(alloc));
    let Recovered::Ready {
        mut journal,
        payloads,
    } = recover(alloc, disk)
    else {
        return Err(Fail::new("the disk is empty"));
    };
    assert_eq!(rt; payloads.len(), 0);
    let armed = journal.arm();
    assert_eq!(rt; armed, Append::Done);
    let payload = Seq::of(Vec::from_slice(alloc, &ONE[13..26])?);
    let framed = frame(alloc, &payload)?;
    let appended = journal.append(&framed);
    assert_eq!(rt; appended, Append::Done);
    let disk = journal.close();
    assert_eq!(rt; disk.bytes(), ONE.as_slice());
    Ok(())
}

#[test]
fn payloads_are_read_one_at_a_time(rt: HostRuntime) -> Result<(), Fail> {
    let alloc = rt.alloc();
    let disk = MemDisk::new(alloc, changed_bytes(alloc, 100, 0)?);
    let OpenOutcome::Reading(mut reader) = Reader::open(alloc, disk) else {
        return Err(Fail::new("it begins as a journal"));
    };
    let first = reader.next();
    assert_eq!(rt; first, Next::Payload(8));
    assert_eq!(rt; reader.payload(), &ONE[13..26]);
    let second = reader.next();
    assert_eq!(rt; second, Next::Payload(26));
    assert_eq!(rt; reader.payload(), &MORE[4..21]);
    let end = reader.next();
    assert_eq!(rt; end, Next::End);
    Ok(())
}

/// The frame of `n` bytes, each of them `n`.
fn frame_of(alloc: Global, n: u8) -> Result<Frame, NoMemory> {
    frame(alloc, &Seq::of(vec![in alloc; n; n as usize]?))
}

/// Appends ten payloads of zero to nine bytes to a disk. Returns the disk and the last result.
fn append_ten<D: Disk + Drop>(alloc: Global, disk: D) -> Result<(D, Append), NoMemory> {
    let mut journal = match recover(alloc, disk) {
        Recovered::Ready { journal, .. } => journal,
        Recovered::Damaged { disk, .. } => return Ok((disk, Append::Stopped)),
        Recovered::DiskFault(disk) => return Ok((disk, Append::DiskFault)),
        Recovered::NoMemory(_) => return Err(NoMemory),
    };
    let mut last = journal.arm();
    for n in 0..10 {
        let framed = frame_of(alloc, n)?;
        if last == Append::Done {
            last = journal.append(&framed);
        }
    }
    Ok((journal.close(), last))
}

/// Whether each of eight crash images of a disk is a journal without damage.
fn images_are_read(alloc: Global, disk: &MemDisk) -> Result<bool, NoMemory> {
    for pick in 0..4 {
        for half in [0, 1 << 63] {
            let mut image = Vec::new(alloc);
            disk.crash(pick + half, &mut image)?;
            if read_journal(alloc, &image)?.damaged.is_some() {
                return Ok(false);
            }
        }
    }
    Ok(true)
}

#[test]
fn a_failing_call_of_each_kind_leaves_a_sound_journal(rt: HostRuntime) -> Result<(), Fail> {
    let alloc = rt.alloc();
    for kind in [
        DiskCall::Len,
        DiskCall::Read,
        DiskCall::Write,
        DiskCall::Sync,
    ] {
        for nth in 1..24 {
            let disk = FailDisk::new(alloc, Vec::new(alloc), kind, nth);
            let (disk, last) = append_ten(alloc, disk)?;
            let want = if disk.faults() == 0 {
                Append::Done
            } else {
                Append::DiskFault
            };
            assert_eq!(rt; last, want, "call {nth}");
            let sound = images_are_read(alloc, disk.inner())?;
            assert_eq!(rt; sound, true);
        }
    }
    Ok(())
}

#[test]
fn a_stop_after_each_call_leaves_a_sound_journal(rt: HostRuntime) -> Result<(), Fail> {
    let alloc = rt.alloc();
    for calls in 0..46 {
        let disk = FailDisk::stop_after(alloc, Vec::new(alloc), calls);
        let (disk, _last) = append_ten(alloc, disk)?;
        let sound = images_are_read(alloc, disk.inner())?;
        assert_eq!(rt; sound, true, "after {calls} calls");
    }
    Ok(())
}

#[test]
fn a_journal_that_stopped_takes_nothing(rt: HostRuntime) -> Result<(), Fail> {
    let alloc = rt.alloc();
    let disk = FailDisk::new(alloc, Vec::new(alloc), DiskCall::Sync, 2);
    let Recovered::Ready { mut journal, .. } = recover(alloc, disk) else {
        return Err(Fail::new("the disk is empty"));
    };
    let framed = frame(alloc, &Seq::of(Vec::new(alloc)))?;
    let answers = [
        journal.arm(),
        journal.append(&framed),
        journal.append(&framed),
        journal.arm(),
    ];
    assert_eq!(rt;
        answers,
        [
            Append::Done,
            Append::DiskFault,
            Append::Stopped,
            Append::Stopped
        ]
    );
    Ok(())
}

/// The bytes of two payloads in a journal with this version byte. The second payload begins with the byte 8.
fn with_base(alloc: Global, mark: u8) -> Result<Vec<u8>, NoMemory> {
    let mut bytes = changed_bytes(alloc, 31, 8)?;
    if let Some(place) = bytes.get_mut(7) {
        *place = mark;
    }
    Ok(bytes)
}

#[test]
fn a_base_is_told_from_other_payloads(rt: HostRuntime) -> Result<(), Fail> {
    let alloc = rt.alloc();
    let disk = MemDisk::new(alloc, with_base(alloc, 0x32)?);
    let OpenOutcome::Reading(mut reader) = Reader::open(alloc, disk) else {
        return Err(Fail::new("it begins as a journal"));
    };
    let first = reader.next();
    assert_eq!(rt; first, Next::Base(26));
    assert_eq!(rt; reader.payload().len(), 17);
    let end = reader.next();
    assert_eq!(rt; end, Next::End);
    Ok(())
}

/// Appends a payload, raises the version, and appends a base and one more payload. Returns the disk and the last
/// result.
fn append_base<D: Disk + Drop>(alloc: Global, disk: D) -> Result<(D, Append), NoMemory> {
    let mut journal = match recover(alloc, disk) {
        Recovered::Ready { journal, .. } => journal,
        Recovered::Damaged { disk, .. } => return Ok((disk, Append::Stopped)),
        Recovered::DiskFault(disk) => return Ok((disk, Append::DiskFault)),
        Recovered::NoMemory(_) => return Err(NoMemory),
    };
    let three = frame_of(alloc, 3)?;
    let eight = frame_of(alloc, 8)?;
    let five = frame_of(alloc, 5)?;
    let _armed = journal.arm();
    let _appended = journal.append(&three);
    let _raised = journal.raise_version();
    let _based = journal.append(&eight);
    let last = journal.append(&five);
    Ok((journal.close(), last))
}

#[test]
fn a_base_takes_the_place_of_what_stands_before_it(rt: HostRuntime) -> Result<(), Fail> {
    let alloc = rt.alloc();
    let (disk, last) = append_base(alloc, MemDisk::new(alloc, Vec::new(alloc)))?;
    assert_eq!(rt; last, Append::Done);
    let Recovered::Ready {
        mut journal,
        payloads,
    } = recover(alloc, disk)
    else {
        return Err(Fail::new("it is sound"));
    };
    assert_eq!(rt; journal.version(), 2);
    let mut places = Vec::new(alloc);
    for payload in payloads.items() {
        places.push(payload.at)?;
    }
    assert_eq!(rt; places.as_slice(), [16, 29].as_slice());
    let armed = journal.arm();
    assert_eq!(rt; armed, Append::Done);
    let raised = journal.raise_version();
    assert_eq!(rt; raised, Append::Done);
    Ok(())
}

#[test]
fn a_journal_is_sound_whichever_call_fails_as_its_version_is_raised(
    rt: HostRuntime,
) -> Result<(), Fail> {
    let alloc = rt.alloc();
    for kind in [
        DiskCall::Len,
        DiskCall::Read,
        DiskCall::Write,
        DiskCall::Sync,
    ] {
        for nth in 1..12 {
            let disk = FailDisk::new(alloc, Vec::new(alloc), kind, nth);
            let (disk, last) = append_base(alloc, disk)?;
            let done = last == Append::Done;
            assert_eq!(rt; done, disk.faults() == 0, "call {nth}");
            let sound = images_are_read(alloc, disk.inner())?;
            assert_eq!(rt; sound, true);
        }
    }
    for calls in 0..24 {
        let disk = FailDisk::stop_after(alloc, Vec::new(alloc), calls);
        let (disk, _last) = append_base(alloc, disk)?;
        let sound = images_are_read(alloc, disk.inner())?;
        assert_eq!(rt; sound, true, "after {calls} calls");
    }
    Ok(())
}
