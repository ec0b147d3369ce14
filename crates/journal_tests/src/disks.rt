use std::alloc::{AllocError, Global};
use std::fs::{self, File};
use std::io;
use std::test::Fail;
use ts_disk::*;

/// A disk of eight bytes with two writes since the last sync: `XY` at byte 2, `12345` at byte 7.
fn written_disk(alloc: Global) -> Result<MemDisk, AllocError> {
    let mut disk = MemDisk::new(alloc, b"abcdefgh".to_vec(alloc)?);
    let _first = disk.write_at(2, b"XY");
    let _second = disk.write_at(7, b"12345");
    Ok(disk)
}

#[test]
fn reads_give_what_was_written(rt: HostRuntime) -> Result<(), Fail> {
    let mut disk = written_disk(rt.alloc())?;
    assert_eq!(rt; disk.bytes(), b"abXYefg12345".as_slice());
    let len = disk.len();
    assert_eq!(rt; len, Ok(12));
    let mut into = [0; 4];
    let read = disk.read_at(6, &mut into);
    assert_eq!(rt; read, Ok(()));
    assert_eq!(rt; into.as_slice(), b"g123".as_slice());
    assert_eq!(rt; disk.faults(), 0);
    Ok(())
}

#[test]
fn a_crash_keeps_the_writes_that_are_picked(rt: HostRuntime) -> Result<(), Fail> {
    let disk = written_disk(rt.alloc())?;
    let half = 1 << 63;
    for (pick, image) in [
        (0, b"abcdefgh".as_slice()),
        (1, b"abXYefgh".as_slice()),
        (2, b"abcdefg12345".as_slice()),
        (3, b"abXYefg12345".as_slice()),
        (half, b"abcdefgh".as_slice()),
        (half + 1, b"abXdefgh".as_slice()),
        (half + 2, b"abcdefg123".as_slice()),
        (half + 3, b"abXYefg123".as_slice()),
    ] {
        let mut out = Vec::new(rt.alloc());
        let done = disk.crash(pick, &mut out);
        assert_eq!(rt; done, Ok(()), "{pick}");
        assert_eq!(rt; out.as_slice(), image);
    }
    Ok(())
}

#[test]
fn a_gap_in_an_image_is_filled_with_zeros(rt: HostRuntime) -> Result<(), Fail> {
    let mut disk = MemDisk::new(rt.alloc(), Vec::new(rt.alloc()));
    let wrote = disk.write_at(0, b"ab");
    assert_eq!(rt; wrote, Ok(()));
    let wrote = disk.write_at(2, b"cd");
    assert_eq!(rt; wrote, Ok(()));
    let mut out = Vec::new(rt.alloc());
    let done = disk.crash(2, &mut out);
    assert_eq!(rt; done, Ok(()));
    assert_eq!(rt; out.as_slice(), b"\0\0cd".as_slice());
    Ok(())
}

#[test]
fn a_sync_leaves_one_image(rt: HostRuntime) -> Result<(), Fail> {
    let mut disk = written_disk(rt.alloc())?;
    let synced = disk.sync();
    assert_eq!(rt; synced, Ok(()));
    for pick in [0, 3, 1 << 63] {
        let mut out = Vec::new(rt.alloc());
        let done = disk.crash(pick, &mut out);
        assert_eq!(rt; done, Ok(()), "{pick}");
        assert_eq!(rt; out.as_slice(), b"abXYefg12345".as_slice());
    }
    Ok(())
}

/// Which of four calls succeed, and how many calls the disk has counted as failed.
fn four_calls(disk: &mut FailDisk) -> ([bool; 4], u64) {
    let mut into: [u8; 0] = [];
    let answers = [
        disk.len().is_ok(),
        disk.read_at(0, &mut into).is_ok(),
        disk.write_at(0, b"b").is_ok(),
        disk.sync().is_ok(),
    ];
    (answers, disk.faults())
}

#[test]
fn one_call_of_a_kind_fails_and_the_disk_goes_on(rt: HostRuntime) -> Result<(), Fail> {
    for (kind, want) in [
        (DiskCall::Len, [false, true, true, true]),
        (DiskCall::Read, [true, false, true, true]),
        (DiskCall::Write, [true, true, false, true]),
        (DiskCall::Sync, [true, true, true, false]),
    ] {
        let bytes = b"a".to_vec(rt.alloc())?;
        let mut disk = FailDisk::new(rt.alloc(), bytes, kind, 2);
        let first = four_calls(&mut disk);
        assert_eq!(rt; first, ([true; 4], 0));
        let second = four_calls(&mut disk);
        assert_eq!(rt; second, (want, 1));
        let third = four_calls(&mut disk);
        assert_eq!(rt; third, ([true; 4], 1));
    }
    Ok(())
}

#[test]
fn a_disk_that_stopped_fails_each_call(rt: HostRuntime) -> Result<(), Fail> {
    for (calls, want) in [
        (0, [false; 4]),
        (2, [true, true, false, false]),
        (3, [true, true, true, false]),
        (4, [true; 4]),
    ] {
        let bytes = b"a".to_vec(rt.alloc())?;
        let mut disk = FailDisk::stop_after(rt.alloc(), bytes, calls);
        let first = four_calls(&mut disk);
        assert_eq!(rt; first, (want, 4 - calls.min(4)));
        let second = four_calls(&mut disk);
        assert_eq!(rt; second, ([false; 4], 8 - calls));
        let written = if calls > 2 { b"b" } else { b"a" };
        assert_eq!(rt; disk.inner().bytes(), written.as_slice());
    }
    Ok(())
}

const FILE: &str = "ts_disk_test.tmp";

/// Opens the file of the test.
fn open(rt: &HostRuntime) -> io::Result<FileDisk<File>> {
    let mut options = File::options();
    options.read(true).write(true).create(true);
    Ok(FileDisk::new(options.open(rt, FILE)?))
}

#[test]
fn a_file_keeps_what_was_written(rt: HostRuntime) -> Result<(), Fail> {
    let mut disk = open(&rt)?;
    let wrote = disk.write_at(0, b"header");
    assert_eq!(rt; wrote, Ok(()));
    let len = disk.len();
    assert_eq!(rt; len, Ok(6));
    let wrote = disk.write_at(6, b" and more");
    assert_eq!(rt; wrote, Ok(()));
    let synced = disk.sync();
    assert_eq!(rt; synced, Ok(()));
    drop(disk);
    let mut again = open(&rt)?;
    let mut into = [0; 16];
    let read = again.read_at(0, &mut into);
    assert_eq!(rt; read, Ok(()));
    assert_eq!(rt; into.as_slice(), b"header and more\0".as_slice());
    let read = again.read_at(1 << 40, &mut into);
    assert_eq!(rt; read, Err(Failed));
    assert_eq!(rt; again.faults(), 1);
    fs::remove_file(&rt, FILE)?;
    Ok(())
}
