use std::alloc::Global;
use std::test::Fail;
use ts_disk::*;

/// A disk on an empty file, which fails at the call with this number.
fn failing_disk(alloc: Global, fails_at: u64) -> FileDisk<FailFile> {
    FileDisk::new(FailFile::new(Vec::new(alloc), fails_at))
}

/// Which of five calls of a disk succeed. They make 70 calls of an empty file: a write; a write, the length and 64
/// writes of zeros; the length; a read; a sync.
fn five_calls(disk: &mut FileDisk<FailFile>) -> [bool; 5] {
    let mut into = [0; 4];
    [
        disk.write_at(0, b"head").is_ok(),
        disk.write_at(4, b"tail").is_ok(),
        disk.len().is_ok(),
        disk.read_at(0, &mut into).is_ok(),
        disk.sync().is_ok(),
    ]
}

#[test]
fn a_call_of_a_file_that_fails_is_told_once(rt: HostRuntime) -> Result<(), Fail> {
    for (number, want, syncs) in [
        (1, [false, true, true, true, true], 1),
        (2, [true, false, true, true, true], 1),
        (3, [true, false, true, true, true], 1),
        (4, [true, false, true, true, true], 1),
        (67, [true, false, true, true, true], 1),
        (68, [true, true, false, true, true], 1),
        (69, [true, true, true, false, true], 1),
        (70, [true, true, true, true, false], 0),
    ] {
        let mut disk = failing_disk(rt.alloc(), number);
        let answers = five_calls(&mut disk);
        assert_eq!(rt; answers, want, "{number}");
        assert_eq!(rt; disk.faults(), 1, "{number}");
        assert_eq!(rt; disk.file().failures(), 1, "{number}");
        assert_eq!(rt; disk.file().syncs(), syncs, "{number}");
    }
    Ok(())
}

#[test]
fn a_file_grows_by_zeros(rt: HostRuntime) -> Result<(), Fail> {
    let mut disk = failing_disk(rt.alloc(), 0);
    let answers = five_calls(&mut disk);
    assert_eq!(rt; answers, [true; 5]);
    let bytes = disk.file().bytes();
    assert!(rt; bytes.starts_with(b"headtail\0"));
    assert_eq!(rt; bytes.len(), 1 << 18);
    Ok(())
}

#[test]
fn a_write_within_a_file_leaves_the_rest(rt: HostRuntime) -> Result<(), Fail> {
    let bytes = b"abcdefgh".to_vec(rt.alloc())?;
    let mut disk = FileDisk::new(FailFile::new(bytes, 0));
    let wrote = disk.write_at(2, b"XY");
    assert_eq!(rt; wrote, Ok(()));
    assert_eq!(rt; disk.file().bytes(), b"abXYefgh".as_slice());
    Ok(())
}
