//! A run whose source or sink fails at each of its calls in turn.
use crate::calls::{call, lines, sound_disk, stands_for};
use crate::script::SCRIPT;
use std::sync::Wait;
use std::test::Fail;
use std::thread::Threads;
use ts_top::Status;

/// Whether a run of the script ends with this status after the statements of this many lines. The read with this number
/// fails, and reads have at most 7 bytes.
fn ends_after<R: Threads + Wait + Sync + AllocGlobal>(
    rt: &R,
    input: &[u8],
    nth: u64,
    status: Status,
    lines: usize,
) -> Result<bool, Fail> {
    let mut text = Vec::new(rt.alloc());
    let mut events = 0;
    for (_, reply, position) in SCRIPT.iter().take(lines) {
        text.extend_from_slice(reply)?;
        events = *position;
    }
    let disk = sound_disk(rt.alloc(), b"")?;
    let ran = call(rt, "run", input, 7, (nth, 0), disk)?;
    let kept = stands_for(rt, ran.disk.inner().bytes(), events)?;
    Ok(ran.status == status && ran.text == text && kept)
}

#[test]
fn each_read_fails_in_turn(rt: HostRuntime) -> Result<(), Fail> {
    let input = lines(rt.alloc(), 0, SCRIPT.len())?;
    let mut nth = 1_u64;
    let mut whole = 0_usize;
    for piece in input.chunks(7) {
        assert!(rt;
            ends_after(&rt, &input, nth, Status::ReadFault, whole)?,
            "{nth}"
        );
        nth = nth.saturating_add(1);
        whole = whole.saturating_add(piece.iter().filter(|byte| **byte == b'\n').count());
    }
    // One more read reports the end of the source.
    assert!(rt; ends_after(&rt, &input, nth, Status::ReadFault, whole)?);
    assert!(rt; ends_after(&rt, &input, nth.saturating_add(1), Status::Done, whole)?);
    assert_eq!(rt; (nth, whole), (105, SCRIPT.len()));
    Ok(())
}

#[test]
fn each_write_fails_in_turn(rt: HostRuntime) -> Result<(), Fail> {
    let input = lines(rt.alloc(), 0, SCRIPT.len())?;
    let mut nth = 0_u64;
    let mut text = Vec::new(rt.alloc());
    for (_, reply, events) in SCRIPT {
        for piece in reply.chunks(5) {
            nth = nth.saturating_add(1);
            let disk = sound_disk(rt.alloc(), b"")?;
            let ran = call(&rt, "run", &input, 5, (0, nth), disk)?;
            assert_eq!(rt; ran.status, Status::WriteFault);
            assert!(rt; ran.text == text, "{nth}");
            // The journal has the event of the statement whose reply was being written.
            assert!(rt; stands_for(&rt, ran.disk.inner().bytes(), events)?);
            text.extend_from_slice(piece)?;
        }
    }
    assert_eq!(rt; nth, 67);
    Ok(())
}
