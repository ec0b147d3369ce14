//! A parallel run whose disk fails at an event of one session: the store has stopped for the other sessions.
use crate::calls::{ALL, call};
use std::test::Fail;
use ts_disk::{DiskCall, FailDisk};
use ts_top::Status;

const INPUT: &[u8] = b"setup: CREATE TABLE m (time BIGINT)
a: CREATE TABLE k (time BIGINT)
";

const REPLIES: &[u8] = b"setup: FAULT E24 stopped @0
a: FAULT E24 stopped @0
";

// The header takes a sync and each event two, so the third is the last of the first event.
#[test]
fn a_store_that_stopped_stands_still_for_each_session(rt: HostRuntime) -> Result<(), Fail> {
    let disk = FailDisk::new(rt.alloc(), Vec::new(rt.alloc()), DiskCall::Sync, 3);
    let ran = call(&rt, "par", INPUT, ALL, (0, 0), disk)?;
    assert!(rt; ran.text.as_slice() == REPLIES);
    assert!(rt; ran.status == Status::DiskFault);
    Ok(())
}
