//! A run on a disk that fails.
use crate::runs::run_sessions;
use par_run::ParStop;
use std::test::Fail;
use ts_disk::{DiskCall, FailDisk};
use ts_model::{Backend, NoGate};
use ts_store::{Started, Store};

// The third sync is the last one that the first event needs.
#[test]
fn a_store_that_stopped_stands_still_for_all(rt: HostRuntime) -> Result<(), Fail> {
    let disk = FailDisk::new(rt.alloc(), Vec::new(rt.alloc()), DiskCall::Sync, 3);
    let Started::Ready(store) = Store::start(&rt, rt.alloc(), disk) else {
        return Err("no store".into());
    };
    let input = b"setup: CREATE TABLE m (time BIGINT)\na: CREATE TABLE k (time BIGINT)\n";
    let end = run_sessions(&rt, rt.alloc(), store, input, &NoGate);
    let text = b"setup: FAULT E24 stopped @0\na: FAULT E24 stopped @0\n";
    assert!(rt; end.text.items() == text.as_slice());
    assert_eq!(rt; (end.stop, end.fault), (ParStop::DiskFault, true));
    assert_eq!(rt; end.backend.stopped(), Some(0));
    Ok(())
}
