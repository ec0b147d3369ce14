//! A tick whose disk fails at the first event of its statements.
use crate::calls::{ALL, call};
use std::test::Fail;
use ts_disk::{DiskCall, FailDisk};
use ts_top::Status;

const INPUT: &[u8] = b"setup: CREATE TABLE m (time BIGINT NOT NULL, dev BIGINT, v BIGINT)
setup: SELECT create_hypertable('m', 'time', chunk_time_interval => 100)
setup: CREATE MATERIALIZED VIEW c WITH (timescaledb.continuous) AS SELECT time_bucket(10, time) AS b, count(*) AS n FROM m GROUP BY b WITH NO DATA
setup: INSERT INTO m VALUES (120, 1, 7)
p: SELECT add_continuous_aggregate_policy('c', start_offset => 200, end_offset => 10, schedule_interval => 50)
p: SELECT add_retention_policy('m', drop_after => 100)
p: TICK 250
";

const BEFORE: &[u8] = b"setup: TABLE @1
setup: HYPERTABLE @2
setup: VIEW @3
setup: COMMIT @4 +1 -0
p: POLICY 1 @4
p: POLICY 2 @4
";

const TICK: &[u8] = b"p: TICK 250 due 2
p: FAULT E24 stopped @4
p: FAULT E24 stopped @4
";

// The header takes a sync and each event two, so the tenth is the first of the fifth event. `run` writes no part of the
// reply to the line with the fault. In a parallel run each due statement has a reply.
#[test]
fn a_tick_meets_a_disk_that_fails(rt: HostRuntime) -> Result<(), Fail> {
    for (word, tick) in [("run", b"".as_slice()), ("par", TICK)] {
        let disk = FailDisk::new(rt.alloc(), Vec::new(rt.alloc()), DiskCall::Sync, 10);
        let ran = call(&rt, word, INPUT, ALL, (0, 0), disk)?;
        let mut text = BEFORE.to_vec(rt.alloc())?;
        text.extend_from_slice(tick)?;
        assert!(rt; ran.text == text, "{word}");
        assert!(rt; ran.status == Status::DiskFault, "{word}");
    }
    Ok(())
}
