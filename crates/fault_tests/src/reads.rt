//! How many stored rows runs read, worked out manually.
use crate::calls::{ALL, call, sound_disk};
use std::test::Fail;
use ts_top::Status;

/// Scripts in order on one journal, and how many stored rows each reads. A refresh reads the rows in chunks that
/// overlap a stale range. A query of an aggregate reads the rows in chunks that overlap a bucket at or above the
/// watermark.
const READS: [(&[u8], u64); 9] = [
    (
        b"a: CREATE TABLE m (time BIGINT NOT NULL, dev BIGINT, v BIGINT)
a: SELECT create_hypertable('m', 'time', chunk_time_interval => 100)
a: CREATE MATERIALIZED VIEW c WITH (timescaledb.continuous, timescaledb.materialized_only = false) AS SELECT time_bucket(10, time) AS b, count(*) AS n, sum(v) AS s FROM m GROUP BY b WITH NO DATA
",
        0,
    ),
    (
        b"a: INSERT INTO m VALUES (50, 1, 5), (120, 1, 7), (250, 1, 9)
a: CALL refresh_continuous_aggregate('c', 100, 200)
",
        1,
    ),
    (b"q: SELECT * FROM c\n", 2),
    (b"q: SELECT * FROM m\n", 3),
    (
        b"a: INSERT INTO m VALUES (121, 1, 1)
r: REFRESH CUT 'c', 100, 200
r: REFRESH SNAP 8
",
        2,
    ),
    (
        b"w: INSERT INTO m VALUES (122, 1, 10)
r: CALL refresh_continuous_aggregate('c', 100, 200)
",
        3,
    ),
    (b"r: CALL refresh_continuous_aggregate('c', 100, 200)\n", 0),
    (
        b"a: ALTER MATERIALIZED VIEW c SET (timescaledb.materialized_only = true)\n",
        0,
    ),
    (b"q: SELECT * FROM c\n", 0),
];

#[test]
fn each_run_tells_the_rows_that_it_looked_at(rt: HostRuntime) -> Result<(), Fail> {
    let mut journal = Vec::new(rt.alloc());
    for (script, reads) in READS {
        let disk = sound_disk(rt.alloc(), &journal)?;
        let run = call(&rt, "run", script, ALL, (0, 0), disk)?;
        assert_eq!(rt; run.status, Status::Done);
        assert_eq!(rt; run.reads, reads);
        journal = run.disk.inner().bytes().to_vec(rt.alloc())?;
    }
    Ok(())
}
