//! Sessions that overlap, on one store with a hypertable and an aggregate.
use crate::gates::{UntilBoth, UntilReply};
use crate::runs::run;
use std::process::Abort;
use std::sync::Wait;
use std::test::Fail;
use std::thread::Threads;
use ts_model::{Backend, Gate, NoGate};

/// A hypertable, and an aggregate over it.
const BASE: &[u8] = b"setup: CREATE TABLE m (time BIGINT NOT NULL, dev BIGINT, v BIGINT)
setup: SELECT create_hypertable('m', 'time', chunk_time_interval => 100)
setup: CREATE MATERIALIZED VIEW c WITH (timescaledb.continuous, timescaledb.materialized_only = false) AS SELECT time_bucket(10, time) AS b, count(*) AS n, sum(v) AS s FROM m GROUP BY b WITH NO DATA
";

const BASE_REPLIES: &[u8] = b"setup: TABLE @1
setup: HYPERTABLE @2
setup: VIEW @3
";

/// What lines after `BASE` print, and how many events the store has then.
fn after_base<R: Threads + Wait + Abort + Sync + AllocGlobal, G: Gate + Sync>(
    rt: &R,
    lines: &[u8],
    gate: &G,
) -> Result<(Vec<u8>, u64), Fail> {
    let mut input = BASE.to_vec(rt.alloc())?;
    input.extend_from_slice(lines)?;
    let end = run(rt, input.as_slice(), gate)?;
    let text = end
        .text
        .items()
        .strip_prefix(BASE_REPLIES)
        .ok_or("other replies of setup")?;
    Ok((text.to_vec(rt.alloc())?, end.backend.position()))
}

/// Two sessions, each of which adds a row and then queries it.
const TWO_INSERTS: &[u8] = b"a: INSERT INTO m VALUES (120, 1, 7)
a: SELECT * FROM m WHERE time = 120
b: INSERT INTO m VALUES (121, 1, 1)
b: SELECT * FROM m WHERE time = 121
";

/// The first row is the fourth event or the fifth. If it is the fourth, the first session may read before the fifth or
/// after it. The same is true of the second row and session.
const TWO_INSERTS_REPLIES: [&[u8]; 4] = [
    b"a: COMMIT @4 +1 -0
a: ANSWER @4 rows 1 stale 0
120|1|7
b: COMMIT @5 +1 -0
b: ANSWER @5 rows 1 stale 0
121|1|1
",
    b"a: COMMIT @4 +1 -0
a: ANSWER @5 rows 1 stale 0
120|1|7
b: COMMIT @5 +1 -0
b: ANSWER @5 rows 1 stale 0
121|1|1
",
    b"a: COMMIT @5 +1 -0
a: ANSWER @5 rows 1 stale 0
120|1|7
b: COMMIT @4 +1 -0
b: ANSWER @4 rows 1 stale 0
121|1|1
",
    b"a: COMMIT @5 +1 -0
a: ANSWER @5 rows 1 stale 0
120|1|7
b: COMMIT @4 +1 -0
b: ANSWER @5 rows 1 stale 0
121|1|1
",
];

#[test]
fn two_threads_each_commit_a_row(rt: HostRuntime) -> Result<(), Fail> {
    let (text, events) = after_base(&rt, TWO_INSERTS, &NoGate)?;
    assert!(rt; TWO_INSERTS_REPLIES.contains(&text.as_slice()));
    assert_eq!(rt; events, 5);
    Ok(())
}

/// A refresh, during which another session adds a row.
const REFRESH_AND_INSERT: &[u8] = b"setup: INSERT INTO m VALUES (120, 1, 7)
r: CALL refresh_continuous_aggregate('c', 100, 200)
w: INSERT INTO m VALUES (121, 1, 1)
final: SELECT * FROM c WHERE b >= 100
";

/// The row is added before the cut of the refresh, between the cut and its snapshot, or after that. Only in the last
/// case does the refresh miss it, and its bucket is stale.
const REFRESH_AND_INSERT_REPLIES: [&[u8]; 3] = [
    b"setup: COMMIT @4 +1 -0
r: REFRESH 6 @7 snap 6 100..200
w: COMMIT @5 +1 -0
final: ANSWER @7 rows 1 stale 0
120|2|8
",
    b"setup: COMMIT @4 +1 -0
r: REFRESH 5 @7 snap 6 100..200
w: COMMIT @6 +1 -0
final: ANSWER @7 rows 1 stale 0
120|2|8
",
    b"setup: COMMIT @4 +1 -0
r: REFRESH 5 @7 snap 5 100..200
w: COMMIT @6 +1 -0
final: ANSWER @7 rows 1 stale 1
120|1|7
stale 120..130
",
];

#[test]
fn a_commit_overlaps_a_refresh(rt: HostRuntime) -> Result<(), Fail> {
    let gate = UntilReply::new();
    let (text, events) = after_base(&rt, REFRESH_AND_INSERT, &gate)?;
    assert!(rt; gate.was_in_time());
    assert!(rt; REFRESH_AND_INSERT_REPLIES.contains(&text.as_slice()));
    assert_eq!(rt; events, 7);
    Ok(())
}

/// Two refreshes of the same range.
const TWO_REFRESHES: &[u8] = b"setup: INSERT INTO m VALUES (120, 1, 7)
r: CALL refresh_continuous_aggregate('c', 100, 200)
x: CALL refresh_continuous_aggregate('c', 100, 200)
final: SELECT * FROM c WHERE b >= 100
";

#[test]
fn two_refreshes_overlap(rt: HostRuntime) -> Result<(), Fail> {
    let gate = UntilBoth::new();
    let (text, events) = after_base(&rt, TWO_REFRESHES, &gate)?;
    assert!(rt; gate.was_in_time());
    let text = str::from_utf8(text.as_slice())?;
    // Each of the two has one of the cuts 5 and 6, and finishes at 7 or at 8.
    for part in [
        "r: REFRESH ",
        "x: REFRESH ",
        "REFRESH 5 @",
        "REFRESH 6 @",
        " @7 snap ",
        " @8 snap ",
    ] {
        assert!(rt; text.contains(part), "{part}");
    }
    assert!(rt; text.ends_with("final: ANSWER @8 rows 1 stale 0\n120|1|7\n"));
    assert_eq!(rt; events, 8);
    Ok(())
}
