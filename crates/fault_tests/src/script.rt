//! A script worked out manually: a refresh in one statement, one in phases with a row that comes between them, and
//! queries.

/// A statement, its reply, and how many events the history has after it.
pub(crate) type Row = (&'static [u8], &'static [u8], usize);

/// The statements in order.
pub(crate) const SCRIPT: [Row; 13] = [
    (
        b"a: CREATE TABLE m (time BIGINT NOT NULL, dev BIGINT, v BIGINT)\n",
        b"a: TABLE @1\n",
        1,
    ),
    (
        b"a: SELECT create_hypertable('m', 'time', chunk_time_interval => 100)\n",
        b"a: HYPERTABLE @2\n",
        2,
    ),
    (
        b"a: CREATE MATERIALIZED VIEW c WITH (timescaledb.continuous, timescaledb.materialized_only = false) AS SELECT time_bucket(10, time) AS b, count(*) AS n, sum(v) AS s FROM m GROUP BY b WITH NO DATA\n",
        b"a: VIEW @3\n",
        3,
    ),
    (
        b"a: INSERT INTO m VALUES (50, 1, 5), (120, 1, 7), (250, 1, 9)\n",
        b"a: COMMIT @4 +3 -0\n",
        4,
    ),
    (
        b"a: CALL refresh_continuous_aggregate('c', 100, 200)\n",
        b"a: REFRESH 5 @6 snap 5 100..200\n",
        6,
    ),
    (
        b"a: INSERT INTO m VALUES (121, 1, 1)\n",
        b"a: COMMIT @7 +1 -0\n",
        7,
    ),
    (b"r: REFRESH CUT 'c', 100, 200\n", b"r: CUT 8 100..200\n", 8),
    (b"r: REFRESH SNAP 8\n", b"r: SNAP 8 @8\n", 8),
    (
        b"w: INSERT INTO m VALUES (122, 1, 10)\n",
        b"w: COMMIT @9 +1 -0\n",
        9,
    ),
    (b"r: REFRESH FINISH 8\n", b"r: FINISH 8 @10 snap 8\n", 10),
    (
        b"q: SELECT * FROM c WHERE b >= 100 AND b < 200\n",
        b"q: ANSWER @10 rows 1 stale 1\n120|2|8\nstale 120..130\n",
        10,
    ),
    (
        b"r: CALL refresh_continuous_aggregate('c', 100, 200)\n",
        b"r: REFRESH 11 @12 snap 11 100..200\n",
        12,
    ),
    (
        b"q: SELECT * FROM c WHERE b >= 100 AND b < 200\n",
        b"q: ANSWER @12 rows 1 stale 0\n120|3|18\n",
        12,
    ),
];

/// The lines of the log of its events.
pub(crate) const LOG: [&[u8]; 12] = [
    b"@1 TABLE m time! dev v\n",
    b"@2 HYPER m time 100\n",
    b"@3 VIEW c m 10 0\n",
    b"@4 COMMIT ops 1\n",
    b"@5 CUT c 100..200\n",
    b"@6 BUILT 5 snap 5\n",
    b"@7 COMMIT ops 1\n",
    b"@8 CUT c 100..200\n",
    b"@9 COMMIT ops 1\n",
    b"@10 BUILT 8 snap 8\n",
    b"@11 CUT c 100..200\n",
    b"@12 BUILT 11 snap 11\n",
];
