//! The output of runs on an empty store.
ghost use Rattle.std.specs.Prelude.{◌≡◌, ◌≤◌, false, length, IsTrue};
ghost use Rattle.std.specs.Thread.{IsSync};
ghost use Rattle.ts_io.specs.declared.limits.TheConstants.{INPUT_LIMIT};
ghost use Rattle.ts_model.specs.States.{stands_still};

use crate::gates::Answered;
use engine_core::MemStore;
use par_run::{ParEnd, ParStop, par};
use std::alloc::Global;
use std::process::Abort;
use std::sync::Wait;
use std::test::Fail;
use std::thread::Threads;
use ts_io::INPUT_LIMIT;
use ts_model::{Backend, Gate, NoGate, Shown};
use ts_sessions::Session;

/// Runs sessions on a store that nobody else uses and that hasn't stopped.
pub(crate) fn run_sessions<B, R, G>(
    rt: &R,
    alloc: Global,
    backend: B,
    input: &[u8],
    gate: &G,
) -> ParEnd<B>
where
    B: Backend + Send,
    B::Shot: Send,
    <B::Shot as Shown>::Job: Send + Drop,
    G: Gate + Sync,
    R: Threads + Wait + Sync,
    requires sync { IsSync R.row }
    requires alone { IsTrue B.alone }
    requires going { stands_still (B.state backend) ≡ false }
    requires within { length input.now ≤ INPUT_LIMIT }
{
    par::<Session<B::Shot>, B, R, G>(rt, alloc, backend, input, gate)
}

/// Runs an input on an empty store in memory.
pub(crate) fn run<R: Threads + Wait + Abort + Sync + AllocGlobal, G: Gate + Sync>(
    rt: &R,
    input: &[u8],
    gate: &G,
) -> Result<ParEnd<MemStore>, Fail> {
    assert!(rt; input.len() <= INPUT_LIMIT);
    let store = MemStore::new(rt.alloc())?;
    Ok(run_sessions(rt, rt.alloc(), store, input, gate))
}

/// Inputs with what they print, whether a reply is a FAULT, and how many stored rows the answers read.
const RUNS: [(&[u8], &[u8], bool, u64); 4] = [
    (b"", b"", false, 0),
    (
        b"final: SELECT * FROM m
b: SELECT * FROM m
-- Lines of each session in order, whatever stands between them.
setup: CREATE TABLE m (time BIGINT NOT NULL, v BIGINT)
setup: SELECT create_hypertable('m', 'time', chunk_time_interval => 100)
a: SELECT * FROM m
setup: INSERT INTO m VALUES (1, 2)
b: BEGIN READ ONLY
b: COMMIT
",
        b"setup: TABLE @1
setup: HYPERTABLE @2
setup: COMMIT @3 +1 -0
b: ANSWER @3 rows 1 stale 0
1|2
b: BEGIN @3
b: END
a: ANSWER @3 rows 1 stale 0
1|2
final: ANSWER @3 rows 1 stale 0
1|2
",
        false,
        3,
    ),
    (
        b"setup: CREATE TABLE m (time BIGINT)\na: BEGIN\na: DELETE\n",
        b"setup: TABLE @1\na: BEGIN\na: FAULT E05 syntax at 10\n",
        true,
        0,
    ),
    (
        b"a: COMMIT\nSELECT\n",
        b"line 2: FAULT E03 no_session\na: FAULT E18 no_block\n",
        true,
        0,
    ),
];

#[test]
fn replies_stand_in_the_order_of_phases(rt: HostRuntime) -> Result<(), Fail> {
    for (input, text, fault, reads) in RUNS {
        let end = run(&rt, input, &NoGate)?;
        assert!(rt; end.text.items() == text);
        assert_eq!(rt;
            (end.stop, end.fault, end.reads),
            (ParStop::Done, fault, reads)
        );
    }
    Ok(())
}

#[test]
fn each_line_stands_with_its_reply(rt: HostRuntime) -> Result<(), Fail> {
    let end = run(
        &rt,
        b"final: SELECT * FROM m\nSELECT\n a: BEGIN -- here\na: COMMIT\n",
        &NoGate,
    )?;
    let mut kept = Vec::new(rt.alloc());
    for session in end.sessions.items() {
        kept.extend_from_slice(session.name.items())?;
        kept.push(b'\n')?;
        for exchange in session.replies.items() {
            kept.extend_from_slice(exchange.line.items())?;
            kept.push(b'|')?;
            kept.extend_from_slice(exchange.reply.items())?;
        }
    }
    let text: &[u8] = b"a
 a: BEGIN |a: BEGIN
a: COMMIT|a: COMMIT EMPTY
final
final: SELECT * FROM m|final: FAULT E06 no_relation @0
";
    assert!(rt; kept.as_slice() == text);
    assert_eq!(rt; end.start, 0);
    Ok(())
}

#[test]
fn a_hook_is_told_the_number_of_its_session(rt: HostRuntime) -> Result<(), Fail> {
    let hook = Answered::new();
    let end = run(
        &rt,
        b"final: COMMIT\nb: COMMIT\nb: COMMIT\nsetup: COMMIT\n",
        &hook,
    )?;
    // `setup` appeared third and runs first, `final` appeared first and runs last.
    assert_eq!(rt; (end.stop, hook.numbers()), (ParStop::Done, 2110));
    Ok(())
}
