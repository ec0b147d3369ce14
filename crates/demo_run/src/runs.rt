//! Runs the script on an empty store.
ghost use Rattle.std.specs.Prelude.{◌≡◌, ◌≢◌, ◌≤◌, None, true, false, length, IfOk, IfSome, IsSomeAnd};
ghost use Rattle.ts_io.specs.declared.limits.TheConstants.{INPUT_LIMIT};
ghost use Rattle.ts_model.specs.History.{start};
ghost use Rattle.ts_store.specs.Stores.{history_seen};
ghost use Rattle.script_run.specs.Runs.{executed_lines};
ghost use Rattle.script_run.specs.declared.ends.RunEnd.TheVariants as ends;
ghost use Rattle.demo_script.specs.Demo.{demo_lines};
ghost use Rattle.demo_run.specs.Runs.{RanLines, is_whole};

use demo_script::demo_script;
use engine_core::Shot;
use script_run::RunEnd;
use std::alloc::Global;
use std::thread::Threads;
use ts_disk::{Disk, MemDisk};
use ts_io::{MemSink, MemSource, Sink, Source};
use ts_schema::{NoMemory, Steps};
use ts_sessions::Session;
use ts_store::{Started, Store};
use txn_journal::Append;

/// The counter of stored rows that answers and refreshes read.
#[derive(Drop)]
struct Reads;

/// A store on a disk in memory that starts empty. Its journal has a header.
pub(crate) fn empty_store<R: Threads + Sync>(
    rt: &R,
    alloc: Global,
) -> Result<Store<MemDisk>, NoMemory>
    ensures empty { IfOk result (λ store. history_seen store ≡ start) }
    ensures goes_on { IfOk result (λ store. store.failed ≡ None) }
{
    match Store::start(rt, alloc, MemDisk::new(alloc, Vec::new(alloc))) {
        Started::Ready(store) => with_header(store),
        Started::Damaged { .. } => unreachable!(),
        Started::DiskFault(_) => Err(NoMemory),
        Started::NoMemory(_) => Err(NoMemory),
    }
}

/// The store once its journal has a header.
fn with_header<D: Disk + Drop>(mut store: Store<D>) -> Result<Store<D>, NoMemory>
    requires { store.failed ≡ None }
    ensures same { IfOk result (λ armed. history_seen armed ≡ history_seen store) }
    ensures goes_on { IfOk result (λ armed. armed.failed ≡ None) }
{
    match store.arm() {
        Append::Done => Ok(store),
        Append::DiskFault => Err(NoMemory),
        Append::Stopped => Err(NoMemory),
    }
}

/// Runs the script of a demonstration on an empty store, and returns how many stored rows it read. Its replies go
/// to a sink in memory.
pub(crate) fn run_script<R: Threads + Sync, D: Disk>(
    rt: &R,
    alloc: Global,
    number: u32,
    store: &mut Store<D>,
) -> Result<u64, NoMemory>
    requires empty { history_seen store.old ≡ start }
    requires goes_on { store.old.failed ≡ None }
    ensures { IfOk result (λ read. RanLines start (demo_lines number) read (history_seen store.new)) }
{
    let script = demo_script(alloc, number)?;
    let mut source = MemSource::new(script, usize::MAX, Vec::new(alloc));
    let mut sink = MemSink::new(alloc, usize::MAX, Vec::new(alloc));
    run_source(rt, alloc, &mut source, &mut sink, store)
}

/// Runs the script of a source on a store that hasn't stopped, and returns how many stored rows it read.
fn run_source<R: Threads + Sync, S: Source, K: Sink, D: Disk>(
    rt: &R,
    alloc: Global,
    source: &mut S,
    sink: &mut K,
    store: &mut Store<D>,
) -> Result<u64, NoMemory>
    requires untold { S.ended source.old ≡ false }
    requires within { IsSomeAnd (S.left source.old) (λ input. length input ≤ INPUT_LIMIT) }
    requires goes_on { store.old.failed ≡ None }
    ensures { IfSome (S.left source.old) (λ input.
        IfOk result (λ read. RanLines (history_seen store.old) (executed_lines input) read (history_seen store.new))) }
{
    let mut steps = Steps::new(Reads);
    let end = script_run::run::<Session<Shot>, R, Store<D>, S, K, Reads>(
        rt, alloc, store, source, sink, &mut steps,
    );
    to_end(end)?;
    Ok(steps.count())
}

/// Whether a script was run to its end. A source and a sink in memory fail only if memory runs out.
fn to_end(end: RunEnd) -> Result<(), NoMemory>
    requires { end ≢ ends.InputLong }
    ensures { IfOk result (λ _. is_whole end ≡ true) }
{
    match end {
        RunEnd::Done | RunEnd::Refused => Ok(()),
        RunEnd::ReadFault | RunEnd::WriteFault | RunEnd::DiskFault | RunEnd::NoMemory => {
            Err(NoMemory)
        }
        RunEnd::InputLong => unreachable!(),
    }
}
