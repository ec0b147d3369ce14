//! A demonstration and its summary.
ghost use Rattle.std.specs.Prelude.{◌≡◌, IfOk};
ghost use Rattle.result_text.specs.Summaries.{summary_text};
ghost use Rattle.ts_store.specs.Stores.{history_seen};
ghost use Rattle.demo_run.specs.Demos.{demo_summary, reads_of_demo};
ghost use Rattle.demo_run.specs.Sums.{summary_of};

use crate::runs::{empty_store, run_script};
use crate::sums::summary_of;
use result_text::put_summary;
use std::alloc::Global;
use std::thread::Threads;
use ts_disk::Disk;
use ts_schema::{NoMemory, Seq};
use ts_store::Store;

/// The result of a demonstration.
#[derive(Drop, Debug)]
pub struct Demonstration {
    /// The lines of its summary.
    pub text: Seq<u8>,
    /// How many stored rows the answers and the refreshes of its script read. The count stops at `u64::MAX`.
    pub reads: u64,
}

/// Runs the script of the demonstration with a number, and summarizes the contents of the store after it. The store is
/// in memory and starts empty. For every number, no reply to the script is a FAULT, and the script reads the same
/// number of stored rows.
#[tactic(auto, using(crate::proofs::DemoLaws::reads_alike))]
pub fn demo<R: Threads + Sync>(
    rt: &R,
    alloc: Global,
    number: u32,
) -> Result<Demonstration, NoMemory>
    ensures summary { IfOk result (λ demo. demo.text ≡ demo_summary number) }
    ensures reads { IfOk result (λ demo. demo.reads ≡ reads_of_demo number) }
    ensures alike { IfOk result (λ demo. demo.reads ≡ 39600) }
{
    let mut store = empty_store(rt, alloc)?;
    let reads = run_script(rt, alloc, number, &mut store)?;
    let text = summary_text(rt, alloc, number, &store, reads)?;
    let _disk = store.close();
    Ok(Demonstration { text, reads })
}

/// The summary of a demonstration whose script led to the history of a store. `reads` is how many stored rows it
/// read.
fn summary_text<R: Threads + Sync, D: Disk>(
    rt: &R,
    alloc: Global,
    number: u32,
    store: &Store<D>,
    reads: u64,
) -> Result<Seq<u8>, NoMemory>
    ensures { IfOk result (λ text. text ≡ summary_text (summary_of number (history_seen store.now) reads)) }
{
    let shot = store.engine().shot()?;
    let summary = summary_of(rt, alloc, number, &shot, reads)?;
    let mut text = Vec::new(alloc);
    put_summary(&summary, &mut text)?;
    Ok(Seq::of(text))
}
