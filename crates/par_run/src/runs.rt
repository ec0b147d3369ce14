//! The run.
ghost use Rattle.std.specs.Prelude.{◌≡◌, ◌≢◌, ◌<◌, ◌≤◌, false, true, None, length, All, IfOk, IsTrue, MatchResult};
ghost use Rattle.std.specs.Thread.{IsSync};
ghost use mathlib.Core.List.{IsPrefix};
ghost use Rattle.ts_io.specs.declared.limits.TheConstants.{INPUT_LIMIT};
ghost use Rattle.ts_model.specs.History.{position};
ghost use Rattle.ts_model.specs.States.{stands_still};
ghost use Rattle.turn_lock.specs.Pass.{shares_of, seen_of, StaysIn};
ghost use Rattle.shared_store.specs.Making.{IsFirstPass};
ghost use Rattle.shared_store.specs.Stores.{IsPassOf};
ghost use Rattle.shared_store.specs.Wrapped.{GoesOn};
ghost use Rattle.par_workers.specs.Slots.{workers_of};
ghost use Rattle.par_workers.specs.Outcomes.{Ran};
ghost use Rattle.par_lines.specs.Sorted.{sorted_lines};
ghost use Rattle.par_run.specs.Crews.{AreFew, AreReady, CrewsRan, CrewsRanAsFar, HaveShares, LinesRan, LinesRanAsFar};
ghost use Rattle.par_run.specs.Ends.{is_disk_fault, stop_by};
ghost use Rattle.par_run.specs.Outputs.{output_in, output_of};

use crate::crews::{Crews, make_crews};
use crate::ends::{ParEnd, ParStop};
use crate::outputs::{Output, all_reads, all_replies, had_memory};
use par_workers::{Slot, Worker, run_at_once};
use shared_store::{MadeStore, Pass, SharedStore};
use std::alloc::Global;
use std::sync::Wait;
use std::thread::Threads;
use ts_model::{Backend, Gate, Shown};
use ts_schema::{NoMemory, Seq};
use ts_sessions::Actor;

/// Runs the lines of an input on a store that nobody else uses and that hasn't stopped. Each session has one worker,
/// with an actor for its lines. `setup` runs alone, then all other sessions in parallel, each in its own thread, then
/// `final` alone. It returns the store on each ending, and may wait, as the workers take turns at the store.
///
/// The replies and the store are as if each line had been answered over one history: the one that the store holds in
/// the end. What a line does there is what the actor's `replies` say. Positions never fall from one line of a session
/// to its next. After a disk fault the store has stopped, and the sessions continue. If a line runs out of memory, its
/// session ends there, and no later phase begins.
pub fn par<A, B, R, G>(rt: &R, alloc: Global, backend: B, input: &[u8], gate: &G) -> ParEnd<B>
where
    A: Actor<Shot = B::Shot> + Drop + Send,
    B: Backend + Send,
    B::Shot: Send,
    <B::Shot as Shown>::Job: Send,
    G: Gate + Sync,
    R: Threads + Wait + Sync,
    requires sync { IsSync R.row }
    requires alone { IsTrue B.alone }
    requires going { stands_still (B.state backend) ≡ false }
    requires within { length input.now ≤ INPUT_LIMIT }
    ensures ran { result.stop ≢ ParStop.NoMemory → LinesRan A.replies (A.semantics.opening 0)
        (B.state backend).history (sorted_lines input.now) (B.state result.backend) (output_of result) result.reads }
    ensures as_far { LinesRanAsFar A.within A.semantics.does (A.semantics.opening 0)
        (B.state backend).history (sorted_lines input.now) (B.state result.backend) result.reads }
    ensures start { result.start ≡ position (B.state backend).history }
    ensures stop { result.stop ≢ ParStop.NoMemory
        → stands_still (B.state result.backend) ≡ is_disk_fault result.stop }
    ensures goes_on { GoesOn (B.state backend) (B.state result.backend) }
    ensures kin { B.kin result.backend ≡ B.kin backend }
{
    let start = backend.position();
    match make_crews::<A, B, G>(alloc, input, gate) {
        Ok(crews) => run_over(rt, alloc, backend, start, crews),
        Err(NoMemory) => end_run(alloc, backend, start, Err(NoMemory), 0),
    }
}

/// Shares a store among the workers, and runs them.
fn run_over<A, B, R, G>(
    rt: &R,
    alloc: Global,
    backend: B,
    start: u64,
    crews: Crews<'_, A, B, G>,
) -> ParEnd<B>
where
    A: Actor<Shot = B::Shot> + Drop + Send,
    B: Backend + Send,
    B::Shot: Send,
    <B::Shot as Shown>::Job: Send,
    G: Gate + Sync,
    R: Threads + Wait + Sync,
    requires sync { IsSync R.row }
    requires alone { IsTrue B.alone }
    requires going { (B.state backend).failed ≡ None }
    requires few { AreFew crews }
    requires ready { AreReady A.Actor crews }
    ensures ran { result.stop ≢ ParStop.NoMemory → CrewsRan A.Actor
        (B.state backend).history crews.entry (B.state result.backend) (output_of result) result.reads }
    ensures as_far { CrewsRanAsFar A.Actor
        (B.state backend).history crews.entry (B.state result.backend) result.reads }
    ensures start { result.start ≡ start }
    ensures stop { result.stop ≢ ParStop.NoMemory
        → stands_still (B.state result.backend) ≡ is_disk_fault result.stop }
    ensures goes_on { GoesOn (B.state backend) (B.state result.backend) }
    ensures kin { B.kin result.backend ≡ B.kin backend }
{
    // Each worker of a phase has one share, and one stays with the first pass. `setup` and `final` have at most one
    // worker, and need two shares even if no session runs in parallel.
    let shares = crews.at_once.len() as u32 + 2;
    match SharedStore::new(alloc, backend, shares) {
        MadeStore::Made { store, pass } => run_crews(rt, alloc, store, pass, start, crews),
        MadeStore::NoMemory(backend) => end_run(alloc, backend, start, Err(NoMemory), 0),
    }
}

/// Runs the workers over a store, and closes it.
fn run_crews<A, B, R, G>(
    rt: &R,
    alloc: Global,
    store: SharedStore<B>,
    pass: Pass<B>,
    start: u64,
    crews: Crews<'_, A, B, G>,
) -> ParEnd<B>
where
    A: Actor<Shot = B::Shot> + Drop + Send,
    B: Backend + Send,
    B::Shot: Send,
    <B::Shot as Shown>::Job: Send,
    G: Gate + Sync,
    R: Threads + Wait + Sync,
    requires sync { IsSync R.row }
    requires alone { IsTrue B.alone }
    requires first { IsFirstPass store.opened.value store.shares store pass }
    requires shares { HaveShares store.shares crews }
    requires ready { AreReady A.Actor crews }
    ensures ran { result.stop ≢ ParStop.NoMemory → CrewsRan A.Actor
        (B.state store.opened.value).history crews.entry (B.state result.backend) (output_of result) result.reads }
    ensures as_far { CrewsRanAsFar A.Actor
        (B.state store.opened.value).history crews.entry (B.state result.backend) result.reads }
    ensures start { result.start ≡ start }
    ensures stop { result.stop ≢ ParStop.NoMemory
        → stands_still (B.state result.backend) ≡ is_disk_fault result.stop }
    ensures goes_on { GoesOn (B.state store.opened.value) (B.state result.backend) }
    ensures kin { B.kin result.backend ≡ B.kin store.opened.value }
{
    let mut crews = crews;
    let pass = run_crew(rt, &store, pass, &mut crews.setup, true);
    let enough = had_memory(crews.setup.as_slice());
    let pass = run_crew(rt, &store, pass, &mut crews.at_once, enough);
    let enough = enough && had_memory(crews.at_once.as_slice());
    let pass = run_crew(rt, &store, pass, &mut crews.last, enough);
    let mut backend = store.close(pass);
    // Taking a snapshot proves that all events of the store were allowed. The snapshot itself isn't needed.
    let _ = backend.snap();
    let reads = all_reads(&crews);
    A::tells_replies();
    end_run(alloc, backend, start, all_replies(alloc, crews), reads)
}

/// Lets the workers of a crew work in parallel, unless memory ran out before.
fn run_crew<W, B, R>(
    rt: &R,
    store: &SharedStore<B>,
    all: Pass<B>,
    crew: &mut Vec<Slot<W, B>>,
    enough: bool,
) -> Pass<B>
where
    W: Worker<Shot = B::Shot> + Send,
    B: Backend + Send,
    B::Shot: Send,
    <B::Shot as Shown>::Job: Send,
    R: Threads + Wait + Sync,
    requires sync { IsSync R.row }
    requires pass { IsPassOf store.now all }
    requires room { length crew.old.items < shares_of all }
    requires ready { All W.ready (workers_of crew.old.items) }
    ensures pass { IsPassOf store.now result }
    ensures shares { shares_of result ≡ shares_of all }
    ensures begins { IsPrefix (seen_of all) (seen_of result) }
    ensures stays { StaysIn result all }
    ensures each { length crew.new.items ≡ length crew.old.items }
    ensures idle { enough ≡ false → (result ≡ all) × (crew.new.items ≡ crew.old.items) }
    ensures ran { enough ≡ true → Ran B.state store.now W.did all result
        (workers_of crew.old.items) (workers_of crew.new.items) }
{
    if enough {
        run_at_once(rt, store, all, crew.as_mut_slice())
    } else {
        all
    }
}

/// The end of a run that began at a position, with these replies of its workers.
fn end_run<B: Backend>(
    alloc: Global,
    backend: B,
    start: u64,
    replied: Result<Output, NoMemory>,
    reads: u64,
) -> ParEnd<B>
    ensures backend { result.backend ≡ backend }
    ensures start { result.start ≡ start }
    ensures reads { result.reads ≡ reads }
    ensures stop { MatchResult replied (λ _. result.stop ≡ stop_by (stands_still (B.state backend)))
        (λ _. result.stop ≡ ParStop.NoMemory) }
    ensures output { IfOk replied (λ output. output_in output ≡ output_of result) }
{
    match replied {
        Ok(output) => {
            let stop = stop_at(&backend);
            let Output {
                text,
                fault,
                sessions,
            } = output;
            ParEnd {
                backend,
                start,
                text: Seq::of(text),
                fault,
                sessions: Seq::of(sessions),
                reads,
                stop,
            }
        }
        Err(NoMemory) => ParEnd {
            backend,
            start,
            text: Seq::new(alloc),
            fault: false,
            sessions: Seq::new(alloc),
            reads,
            stop: ParStop::NoMemory,
        },
    }
}

/// How a run that left this store ended.
fn stop_at<B: Backend>(backend: &B) -> ParStop
    ensures { result ≡ stop_by (stands_still (B.state backend.now)) }
{
    match backend.stopped() {
        Some(_) => ParStop::DiskFault,
        None => ParStop::Done,
    }
}
