//! Workers that use one store in parallel.
ghost use Rattle.std.specs.Prelude.{◌≡◌, ◌<◌, All, length};
ghost use Rattle.std.specs.Thread.{IsSync};
ghost use mathlib.Core.List.{IsPrefix};
ghost use Rattle.turn_lock.specs.Pass.{shares_of, seen_of, StaysIn};
ghost use Rattle.shared_store.specs.Stores.{IsPassOf, shared_of};
ghost use Rattle.par_workers.specs.Slots.{AllServed, HasPass, Served, workers_of};
ghost use Rattle.par_workers.specs.Outcomes.{Ran};

use crate::passes::{collect, share_passes, take_pass};
use crate::slots::Slot;
use crate::workers::Worker;
use shared_store::{Pass, SharedStore, StoreLock, desk_at};
use std::sync::Wait;
use std::thread;
use std::thread::Threads;
use ts_model::{Backend, Shown};

// Lets a worker work at a store handle for its pass.
#[tactic(auto, using(crate::proofs::SlotLaws::there_is_pass))]
fn serve<W, B, R>(rt: &R, lock: &StoreLock<B>, slot: &mut Slot<W, B>)
where
    W: Worker<Shot = B::Shot>,
    B: Backend,
    R: Threads + Wait + Sync,
    requires sync { IsSync R.row }
    requires ready { W.ready slot.old.0 }
    requires pass { HasPass (shared_of lock.now) slot.old }
    ensures served { Served B.state (shared_of lock.now) W.did slot.old slot.new }
{
    let pass = take_pass(slot);
    let mut desk = desk_at(lock, rt, pass);
    slot.0.work(rt, &mut desk);
    slot.1 = Some(desk.leave());
}

// Lets all workers work in parallel, each at a store handle for its pass.
fn serve_all<W, B, R>(rt: &R, lock: &StoreLock<B>, slots: &mut [Slot<W, B>])
where
    W: Worker<Shot = B::Shot> + Send,
    B: Backend + Send,
    B::Shot: Send,
    <B::Shot as Shown>::Job: Send,
    R: Threads + Wait + Sync,
    requires sync { IsSync R.row }
    requires ready { All W.ready (workers_of slots.old) }
    requires passes { All (HasPass (shared_of lock.now)) slots.old }
    ensures { AllServed B.state (shared_of lock.now) W.did slots.old slots.new }
{
    let threads = slots.len().max(1);
    thread::for_each_mut(
        rt,
        slots,
        threads,
        &|_, slot: &mut Slot<W, B>|
            requires { IsSync R.row × W.ready slot.now.0 × HasPass (shared_of lock.now) slot.now }
            ensures { Served B.state (shared_of lock.entry.now) W.did slot.entry.now slot.exit.now }
        { serve(rt, lock, slot) },
    );
}

/// Lets all workers work in parallel, each in its own thread, at a store whose pass has more shares than there are
/// workers. Returns the pass that has seen what they all have, and has appended what they all appended.
pub fn run_at_once<W, B, R>(
    rt: &R,
    store: &SharedStore<B>,
    all: Pass<B>,
    slots: &mut [Slot<W, B>],
) -> Pass<B>
where
    W: Worker<Shot = B::Shot> + Send,
    B: Backend + Send,
    B::Shot: Send,
    <B::Shot as Shown>::Job: Send,
    R: Threads + Wait + Sync,
    requires sync { IsSync R.row }
    requires pass { IsPassOf store.now all }
    requires room { length slots.old < shares_of all }
    requires ready { All W.ready (workers_of slots.old) }
    ensures pass { IsPassOf store.now result }
    ensures shares { shares_of result ≡ shares_of all }
    ensures begins { IsPrefix (seen_of all) (seen_of result) }
    ensures stays { StaysIn result all }
    ensures ran { Ran B.state store.now W.did all result (workers_of slots.old) (workers_of slots.new) }
{
    let mut all = all;
    share_passes(store, &mut all, slots);
    serve_all(rt, store.lock(), slots);
    collect(store, all, slots)
}
