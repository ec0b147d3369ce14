//! How a turn begins and ends.
ghost use Rattle.std.specs.Prelude.{◌≡◌};
ghost use Rattle.ts_model.specs.States.{stop_of};
ghost use Rattle.shared_store.specs.Stores.{IsPassOf, shared_of};
ghost use Rattle.shared_store.specs.Turns.{Begun, CanEnd, Ended};

use crate::kept::Kept;
use crate::store::{Pass, StoreLock};
use std::snapshot::Snapshot;
use std::sync::Wait;
use std::thread::Threads;
use ts_model::Backend;
use turn_lock::Held;

/// What a turn left: the position at which the backend has stopped, if it has, and the value of the backend.
#[derive(Drop)]
pub struct TurnEnd<B> {
    pub(crate) stopped: Option<u64>,
    pub(crate) backend: Snapshot<B>,
}

// Waits for the turn of the pass.
pub(crate) fn begin<B: Backend, R: Threads + Wait>(
    lock: &StoreLock<B>,
    rt: &R,
    pass: &mut Pass<B>,
) -> Held<Kept<B>>
    requires { IsPassOf (shared_of lock.now) pass.old }
    ensures { Begun B.alone B.state B.kin (shared_of lock.now) pass.old pass.new result }
{
    let held = lock.take(rt, pass);
    // Reading what is kept proves its properties.
    let _ = &held.value.backend;
    held
}

// Ends the turn of the pass, and returns what it left.
pub(crate) fn end<B: Backend>(
    lock: &StoreLock<B>,
    pass: &mut Pass<B>,
    held: Held<Kept<B>>,
) -> TurnEnd<B>
    requires { CanEnd B.state (shared_of lock.now) pass.old held }
    ensures ended { Ended B.state (shared_of lock.now) pass.old pass.new held.value }
    ensures stopped { result.stopped ≡ stop_of (B.state held.value.backend) }
    ensures backend { result.backend.value ≡ held.value.backend }
{
    let left = held.value.turn_end();
    lock.give(pass, held);
    left
}
