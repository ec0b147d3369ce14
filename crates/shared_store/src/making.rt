//! How a shared store is created.
ghost use Rattle.std.specs.Prelude.{◌≡◌, ◌<◌, None, IsTrue};
ghost use Rattle.shared_store.specs.Making.{Makes};

use crate::kept::Kept;
use crate::store::{Pass, SharedStore};
use std::alloc::Global;
use std::snapshot::Snapshot;
use ts_model::Backend;
use turn_lock::{MadeLock, TurnLock};

/// A shared store with its first pass, or the backend if memory ran out.
#[derive(Drop)]
pub enum MadeStore<B: Backend> {
    Made {
        store: SharedStore<B>,
        pass: Pass<B>,
    },
    NoMemory(B),
}

// The backend, with its present value.
fn keep<B: Backend>(backend: B) -> Kept<B>
    requires alone { IsTrue B.alone }
    requires going { (B.state backend).failed ≡ None }
    ensures kept { (result.backend ≡ backend) × (result.opened.value ≡ backend) }
{
    let opened = Snapshot::of(&backend);
    Kept { backend, opened }
}

impl<B: Backend> SharedStore<B> {
    /// A store over a backend that nobody else uses and that hasn't stopped, and the first pass, which has all the
    /// shares.
    pub fn new(alloc: Global, backend: B, shares: u32) -> MadeStore<B>
        requires alone { IsTrue B.alone }
        requires going { (B.state backend).failed ≡ None }
        requires shares { 0 < shares }
        ensures { Makes backend shares result }
    {
        match TurnLock::new(alloc, keep(backend), shares) {
            MadeLock::Made { lock, pass } => MadeStore::Made {
                store: SharedStore { lock },
                pass,
            },
            MadeLock::NoMemory(kept) => MadeStore::NoMemory(kept.into_backend()),
        }
    }
}
