//! Workers at a store.
use std::thread::Threads;
use ts_model::{Backend, Shown};

/// A worker at a store that others may use too.
pub trait Worker {
    ghost use Rattle.std.specs.Prelude.{◌≡◌, Bool};
    ghost use Rattle.std.specs.Thread.{IsSync};
    ghost use Rattle.ts_model.specs.States.{State};

    /// The snapshots of the stores at which it works.
    type Shot: Shown;

    // The condition under which it may begin.
    ghost ready: { Self → Type 0 };

    // What it did at a store, by whether nobody else uses the store: the worker and the state of the store before, and
    // both after.
    ghost did: { Bool → Self → State → Self → State → Type 0 };

    /// Does its work.
    fn work<R: Threads + Sync, B: Backend<Shot = Self::Shot>>(&mut self, rt: &R, backend: &mut B)
        requires sync { IsSync R.row }
        requires ready { Self.ready self.old }
        ensures did { Self.did B.alone self.old (B.state backend.old) self.new (B.state backend.new) }
        ensures kin { B.kin backend.new ≡ B.kin backend.old };
}
