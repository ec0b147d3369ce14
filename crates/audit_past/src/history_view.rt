//! The access of an audit to a whole history, and the outcomes of store calls at positions of it.
use ts_model::{Committed, CutDone, Op, Refusal, Shown, ViewDef};
use ts_schema::{NoMemory, Seq};
use ts_sessions::deeds::RelationChange;

/// The outcome of a store call at a position of a history.
#[derive(Drop)]
pub struct CallAt<A> {
    /// What it did, or why it was refused.
    pub came: Result<A, Refusal>,
    /// The position after it.
    pub at: u64,
}

/// A position of a history from which a line is replayed.
#[derive(Clone, Copy)]
pub struct ReplayPoint<'a> {
    /// The position.
    pub at: u64,
    /// The read positions that are left, in order.
    pub looks: &'a [u64],
}

/// The access of an audit to a history.
///
/// Contracts see the whole history, and the first position that the view knows. A call is made at a position from
/// there on. It returns what it does over the history up to that position, and the position after it, or `None` if its
/// event isn't the next one of the history. No call changes anything. An event may be unsound: then it isn't one of the
/// history.
pub trait Past {
    ghost use Rattle.std.specs.Prelude.{◌≡◌, ℕ, ◌≤◌, IsTrue, IsSome, IfOk};
    ghost use Rattle.std.specs.Option.{ForSome};
    ghost use Rattle.ts_bucket.specs.Bucket.{is_time};
    ghost use Rattle.ts_model.specs.History.{History, position as position_of, prefix};
    ghost use Rattle.ts_model.specs.Roster.{roster, view_of};
    ghost use Rattle.ts_model.specs.Calls.{making_view, act_of_commit, act_of_cut, act_of_finish};
    ghost use Rattle.ts_sessions.specs.Deeds.{making_of};
    ghost use Rattle.audit_past.specs.Pasts.{CameTo};

    /// A snapshot.
    type Shot: Shown + Drop;

    // The whole history.
    ghost all: { Self → History };

    // The first position that the view knows.
    ghost from: { Self → ℕ };

    /// The position at which the history ends.
    fn length(&self) -> u64
        ensures { result ≡ position_of (all self.now) };

    /// A snapshot of the history up to a position.
    fn at(&self, position: u64) -> Result<Self::Shot, NoMemory>
        requires known { from self.now ≤ position }
        requires within { position ≤ position_of (all self.now) }
        ensures { IfOk result (λ shot. Self.Shot.stands shot (prefix (all self.now) position)) };

    /// Creates a table, or sets a property of a relation. Returns the event's number.
    fn make(&self, at: u64, making: RelationChange) -> Option<CallAt<u64>>
        requires known { from self.now ≤ at }
        requires within { at ≤ position_of (all self.now) }
        ensures { CameTo (making_of making (prefix (all self.now) at)) (all self.now) at result };

    /// Creates an aggregate. Returns the event's number.
    fn make_view(&self, at: u64, def: ViewDef) -> Option<CallAt<u64>>
        requires known { from self.now ≤ at }
        requires within { at ≤ position_of (all self.now) }
        ensures { CameTo (making_view def (prefix (all self.now) at)) (all self.now) at result };

    /// Commits operations.
    fn commit(&self, at: u64, ops: Seq<Op>) -> Option<CallAt<Committed>>
        requires known { from self.now ≤ at }
        requires within { at ≤ position_of (all self.now) }
        ensures { CameTo (act_of_commit ops (prefix (all self.now) at)) (all self.now) at result };

    /// Cuts a refresh of an aggregate in a window. A bound that is `None` is open.
    fn cut(&self, at: u64, view: u32, lo: Option<i64>, hi: Option<i64>) -> Option<CallAt<CutDone>>
        requires known { from self.now ≤ at }
        requires within { at ≤ position_of (all self.now) }
        requires view { IsSome (view_of (roster (prefix (all self.now) at)) view) }
        requires low { ForSome lo (λ t. IsTrue (is_time t)) }
        requires high { ForSome hi (λ t. IsTrue (is_time t)) }
        ensures { CameTo (act_of_cut view lo hi (prefix (all self.now) at)) (all self.now) at result };

    /// Finishes the refresh `cut` with the snapshot at the position `snap`. Returns the event's number.
    fn finish(&self, at: u64, cut: u64, snap: u64) -> Option<CallAt<u64>>
        requires known { from self.now ≤ at }
        requires within { at ≤ position_of (all self.now) }
        ensures { CameTo (act_of_finish cut snap (prefix (all self.now) at)) (all self.now) at result };
}
