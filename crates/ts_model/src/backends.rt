//! Stores of a history.
use crate::events::Op;
use crate::outcomes::{Committed, CutDone, Outcome};
use crate::snapshots::Shown;
use crate::tables::{Hyper, TableDef};
use crate::views::ViewDef;
use ts_schema::{NoMemory, Seq};

/// A store of a history. Others may change it between two calls, unless it is alone.
///
/// Contracts see one record, its state. It has the history seen, a count of faults, and how the store was
/// opened. It also has the numbers of the events that calls of this value appended. If its disk failed, it also
/// has the event at which this happened, and the store has stopped. Each call finds a history that begins with
/// the one seen, and appends at most one event. Besides the state there is an identity given by its owner,
/// which no call changes.
///
/// A call that appends an event returns the event's number, possibly with more. The refusals named at a call
/// come first. Next, a call that would append an event is refused as `E30` if the history is at its end. Last,
/// it is refused as `E24` if the store has stopped. A refused call changes nothing.
pub trait Backend {
    ghost use Rattle.std.specs.Prelude.{◌≡◌, ℕ, Bool, IsTrue, IsSome};
    ghost use Rattle.std.specs.Option.{ForSome};
    ghost use Rattle.ts_bucket.specs.Bucket.{is_time};
    ghost use Rattle.ts_model.specs.declared.events.Event.TheVariants.{Table, Hyper as HyperMade, View, Mode, Commit};
    ghost use Rattle.ts_model.specs.History.{position};
    ghost use Rattle.ts_model.specs.Roster.{roster, view_of};
    ghost use Rattle.ts_model.specs.Sound.{sound};
    ghost use Rattle.ts_model.specs.States.{State, stop_of};
    ghost use Rattle.ts_model.specs.Calls.{Called, Looked, Snapped, making_table, making_hyper, making_view, setting_mode, act_of_commit, act_of_cut, act_of_finish};

    /// A snapshot.
    type Shot: Shown + Drop;

    ghost state: { Self → State };

    ghost alone: { Bool };

    // The identity given by its owner.
    ghost Kin: { Type 0 };

    ghost kin: { Self → Self.Kin };

    /// A snapshot of the present history, which is allowed.
    fn snap(&mut self) -> Result<Self::Shot, NoMemory>
        ensures looked { Looked alone (state self.old) (Snapped Self.Shot.stands result) (state self.new) }
        ensures kin { kin self.new ≡ kin self.old };

    /// Creates a table. It is refused as `E07` if the name is taken, and as `E21` if there are 64 tables.
    fn make_table(&mut self, def: TableDef) -> Outcome<u64>
        requires { IsTrue (sound (state self.old).history (Table def)) }
        ensures called { Called alone (state self.old) (making_table def) result (state self.new) }
        ensures kin { kin self.new ≡ kin self.old };

    /// Makes a table a hypertable. It is refused as `E07` if it is one.
    fn make_hyper(&mut self, table: u32, hyper: Hyper) -> Outcome<u64>
        requires { IsTrue (sound (state self.old).history (HyperMade table hyper)) }
        ensures called { Called alone (state self.old) (making_hyper table hyper) result (state self.new) }
        ensures kin { kin self.new ≡ kin self.old };

    /// Creates an aggregate. It is refused as `E07` if the name is taken, and as `E21` if there are 64
    /// aggregates.
    fn make_view(&mut self, def: ViewDef) -> Outcome<u64>
        requires { IsTrue (sound (state self.old).history (View def)) }
        ensures called { Called alone (state self.old) (making_view def) result (state self.new) }
        ensures kin { kin self.new ≡ kin self.old };

    /// Sets an aggregate to show materialized rows only, or new rows too.
    fn set_mode(&mut self, view: u32, only: bool) -> Outcome<u64>
        requires { IsTrue (sound (state self.old).history (Mode view only)) }
        ensures called { Called alone (state self.old) (setting_mode view only) result (state self.new) }
        ensures kin { kin self.new ≡ kin self.old };

    /// Applies operations, in order, as one commit.
    fn commit(&mut self, ops: Seq<Op>) -> Outcome<Committed>
        requires { IsTrue (sound (state self.old).history (Commit ops)) }
        ensures called { Called alone (state self.old) (act_of_commit ops) result (state self.new) }
        ensures kin { kin self.new ≡ kin self.old };

    /// Begins a refresh of the whole buckets of the window from `lo` on and below `hi`. Without `lo` it
    /// starts at the first bucket. Without `hi` it ends at the watermark or at the end of the bucket of the
    /// table's greatest time, whichever is greater. If the window holds no whole bucket, the call is refused
    /// as `E15` if `hi` is given, and otherwise returns `CutDone::Nothing` and appends no event. See
    /// `refresh_continuous_aggregate` in the API reference of TimescaleDB.
    fn cut(&mut self, view: u32, lo: Option<i64>, hi: Option<i64>) -> Outcome<CutDone>
        requires view { IsSome (view_of (roster (state self.old).history) view) }
        requires low { ForSome lo (λ t. IsTrue (is_time t)) }
        requires high { ForSome hi (λ t. IsTrue (is_time t)) }
        ensures called { Called alone (state self.old) (act_of_cut view lo hi) result (state self.new) }
        ensures kin { kin self.new ≡ kin self.old };

    /// Finishes the refresh that the job was created for. It is refused as `E19` if it is finished already. The
    /// job is consumed, whatever the outcome.
    fn finish(&mut self, job: <Self::Shot as Shown>::Job) -> Outcome<u64>
        requires { Self.Shot.fits job (state self.old).history }
        ensures called { Called alone (state self.old)
            (act_of_finish (Self.Shot.cut_of job) (Self.Shot.snap_of job)) result (state self.new) }
        ensures kin { kin self.new ≡ kin self.old };

    /// The position of the history seen.
    fn position(&self) -> u64
        ensures { result ≡ position (state self.now).history };

    /// The position at which the store stopped, as the last call found or left it.
    fn stopped(&self) -> Option<u64>
        ensures { result ≡ stop_of (state self.now) };
}
