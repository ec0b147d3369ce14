//! The calls of a backend inside the lock.
ghost use Rattle.std.specs.Prelude.{IsTrue, IsSome};
ghost use Rattle.std.specs.Option.{ForSome};
ghost use Rattle.ts_bucket.specs.Bucket.{is_time};
ghost use Rattle.ts_model.specs.declared.events.Event.TheVariants.{Table, Hyper as HyperMade, View, Mode, Commit};
ghost use Rattle.ts_model.specs.Roster.{roster, view_of};
ghost use Rattle.ts_model.specs.Sound.{sound};
ghost use Rattle.ts_model.specs.Calls.{making_table, making_hyper, making_view, setting_mode, act_of_commit, act_of_cut, act_of_finish, Snapped};
ghost use Rattle.shared_store.specs.Wrapped.{StaysKept, CalledIn, LookedIn};

use crate::kept::Kept;
use ts_model::{Backend, Committed, CutDone, Hyper, Op, Outcome, Shown, TableDef, ViewDef};
use ts_schema::{NoMemory, Seq};

impl<B: Backend> Kept<B> {
    pub(crate) fn snap(&mut self) -> Result<B::Shot, NoMemory>
        ensures looked { LookedIn B.alone B.state self.old (Snapped B.Shot.stands result) self.new }
        ensures kept { StaysKept B.alone B.state B.kin self.old self.new }
    {
        self.backend.snap()
    }

    pub(crate) fn make_table(&mut self, def: TableDef) -> Outcome<u64>
        requires { IsTrue (sound (B.state self.old.backend).history (Table def)) }
        ensures called { CalledIn B.alone B.state self.old (making_table def) result self.new }
        ensures kept { StaysKept B.alone B.state B.kin self.old self.new }
    {
        self.backend.make_table(def)
    }

    pub(crate) fn make_hyper(&mut self, table: u32, hyper: Hyper) -> Outcome<u64>
        requires { IsTrue (sound (B.state self.old.backend).history (HyperMade table hyper)) }
        ensures called { CalledIn B.alone B.state self.old (making_hyper table hyper) result self.new }
        ensures kept { StaysKept B.alone B.state B.kin self.old self.new }
    {
        self.backend.make_hyper(table, hyper)
    }

    pub(crate) fn make_view(&mut self, def: ViewDef) -> Outcome<u64>
        requires { IsTrue (sound (B.state self.old.backend).history (View def)) }
        ensures called { CalledIn B.alone B.state self.old (making_view def) result self.new }
        ensures kept { StaysKept B.alone B.state B.kin self.old self.new }
    {
        self.backend.make_view(def)
    }

    pub(crate) fn set_mode(&mut self, view: u32, only: bool) -> Outcome<u64>
        requires { IsTrue (sound (B.state self.old.backend).history (Mode view only)) }
        ensures called { CalledIn B.alone B.state self.old (setting_mode view only) result self.new }
        ensures kept { StaysKept B.alone B.state B.kin self.old self.new }
    {
        self.backend.set_mode(view, only)
    }

    pub(crate) fn commit(&mut self, ops: Seq<Op>) -> Outcome<Committed>
        requires { IsTrue (sound (B.state self.old.backend).history (Commit ops)) }
        ensures called { CalledIn B.alone B.state self.old (act_of_commit ops) result self.new }
        ensures kept { StaysKept B.alone B.state B.kin self.old self.new }
    {
        self.backend.commit(ops)
    }

    pub(crate) fn cut(&mut self, view: u32, lo: Option<i64>, hi: Option<i64>) -> Outcome<CutDone>
        requires view { IsSome (view_of (roster (B.state self.old.backend).history) view) }
        requires low { ForSome lo (λ t. IsTrue (is_time t)) }
        requires high { ForSome hi (λ t. IsTrue (is_time t)) }
        ensures called { CalledIn B.alone B.state self.old (act_of_cut view lo hi) result self.new }
        ensures kept { StaysKept B.alone B.state B.kin self.old self.new }
    {
        self.backend.cut(view, lo, hi)
    }

    pub(crate) fn finish(&mut self, job: <B::Shot as Shown>::Job) -> Outcome<u64>
        requires { B.Shot.fits job (B.state self.old.backend).history }
        ensures called { CalledIn B.alone B.state self.old
            (act_of_finish (B.Shot.cut_of job) (B.Shot.snap_of job)) result self.new }
        ensures kept { StaysKept B.alone B.state B.kin self.old self.new }
    {
        self.backend.finish(job)
    }
}
