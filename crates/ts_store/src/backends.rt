//! The calls of a store.
ghost use Rattle.std.specs.Prelude.{◌≡◌, IsSome, IsTrue, true};
ghost use Rattle.std.specs.Option.{ForSome};
ghost use Rattle.ts_bucket.specs.Bucket.{is_time};
ghost use Rattle.ts_model.specs.declared.events.Event.TheVariants.{Table, Hyper as HyperMade, View, Mode, Commit};
ghost use Rattle.ts_model.specs.Calls.{Looked, Snapped, act_of_commit, act_of_cut, act_of_finish};
ghost use Rattle.ts_model.specs.Calls.{making_hyper, making_table, making_view, setting_mode};
ghost use Rattle.ts_model.specs.Roster.{roster, view_of};
ghost use Rattle.ts_model.specs.Sound.{sound};
ghost use Rattle.engine_state.specs.Stands.{StandsFor};
ghost use Rattle.refresh_build.specs.Fitting.{JobFits};
ghost use Rattle.ts_store.specs.Safe.{IsSafe};
ghost use Rattle.ts_store.specs.Stores.{StoreDoes, known_of, history_seen, state_of};

use crate::stores::Store;
use engine_core::{Shot, cut_over, no_bucket, number_only};
use refresh_build::Job;
use ts_disk::Disk;
use ts_model::{Backend, Committed, CutDone, Event, Hyper, Op, Outcome, TableDef, ViewDef, Window};
use ts_schema::{NoMemory, Seq};

impl<D: Disk> Backend for Store<D> {
    ghost use Rattle.std.specs.Prelude.{true};
    ghost use Rattle.ts_store.specs.Stores.{Known, known_of, state_of};

    type Shot = Shot;

    ghost state = { λ s. state_of D.faults D.moment s };

    ghost alone = { true };

    // The disk as it was at the start, and whether the store was armed since.
    ghost Kin = { Known D };

    ghost kin = { λ s. known_of s };

    fn snap(&mut self) -> Result<Shot, NoMemory>
        ensures looked { Looked true (state_of D.faults D.moment self.old) (Snapped (λ shot h. StandsFor h shot) result)
            (state_of D.faults D.moment self.new) }
        ensures kin { known_of self.new ≡ known_of self.old }
        ensures same { self.new ≡ self.old }
    {
        self.store_law();
        self.engine().shot()
    }

    fn make_table(&mut self, def: TableDef) -> Outcome<u64>
        requires { IsTrue (sound (history_seen self.old) (Table def)) }
        ensures called { StoreDoes D.faults D.moment (making_table def) self.old result self.new }
        ensures kin { known_of self.new ≡ known_of self.old }
        ensures safe { IsSafe D.bytes D.may_leave D.moment D.left_since self.old self.new }
    {
        number_only(self.make(Event::Table(def), None))
    }

    fn make_hyper(&mut self, table: u32, hyper: Hyper) -> Outcome<u64>
        requires { IsTrue (sound (history_seen self.old) (HyperMade table hyper)) }
        ensures called { StoreDoes D.faults D.moment (making_hyper table hyper) self.old result self.new }
        ensures kin { known_of self.new ≡ known_of self.old }
        ensures safe { IsSafe D.bytes D.may_leave D.moment D.left_since self.old self.new }
    {
        number_only(self.make(Event::Hyper { table, hyper }, None))
    }

    fn make_view(&mut self, def: ViewDef) -> Outcome<u64>
        requires { IsTrue (sound (history_seen self.old) (View def)) }
        ensures called { StoreDoes D.faults D.moment (making_view def) self.old result self.new }
        ensures kin { known_of self.new ≡ known_of self.old }
        ensures safe { IsSafe D.bytes D.may_leave D.moment D.left_since self.old self.new }
    {
        number_only(self.make(Event::View(def), None))
    }

    fn set_mode(&mut self, view: u32, only: bool) -> Outcome<u64>
        requires { IsTrue (sound (history_seen self.old) (Mode view only)) }
        ensures called { StoreDoes D.faults D.moment (setting_mode view only) self.old result self.new }
        ensures kin { known_of self.new ≡ known_of self.old }
        ensures safe { IsSafe D.bytes D.may_leave D.moment D.left_since self.old self.new }
    {
        number_only(self.make(Event::Mode { view, only }, None))
    }

    fn commit(&mut self, ops: Seq<Op>) -> Outcome<Committed>
        requires { IsTrue (sound (history_seen self.old) (Commit ops)) }
        ensures called { StoreDoes D.faults D.moment (act_of_commit ops) self.old result self.new }
        ensures kin { known_of self.new ≡ known_of self.old }
        ensures safe { IsSafe D.bytes D.may_leave D.moment D.left_since self.old self.new }
    {
        self.make(Event::Commit(ops), None)
    }

    fn cut(&mut self, view: u32, lo: Option<i64>, hi: Option<i64>) -> Outcome<CutDone>
        requires view { IsSome (view_of (roster (history_seen self.old)) view) }
        requires low { ForSome lo (λ t. IsTrue (is_time t)) }
        requires high { ForSome hi (λ t. IsTrue (is_time t)) }
        ensures called { StoreDoes D.faults D.moment (act_of_cut view lo hi) self.old result self.new }
        ensures kin { known_of self.new ≡ known_of self.old }
        ensures safe { IsSafe D.bytes D.may_leave D.moment D.left_since self.old self.new }
    {
        self.store_law();
        match self.engine().window(view, lo, hi) {
            Window::Nothing => Outcome::Done(CutDone::Nothing {
                pos: self.engine().length(),
            }),
            Window::NoBucket => Outcome::Refused(no_bucket(self.engine())),
            Window::Whole(span) => {
                let outcome = self.make(Event::Cut { view, span }, None);
                cut_over(outcome, span)
            }
        }
    }

    fn finish(&mut self, job: Job) -> Outcome<u64>
        requires { JobFits (history_seen self.old) job }
        ensures called { StoreDoes D.faults D.moment (act_of_finish job.cut job.snap) self.old result self.new }
        ensures kin { known_of self.new ≡ known_of self.old }
        ensures safe { IsSafe D.bytes D.may_leave D.moment D.left_since self.old self.new }
    {
        let event = Event::Built {
            cut: job.cut,
            snap: job.snap,
        };
        number_only(self.make(event, Some(job)))
    }

    fn position(&self) -> u64 {
        self.engine().length()
    }

    fn stopped(&self) -> Option<u64> {
        self.stop()
    }
}
