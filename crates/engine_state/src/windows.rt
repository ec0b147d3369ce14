//! The buckets that a refresh covers.
ghost use Rattle.std.specs.Prelude.{IsSome, IsTrue};
ghost use Rattle.std.specs.Option.{ForSome};
ghost use Rattle.ts_bucket.specs.Bucket.{is_time};
ghost use Rattle.ts_model.specs.Roster.{view_of};
ghost use Rattle.engine_state.specs.Nexts.{WindowIs};
ghost use Rattle.engine_state.specs.Stands.{Stands};

use crate::parts::StateParts;
use event_check::window;
use ts_model::Window;

impl StateParts {
    /// The buckets that a refresh of an aggregate covers, with the window from `lo` on and below `hi`.
    pub(crate) fn window(&self, view: u32, lo: Option<i64>, hi: Option<i64>) -> Window
        requires stands { Stands self.now }
        requires view { IsSome (view_of self.now.roster view) }
        requires low { ForSome lo (λ t. IsTrue (is_time t)) }
        requires high { ForSome hi (λ t. IsTrue (is_time t)) }
        ensures window { WindowIs self.now view lo hi result }
    {
        let def = self.roster.views.get(view as usize);
        let state = self.views.get(view as usize);
        let table = self.table(state.table());
        let latest = table.rows().last(self.position);
        window(def.fold.width, state.mark(), latest, lo, hi)
    }
}
