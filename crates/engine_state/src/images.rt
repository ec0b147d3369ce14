//! The parts of a history's image, read from a state.
ghost use Rattle.std.specs.Prelude.{◌≡◌, ◌∷◌, [], map, IfOk, IsSome, Some};
ghost use Rattle.ts_model.specs.declared.views.ViewDef.{ViewDef};
ghost use Rattle.ts_model.specs.History.{History, position};
ghost use Rattle.ts_model.specs.Refreshes.{watermark};
ghost use Rattle.ts_model.specs.Roster.{roster, view_of};
ghost use Rattle.ts_model.specs.Rows.{in_order, rows};
ghost use Rattle.image_laws.specs.Images.{finished_upto};
ghost use Rattle.base_image.specs.Taking.{AreDirty, AreLasts, AreLeft};
ghost use Rattle.realtime_union.specs.Live.{all_times};
ghost use Rattle.engine_state.specs.Images.{last_of, saved_group, sums_of};
ghost use Rattle.engine_state.specs.Stands.{Stands, StandsFor};

use crate::parts::StateParts;
use crate::states::State;
use base_image::Imaged;
use block_list::Iter;
use partial_agg::{Group, Partial};
use span_map::Piece;
use std::alloc::Global;
use ts_bucket::{MAX_TIME, MIN_TIME, Span, all_buckets};
use ts_model::{Finished, Roster, SavedGroup, SavedLast, Sums, Waiting};
use ts_schema::{NoMemory, Row, Seq, Steps, row_order};

/// All times.
pub(crate) fn all_times() -> Span
    ensures { result ≡ all_times }
{
    Span {
        lo: MIN_TIME,
        hi: MAX_TIME + 1,
    }
}

/// These rows in row order.
pub(crate) fn sort_rows(rows: Seq<Row>) -> Result<Seq<Row>, NoMemory>
    ensures { IfOk result (λ sorted. sorted ≡ in_order rows) }
{
    let mut items = rows.into_items();
    items.sort_by(|a: &Row, b: &Row| row_order(a, b))?;
    Ok(Seq::of(items))
}

/// Last refreshes, in the form of an image.
fn saved_lasts(alloc: Global, pieces: &[Piece]) -> Result<Seq<SavedLast>, NoMemory>
    ensures { IfOk result (λ lasts. lasts ≡ map last_of pieces.now) }
{
    let mut lasts = Seq::new(alloc);
    for piece in pieces {
        lasts.push(SavedLast {
            span: piece.span,
            pos: piece.pos,
        })?;
    }
    Ok(lasts)
}

/// The totals of the columns of a group, in the form of an image.
fn saved_sums(alloc: Global, parts: &[Partial]) -> Result<Seq<Sums>, NoMemory>
    ensures { IfOk result (λ sums. sums ≡ map sums_of parts.now) }
{
    let mut sums = Seq::new(alloc);
    for part in parts {
        sums.push(Sums {
            count: part.count,
            values: part.values,
            sum: part.sum,
            least: part.least(),
            most: part.most(),
        })?;
    }
    Ok(sums)
}

/// A group, in the form of an image.
fn saved_group(alloc: Global, group: &Group) -> Result<SavedGroup, NoMemory>
    ensures { IfOk result (λ saved. saved ≡ saved_group group.now) }
{
    Ok(SavedGroup {
        start: group.start,
        keys: Seq::of(Vec::from_slice(alloc, group.keys.items())?),
        parts: saved_sums(alloc, group.parts.items())?,
    })
}

/// Groups, in the form of an image.
fn saved_groups(alloc: Global, groups: Iter<'_, Group>) -> Result<Seq<SavedGroup>, NoMemory>
    ensures { IfOk result (λ saved. saved ≡ map saved_group groups.entry) }
{
    let mut saved = Seq::new(alloc);
    for group in groups {
        saved.push(saved_group(alloc, group)?)?;
    }
    Ok(saved)
}

impl StateParts {
    /// The rows of a table, in order. A table that isn't a hypertable has none.
    fn rows(&self, alloc: Global, table: u32) -> Result<Seq<Row>, NoMemory>
        requires stands { Stands self.now }
        ensures rows { (h : History) → StandsFor h self.now → IfOk result (λ found. found ≡ rows table h) }
    {
        match self.table_if(table) {
            None => Ok(Seq::new(alloc)),
            Some(state) => sort_rows(
                state
                    .rows()
                    .scan(self.position, all_times(), &mut Steps::new(()))?,
            ),
        }
    }

    /// The last refreshes of an aggregate, as maximal ranges.
    fn lasts(&self, alloc: Global, view: u32) -> Result<Seq<SavedLast>, NoMemory>
        requires stands { Stands self.now }
        requires view { IsSome (view_of self.now.roster view) }
        ensures lasts { (h : History) (def : ViewDef) → StandsFor h self.now → view_of (roster h) view ≡ Some def
            → IfOk result (AreLasts view def h) }
    {
        let seen = self.view_seen(view);
        let pieces = seen.state.log().lasts()?;
        saved_lasts(alloc, pieces.items())
    }

    /// The buckets of an aggregate that were touched after their last refresh, as maximal ranges.
    fn dirty(&self, view: u32) -> Result<Seq<Span>, NoMemory>
        requires stands { Stands self.now }
        requires view { IsSome (view_of self.now.roster view) }
        ensures dirty { (h : History) (def : ViewDef) → StandsFor h self.now → view_of (roster h) view ≡ Some def
            → IfOk result (AreDirty view def h) }
    {
        let seen = self.view_seen(view);
        let entries = seen.rows.table.log().entries();
        let all = all_buckets(seen.def.fold.width);
        seen.state.log().changed_with(entries, all)
    }

    /// The groups that the last refreshes of an aggregate stored in the buckets of a span, in order.
    fn groups(&self, alloc: Global, view: u32, span: Span) -> Result<Seq<SavedGroup>, NoMemory>
        requires stands { Stands self.now }
        requires view { IsSome (view_of self.now.roster view) }
        ensures groups { (h : History) (def : ViewDef) → StandsFor h self.now → view_of (roster h) view ≡ Some def
            → IfOk result (AreLeft view def h (span ∷ [])) }
    {
        let seen = self.view_seen(view);
        let left = seen.state.groups().slice(span)?;
        saved_groups(alloc, left.iter())
    }

    /// The watermark of an aggregate.
    fn mark(&self, view: u32) -> Option<i64>
        requires stands { Stands self.now }
        requires view { IsSome (view_of self.now.roster view) }
        ensures mark { (h : History) (def : ViewDef) → StandsFor h self.now → view_of (roster h) view ≡ Some def
            → result ≡ watermark view def h }
    {
        self.view_seen(view).state.mark()
    }

    /// The refreshes that were finished, in order of their cuts.
    fn done(&self) -> Result<Seq<Finished>, NoMemory>
        ensures done { (h : History) → StandsFor h self.now
            → IfOk result (λ found. found ≡ finished_upto h (position h)) }
    {
        self.refreshes.done()
    }
}

impl Imaged for State {
    ghost use Rattle.engine_state.specs.ChunkParts.{state_rows};
    ghost use Rattle.engine_state.specs.Stands.{StandsFor};

    ghost stands = { λ s h. StandsFor h s };

    ghost held = { state_rows };

    fn position(&self) -> u64 {
        self.parts.position
    }

    fn roster(&self) -> &Roster {
        &self.parts.roster
    }

    fn rows(&self, table: u32) -> Result<Seq<Row>, NoMemory> {
        self.parts.rows(self.alloc, table)
    }

    fn spans(&self, table: u32) -> Result<Seq<Span>, NoMemory> {
        self.parts.spans(self.alloc, table)
    }

    fn rows_in(&self, table: u32, span: Span) -> Result<Seq<Row>, NoMemory> {
        self.parts.rows_in(self.alloc, table, span)
    }

    fn lasts(&self, view: u32) -> Result<Seq<SavedLast>, NoMemory> {
        self.parts.lasts(self.alloc, view)
    }

    fn dirty(&self, view: u32) -> Result<Seq<Span>, NoMemory> {
        self.parts.dirty(view)
    }

    fn groups(&self, view: u32, span: Span) -> Result<Seq<SavedGroup>, NoMemory> {
        self.parts.groups(self.alloc, view, span)
    }

    fn mark(&self, view: u32) -> Option<i64> {
        self.parts.mark(view)
    }

    fn waiting(&self) -> Result<Seq<Waiting>, NoMemory> {
        self.parts.refreshes.waiting()
    }

    fn done(&self) -> Result<Seq<Finished>, NoMemory> {
        self.parts.done()
    }
}
