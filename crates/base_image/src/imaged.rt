//! States of a history from which an image can be taken.
use ts_bucket::Span;
use ts_model::{Finished, Roster, SavedGroup, SavedLast, Waiting};
use ts_schema::{NoMemory, Row, Seq};

/// A state of a history, from which the image of the history is built. It need not store a history: `stands`
/// relates its contents to the histories that it represents, and each clause is true for all of them.
pub trait Imaged {
    ghost use Rattle.std.specs.Prelude.{◌≡◌, ◌≤◌, ℕ, List, [], ◌∷◌, length, Some, IsSome, IfOk};
    ghost use Rattle.ts_bucket.specs.Ranges.{IsWholeRange};
    ghost use Rattle.ts_model.specs.declared.views.ViewDef.{ViewDef};
    ghost use Rattle.ts_model.specs.History.{History, position};
    ghost use Rattle.ts_model.specs.Pending.{waiting};
    ghost use Rattle.ts_model.specs.Refreshes.{watermark};
    ghost use Rattle.ts_model.specs.Roster.{roster, table_of, view_of};
    ghost use Rattle.ts_model.specs.Rows.{rows};
    ghost use Rattle.image_laws.specs.Images.{finished_upto};
    ghost use Rattle.ts_schema.specs.declared.rows.Row.{Row as RowValue};
    ghost use Rattle.base_image.specs.Outlines.{rows_in, span_rows};
    ghost use Rattle.base_image.specs.Taking.{AreDirty, AreLasts, AreLeft};

    /// Its contents represent this history.
    ghost stands: { Self → History → Type 0 };

    /// The rows of each table, by its number.
    ghost held: { Self → ℕ → List RowValue };

    /// Returns the position of the history.
    fn position(&self) -> u64
        ensures { (h : History) → stands self.now h → result ≡ position h };

    /// Returns its tables and aggregates, at most 64 of each.
    fn roster(&self) -> &Roster
        ensures roster { (h : History) → stands self.now h → result.now ≡ roster h }
        ensures few_tables { length result.now.tables ≤ 64 }
        ensures few_views { length result.now.views ≤ 64 };

    /// Returns the rows of a table, in order.
    fn rows(&self, table: u32) -> Result<Seq<Row>, NoMemory>
        requires table { (h : History) → stands self.now h → IsSome (table_of (roster h) table) }
        ensures rows { (h : History) → stands self.now h → IfOk result (λ found. found ≡ rows table h) };

    /// Returns spans whose rows, span by span, are those of a table. The rows of one span are few, or those of
    /// one chunk.
    fn spans(&self, table: u32) -> Result<Seq<Span>, NoMemory>
        ensures spans { IfOk result (λ spans. span_rows (held self.now table) spans ≡ held self.now table) }
        ensures held { (h : History) → stands self.now h → held self.now table ≡ rows table h };

    /// Returns the rows of a table whose times are in a span, in order.
    fn rows_in(&self, table: u32, span: Span) -> Result<Seq<Row>, NoMemory>
        ensures rows { IfOk result (λ found. found ≡ rows_in span (held self.now table)) };

    /// Returns the last refreshes of an aggregate, as maximal ranges.
    fn lasts(&self, view: u32) -> Result<Seq<SavedLast>, NoMemory>
        requires view { (h : History) → stands self.now h → IsSome (view_of (roster h) view) }
        ensures lasts { (h : History) (def : ViewDef) → stands self.now h → view_of (roster h) view ≡ Some def
            → IfOk result (AreLasts view def h) };

    /// Returns the buckets of an aggregate that were touched after their last refresh, as maximal ranges.
    fn dirty(&self, view: u32) -> Result<Seq<Span>, NoMemory>
        requires view { (h : History) → stands self.now h → IsSome (view_of (roster h) view) }
        ensures dirty { (h : History) (def : ViewDef) → stands self.now h → view_of (roster h) view ≡ Some def
            → IfOk result (AreDirty view def h) };

    /// Returns the groups that the last refreshes of an aggregate stored in the buckets of a span of whole
    /// buckets, in order.
    fn groups(&self, view: u32, span: Span) -> Result<Seq<SavedGroup>, NoMemory>
        requires view { (h : History) → stands self.now h → IsSome (view_of (roster h) view) }
        requires whole { (h : History) (def : ViewDef) → stands self.now h → view_of (roster h) view ≡ Some def
            → IsWholeRange def.fold.width span }
        ensures groups { (h : History) (def : ViewDef) → stands self.now h → view_of (roster h) view ≡ Some def
            → IfOk result (AreLeft view def h (span ∷ [])) };

    /// Returns the watermark of an aggregate.
    fn mark(&self, view: u32) -> Option<i64>
        requires view { (h : History) → stands self.now h → IsSome (view_of (roster h) view) }
        ensures mark { (h : History) (def : ViewDef) → stands self.now h → view_of (roster h) view ≡ Some def
            → result ≡ watermark view def h };

    /// Returns the refreshes that are pending, in order of their cuts.
    fn waiting(&self) -> Result<Seq<Waiting>, NoMemory>
        ensures waiting { (h : History) → stands self.now h → IfOk result (λ found. found ≡ waiting h) };

    /// Returns the refreshes that were finished, in order of their cuts.
    fn done(&self) -> Result<Seq<Finished>, NoMemory>
        ensures done { (h : History) → stands self.now h
            → IfOk result (λ found. found ≡ finished_upto h (position h)) };
}
