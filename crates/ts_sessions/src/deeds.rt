//! Store calls: what a statement does next with its store. Each calls the store once.
ghost use Rattle.std.specs.Prelude.{◌≡◌, ℕ, ◌<◌, ◌^◌, IfOk, OnOk};
ghost use Rattle.std.specs.Thread.{IsSync};
ghost use Rattle.ts_model.specs.History.{History, position as position_of};
ghost use Rattle.ts_sessions.specs.Deeds.{Advances, CarriesOut, DeedFits, IsLostBy, IsLostNext, Joins, NextFits, at_in, cut_in, event_of, held_in, lack_code, left, left_next, line_of, taken_by, taken_next};
ghost use Rattle.ts_sessions.specs.Places.{Places};
ghost use Rattle.ts_sessions.specs.Sessions.{Brings};

use crate::calls::call;
use crate::changes::Completion;
use crate::follows::follow;
use crate::refreshes::RefreshRequest;
use crate::refusals::lost_code;
use result_text::Said;
use std::alloc::Global;
use std::thread::Threads;
use ts_bucket::Span;
use ts_model::{Backend, Event, Gate, Hyper, Op, Shown, TableDef, ViewDef, codes};
use ts_schema::{NoMemory, Seq, Steps};

/// A refresh that was cut.
#[derive(Drop)]
pub struct CutRefresh {
    /// Its number.
    pub cut: u64,
    /// Its whole buckets.
    pub span: Span,
    /// The start of the first bucket of its aggregate.
    pub min: i64,
}

/// The source of the job of a finish.
#[derive(Drop)]
pub enum FinishSource {
    /// The statement cut it, and took its snapshot at a position.
    Begun { begun: CutRefresh, at: u64 },
    /// The session held a snapshot for it.
    Held { cut: u64, at: u64 },
}

/// An event that creates a table, or sets one property of a relation.
#[derive(Drop)]
pub enum RelationChange {
    /// Creates a table.
    Table(TableDef),
    /// Makes a table a hypertable.
    Hyper { table: u32, hyper: Hyper },
    /// Sets an aggregate to show materialized groups only, or new rows too.
    Mode { view: u32, only: bool },
}

/// The line that reports a new relation, or a changed property of one.
#[derive(Clone, Copy, Debug, PartialEq, Eq)]
pub enum ChangeLine {
    /// A table was created.
    Table,
    /// A table was made a hypertable.
    Hyper,
    /// The mode of an aggregate was set.
    Mode,
    /// An aggregate was made.
    View,
}

/// What a session lacks to finish a refresh.
#[derive(Clone, Copy, Debug, PartialEq, Eq)]
pub enum MissingPart {
    /// A snapshot for it.
    Snapshot,
    /// The job of its snapshot, which a store has taken.
    Job,
}

/// What follows a cut.
#[derive(Clone, Copy, Debug, PartialEq, Eq)]
pub enum AfterCut {
    /// The snapshot and the finish of the refresh.
    Refresh,
    /// The end of the statement.
    End,
}

/// What a statement does with a snapshot of the store.
#[derive(Drop)]
pub enum AfterLook {
    /// Begins a read block, at the position of the snapshot.
    BeginRead,
    /// Computes the job of a refresh that the statement cut, and then finishes it.
    Snapshot(CutRefresh),
    /// Computes the job of a refresh, for the session to hold.
    Hold { cut: u64 },
    /// Refuses the finish of a refresh, since the session lacks this.
    Refuse { cut: u64, lacks: MissingPart },
    /// Refuses a statement that names no refresh.
    Unknown,
}

/// The next store call of a statement, with what the statement needs to continue.
#[derive(Drop)]
pub enum Deed<T: Shown>
where
    T::Job: Drop,
{
    /// Creates a table, or sets a relation.
    Make(RelationChange),
    /// Commits operations. `leaves` says whether this ends a block.
    Commit {
        ops: Seq<Op>,
        leaves: bool,
    },
    /// Makes an aggregate. `filled` says whether a refresh of all its buckets follows.
    View {
        def: ViewDef,
        filled: bool,
    },
    /// Cuts a refresh.
    Cut {
        asked: RefreshRequest,
        then: AfterCut,
    },
    /// Finishes a refresh with a job.
    Finish {
        job: T::Job,
        finishing: FinishSource,
    },
    /// Takes a snapshot.
    Look(AfterLook),
}

/// What a statement does next.
#[derive(Drop)]
pub enum Next<T: Shown>
where
    T::Job: Drop,
{
    /// A store call.
    Deed(Deed<T>),
    /// The end of the statement.
    End(Completion<T>),
}

/// What follows a store call, and whether its disk failed.
#[derive(Drop)]
pub(crate) struct DeedOutcome<T: Shown>
where
    T::Job: Drop,
{
    /// A line of the reply that comes before all later ones.
    pub said: Option<Said>,
    /// What comes next.
    pub next: Next<T>,
    /// Whether the disk failed at its event.
    pub failed: bool,
}

/// Carries out a statement, from `next` to its end.
pub(crate) fn carry_out<R: Threads + Sync, B: Backend, G: Gate, L>(
    rt: &R,
    alloc: Global,
    backend: &mut B,
    gate: &G,
    session: u32,
    next: Next<B::Shot>,
    steps: &mut Steps<L>,
) -> Result<Completion<B::Shot>, NoMemory>
where
    <B::Shot as Shown>::Job: Drop,
    requires sync { IsSync R.row }
    requires counts { steps.old < 2 ^ 64 }
    requires fits { (bytes : ℕ) × NextFits B.Shot.Shown bytes next (B.state backend.old) }
    ensures ends { (p : Places) (read : ℕ) → CarriesOut B.alone (B.state backend.old) p read next result
        (B.state backend.new) steps.old steps.new }
    ensures change { (bytes : ℕ) → NextFits B.Shot.Shown bytes next (B.state backend.old)
        → Brings B.Shot.Shown bytes result (B.state backend.new).history }
    ensures lost { OnOk result (IsLostNext next (B.state backend.new)) }
    ensures kin { B.kin backend.new ≡ B.kin backend.old }
{
    match next {
        Next::End(completion) => Ok(completion),
        Next::Deed(deed) => {
            let advanced = advance(rt, alloc, backend, gate, session, deed, steps)?;
            let DeedOutcome { said, next, failed } = advanced;
            let _so_far = steps.count();
            let completion = carry_out(rt, alloc, backend, gate, session, next, steps)?;
            prepend_line(completion, said, failed)
        }
    }
}

/// Returns the completion with a line of the reply before its own, if there is one, and with an earlier disk fault.
pub fn prepend_line<T: Shown + Drop>(
    completion: Completion<T>,
    said: Option<Said>,
    failed: bool,
) -> Result<Completion<T>, NoMemory>
where
    T::Job: Drop,
    ensures { Joins said failed completion result }
{
    let mut lines = completion.said.into_items();
    match said {
        Some(line) => {
            lines.insert(0, line)?;
            Ok(Completion {
                said: Seq::of(lines),
                change: completion.change,
                failed: failed || completion.failed,
            })
        }
        None => Ok(Completion {
            said: Seq::of(lines),
            change: completion.change,
            failed: failed || completion.failed,
        }),
    }
}

/// Performs one store call, and returns what follows it.
fn advance<R: Threads + Sync, B: Backend, G: Gate, L>(
    rt: &R,
    alloc: Global,
    backend: &mut B,
    gate: &G,
    session: u32,
    deed: Deed<B::Shot>,
    steps: &mut Steps<L>,
) -> Result<DeedOutcome<B::Shot>, NoMemory>
where
    <B::Shot as Shown>::Job: Drop,
    requires sync { IsSync R.row }
    requires counts { steps.old < 2 ^ 64 }
    requires fits { DeedFits B.Shot.Shown deed (B.state backend.old) }
    ensures advances { (p : Places) (read : ℕ) → Advances B.alone (B.state backend.old) p read deed result
        (B.state backend.new) steps.old steps.new }
    ensures fits { IfOk result (λ a. (bytes : ℕ) → NextFits B.Shot.Shown bytes a.next (B.state backend.new)) }
    ensures shorter { IfOk result (λ a. left_next a.next < left deed) }
    ensures lost { OnOk result (IsLostBy deed (B.state backend.new)) }
    ensures kin { B.kin backend.new ≡ B.kin backend.old }
{
    let meeting = call(backend, gate, session, deed)?;
    let next = follow(rt, alloc, meeting.outcome, steps)?;
    Ok(DeedOutcome {
        said: meeting.said,
        next,
        failed: meeting.failed,
    })
}

impl RelationChange {
    /// The line that reports the change.
    pub fn line(&self) -> ChangeLine
        ensures { result ≡ line_of self.now }
    {
        match self {
            RelationChange::Table(_) => ChangeLine::Table,
            RelationChange::Hyper { .. } => ChangeLine::Hyper,
            RelationChange::Mode { .. } => ChangeLine::Mode,
        }
    }

    /// The event of the change.
    pub fn event(self) -> Event
        ensures { result ≡ event_of self }
    {
        match self {
            RelationChange::Table(def) => Event::Table(def),
            RelationChange::Hyper { table, hyper } => Event::Hyper { table, hyper },
            RelationChange::Mode { view, only } => Event::Mode { view, only },
        }
    }
}

impl<T: Shown + Drop> Next<T>
where
    T::Job: Drop,
{
    /// The refresh whose held job the call takes, if it takes one.
    pub(crate) fn cut_taken(&self) -> Option<u64>
        ensures { result ≡ taken_next self.now }
    {
        match self {
            Next::Deed(deed) => deed.cut_taken(),
            Next::End(_) => None,
        }
    }
}

impl<T: Shown + Drop> Deed<T>
where
    T::Job: Drop,
{
    /// The refresh whose held job the finish takes, if it takes one.
    fn cut_taken(&self) -> Option<u64>
        ensures { result ≡ taken_by self.now }
    {
        match self {
            Deed::Finish { job: _, finishing } => finishing.held_cut(),
            Deed::Make(_) => None,
            Deed::Commit { .. } => None,
            Deed::View { .. } => None,
            Deed::Cut { .. } => None,
            Deed::Look(_) => None,
        }
    }
}

impl MissingPart {
    /// The refusal code for a pending refresh, at a position.
    pub(crate) fn code(self, position: u64) -> u8
        ensures { (h : History) → position ≡ position_of h → result ≡ lack_code self h }
    {
        match self {
            MissingPart::Snapshot => codes::NO_SNAPSHOT,
            MissingPart::Job => lost_code(position),
        }
    }
}

impl FinishSource {
    /// The number of the refresh, if the session held its snapshot.
    fn held_cut(&self) -> Option<u64>
        ensures { result ≡ held_in self.now }
    {
        match self {
            FinishSource::Begun { .. } => None,
            FinishSource::Held { cut, at: _ } => Some(*cut),
        }
    }

    /// The number of the refresh.
    pub fn cut(&self) -> u64
        ensures { result ≡ cut_in self.now }
    {
        match self {
            FinishSource::Begun { begun, at: _ } => begun.cut,
            FinishSource::Held { cut, at: _ } => *cut,
        }
    }

    /// The position of its snapshot.
    pub fn at(&self) -> u64
        ensures { result ≡ at_in self.now }
    {
        match self {
            FinishSource::Begun { begun: _, at } => *at,
            FinishSource::Held { cut: _, at } => *at,
        }
    }
}
