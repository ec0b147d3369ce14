//! Results of statements: the lines that they reply, and how they change a session.
ghost use Rattle.std.specs.Prelude.{◌≡◌, ◌∷◌, [], false, IfOk};
ghost use Rattle.result_text.specs.declared.replies.Said.TheVariants.{Fault};
ghost use Rattle.ts_sessions.specs.Sessions.{Completes};

use crate::blocks::Open;
use result_text::Said;
use std::alloc::Global;
use ts_model::{Op, Refusal, Shown};
use ts_schema::{NoMemory, Seq};

/// How a statement changes its session.
#[derive(Drop)]
pub enum Change<T: Shown>
where
    T::Job: Drop,
{
    /// The session stays as it is.
    Nothing,
    /// The last refresh that it cut is this one.
    Cuts(u64),
    /// It holds a snapshot for a refresh, instead of one that it held.
    Holds { cut: u64, at: u64, job: T::Job },
    /// It gives up its snapshot for a refresh.
    GivesUp(u64),
    /// It is in this block now.
    Enters(Open<T>),
    /// It queues an operation, from a text of this many bytes, in its write block.
    Queues { op: Op, bytes: u64 },
}

/// The result of a statement.
#[derive(Drop)]
pub struct Completion<T: Shown>
where
    T::Job: Drop,
{
    /// The lines of its reply.
    pub said: Seq<Said>,
    /// How it changes its session.
    pub change: Change<T>,
    /// Whether the disk failed at one of its events.
    pub failed: bool,
}

/// Returns a list of one line.
pub(crate) fn one_line(alloc: Global, said: Said) -> Result<Seq<Said>, NoMemory>
    ensures { IfOk result (λ lines. lines ≡ said ∷ []) }
{
    let mut lines = Seq::new(alloc);
    lines.push(said)?;
    Ok(lines)
}

/// Returns the result of a refused statement.
pub(crate) fn refusal_completion<T: Shown + Drop>(
    alloc: Global,
    refusal: Refusal,
) -> Result<Completion<T>, NoMemory>
where
    T::Job: Drop,
    ensures { Completes (Fault refusal ∷ []) Change.Nothing false result }
{
    Ok(Completion {
        said: one_line(alloc, Said::Fault(refusal))?,
        change: Change::Nothing,
        failed: false,
    })
}
