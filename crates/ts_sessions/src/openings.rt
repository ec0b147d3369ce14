//! What a statement does first, by its kind and the block of its session, before it calls the store.
ghost use Rattle.std.specs.Prelude.{◌≡◌, IfOk};
ghost use Rattle.ts_sessions.specs.Held.{places_in};
ghost use Rattle.ts_sessions.specs.Openings.{opening_of};

use crate::block_ends::begin;
use crate::deeds::{AfterLook, Deed, Next};
use crate::sessions::Session;
use std::alloc::Global;
use stmt_syntax::Stmt;
use ts_model::Shown;
use ts_schema::NoMemory;

/// What a statement does first.
#[derive(Drop)]
pub enum Opening<T: Shown>
where
    T::Job: Drop,
{
    /// This store call, or the end of the statement.
    Next(Next<T>),
    /// The resolution of its names.
    Names,
    /// The finish of a refresh with the job that the session holds: the one with this number, or the last that it cut.
    Finish(Option<i64>),
}

impl<T: Shown + Drop> Session<T>
where
    T::Job: Drop,
{
    /// Returns what a statement that the block lets pass does first.
    pub fn opening(&self, alloc: Global, stmt: &Stmt) -> Result<Opening<T>, NoMemory>
        ensures { IfOk result (λ o. o ≡ opening_of (places_in self.now) stmt.now) }
    {
        match stmt {
            Stmt::Snap { cut } => Ok(Opening::Next(Next::Deed(self.snap(*cut)))),
            Stmt::Finish { cut } => Ok(Opening::Finish(*cut)),
            Stmt::Begin => Ok(Opening::Next(begin(alloc)?)),
            Stmt::BeginRead => { Ok(Opening::Next(Next::Deed(Deed::Look(AfterLook::BeginRead)))) }
            Stmt::Commit => Ok(Opening::Next(self.end_block(alloc)?)),
            Stmt::Rollback => Ok(Opening::Next(self.roll_back(alloc)?)),
            Stmt::Table { .. }
            | Stmt::Hyper { .. }
            | Stmt::View { .. }
            | Stmt::Mode { .. }
            | Stmt::Insert { .. }
            | Stmt::Delete { .. }
            | Stmt::Drop { .. }
            | Stmt::Refresh { .. }
            | Stmt::Cut { .. }
            | Stmt::Buckets(_)
            | Stmt::Calendar { .. }
            | Stmt::Rows { .. } => Ok(Opening::Names),
        }
    }
}
