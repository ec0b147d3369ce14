//! Kinds of statements, by which blocks let them pass or not.
ghost use Rattle.std.specs.Prelude.{◌≡◌};
ghost use Rattle.ts_sessions.specs.Step.{kind_of as kind_of_stmt};

use stmt_syntax::Stmt;

/// The kind of a statement.
#[derive(Clone, Copy, Debug, PartialEq, Eq)]
pub enum StatementKind {
    /// It creates or sets a relation, or refreshes an aggregate.
    Defines,
    /// It inserts or deletes rows.
    Changes,
    /// It is a query.
    Asks,
    /// It takes a snapshot for a refresh.
    Snaps,
    /// It finishes a refresh.
    Finishes,
    /// It begins a write block.
    Begins,
    /// It begins a read block.
    BeginsRead,
    /// It ends a block, and commits what is queued there.
    Commits,
    /// It gives up a block.
    RollsBack,
}

/// The kind of a statement.
pub fn kind_of(stmt: &Stmt) -> StatementKind
    ensures { result ≡ kind_of_stmt stmt.now }
{
    match stmt {
        Stmt::Table { .. } => StatementKind::Defines,
        Stmt::Hyper { .. } => StatementKind::Defines,
        Stmt::View { .. } => StatementKind::Defines,
        Stmt::Mode { .. } => StatementKind::Defines,
        Stmt::Insert { .. } => StatementKind::Changes,
        Stmt::Delete { .. } => StatementKind::Changes,
        Stmt::Drop { .. } => StatementKind::Changes,
        Stmt::Refresh { .. } => StatementKind::Defines,
        Stmt::Cut { .. } => StatementKind::Defines,
        Stmt::Snap { .. } => StatementKind::Snaps,
        Stmt::Finish { .. } => StatementKind::Finishes,
        Stmt::Begin => StatementKind::Begins,
        Stmt::BeginRead => StatementKind::BeginsRead,
        Stmt::Commit => StatementKind::Commits,
        Stmt::Rollback => StatementKind::RollsBack,
        Stmt::Buckets(_) => StatementKind::Asks,
        Stmt::Calendar { .. } => StatementKind::Asks,
        Stmt::Rows { .. } => StatementKind::Asks,
    }
}
