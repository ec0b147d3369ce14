//! Laws that relate tables to histories. Each law is the clause of a function that does nothing.
ghost use Rattle.row_versions.specs.Laws.{CommitsAreHeld, CommitsFit, EffectsAreOfCommits, HeldTablesTell, OthersAreHeld, TablesBegin, UnnamedAreHeld};

/// A new table holds a table of a consistent history that isn't a hypertable yet.
pub fn tables_begin()
    ensures { TablesBegin }
{}

/// The requirements of `apply` are met at the next position, for the operations of a commit that is consistent
/// with it.
pub fn commits_fit()
    ensures { CommitsFit }
{}

/// The table that `apply` returns holds the history with the commit.
pub fn commits_are_held()
    ensures { CommitsAreHeld }
{}

/// The effect that `apply` returns is that of the commit.
pub fn effects_are_of_commits()
    ensures { EffectsAreOfCommits }
{}

/// A commit without an operation on a table leaves it unchanged.
pub fn unnamed_are_held()
    ensures { UnnamedAreHeld }
{}

/// Every other event leaves a table unchanged.
pub fn others_are_held()
    ensures { OthersAreHeld }
{}

/// The results of `scan` and `last` for a table that holds a history. They are the rows of the history at every
/// position, the rows ever inserted in the chunks that are read, and the last bucket with a row.
pub fn held_tables_tell()
    ensures { HeldTablesTell }
{}
