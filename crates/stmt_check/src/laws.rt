//! Laws of checks. Each law is the clause of a function that does nothing.
ghost use Rattle.stmt_check.specs.Subject.{AllowedIsReady, DropsWholeChunks, StartsPassEach, ValuesArrive};
ghost use Rattle.stmt_check.specs.Sound.{ActionsAreSound, QueuesAreSound, RostersAreNumbered};

/// Statements may be checked against the roster of an allowed history.
pub fn rosters_are_numbered_law()
    ensures { RostersAreNumbered }
{}

/// What an unrefused statement requests at an allowed history can be done there.
pub fn actions_are_sound_law()
    ensures { ActionsAreSound }
{}

/// Operations that statements request can be queued and committed together.
pub fn queues_are_sound_law()
    ensures { QueuesAreSound }
{}

/// The starts that a query of an aggregate requests are exactly those that pass every test.
pub fn starts_pass_each_law()
    ensures { StartsPassEach }
{}

/// `drop_chunks` removes the rows of the chunks that end at or before its bound.
pub fn drops_whole_chunks_law()
    ensures { DropsWholeChunks }
{}

/// The value written for a column arrives in that column, and an omitted column is NULL.
pub fn values_arrive_law()
    ensures { ValuesArrive }
{}

/// A CREATE TABLE, a hypertable and an aggregate whose event would be allowed aren't refused.
pub fn allowed_is_ready_law()
    ensures { AllowedIsReady }
{}
