//! Laws of policies and ticks. Each is the clause of a function that does nothing, at any types.
ghost use Rattle.policy_jobs.specs.Laws.{CutLinesReadLess, DueTextsAreStatements, LinesKeepPolicies, LinesSeeTheirOwnPlaces, OnlyNewOnesAreDue, SecondTicksAreIdle, TicksAreTheirLines, TicksMakeFewEvents};
ghost use Rattle.policy_jobs.specs.Queues.{OthersSeeNoQueue, QueriesShowTheQueue};

use ts_model::Shown;
use ts_sessions::laws::lines_make_at_most_three_events;
use ts_sessions::{Actor, Session};

/// States the law that the text that a policy runs is its statement, by the grammar of all statements.
pub fn due_texts_are_statements()
    ensures { DueTextsAreStatements }
{}

/// States the law that after a tick, another tick at the same time runs only the policies that were added since.
pub fn only_new_ones_are_due()
    ensures { OnlyNewOnesAreDue }
{}

/// States the law that a line keeps the policies that exist, and may add new ones after them. A tick marks those that
/// were due. A line that is refused changes no policy.
pub fn lines_keep_policies<P>()
    ensures { LinesKeepPolicies P }
{}

/// States the law that a tick of a session appends at most three events for each policy that is due.
pub fn ticks_make_few_events()
    ensures { TicksMakeFewEvents }
{
    lines_make_at_most_three_events();
}

/// States the law that after a tick, another tick at the same time is only its line.
pub fn second_ticks_are_idle<P>()
    ensures { SecondTicksAreIdle P }
{}

/// States the law that a tick of a session is its line and then the lines of its due statements.
pub fn ticks_are_their_lines<T: Shown + Drop>()
where
    T::Job: Drop,
    ensures { TicksAreTheirLines }
{
    Session::<T>::stays_outside();
}

/// States the law that lines of other sessions write the same, whatever a session carries, including its policies.
pub fn lines_see_their_own_places<P>()
    ensures { LinesSeeTheirOwnPlaces P }
{}

/// A query of a session in a write block shows what it shows directly after a commit of the queue, and reads as many
/// rows.
pub fn queries_show_the_queue()
    ensures { QueriesShowTheQueue }
{}

/// Lines of other sessions write the same, whatever a session has queued.
pub fn others_see_no_queue()
    ensures { OthersSeeNoQueue }
{}

/// The first of some lines read at most as many stored rows as all of them.
pub fn cut_lines_read_less<P>()
    ensures { CutLinesReadLess P }
{}
