//! Laws of the events that replies name. Each is the clause of a function that does nothing.
ghost use Rattle.event_laws.specs.Events.{RepliesAreWritten, ScriptsTellTheirEvents};
ghost use Rattle.policy_jobs.specs.Laws.{policy_sessions};

use policy_jobs::PolicySession;
use ts_model::Shown;
use ts_sessions::{Actor, Session};

/// States the law of the history after a script, if it is allowed. It is the opening history and then the events that
/// the replies name, each once and in order. A line without a session appends none.
pub fn scripts_tell_their_events<T: Shown + Drop>()
where
    T::Job: Drop,
    ensures told { ScriptsTellTheirEvents policy_sessions }
    ensures written { RepliesAreWritten policy_sessions }
{
    PolicySession::<Session<T>>::tells_replies();
}
