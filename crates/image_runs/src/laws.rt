//! Laws of scripts over images. Each is the clause of a function that does nothing.
ghost use Rattle.image_runs.specs.Laws.{ScriptsGoOn};
ghost use Rattle.policy_jobs.specs.Laws.{policy_sessions};
ghost use Rattle.ts_sessions.specs.Script.{session_semantics};

use ts_model::Shown;
use ts_sessions::{Actor, Session};

/// States the law that the same lines over an allowed history and over its image write the same text, and the same
/// events follow. This is also true with the same events after both. The lines have at most 2^26 bytes in all, and the
/// sessions have no policies.
pub fn scripts_go_on_from_images()
    ensures { ScriptsGoOn session_semantics }
{}

/// States the same law for sessions with policies, as those of the program are: for statements that add them, and for
/// all statements that ticks run.
pub fn policy_scripts_go_on_from_images<T: Shown + Drop>()
where
    T::Job: Drop,
    ensures { ScriptsGoOn policy_sessions }
{
    Session::<T>::stays_outside();
}
