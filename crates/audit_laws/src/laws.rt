//! Laws of audits of parallel runs. Each is the clause of a function that does nothing.
ghost use Rattle.audit_laws.specs.Laws.{AuditsSayYes, RunsAreExplained};

use audit::laws::explained_is_yes;
use transcript::text_law;

/// States the law that a parallel run leaves a history that explains its transcript. This is true unless a line is a
/// statement on policies, or the disk failed.
pub fn runs_are_explained()
    ensures { RunsAreExplained }
{}

/// States the law of audits of such a transcript's text over the history that the run left. They answer YES with the
/// number of replies, unless memory runs out.
pub fn audits_say_yes()
    ensures { AuditsSayYes }
{
    text_law();
    explained_is_yes();
}
