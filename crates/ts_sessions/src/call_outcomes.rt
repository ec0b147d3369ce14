//! Outcomes of store calls.
ghost use Rattle.std.specs.Prelude.{◌≡◌};
ghost use Rattle.ts_sessions.specs.CallOutcomes.{IsTried};
ghost use Rattle.ts_sessions.specs.Sessions.{result_of as came_of, has_failed};

use crate::refusals::at;
use ts_model::{Outcome, Refusal, codes};
use ts_schema::NoMemory;

/// The outcome of a call that may append an event.
#[derive(Drop, Debug, PartialEq, Eq)]
pub enum Attempt<T> {
    /// The call succeeded.
    Done(T),
    /// The call was refused, and nothing changed.
    Refused(Refusal),
    /// The disk failed at its event, and the store has stopped. The refusal is `E24`, with the position of the stop.
    Failed(Refusal),
}

/// Returns the outcome of a call that returned `outcome` and left the store at `position`.
pub(crate) fn outcome_of<T: Drop>(
    outcome: Outcome<T>,
    position: u64,
) -> Result<Attempt<T>, NoMemory>
    ensures { IsTried position outcome result }
{
    match outcome {
        Outcome::Done(done) => Ok(Attempt::Done(done)),
        Outcome::Refused(refusal) => Ok(Attempt::Refused(refusal)),
        Outcome::DiskFault => Ok(Attempt::Failed(at(codes::STOPPED, position, 0))),
        Outcome::NoMemory => Err(NoMemory),
    }
}

impl<T> Attempt<T> {
    /// Whether the disk failed.
    pub(crate) fn has_disk_fault(&self) -> bool
        ensures { result ≡ has_failed self.now }
    {
        match self {
            Attempt::Done(_) => false,
            Attempt::Refused(_) => false,
            Attempt::Failed(_) => true,
        }
    }

    /// Returns what the call did, or why it was refused.
    pub(crate) fn into_result(self) -> Result<T, Refusal>
        ensures { result ≡ came_of self }
    {
        match self {
            Attempt::Done(done) => Ok(done),
            Attempt::Refused(refusal) => Err(refusal),
            Attempt::Failed(refusal) => Err(refusal),
        }
    }
}
