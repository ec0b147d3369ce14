//! Which sessions run alone, and which in parallel.
ghost use Rattle.std.specs.Prelude.{◌≡◌, ◌≢◌, ◌≤◌, ℕ, not, filter, length};
ghost use Rattle.std.specs.List.{All, AllPairs};
ghost use Rattle.std.specs.Option.{option_to_list};
ghost use Rattle.ts_model.specs.Roster.{same_name};
ghost use Rattle.par_lines.specs.Sorted.{setup, final};
ghost use Rattle.par_lines.specs.Places.{only_session, sessions_at_once, AreWithin, IsWithin};

use crate::sessions::{SessionLines, place_of};

/// The sessions of an input, by their phases.
#[derive(Drop, Debug)]
pub struct Phases {
    /// The session `setup`, which runs alone before all others.
    pub setup: Option<SessionLines>,
    /// The sessions that run in parallel, each with its own worker.
    pub at_once: Vec<SessionLines>,
    /// The session `final`, which runs alone after all others.
    pub last: Option<SessionLines>,
}

/// Splits sessions into phases. Those that run in parallel stay in order.
pub fn into_phases(sessions: Vec<SessionLines>) -> Phases
    requires apart { AllPairs (λ one other. one.name ≢ other.name) sessions.items }
    ensures setup { option_to_list result.setup ≡ only_session setup sessions.items }
    ensures at_once { result.at_once.items ≡ sessions_at_once sessions.items }
    ensures last { option_to_list result.last ≡ only_session final sessions.items }
    ensures few { length result.at_once.items ≤ length sessions.items }
    ensures within { (n : ℕ) → All (IsWithin n) sessions.items → AreWithin n result }
{
    let mut at_once = sessions;
    let setup = take_named(&mut at_once, b"setup");
    let last = take_named(&mut at_once, b"final");
    Phases {
        setup,
        at_once,
        last,
    }
}

/// Takes the session `name` out of the others, which stay in order.
fn take_named(sessions: &mut Vec<SessionLines>, name: &[u8]) -> Option<SessionLines>
    requires apart { AllPairs (λ one other. one.name ≢ other.name) sessions.old.items }
    ensures taken { option_to_list result ≡ filter (λ session. same_name session.name name.now) sessions.old.items }
    ensures others { sessions.new.items
        ≡ filter (λ session. not (same_name session.name name.now)) sessions.old.items }
    ensures apart { AllPairs (λ one other. one.name ≢ other.name) sessions.new.items }
{
    let place = place_of(sessions, name)?;
    Some(sessions.remove(place))
}
