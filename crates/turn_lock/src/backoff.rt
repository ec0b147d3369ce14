//! How long a pass that waits for its turn checks for it before it sleeps.
use std::time::Duration;

/// How often the next pass in line checks for the end of a turn before it sleeps. So it continues as soon as a short
/// turn ends.
const LOOKS_OF_THE_NEXT: u32 = 256;

/// How often other passes check. If many passes yielded in turn, they would use all processors while a disk works.
const LOOKS_OF_OTHERS: u32 = 4;

/// How long a pass sleeps, unless the turn ends meanwhile, in microseconds: less than a sync of a disk.
const NAP: u64 = 50;

/// What a pass that waits has seen.
#[derive(Clone, Copy, Debug)]
pub(crate) struct Backoff {
    /// The ticket that was served.
    serving: u64,
    /// How often it has been seen in a row.
    looks: u32,
}

impl Backoff {
    /// Returns a back-off that has seen nothing.
    pub(crate) fn new() -> Backoff {
        Backoff {
            serving: 0,
            looks: 0,
        }
    }

    /// Whether a pass that sees this ticket served, and waits for its own, must sleep.
    pub(crate) fn ends(&mut self, serving: u64, ticket: u64) -> bool {
        if serving != self.serving {
            self.serving = serving;
            self.looks = 0;
        }
        self.looks = self.looks.saturating_add(1);
        let is_next = ticket.saturating_sub(serving) <= 1;
        let most = if is_next {
            LOOKS_OF_THE_NEXT
        } else {
            LOOKS_OF_OTHERS
        };
        self.looks > most
    }
}

/// How long a pass sleeps.
pub(crate) fn back_off() -> Duration {
    Duration::from_micros(NAP)
}
