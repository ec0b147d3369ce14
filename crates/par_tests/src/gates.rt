//! Worker hooks that hold a worker before it finishes a refresh, until another worker has reached some point. A hook
//! holds a worker for a limited time. It records whether that was too short, as it is if workers run one at a time. It
//! also records whether it was called for a finish at all, which no contract says. Another hook records the numbers of
//! the sessions that replied.
use std::hint;
use std::sync::atomic::{AtomicBool, AtomicU64, Ordering};
use ts_model::Gate;

// How often a held worker checks whether it may continue.
const TURNS: u32 = 200_000_000;

/// Waits until the flag is set. Returns false if it wasn't set in time.
fn comes(flag: &AtomicBool) -> bool {
    for _ in 0..TURNS {
        if flag.load(Ordering::SeqCst) {
            return true;
        }
        hint::spin_loop();
    }
    false
}

/// Holds session 1 until session 2 has replied.
#[derive(Drop)]
pub(crate) struct UntilReply {
    held: AtomicBool,
    replied: AtomicBool,
    too_late: AtomicBool,
}

impl UntilReply {
    pub(crate) fn new() -> UntilReply {
        UntilReply {
            held: AtomicBool::new(false),
            replied: AtomicBool::new(false),
            too_late: AtomicBool::new(false),
        }
    }

    /// Whether session 1 was held, and the reply came meanwhile.
    pub(crate) fn was_in_time(&self) -> bool {
        self.held.load(Ordering::SeqCst) && !self.too_late.load(Ordering::SeqCst)
    }
}

impl Gate for UntilReply {
    fn between(&self, session: u32) {
        if session == 1 {
            self.held.store(true, Ordering::SeqCst);
            if !comes(&self.replied) {
                self.too_late.store(true, Ordering::SeqCst);
            }
        }
    }

    fn answered(&self, session: u32) {
        if session == 2 {
            self.replied.store(true, Ordering::SeqCst);
        }
    }
}

/// Holds each of sessions 1 and 2 until the other is about to finish a refresh too.
#[derive(Drop)]
pub(crate) struct UntilBoth {
    first: AtomicBool,
    second: AtomicBool,
    too_late: AtomicBool,
}

impl UntilBoth {
    pub(crate) fn new() -> UntilBoth {
        UntilBoth {
            first: AtomicBool::new(false),
            second: AtomicBool::new(false),
            too_late: AtomicBool::new(false),
        }
    }

    /// Whether both were held at the same time.
    pub(crate) fn was_in_time(&self) -> bool {
        self.first.load(Ordering::SeqCst)
            && self.second.load(Ordering::SeqCst)
            && !self.too_late.load(Ordering::SeqCst)
    }

    // Sets one session's flag, and waits for the other's.
    fn meet(&self, own: &AtomicBool, other: &AtomicBool) {
        own.store(true, Ordering::SeqCst);
        if !comes(other) {
            self.too_late.store(true, Ordering::SeqCst);
        }
    }
}

impl Gate for UntilBoth {
    fn between(&self, session: u32) {
        if session == 1 {
            self.meet(&self.first, &self.second);
        } else {
            self.meet(&self.second, &self.first);
        }
    }

    fn answered(&self, _session: u32) {}
}

/// Records the numbers of the sessions that replied, in order, as digits. Sessions reply one at a time.
#[derive(Drop)]
pub(crate) struct Answered {
    digits: AtomicU64,
}

impl Answered {
    pub(crate) fn new() -> Answered {
        Answered {
            digits: AtomicU64::new(0),
        }
    }

    /// The numbers so far.
    pub(crate) fn numbers(&self) -> u64 {
        self.digits.load(Ordering::SeqCst)
    }
}

impl Gate for Answered {
    fn between(&self, _session: u32) {}

    fn answered(&self, session: u32) {
        let before = self.numbers().wrapping_mul(10);
        let now = before.wrapping_add(u64::from(session));
        self.digits.store(now, Ordering::SeqCst);
    }
}
