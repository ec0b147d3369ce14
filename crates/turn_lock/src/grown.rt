//! What the lock needs from the value that it guards.
ghost use Rattle.std.specs.Prelude.{◌≡◌, ◌+◌, ℕ, List, Option, length};

/// A value that is a base and the events after it. Each event raises its position by one.
pub trait Grown {
    /// The type of the base.
    type Base;

    /// One event.
    type Entry;

    // The base of a value, which precedes its events.
    ghost base: { Self → Self.Base };

    // The position at which a base ends, before the first event.
    ghost first: { Self.Base → ℕ };

    // The events after the base, in order.
    ghost events: { Self → List Self.Entry };

    // The entry that closed the value, if it is closed. It isn't among the events, which stay as they are from then on.
    ghost closed: { Self → Option Self.Entry };

    /// The position at which the events end.
    fn position(&self) -> u64
        ensures { result ≡ first (base self.now) + length (events self.now) };
}
