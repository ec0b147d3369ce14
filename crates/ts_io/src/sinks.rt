//! Sinks of bytes.
ghost use Rattle.std.specs.Prelude.{◌≡◌, ℕ, List, Option};
ghost use Rattle.ts_io.specs.Faults.{Counted};
ghost use Rattle.ts_io.specs.Sink.{Takes, is_failed};

/// The result of a write.
#[derive(Clone, Copy, Debug, PartialEq, Eq)]
pub enum Put {
    /// This many bytes from the front of the piece were written: at least one, unless the piece is empty.
    Bytes(usize),
    /// The call failed, and the count of faults rose.
    Failed,
}

/// A sink of bytes that counts its faults.
pub trait Sink {
    /// The bytes that were written, if they are known.
    ghost written: { Self → Option (List ℕ) };

    /// The number of calls that have failed.
    ghost faults: { Self → ℕ };

    /// The number of calls that have failed, at most `u64::MAX`.
    fn faults(&self) -> u64
        ensures { result ≡ faults self.now };

    /// Writes the front of `piece`. The sink decides how much of it.
    fn write(&mut self, piece: &[u8]) -> Put
        ensures bytes { Takes (written self.old) (written self.new) result piece.now }
        ensures counted { Counted (faults self.old) (faults self.new) (is_failed result) };
}
