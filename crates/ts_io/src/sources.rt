//! Sources of bytes.
ghost use Rattle.std.specs.Prelude.{◌≡◌, ℕ, Bool, false, List, Option};
ghost use Rattle.ts_io.specs.Faults.{Counted};
ghost use Rattle.ts_io.specs.Source.{Gives, is_failed, told_end};

/// The result of a read.
#[derive(Clone, Copy, Debug, PartialEq, Eq)]
pub enum Got {
    /// This many bytes were read into the front of the slice. 0 bytes in a slice that isn't empty means the end
    /// of the input.
    Bytes(usize),
    /// The call failed, and the count of faults rose.
    Failed,
}

/// Whether a read reported the end: it returned no byte, although there was room.
pub(crate) fn tells_end(got: Got, into: &[u8]) -> bool
    ensures { result ≡ told_end got into.now }
{
    match got {
        Got::Bytes(n) => n == 0 && !into.is_empty(),
        Got::Failed => false,
    }
}

/// A source of bytes that counts its faults.
pub trait Source {
    /// The bytes that are left, if they are known.
    ghost left: { Self → Option (List ℕ) };

    /// Whether it has reported its end.
    ghost ended: { Self → Bool };

    /// The number of calls that have failed.
    ghost faults: { Self → ℕ };

    /// The number of calls that have failed, at most `u64::MAX`.
    fn faults(&self) -> u64
        ensures { result ≡ faults self.now };

    /// Reads the next bytes into the front of `into`. The source decides how many. Callers don't read again
    /// after the source has reported its end.
    fn read(&mut self, into: &mut [u8]) -> Got
        requires untold { ended self.old ≡ false }
        ensures bytes { Gives (left self.old) (left self.new) result into.new }
        ensures ended { ended self.new ≡ told_end result into.new }
        ensures counted { Counted (faults self.old) (faults self.new) (is_failed result) };
}
