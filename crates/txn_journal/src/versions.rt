//! Versions of journals.
ghost use Rattle.std.specs.Prelude.{◌≡◌, ◌&&◌, nat_eq, nat_lt};
ghost use Rattle.txn_journal.specs.Contents.{is_base, number_of, version_of};

/// The version of a journal, by its version byte.
#[derive(Clone, Copy, Debug, PartialEq, Eq)]
pub enum Version {
    /// Each payload counts.
    One,
    /// The last payload that begins with the byte 8 is a base: no payload before it counts.
    Two,
}

/// The version byte of version 2. Each other byte is version 1, since a crash during its write may leave any
/// byte.
pub const SECOND: u8 = b'2';

/// The first byte of a base.
const BASE: u8 = 8;

impl Version {
    /// The version of a journal with this version byte.
    pub(crate) fn of(mark: u8) -> Version
        ensures { result ≡ version_of mark }
    {
        if mark == SECOND {
            Version::Two
        } else {
            Version::One
        }
    }

    /// Returns 1 or 2.
    pub fn number(self) -> u8
        ensures { result ≡ number_of self }
    {
        match self {
            Version::One => 1,
            Version::Two => 2,
        }
    }

    /// Whether a payload is a base.
    pub(crate) fn is_base(self, payload: &[u8]) -> bool
        ensures { result ≡ is_base self payload.now }
    {
        match self {
            Version::One => false,
            Version::Two => !payload.is_empty() && payload[0] == BASE,
        }
    }
}

/// Whether a payload of `length` bytes with this byte after its length is a base in version 2.
pub fn begins_base(length: u64, first: u8) -> bool
    ensures { result ≡ (nat_lt 0 length && nat_eq first 8) }
{
    length > 0 && first == BASE
}
