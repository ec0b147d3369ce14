//! Why reading ended.
ghost use Rattle.std.specs.Prelude.{◌≡◌};
ghost use Rattle.event_codec.specs.declared.errors.ReadError.TheVariants.{Memory};

use ts_schema::NoMemory;

/// Why reading ended.
#[derive(Clone, Copy, Debug, PartialEq, Eq)]
pub enum ReadError {
    /// Memory ran out.
    Memory,
    /// The bytes in front aren't what the call reads. The reader is after the longest prefix that begins it.
    Bad,
}

impl From<NoMemory> for ReadError {
    ghost from_gives = { λ _ e. e ≡ Memory };

    fn from(_refused: NoMemory) -> ReadError {
        ReadError::Memory
    }
}
