//! The answers of an audit.

/// The answer of an audit. It is the first of `BadText`, `Early`, `Policy`, `No` and `Lost` that applies, or `Yes` if
/// none does. It is `NoMemory` if memory runs out. Sessions and replies count from 0.
#[derive(Clone, Copy, Debug, PartialEq, Eq)]
pub enum Audit {
    /// Every reply is explained, and together they name each event after the start once, and no other. The number is
    /// that of the replies.
    Yes(u64),
    /// This reply is the first that isn't explained.
    No { session: u64, reply: u64 },
    /// This is the lowest position after the start whose event isn't named exactly once.
    Lost(u64),
    /// This line is the first that is a statement on policies.
    Policy { session: u64, reply: u64 },
    /// The start isn't a position of the history. The history ends at this position.
    Early(u64),
    /// The text isn't that of a transcript.
    BadText,
    /// Out of memory.
    NoMemory,
}
