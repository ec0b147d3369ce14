//! How a run ends.
use transcript::SessionTranscript;
use ts_schema::Seq;

/// How a run ended.
#[derive(Clone, Copy, Debug, PartialEq, Eq)]
pub enum ParStop {
    /// Each line was executed.
    Done,
    /// Each line was executed. The disk failed at an event of one, and from then on the store had stopped.
    DiskFault,
    /// Out of memory. Events that lines had appended by then remain in the store.
    NoMemory,
}

/// What a run left.
#[derive(Drop)]
pub struct ParEnd<B> {
    /// The store.
    pub backend: B,
    /// The position at which it began.
    pub start: u64,
    /// The refusals of lines that no session answers, in the order of lines, and then the replies. Replies of `setup`
    /// come first, then those of the other sessions in order of appearance, and those of `final` last. Empty if memory
    /// ran out.
    pub text: Seq<u8>,
    /// Whether a reply is a FAULT. False if memory ran out.
    pub fault: bool,
    /// The sessions in the order of their replies in the text, each with its lines and their replies. Empty if
    /// memory ran out.
    pub sessions: Seq<SessionTranscript>,
    /// How many stored rows all answers and snapshots read. The count saturates.
    pub reads: u64,
    /// How it ended.
    pub stop: ParStop,
}
