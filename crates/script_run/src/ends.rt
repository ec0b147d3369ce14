//! How a run ends.

/// How a run ends. If that is before the end of the input, the lines before some line were executed and their replies
/// written. The lines after it were not executed.
#[derive(Clone, Copy, Debug, PartialEq, Eq)]
pub enum RunEnd {
    /// The input was executed to its end, and no reply is a FAULT.
    Done,
    /// The input was executed to its end, and a reply is a FAULT.
    Refused,
    /// A read failed, and the source's count of faults rose.
    ReadFault,
    /// A write failed, and the sink's count of faults rose. The line was executed, and a part of its reply was
    /// written.
    WriteFault,
    /// The disk failed at an event of a line, and the store's count of faults rose. The run wrote no part of that
    /// line's reply.
    DiskFault,
    /// Out of memory. The run wrote no part of the line's reply; its first events may be in the journal.
    NoMemory,
    /// The source gave a byte beyond the limit of the input. The lines that end within it were executed.
    InputLong,
}
