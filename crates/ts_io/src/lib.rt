//! Input and output of bytes: sources and sinks that count their I/O errors, in memory and over std; and
//! functions that read a whole input and write a whole text.
#![tactic(auto)]

mod limits;
mod line_ends;
mod line_reader;
mod mem_sinks;
mod mem_sources;
mod pieces;
mod schedules;
mod sinks;
mod sources;
mod standard;
mod whole;

pub use limits::{INPUT_LIMIT, LINE_LIMIT, limits_law};
pub use line_reader::{HELD_LIMIT, LineEnd, Lines};
pub use mem_sinks::MemSink;
pub use mem_sources::MemSource;
pub use sinks::{Put, Sink};
pub use sources::{Got, Source};
pub use standard::{StdinSource, StdoutSink};
pub use whole::{AllEnd, WriteFault, read_all, write_whole};
