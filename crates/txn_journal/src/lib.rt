//! A journal of payloads on a disk. After a crash at any time each payload is there whole or not at all, and a
//! payload for which `Done` was returned stays. Reading writes nothing. In version 2 reading begins at the last
//! base, a payload that represents all before it.
#![tactic(auto)]

mod frames;
mod framing;
mod heads;
mod journals;
pub mod laws;
mod openings;
mod payloads;
mod read_start;
mod readers;
mod recovery;
mod versions;
mod writes;

pub use frames::Frame;
pub use framing::{close_frame, frame, open_frame};
pub use journals::{Append, Journal, JournalState};
pub use openings::OpenOutcome;
pub use payloads::Payload;
pub use readers::{Next, Reader};
pub use recovery::{Recovered, recover};
pub use versions::Version;
