//! The payloads of a journal.
use ts_schema::Seq;

/// A payload of a journal.
#[derive(Drop, Debug)]
pub struct Payload {
    /// Its bytes.
    pub bytes: Seq<u8>,
    /// The place of its commit byte, from the beginning of the journal.
    pub at: u64,
}
