//! Acts on a disk.
use ts_schema::Seq;

/// Bytes that were written at a place.
#[derive(Drop, Debug)]
pub struct Piece {
    /// The place of the first byte, counted from 0.
    pub at: u64,
    /// The bytes.
    pub bytes: Seq<u8>,
}

/// A call that changed a disk, or its crash images.
#[derive(Drop, Debug)]
pub enum Act {
    /// Bytes were written.
    Write(Piece),
    /// All bytes were written to the disk.
    Sync,
}
