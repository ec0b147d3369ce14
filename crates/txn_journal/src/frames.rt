//! A payload as it is stored in a journal.
ghost use Rattle.std.specs.Prelude.{◌≡◌, [], ◌∷◌, ◌++◌};
ghost use Rattle.txn_journal.specs.Frames.{Fits, body, payload_of};

use std::marker::Model;

/// A payload with its length before it and a commit byte of 0 after it, which one write stores in a journal.
/// Contracts see it as the payload.
#[derive(Drop)]
pub struct Frame {
    bytes: Vec<u8>,
}

impl Model for Frame {
    ghost use Rattle.std.specs.Prelude.{◌≡◌, [], ◌∷◌, ◌++◌, List, ℕ, ◌-◌, length, take, drop};
    ghost use Rattle.txn_journal.specs.Frames.{Fits, body, payload_of};

    ghost Value = { List ℕ };

    ghost view = { λ f. payload_of f.bytes.items };

    ghost invariant = { λ f.
        (f.bytes.items ≡ body (payload_of f.bytes.items) ++ 0 ∷ []) × Fits (payload_of f.bytes.items) };
}

impl Frame {
    /// The frame of these bytes.
    pub(crate) fn of(bytes: Vec<u8>) -> Frame
        requires framed { bytes.items ≡ body (payload_of bytes.items) ++ 0 ∷ [] }
        requires fits { Fits (payload_of bytes.items) }
        ensures payload { result ≡ payload_of bytes.items }
    {
        Frame { bytes }
    }

    /// The length, the payload and the commit byte of 0.
    pub fn bytes(&self) -> &[u8]
        ensures bytes { result.now ≡ body self.now ++ 0 ∷ [] }
        ensures fits { Fits self.now }
    {
        &self.bytes
    }
}
