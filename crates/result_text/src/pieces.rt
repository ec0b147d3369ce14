//! The pieces of a text that is appended to a buffer. If an error leaves the text incomplete, the buffer is cut back
//! to what it held before.
ghost use Rattle.std.specs.Prelude.{◌≡◌, ◌++◌, [], decimal, OnErr, OnOk};
ghost use Rattle.std.specs.Fmt.{signed_decimal};
ghost use Rattle.ts_num.specs.Texts.{datum_text};

use itoa::Buffer;
use std::marker::Model;
use std::mem;
use ts_num::{Datum, put_datum, put_int};
use ts_schema::NoMemory;

/// A text that is appended to a buffer.
#[derive(Drop)]
pub(crate) struct Text {
    /// The contents of the buffer, and then the text.
    buffer: Vec<u8>,
    /// The number of bytes of those contents.
    start: usize,
}

impl Model for Text {
    ghost use Rattle.std.specs.Prelude.{◌≤◌, length, take, drop};
    ghost use Rattle.result_text.specs.Writing.{Written};

    ghost Value = { Written };

    ghost view = { λ t. record { before = take t.start t.buffer.items; after = drop t.start t.buffer.items } };

    ghost invariant = { λ t. t.start ≤ length t.buffer.items };
}

impl Text {
    /// Takes the buffer, and returns an empty text after its contents.
    #[tactic(auto, using(crate::proofs::Writing::cut_at_end))]
    pub(crate) fn behind(out: &mut Vec<u8>) -> Text
        ensures before { result.before ≡ out.old.items }
        ensures after { result.after ≡ [] }
    {
        let empty = Vec::new(*out.allocator());
        let buffer = mem::replace(out, empty);
        let start = buffer.len();
        Text { buffer, start }
    }

    /// Returns the buffer to `out`: with the whole text, or, after an error, as it was.
    #[tactic(auto, using(crate::proofs::Writing::cut_joined))]
    pub(crate) fn finish(
        self,
        written: Result<(), NoMemory>,
        out: &mut Vec<u8>,
    ) -> Result<(), NoMemory>
        ensures whole { OnOk result (out.new.items ≡ self.before ++ self.after) }
        ensures kept { OnErr result (out.new.items ≡ self.before) }
        ensures same { result ≡ written }
    {
        let Text { mut buffer, start } = self;
        if written.is_err() {
            buffer.truncate(start);
        }
        *out = buffer;
        written
    }

    /// Appends bytes.
    #[tactic(auto, using(crate::proofs::Writing::appended_behind))]
    pub(crate) fn bytes(&mut self, piece: &[u8]) -> Result<(), NoMemory>
        ensures written { OnOk result (self.new.after ≡ self.old.after ++ piece.now) }
        ensures kept { self.new.before ≡ self.old.before }
    {
        self.buffer.extend_from_slice(piece)?;
        Ok(())
    }

    /// Appends a count or a position.
    pub(crate) fn number(&mut self, n: u64) -> Result<(), NoMemory>
        ensures written { OnOk result (self.new.after ≡ self.old.after ++ decimal n) }
        ensures kept { self.new.before ≡ self.old.before }
    {
        self.bytes(Buffer::new().format(n).as_bytes())
    }

    /// Appends a whole number with its sign.
    #[tactic(auto, using(crate::proofs::Writing::appended_behind))]
    pub(crate) fn push_signed(&mut self, n: i128) -> Result<(), NoMemory>
        ensures written { OnOk result (self.new.after ≡ self.old.after ++ signed_decimal n) }
        ensures kept { self.new.before ≡ self.old.before }
    {
        put_int(n, &mut self.buffer)
    }

    /// Appends a value.
    #[tactic(auto, using(crate::proofs::Writing::appended_behind))]
    pub(crate) fn datum(&mut self, datum: &Datum) -> Result<(), NoMemory>
        ensures written { OnOk result (self.new.after ≡ self.old.after ++ datum_text datum.now) }
        ensures kept { self.new.before ≡ self.old.before }
    {
        put_datum(datum, &mut self.buffer)
    }
}
