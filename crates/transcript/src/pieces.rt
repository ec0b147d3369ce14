//! Sends the pieces of a transcript's text in order.
ghost use Rattle.std.specs.Prelude.{◌≡◌, is_err};
ghost use Rattle.std.specs.List.{flat_map};
ghost use Rattle.serde_json.specs.Written.{comma_if};
ghost use Rattle.ts_io.specs.Faults.{Counted};
ghost use Rattle.transcript.specs.Pieces.{piece_text};
ghost use Rattle.transcript.specs.Sending.{Sends};

use crate::escapes::send_escaped;
use crate::send_buffer::{Page, send};
use ts_io::{Sink, WriteFault};

/// A piece of a text.
#[derive(Clone, Copy, Debug)]
pub(crate) enum Piece<'a> {
    /// Bytes without escapes.
    Plain(&'a [u8]),
    /// A text between the quotes of a string.
    Escaped(&'a [u8]),
}

/// Sends pieces in order.
pub(crate) fn send_pieces<K: Sink>(
    pieces: &[Piece<'_>],
    page: &mut Page,
    sink: &mut K,
) -> Result<(), WriteFault>
    ensures sent { Sends result (K.written sink.old) (K.written sink.new) page.old.items page.new.items
        (flat_map piece_text pieces.now) }
    ensures counted { Counted (K.faults sink.old) (K.faults sink.new) (is_err result) }
{
    for piece in pieces {
        match send_piece(piece, page, sink) {
            Ok(()) => {}
            Err(fault) => return Err(fault),
        }
    }
    Ok(())
}

/// Sends one piece.
fn send_piece<K: Sink>(piece: &Piece<'_>, page: &mut Page, sink: &mut K) -> Result<(), WriteFault>
    ensures sent { Sends result (K.written sink.old) (K.written sink.new) page.old.items page.new.items
        (piece_text piece.now) }
    ensures counted { Counted (K.faults sink.old) (K.faults sink.new) (is_err result) }
{
    match piece {
        Piece::Plain(bytes) => send(bytes, page, sink),
        Piece::Escaped(text) => send_escaped(text, page, sink),
    }
}

/// A comma, if an item comes before.
pub(crate) fn comma(later: bool) -> &'static [u8]
    ensures { result.now ≡ comma_if later }
{
    if later { b"," } else { b"" }
}
