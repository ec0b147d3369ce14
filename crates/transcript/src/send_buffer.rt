//! A text written in pages, so that a short piece of it costs no separate write.
ghost use Rattle.std.specs.Prelude.{◌≡◌, [], OnErr, OnOk, is_err};
ghost use Rattle.std.specs.Io.KnownBytes.{Appends};
ghost use Rattle.ts_io.specs.Faults.{Counted};
ghost use Rattle.ts_io.specs.Whole.{AppendsPart};
ghost use Rattle.transcript.specs.Sending.{Sends};

use arrayvec::ArrayVec;
use ts_io::{Sink, WriteFault, write_whole};

/// How many bytes a page has.
const PAGE_BYTES: usize = 4_096;

/// The bytes of a text that will be written together.
pub(crate) type Page = ArrayVec<u8, PAGE_BYTES>;

/// Writes the bytes of the page.
pub(crate) fn flush<K: Sink>(page: &mut Page, sink: &mut K) -> Result<(), WriteFault>
    ensures all { OnOk result (Appends (K.written sink.old) (K.written sink.new) page.old.items) }
    ensures part { OnErr result (AppendsPart (K.written sink.old) (K.written sink.new) page.old.items) }
    ensures empty { OnOk result (page.new.items ≡ []) }
    ensures counted { Counted (K.faults sink.old) (K.faults sink.new) (is_err result) }
{
    match write_whole(sink, page.as_slice()) {
        Ok(()) => {
            page.clear();
            Ok(())
        }
        Err(fault) => Err(fault),
    }
}

/// Sends a piece of a text: adds it to the page if it fits, otherwise writes the page first.
pub(crate) fn send<K: Sink>(piece: &[u8], page: &mut Page, sink: &mut K) -> Result<(), WriteFault>
    ensures sent { Sends result (K.written sink.old) (K.written sink.new) page.old.items page.new.items piece.now }
    ensures counted { Counted (K.faults sink.old) (K.faults sink.new) (is_err result) }
{
    match page.try_extend_from_slice(piece) {
        Ok(()) => Ok(()),
        Err(_) => send_past(piece, page, sink),
    }
}

/// Sends a piece that doesn't fit the page.
fn send_past<K: Sink>(piece: &[u8], page: &mut Page, sink: &mut K) -> Result<(), WriteFault>
    ensures sent { Sends result (K.written sink.old) (K.written sink.new) page.old.items page.new.items piece.now }
    ensures counted { Counted (K.faults sink.old) (K.faults sink.new) (is_err result) }
{
    match flush(page, sink) {
        Ok(()) => send_first(piece, page, sink),
        Err(fault) => Err(fault),
    }
}

/// Sends the first piece of a page. One that is larger than a page is written at once.
fn send_first<K: Sink>(piece: &[u8], page: &mut Page, sink: &mut K) -> Result<(), WriteFault>
    requires empty { page.old.items ≡ [] }
    ensures sent { Sends result (K.written sink.old) (K.written sink.new) page.old.items page.new.items piece.now }
    ensures counted { Counted (K.faults sink.old) (K.faults sink.new) (is_err result) }
{
    match page.try_extend_from_slice(piece) {
        Ok(()) => Ok(()),
        Err(_) => write_whole(sink, piece),
    }
}
