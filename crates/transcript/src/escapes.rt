//! Texts between the quotes of a JSON string.
ghost use Rattle.std.specs.Prelude.{◌≡◌, ◌<◌, ◌≤◌, ◌++◌, length, take, is_err, IfOk, MatchResult};
ghost use Rattle.std.specs.List.{prefix_len};
ghost use Rattle.std.specs.Char.{digit_char};
ghost use Rattle.json.specs.Print.{escape, escape_byte, escape_letter};
ghost use Rattle.ts_io.specs.Faults.{Counted};
ghost use Rattle.ts_io.specs.Whole.{AppendsPart};
ghost use Rattle.transcript.specs.Sending.{Gathers, Sends, is_plain};

use crate::send_buffer::{Page, send};
use ts_io::{Sink, WriteFault};

/// Sends a text with its escapes.
pub(crate) fn send_escaped<K: Sink>(
    text: &[u8],
    page: &mut Page,
    sink: &mut K,
) -> Result<(), WriteFault>
    ensures sent { Sends result (K.written sink.old) (K.written sink.new) page.old.items page.new.items
        (escape text.now) }
    ensures counted { Counted (K.faults sink.old) (K.faults sink.new) (is_err result) }
{
    let mut left = text;
    while !left.is_empty() {
        match send_front(left, page, sink) {
            Ok(len) => left = &left[len..],
            Err(fault) => return Err(fault),
        }
    }
    Ok(())
}

/// Sends the front of a text that isn't empty: bytes without an escape, or one escape. Returns how many bytes of the
/// text these were.
fn send_front<K: Sink>(text: &[u8], page: &mut Page, sink: &mut K) -> Result<usize, WriteFault>
    requires some { 0 < length text.now }
    ensures sent { MatchResult result
        (λ len. Gathers (K.written sink.old) (K.written sink.new) page.old.items page.new.items
        (escape (take len text.now)))
        (λ _. AppendsPart (K.written sink.old) (K.written sink.new) (page.old.items ++ escape text.now)) }
    ensures some { IfOk result (λ len. 0 < len) }
    ensures within { IfOk result (λ len. len ≤ length text.now) }
    ensures counted { Counted (K.faults sink.old) (K.faults sink.new) (is_err result) }
{
    let plain = plain_len(text);
    if 0 < plain {
        match send(&text[..plain], page, sink) {
            Ok(()) => Ok(plain),
            Err(fault) => Err(fault),
        }
    } else {
        match send_byte(text[0], page, sink) {
            Ok(()) => Ok(1),
            Err(fault) => Err(fault),
        }
    }
}

/// How many bytes at the beginning need no escape.
fn plain_len(text: &[u8]) -> usize
    ensures { result ≡ prefix_len is_plain text.now }
{
    text.iter().take_while(|byte| is_plain(**byte)).count()
}

/// Whether a byte needs no escape.
fn is_plain(byte: u8) -> bool
    ensures { result ≡ is_plain byte }
{
    escape_letter(byte) == 0 && 32 <= byte
}

/// Sends a byte as JSON writes it.
fn send_byte<K: Sink>(byte: u8, page: &mut Page, sink: &mut K) -> Result<(), WriteFault>
    ensures sent { Sends result (K.written sink.old) (K.written sink.new) page.old.items page.new.items
        (escape_byte byte) }
    ensures counted { Counted (K.faults sink.old) (K.faults sink.new) (is_err result) }
{
    let letter = escape_letter(byte);
    if 0 < letter {
        send(&[b'\\', letter], page, sink)
    } else if byte < 32 {
        let code = [
            b'\\',
            b'u',
            b'0',
            b'0',
            hex_digit(byte / 16),
            hex_digit(byte % 16),
        ];
        send(&code, page, sink)
    } else {
        send(&[byte], page, sink)
    }
}

/// The letter of a byte's short escape, or 0 if it has none.
fn escape_letter(byte: u8) -> u8
    ensures { result ≡ escape_letter byte }
{
    if byte == b'"' || byte == b'\\' {
        byte
    } else if byte == 8 {
        b'b'
    } else if byte == 12 {
        b'f'
    } else if byte == b'\n' {
        b'n'
    } else if byte == b'\r' {
        b'r'
    } else if byte == b'\t' {
        b't'
    } else {
        0
    }
}

/// The digit of a number below 16.
fn hex_digit(n: u8) -> u8
    requires { n < 16 }
    ensures { result ≡ digit_char n }
{
    if n < 10 { b'0' + n } else { b'a' - 10 + n }
}
