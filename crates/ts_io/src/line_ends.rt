//! Where the first line of a text ends.
ghost use Rattle.std.specs.Prelude.{◌≡◌, ◌≤◌, ◌==◌, [], length, take, position, MatchOption};
ghost use Rattle.ts_io.specs.Lines.{ended_lines, IsFirstEnd};

use memchr::memchr;

/// The byte that ends a line.
const LINE_END: u8 = b'\n';

/// The place of the first byte LF.
fn first_end(text: &[u8]) -> Option<usize>
    ensures { result ≡ position (λ byte. byte == LINE_END) text.now }
{
    memchr(LINE_END, text)
}

/// The place of the first line end, if none is among the first `searched` bytes.
pub fn first_end_after(text: &[u8], searched: usize) -> Option<usize>
    requires within { searched ≤ length text.now }
    requires none { ended_lines (take searched text.now) ≡ [] }
    ensures { MatchOption result (ended_lines text.now ≡ []) (IsFirstEnd text.now) }
{
    match first_end(&text[searched..]) {
        Some(n) => Some(searched + n),
        None => None,
    }
}
