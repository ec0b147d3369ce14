//! Where a line ends.
ghost use Rattle.std.specs.Prelude.{◌≡◌, ◌+◌, ◌<◌, ◌≤◌, ◌∷◌, ◌==◌, length, take, drop, position};
ghost use Rattle.ts_io.specs.Lines.{lines_of};

/// The byte that ends a line.
const LINE_END: u8 = b'\n';

/// How many bytes the first line of a text has, without its line end.
pub(crate) fn first_line_len(text: &[u8]) -> usize
    requires some { 0 < length text.now }
    ensures within { result ≤ length text.now }
    ensures line { lines_of text.now ≡ take result text.now ∷ lines_of (drop (result + 1) text.now) }
{
    match first_end(text) {
        Some(end) => end,
        None => text.len(),
    }
}

/// The index of the first line end.
fn first_end(text: &[u8]) -> Option<usize>
    ensures { result ≡ position (λ byte. byte == LINE_END) text.now }
{
    text.iter().position(|byte| *byte == LINE_END)
}
