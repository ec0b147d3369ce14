//! A line without its comment, and its session.
ghost use Rattle.std.specs.Prelude.{◌≡◌, ◌≤◌, length};
ghost use Rattle.std.specs.List.{list_all};
ghost use Rattle.std.specs.Char.{is_ascii as is_ascii_byte};
ghost use Rattle.stmt_syntax.specs.Limits.{longest_line};
ghost use Rattle.stmt_tokens.specs.Tokens.{begins_with};
ghost use Rattle.stmt_tokens.specs.Lines.{line_kind, of_text, comment_at, begins_session, continues_session, session_len, has_session};

use crate::tokens::blank_len;
use memchr::memchr;

/// What a line is.
#[derive(Clone, Copy, Debug, PartialEq, Eq)]
pub enum LineKind {
    /// Only blanks are before the comment.
    Blank,
    /// A byte of 128 or more is before the comment.
    NotAscii,
    /// The line doesn't begin, after any blanks, with a session name and a colon directly after it. A session
    /// name is a letter from `a` to `z`, then such letters, digits and `_`, 1 to 16 bytes in all.
    NoSession,
    /// A session name, a colon, and a statement.
    Stmt {
        /// The number of bytes of the session name. They are directly before the colon.
        name_len: u32,
        /// The number of bytes before the statement. The last one is the colon.
        skip: u32,
        /// The number of bytes before the comment.
        end: u32,
    },
}

/// Splits a line, given without its LF, into its parts.
pub fn split_line(line: &[u8]) -> LineKind
    requires short { length line.now ≤ longest_line }
    ensures kind { result ≡ line_kind line.now }
{
    let text = &line[..comment_start(line)];
    kind_of(text, blank_len(text))
}

/// Where the comment begins: at the first two bytes `--`, or at the end of the line.
fn comment_start(line: &[u8]) -> usize
    ensures start { result ≡ comment_at line.now }
    ensures within { result ≤ length line.now }
{
    let mut at = 0;
    while let Some(skipped) = memchr(b'-', &line[at..]) {
        let dash = at + skipped;
        if begins_with_dash(&line[dash + 1..]) {
            return dash;
        }
        at = dash + 1;
    }
    line.len()
}

/// Whether the first byte is `-`.
fn begins_with_dash(text: &[u8]) -> bool
    ensures { result ≡ begins_with 45 text.now }
{
    text.first() == Some(&b'-')
}

/// The kind of a line whose text before the comment is this one, with this many blanks in front.
fn kind_of(text: &[u8], blanks: usize) -> LineKind
    requires short { length text.now ≤ longest_line }
    requires within { blanks ≤ length text.now }
    ensures kind { result ≡ of_text text.now blanks }
{
    if text.len() <= blanks {
        return LineKind::Blank;
    }
    if !is_ascii(text) {
        return LineKind::NotAscii;
    }
    let rest = &text[blanks..];
    if !begins_with_session(rest) {
        return LineKind::NoSession;
    }
    let name_len = session_name_len(rest);
    LineKind::Stmt {
        name_len: name_len as u32,
        skip: (blanks + name_len + 1) as u32,
        end: text.len() as u32,
    }
}

/// Whether each byte is below 128.
fn is_ascii(text: &[u8]) -> bool
    ensures { result ≡ list_all is_ascii_byte text.now }
{
    text.is_ascii()
}

/// Whether a session name of 1 to 16 bytes and a colon are in front.
fn begins_with_session(text: &[u8]) -> bool
    ensures { result ≡ has_session text.now }
{
    let [first, ..] = text else {
        return false;
    };
    let len = session_name_len(text);
    may_begin_session(*first) && len <= 16 && text[len..].first() == Some(&b':')
}

/// The number of bytes in front that continue a session name.
fn session_name_len(text: &[u8]) -> usize
    ensures len { result ≡ session_len text.now }
    ensures within { result ≤ length text.now }
{
    text.iter()
        .take_while(|b| may_continue_session(**b))
        .count()
}

fn may_begin_session(byte: u8) -> bool
    ensures { result ≡ begins_session byte }
{
    byte.is_ascii_lowercase()
}

fn may_continue_session(byte: u8) -> bool
    ensures { result ≡ continues_session byte }
{
    matches!(byte, b'a'..=b'z' | b'0'..=b'9' | b'_')
}
