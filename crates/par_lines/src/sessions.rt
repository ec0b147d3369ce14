//! A session's lines, by their places in the input.
ghost use Rattle.std.specs.Prelude.{◌≡◌, ◌+◌, ◌≤◌, position, length};
ghost use Rattle.ts_model.specs.Roster.{same_name};
ghost use Rattle.par_lines.specs.Places.{line_at};

use ts_schema::Name;

/// A line of a session, by its place in the input.
#[derive(Clone, Copy, Debug, PartialEq, Eq)]
pub struct LinePlace {
    /// The index of its first byte, counted from 0.
    pub from: u32,
    /// How many bytes it has before its comment.
    pub len: u32,
    /// How many of these precede its statement.
    pub skip: u32,
}

impl LinePlace {
    /// The text before the comment.
    pub fn text(self, input: &[u8]) -> &[u8]
        requires within { self.from + self.len ≤ length input.now }
        ensures text { result.now ≡ (line_at input.now self).text }
        ensures len { length result.now ≡ self.len }
    {
        let from = self.from as usize;
        &input[from..from + self.len as usize]
    }
}

/// A session, and its lines in order.
#[derive(Drop, Debug)]
pub struct SessionLines {
    /// Its name.
    pub name: Name,
    /// Its number, from 0 in order of appearance.
    pub number: u32,
    /// Its lines.
    pub lines: Vec<LinePlace>,
}

/// The index of the first session with a name.
pub(crate) fn place_of(sessions: &[SessionLines], name: &[u8]) -> Option<usize>
    ensures place { result ≡ position (λ session. same_name session.name name.now) sessions.now }
{
    sessions
        .iter()
        .position(|session| session.name.bytes() == name)
}
