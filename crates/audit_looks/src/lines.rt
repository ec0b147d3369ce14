//! The read positions that one line of a reply prints, by its head.
ghost use Rattle.std.specs.Prelude.{◌≡◌, ◌++◌, OnOk};
ghost use Rattle.audit_looks.specs.Lines.{cut_in, head_of, is_event, position_in, snapshot_in, told_in};
ghost use Rattle.audit_looks.specs.Replies.{is_last};

use crate::numbers::{behind, number_in};
use ts_schema::NoMemory;

/// What the head of a line says about its read positions.
#[derive(Clone, Copy, Debug, PartialEq, Eq)]
pub enum Head {
    /// An event was created directly after the read position.
    Event,
    /// A refresh was cut.
    Cut,
    /// A refresh was cut, its snapshot taken, and it was finished.
    Refresh,
    /// The line prints the read position itself.
    Look,
    /// The statement was refused at the read position.
    Fault,
    /// The read position of an answer. No line follows it.
    Answer,
    /// The line prints no read position.
    Quiet,
}

impl Head {
    /// Whether no line follows.
    pub fn is_last(&self) -> bool
        ensures { result ≡ is_last self.now }
    {
        matches!(self, Head::Answer)
    }
}

/// Whether a line that has a position begins with an event.
fn is_event(line: &[u8]) -> bool
    ensures { result ≡ is_event line.now }
{
    line.starts_with(b"TABLE ")
        || line.starts_with(b"HYPERTABLE ")
        || line.starts_with(b"VIEW ")
        || line.starts_with(b"MODE ")
        || line.starts_with(b"COMMIT ")
        || line.starts_with(b"FINISH ")
}

/// What the head of a line says about its read positions.
pub fn head_of(line: &[u8]) -> Head
    ensures { result ≡ head_of line.now }
{
    if line.starts_with(b"CUT ") {
        Head::Cut
    } else if line.starts_with(b"REFRESH ") {
        Head::Refresh
    } else if !line.contains(&b'@') {
        Head::Quiet
    } else if line.starts_with(b"ANSWER ") {
        Head::Answer
    } else if line.starts_with(b"FAULT ") {
        Head::Fault
    } else if is_event(line) {
        Head::Event
    } else {
        Head::Look
    }
}

/// The position of a line.
fn position_in(line: &[u8]) -> u64
    ensures { result ≡ position_in line.now }
{
    number_in(behind(b'@', line))
}

/// The event that begins a refresh.
fn cut_in(line: &[u8]) -> u64
    ensures { result ≡ cut_in line.now }
{
    number_in(behind(b' ', line))
}

/// The snapshot of a refresh.
fn snapshot_in(line: &[u8]) -> u64
    ensures { result ≡ snapshot_in line.now }
{
    number_in(behind(b' ', behind(b' ', behind(b'@', line))))
}

/// Appends the read positions of a line with this head.
pub fn put_looks(head: &Head, line: &[u8], looks: &mut Vec<u64>) -> Result<(), NoMemory>
    ensures { OnOk result (looks.new.items ≡ looks.old.items ++ told_in head.now line.now) }
{
    match head {
        Head::Event => looks.push(position_in(line).saturating_sub(1))?,
        Head::Cut => looks.push(cut_in(line).saturating_sub(1))?,
        Head::Refresh => {
            looks.push(cut_in(line).saturating_sub(1))?;
            looks.push(snapshot_in(line))?;
            looks.push(position_in(line).saturating_sub(1))?
        }
        Head::Look => looks.push(position_in(line))?,
        Head::Fault => {
            looks.push(position_in(line))?;
            looks.push(position_in(line))?
        }
        Head::Answer => looks.push(position_in(line))?,
        Head::Quiet => {}
    }
    Ok(())
}
