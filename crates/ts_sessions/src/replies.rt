//! Replies of a session to its lines.
ghost use Rattle.std.specs.Prelude.{◌≡◌, ◌++◌, IfOk};
ghost use Rattle.ts_sessions.specs.Made.{made_by, made_in};
ghost use Rattle.ts_sessions.specs.Script.{has_fault as has_fault_line, is_fault as is_fault_line, text_of};
ghost use Rattle.ts_sessions.specs.Sessions.{IsReplied, IsReply};

use result_text::{Said, put_reply};
use std::alloc::Global;
use ts_schema::{Name, NoMemory, Seq};

/// A reply.
#[derive(Drop, Debug, PartialEq, Eq)]
pub struct Reply {
    /// Its text, of whole lines.
    pub text: Seq<u8>,
    /// Whether one of its lines is a FAULT.
    pub fault: bool,
    /// The numbers of the events that the line appended, which its lines name.
    pub events: Seq<u64>,
}

/// How a step ended.
#[derive(Drop, Debug, PartialEq, Eq)]
pub enum StepEnd {
    /// The line has this reply.
    Reply(Reply),
    /// The disk failed at an event of the line, and the store has stopped. The reply has the lines of the earlier
    /// events, and then the refusal `E24`. A `TICK` continues: its reply then also has the lines of the other
    /// statements that are due.
    DiskFault(Reply),
    /// Out of memory. Events that the line appended before remain.
    NoMemory,
}

/// Returns the end of a step with this reply. `failed` says whether the disk failed.
pub fn step_end(reply: Reply, failed: bool) -> StepEnd
    ensures { IsReplied failed reply result }
{
    match failed {
        true => StepEnd::DiskFault(reply),
        false => StepEnd::Reply(reply),
    }
}

/// Returns the reply of the session `name` with these lines.
pub fn write_reply(alloc: Global, name: &Name, said: &[Said]) -> Result<Reply, NoMemory>
    ensures { IfOk result (λ r. IsReply name.now said.now r) }
{
    let mut text = Vec::new(alloc);
    let mut events = Seq::new(alloc);
    put_lines(name, said, &mut text)?;
    put_numbers(said, &mut events)?;
    Ok(Reply {
        text: Seq::of(text),
        fault: has_fault(said),
        events,
    })
}

/// Appends the lines of a reply.
fn put_lines(name: &Name, said: &[Said], text: &mut Vec<u8>) -> Result<(), NoMemory>
    ensures { IfOk result (λ _. text.new.items ≡ text.old.items ++ text_of name.now said.now) }
{
    for line in said {
        put_reply(name, line, text)?;
    }
    Ok(())
}

/// Appends the numbers of the events that the lines report.
fn put_numbers(said: &[Said], events: &mut Seq<u64>) -> Result<(), NoMemory>
    ensures { IfOk result (λ _. events.new ≡ events.old ++ made_in said.now) }
{
    for line in said {
        put_made(line, events)?;
    }
    Ok(())
}

/// Appends the numbers of the events that a line reports.
fn put_made(said: &Said, events: &mut Seq<u64>) -> Result<(), NoMemory>
    ensures { IfOk result (λ _. events.new ≡ events.old ++ made_by said.now) }
{
    match said {
        Said::Table(pos) => events.push(*pos),
        Said::Hypertable(pos) => events.push(*pos),
        Said::View(pos) => events.push(*pos),
        Said::Mode(pos) => events.push(*pos),
        Said::Commit(done) => events.push(done.pos),
        Said::Refresh { cut, pos, .. } => {
            events.push(*cut)?;
            events.push(*pos)
        }
        Said::Cut { cut, .. } => events.push(*cut),
        Said::Finish { pos, .. } => events.push(*pos),
        Said::Queued => Ok(()),
        Said::Nothing(_) => Ok(()),
        Said::Snap { .. } => Ok(()),
        Said::Begin => Ok(()),
        Said::BeginRead(_) => Ok(()),
        Said::CommitEmpty => Ok(()),
        Said::Rollback => Ok(()),
        Said::End => Ok(()),
        Said::Answered { .. } => Ok(()),
        Said::Policy { .. } => Ok(()),
        Said::Tick { .. } => Ok(()),
        Said::Fault(_) => Ok(()),
    }
}

/// Whether one of the lines of a reply is a FAULT.
fn has_fault(said: &[Said]) -> bool
    ensures { result ≡ has_fault_line said.now }
{
    said.iter().any(|line| is_fault(line))
}

fn is_fault(said: &Said) -> bool
    ensures { result ≡ is_fault_line said.now }
{
    matches!(said, Said::Fault(_))
}
