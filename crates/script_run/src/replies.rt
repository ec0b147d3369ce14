//! Replies to lines that no session answers.
ghost use Rattle.std.specs.Prelude.{◌≡◌, [], true, false, IfOk, Ok};
ghost use Rattle.result_text.specs.declared.replies.Said.TheVariants.{Fault};
ghost use Rattle.result_text.specs.Replies.{line_fault_text, reply_text};
ghost use Rattle.ts_sessions.specs.Step.{bare as bare_refusal};
ghost use Rattle.script_run.specs.LineEnds.{RepliesWith, Replies, ends_with};

use result_text::{Said, put_line_fault, put_reply};
use std::alloc::Global;
use ts_schema::{Name, NoMemory, Seq};
use ts_sessions::{Reply, StepEnd, bare};

/// Ends a line with this reply, or out of memory.
pub(crate) fn step_end_of(reply: Result<Reply, NoMemory>) -> StepEnd
    ensures { result ≡ ends_with reply }
{
    match reply {
        Ok(reply) => StepEnd::Reply(reply),
        Err(NoMemory) => StepEnd::NoMemory,
    }
}

/// The empty reply.
pub(crate) fn silence(alloc: Global) -> Reply
    ensures { RepliesWith [] false result }
{
    Reply {
        text: Seq::new(alloc),
        fault: false,
        events: Seq::new(alloc),
    }
}

/// The reply that refuses the line with a number.
pub(crate) fn refuse_line(alloc: Global, line: u64, code: u8) -> Result<Reply, NoMemory>
    ensures { Replies (line_fault_text line (bare_refusal code)) true result }
{
    let mut text = Vec::new(alloc);
    put_line_fault(line, &bare(code), &mut text)?;
    Ok(fault(alloc, text))
}

/// The reply that refuses a session, by its name.
pub(crate) fn refuse_session(alloc: Global, session: &Name, code: u8) -> Result<Reply, NoMemory>
    ensures { Replies (reply_text session.now (Fault (bare_refusal code))) true result }
{
    let mut text = Vec::new(alloc);
    put_reply(session, &Said::Fault(bare(code)), &mut text)?;
    Ok(fault(alloc, text))
}

/// A FAULT with this text.
fn fault(alloc: Global, text: Vec<u8>) -> Reply
    ensures { RepliesWith text.items true result }
{
    Reply {
        text: Seq::of(text),
        fault: true,
        events: Seq::new(alloc),
    }
}
