//! What a session has replied so far.
ghost use Rattle.std.specs.Prelude.{◌≡◌, [], false, OnOk};
ghost use Rattle.par_run.specs.Replies.{reply_in, Keeps, KeepsEnd};

use std::alloc::Global;
use transcript::Exchange;
use ts_schema::{NoMemory, Seq};
use ts_sessions::{Reply, StepEnd};

/// What a session has replied so far.
#[derive(Drop)]
pub(crate) struct Replies {
    /// Its lines with their replies, in order.
    pub exchanges: Vec<Exchange>,
    /// Whether one of the replies is a FAULT.
    pub fault: bool,
}

impl Replies {
    /// Returns an empty list of replies. It allocates no memory.
    pub fn new(alloc: Global) -> Replies
        ensures exchanges { result.exchanges.items ≡ [] }
        ensures fault { result.fault ≡ false }
    {
        Replies {
            exchanges: Vec::new(alloc),
            fault: false,
        }
    }

    /// Keeps the reply to a line, by the end of its step. After a disk fault, a line has a reply too: the session
    /// continues.
    pub fn keep(&mut self, alloc: Global, line: &[u8], end: StepEnd) -> Result<(), NoMemory>
        ensures { OnOk result (KeepsEnd line.now end self.old self.new) }
    {
        match reply_of(end) {
            Some(reply) => self.append(alloc, line, reply),
            None => Err(NoMemory),
        }
    }

    fn append(&mut self, alloc: Global, line: &[u8], reply: Reply) -> Result<(), NoMemory>
        ensures { OnOk result (Keeps line.now reply self.old self.new) }
    {
        let line = Seq::of(Vec::from_slice(alloc, line)?);
        let Reply { text, fault, .. } = reply;
        self.exchanges.push(Exchange { line, reply: text })?;
        self.fault |= fault;
        Ok(())
    }
}

/// The reply of a step, unless it ran out of memory.
fn reply_of(end: StepEnd) -> Option<Reply>
    ensures { result ≡ reply_in end }
{
    match end {
        StepEnd::Reply(reply) => Some(reply),
        StepEnd::DiskFault(reply) => Some(reply),
        StepEnd::NoMemory => None,
    }
}
