//! Blocks.
ghost use Rattle.std.specs.Prelude.{◌≡◌, ◌+◌, ◌≤◌, OnOk, OnErr};
ghost use Rattle.ts_sessions.specs.Held.{block_of, most_queued, open_with, bytes_queued as queued_in};
ghost use Rattle.ts_sessions.specs.Places.{block_kind, queue_count as queue_count_of};
ghost use Rattle.ts_sessions.specs.Sessions.{queued_on};
ghost use Rattle.ts_sessions.specs.Step.{block_refusal, given_up as given_up_of, refusal_outside, refusal_reading, refusal_writing};

use crate::kinds::StatementKind;
use crate::refusals::bare;
use result_text::Said;
use ts_model::{Op, Refusal, codes};
use ts_schema::{NoMemory, Seq};

/// The block that a session is in.
#[derive(Clone, Copy, Debug, PartialEq, Eq)]
pub enum Block {
    /// No block.
    Outside,
    /// A write block.
    Write,
    /// A read block.
    Read,
}

/// The operations held until the end of a write block.
#[derive(Drop)]
pub struct Queue {
    /// The operations, in order.
    pub ops: Seq<Op>,
    /// How many bytes their texts have.
    pub bytes: u64,
}

/// The block that a session is in, with what it holds there.
#[derive(Drop)]
pub enum Open<T> {
    /// No block.
    Nothing,
    /// A write block.
    Write(Queue),
    /// A read block.
    Read {
        /// The position at which the block began.
        at: u64,
        /// The snapshot that its queries read.
        shot: T,
    },
}

impl<T> Open<T> {
    /// Returns the kind of the block.
    pub(crate) fn stage(&self) -> Block
        ensures { result ≡ block_kind (block_of self.now) }
    {
        match self {
            Open::Nothing => Block::Outside,
            Open::Write(_) => Block::Write,
            Open::Read { .. } => Block::Read,
        }
    }

    /// Returns how many bytes the texts of the queued operations have.
    pub(crate) fn queued(&self) -> u64
        ensures { result ≡ queued_in (block_of self.now) }
    {
        match self {
            Open::Nothing => 0,
            Open::Write(queue) => queue.bytes,
            Open::Read { .. } => 0,
        }
    }

    /// Returns how many operations are queued, if it is a write block.
    pub(crate) fn queue_count(&self) -> Option<u64>
        ensures { result ≡ queue_count_of (block_of self.now) }
    {
        match self {
            Open::Nothing => None,
            Open::Write(queue) => Some(queue.ops.len() as u64),
            Open::Read { .. } => None,
        }
    }

    /// Queues an operation from a text of `more` bytes, if it is a write block.
    pub(crate) fn push(&mut self, op: Op, more: u64) -> Result<(), NoMemory>
        requires { queued_in (block_of self.old) + more ≤ most_queued }
        ensures queued { OnOk result (block_of self.new ≡ queued_on op more (block_of self.old)) }
        ensures block { OnOk result (self.new ≡ open_with op more self.old) }
        ensures kept { OnErr result (self.new ≡ self.old) }
    {
        match self {
            Open::Nothing => Ok(()),
            Open::Write(queue) => {
                queue.ops.push(op)?;
                queue.bytes += more;
                Ok(())
            }
            Open::Read { .. } => Ok(()),
        }
    }

    /// Returns the line that reports that the block is given up.
    pub(crate) fn given_up(&self) -> Said
        ensures { result ≡ given_up_of (block_of self.now) }
    {
        match self {
            Open::Nothing => Said::End,
            Open::Write(_) => Said::Rollback,
            Open::Read { .. } => Said::End,
        }
    }

    /// Returns the refusal of a statement of this kind, or none if the block lets it pass. The code is `E16` in a write
    /// block and `E17` in a read block. It is `E18` outside a block for a statement that ends one.
    pub fn barrier(&self, kind: StatementKind) -> Option<Refusal>
        ensures { result ≡ block_refusal (block_of self.now) kind }
    {
        match self {
            Open::Nothing => outside_block(kind),
            Open::Write(_) => in_write_block(kind),
            Open::Read { .. } => in_read_block(kind),
        }
    }
}

/// Returns the refusal of a statement of this kind outside a block, if there is one.
fn outside_block(kind: StatementKind) -> Option<Refusal>
    ensures { result ≡ refusal_outside kind }
{
    match kind {
        StatementKind::Defines
        | StatementKind::Changes
        | StatementKind::Asks
        | StatementKind::Snaps
        | StatementKind::Finishes => None,
        StatementKind::Begins | StatementKind::BeginsRead => None,
        StatementKind::Commits | StatementKind::RollsBack => Some(bare(codes::NO_BLOCK)),
    }
}

/// Returns the refusal of a statement of this kind in a write block, if there is one.
fn in_write_block(kind: StatementKind) -> Option<Refusal>
    ensures { result ≡ refusal_writing kind }
{
    match kind {
        StatementKind::Changes
        | StatementKind::Asks
        | StatementKind::Commits
        | StatementKind::RollsBack => None,
        StatementKind::Defines | StatementKind::Snaps | StatementKind::Finishes => Some(bare(
            codes::IN_WRITE_BLOCK,
        )),
        StatementKind::Begins | StatementKind::BeginsRead => Some(bare(codes::IN_WRITE_BLOCK)),
    }
}

/// Returns the refusal of a statement of this kind in a read block, if there is one.
fn in_read_block(kind: StatementKind) -> Option<Refusal>
    ensures { result ≡ refusal_reading kind }
{
    match kind {
        StatementKind::Asks | StatementKind::Commits | StatementKind::RollsBack => None,
        StatementKind::Defines
        | StatementKind::Changes
        | StatementKind::Snaps
        | StatementKind::Finishes => { Some(bare(codes::IN_READ_BLOCK)) }
        StatementKind::Begins | StatementKind::BeginsRead => Some(bare(codes::IN_READ_BLOCK)),
    }
}
