//! A session whose lines are executed in order.
ghost use Rattle.std.specs.Prelude.{◌≡◌, ◌+◌, ◌<◌, ◌≤◌, ◌^◌, All, length, map, sum_by, OnErr, OnOk};
ghost use Rattle.std.specs.Thread.{IsSync};
ghost use Rattle.stmt_syntax.specs.Limits.{longest_line};
ghost use Rattle.ts_sessions.specs.Held.{most_queued};
ghost use Rattle.ts_sessions.specs.Walks.{Breaks};
ghost use Rattle.par_laws.specs.Broken.{BrokeOff};
ghost use Rattle.par_laws.specs.Parallel.{SessionExecuted};
ghost use Rattle.par_lines.specs.Places.{line_at, IsLineWithin};
ghost use Rattle.par_run.specs.Replies.{ExecutesNext};
ghost use Rattle.par_run.specs.Workers.{nothing_said, said_by};

use crate::replies::Replies;
use par_lines::LinePlace;
use std::alloc::Global;
use std::thread::Threads;
use ts_model::{Backend, Gate};
use ts_schema::{NoMemory, Steps};
use ts_sessions::Actor;

/// The name of the count of stored rows that a session reads.
#[derive(Drop)]
pub(crate) struct Reads;

/// A session whose lines are executed, and what it replies.
#[derive(Drop)]
pub(crate) struct Executor<'a, A, G> {
    /// The actor that executes its lines.
    pub actor: A,
    /// Called after each reply.
    pub gate: &'a G,
    /// The allocator.
    pub alloc: Global,
    /// What it has replied.
    pub replies: Replies,
    /// How many stored rows it has read.
    pub steps: Steps<Reads>,
}

impl<'a, A: Actor, G: Gate> Executor<'a, A, G> {
    /// Executes lines of an input in order, until one runs out of memory.
    pub fn execute_all<R: Threads + Sync, B: Backend<Shot = A::Shot>>(
        &mut self,
        rt: &R,
        backend: &mut B,
        input: &[u8],
        lines: &[LinePlace],
    ) -> Result<(), NoMemory>
        requires sync { IsSync R.row }
        requires lines { All (IsLineWithin (length input.now)) lines.now }
        requires room { sum_by (λ line. line.len) lines.now ≤ most_queued }
        requires fresh { A.places self.old.actor ≡ A.semantics.opening 0 }
        requires idle { A.waiting self.old.actor ≡ 0 }
        requires holds { A.holds self.old.actor (B.state backend.old) }
        requires unanswered { said_by A.named self.old ≡ nothing_said (A.named self.old.actor) }
        ensures executed { OnOk result (SessionExecuted A.within A.semantics.does (A.semantics.opening 0) B.alone
            (record { name = A.named self.old.actor; lines = map (line_at input.now) lines.now })
            (B.state backend.old) (said_by A.named self.new) (B.state backend.new)) }
        ensures broke { OnErr result (BrokeOff A.within A.semantics.does (A.semantics.opening 0) B.alone
            (record { name = A.named self.old.actor; lines = map (line_at input.now) lines.now })
            (B.state backend.old) (said_by A.named self.new).reads (B.state backend.new)) }
        ensures name { A.named self.new.actor ≡ A.named self.old.actor }
        ensures number { A.numbered self.new.actor ≡ A.numbered self.old.actor }
        ensures kin { B.kin backend.new ≡ B.kin backend.old }
    {
        for line in lines {
            self.execute(rt, backend, line.text(input), line.skip)?;
        }
        Ok(())
    }

    /// Executes a line, and keeps its reply. `text` is the line before its comment, and its statement begins after the
    /// first `skip` bytes.
    fn execute<R: Threads + Sync, B: Backend<Shot = A::Shot>>(
        &mut self,
        rt: &R,
        backend: &mut B,
        text: &[u8],
        skip: u32,
    ) -> Result<(), NoMemory>
        requires sync { IsSync R.row }
        requires short { length text.now ≤ longest_line }
        requires within { skip ≤ length text.now }
        requires room { A.waiting self.old.actor + length text.now ≤ most_queued }
        requires holds { A.holds self.old.actor (B.state backend.old) }
        ensures executed { OnOk result (ExecutesNext A.within A.semantics.does (A.semantics.opening 0) B.alone
            (A.named self.old.actor) (record { text = text.now; skip = skip })
            (B.state backend.old) (A.places self.old.actor) (said_by A.named self.old)
            (B.state backend.new) (A.places self.new.actor) (said_by A.named self.new)) }
        ensures broke { OnErr result (Breaks B.alone (B.state backend.old)
            (A.semantics.does (A.places self.old.actor) text.now skip) (B.state backend.new)) }
        ensures counted { (said_by A.named self.old).reads < 2 ^ 64
            → (said_by A.named self.old).reads ≤ (said_by A.named self.new).reads }
        ensures name { A.named self.new.actor ≡ A.named self.old.actor }
        ensures number { A.numbered self.new.actor ≡ A.numbered self.old.actor }
        ensures holds { OnOk result (A.holds self.new.actor (B.state backend.new)) }
        ensures waiting { A.waiting self.new.actor ≤ A.waiting self.old.actor + length text.now }
        ensures kin { B.kin backend.new ≡ B.kin backend.old }
    {
        let end = self.actor.act(
            rt,
            self.alloc,
            backend,
            self.gate,
            text,
            skip,
            &mut self.steps,
        );
        self.replies.keep(self.alloc, text, end)?;
        self.gate.answered(self.actor.number());
        Ok(())
    }
}
