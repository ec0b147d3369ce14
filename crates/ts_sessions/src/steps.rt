//! The step of a session: one line.
ghost use Rattle.std.specs.Prelude.{◌≡◌, ◌+◌, ◌<◌, ◌≤◌, ◌^◌, length, None, IfOk, OnOk, OnErr};
ghost use Rattle.std.specs.Thread.{IsSync};
ghost use Rattle.stmt_syntax.specs.Limits.{longest_line};
ghost use Rattle.ts_sessions.specs.Deeds.{OpensTo, Takes};
ghost use Rattle.ts_sessions.specs.Held.{Carries, HoldsOf, most_queued, places_in, waiting_bytes};
ghost use Rattle.ts_sessions.specs.Places.{none};
ghost use Rattle.ts_sessions.specs.Sessions.{AnswersSo, Brings, ChangeFits, DoesReading, HoldsAfter, IfAnswered, IfNoMemory, IsReplied, Spares, Stepped, places_after, finish_in, finish_meant};
ghost use Rattle.ts_sessions.specs.Sound.{AsksSoundly};
ghost use Rattle.ts_sessions.specs.Step.{block_refusal, kind_of as kind_of_stmt, performs, step as step_of};

use crate::changes::{Change, Completion, refusal_completion};
use crate::deeds::{Next, carry_out};
use crate::kinds::kind_of;
use crate::openings::Opening;
use crate::refusals::text_refusal;
use crate::replies::{Reply, StepEnd, step_end, write_reply};
use crate::sessions::Session;
use std::alloc::Global;
use std::thread::Threads;
use stmt_reader::{ReadStmt, read_stmt};
use stmt_syntax::Stmt;
use ts_model::{Backend, Gate, Shown, codes};
use ts_schema::{NoMemory, Steps};

impl<T: Shown + Drop> Session<T>
where
    T::Job: Drop,
{
    /// Executes a line. `text` is the line before its comment, and its statement begins after the first `skip` bytes.
    /// It is one step of the model: the procedure of the line, on any history that the store has by then. If it runs
    /// out of memory, the session stays as it was, with one exception. It may have given up the snapshot of a refresh
    /// that the line would finish.
    pub fn step<R: Threads + Sync, B: Backend<Shot = T>, G: Gate, L>(
        &mut self,
        rt: &R,
        alloc: Global,
        backend: &mut B,
        gate: &G,
        text: &[u8],
        skip: u32,
        steps: &mut Steps<L>,
    ) -> StepEnd
        requires sync { IsSync R.row }
        requires short { length text.now ≤ longest_line }
        requires within { skip ≤ length text.now }
        requires room { waiting_bytes self.old + length text.now ≤ most_queued }
        requires holds { HoldsOf T.Shown self.old (B.state backend.old) }
        ensures stepped { Stepped B.alone (B.state backend.old) (step_of (places_in self.old) text.now skip)
            self.old.name result (B.state backend.new) (places_in self.new) steps.old steps.new }
        ensures spared { IfNoMemory result (Spares (finish_in (places_in self.old) text.now skip)
            (places_in self.old) (places_in self.new)) }
        ensures name { self.new.name ≡ self.old.name }
        ensures number { self.new.number ≡ self.old.number }
        ensures holds { HoldsOf T.Shown self.new (B.state backend.new) }
        ensures queued { waiting_bytes self.new ≤ waiting_bytes self.old + length text.now }
        ensures quiet { (places_in self.old).block ≡ none → waiting_bytes self.new ≡ 0 }
        ensures kin { B.kin backend.new ≡ B.kin backend.old }
    {
        let _so_far = steps.count();
        match self.take_line(rt, alloc, backend, gate, text, skip, steps) {
            Ok(completion) => self.answer(alloc, completion),
            Err(NoMemory) => StepEnd::NoMemory,
        }
    }

    /// Writes the reply to a line, and applies the change of its statement. If it runs out of memory, the session stays
    /// as it is.
    fn answer(&mut self, alloc: Global, completion: Completion<T>) -> StepEnd
        requires fits { ChangeFits completion.change (places_in self.old).block }
        ensures answers { AnswersSo self.old.name completion.said completion.failed result }
        ensures places { IfAnswered result (places_in self.new ≡ places_after completion.change (places_in self.old)) }
        ensures kept { IfNoMemory result (Carries self.old self.new) }
        ensures name { self.new.name ≡ self.old.name }
        ensures number { self.new.number ≡ self.old.number }
        ensures holds { HoldsAfter T.Shown completion.change self.old self.new }
    {
        match write_reply(alloc, &self.name, completion.said.items()) {
            Ok(reply) => self.close(completion.change, completion.failed, reply),
            Err(NoMemory) => StepEnd::NoMemory,
        }
    }

    /// Applies the change of a line whose reply is written.
    fn close(&mut self, change: Change<T>, failed: bool, reply: Reply) -> StepEnd
        requires fits { ChangeFits change (places_in self.old).block }
        ensures replied { IfAnswered result (IsReplied failed reply result) }
        ensures places { IfAnswered result (places_in self.new ≡ places_after change (places_in self.old)) }
        ensures kept { IfNoMemory result (Carries self.old self.new) }
        ensures name { self.new.name ≡ self.old.name }
        ensures number { self.new.number ≡ self.old.number }
        ensures holds { HoldsAfter T.Shown change self.old self.new }
    {
        match self.settle(change) {
            Ok(()) => step_end(reply, failed),
            Err(NoMemory) => StepEnd::NoMemory,
        }
    }

    /// Performs the statement of a line, or refuses it if it can't be read or the block of the session bars it.
    fn take_line<R: Threads + Sync, B: Backend<Shot = T>, G: Gate, L>(
        &mut self,
        rt: &R,
        alloc: Global,
        backend: &mut B,
        gate: &G,
        text: &[u8],
        skip: u32,
        steps: &mut Steps<L>,
    ) -> Result<Completion<T>, NoMemory>
        requires sync { IsSync R.row }
        requires counts { steps.old < 2 ^ 64 }
        requires short { length text.now ≤ longest_line }
        requires within { skip ≤ length text.now }
        requires holds { HoldsOf T.Shown self.old (B.state backend.old) }
        ensures ends { DoesReading B.Backend backend.old (step_of (places_in self.old) text.now skip)
            (places_in self.old) result backend.new steps.old steps.new }
        ensures change { Brings T.Shown (length text.now) result (B.state backend.new).history }
        ensures places { OnOk result (places_in self.new ≡ places_in self.old) }
        ensures spared { OnErr result (Spares (finish_in (places_in self.old) text.now skip) (places_in self.old)
            (places_in self.new)) }
        ensures name { self.new.name ≡ self.old.name }
        ensures number { self.new.number ≡ self.old.number }
        ensures holds { HoldsOf T.Shown self.new (B.state backend.new) }
        ensures kin { B.kin backend.new ≡ B.kin backend.old }
    {
        match read_stmt(alloc, text, skip) {
            ReadStmt::Stmt(stmt) => match self.block.barrier(kind_of(&stmt)) {
                Some(refusal) => refusal_completion(alloc, refusal),
                None => { self.perform(rt, alloc, backend, gate, &stmt, text.len() as u64, steps) }
            },
            ReadStmt::NoToken(place) => refusal_completion(
                alloc,
                text_refusal(codes::NO_TOKEN, place),
            ),
            ReadStmt::Syntax(place) => refusal_completion(
                alloc,
                text_refusal(codes::SYNTAX, place),
            ),
            ReadStmt::BadNumber(place) => refusal_completion(
                alloc,
                text_refusal(codes::BAD_NUMBER, place),
            ),
            ReadStmt::NoMemory => Err(NoMemory),
        }
    }

    /// Performs a statement that the block lets pass. `bytes` is the length of its text.
    fn perform<R: Threads + Sync, B: Backend<Shot = T>, G: Gate, L>(
        &mut self,
        rt: &R,
        alloc: Global,
        backend: &mut B,
        gate: &G,
        stmt: &Stmt,
        bytes: u64,
        steps: &mut Steps<L>,
    ) -> Result<Completion<T>, NoMemory>
        requires sync { IsSync R.row }
        requires counts { steps.old < 2 ^ 64 }
        requires sound { AsksSoundly bytes stmt.now }
        requires passes { block_refusal (places_in self.old).block (kind_of_stmt stmt.now) ≡ None }
        requires holds { HoldsOf T.Shown self.old (B.state backend.old) }
        ensures ends { DoesReading B.Backend backend.old (performs (places_in self.old) bytes stmt.now)
            (places_in self.old) result backend.new steps.old steps.new }
        ensures change { Brings T.Shown bytes result (B.state backend.new).history }
        ensures places { OnOk result (places_in self.new ≡ places_in self.old) }
        ensures spared { OnErr result (Spares (finish_meant (places_in self.old) stmt.now) (places_in self.old)
            (places_in self.new)) }
        ensures name { self.new.name ≡ self.old.name }
        ensures number { self.new.number ≡ self.old.number }
        ensures holds { HoldsOf T.Shown self.new (B.state backend.new) }
        ensures kin { B.kin backend.new ≡ B.kin backend.old }
    {
        let next = self.first(rt, alloc, backend, stmt, bytes, steps)?;
        let _so_far = steps.count();
        let taken = next.cut_taken();
        match carry_out(rt, alloc, backend, gate, self.number, next, steps) {
            Ok(completion) => Ok(completion),
            Err(NoMemory) => {
                self.give_up(taken);
                Err(NoMemory)
            }
        }
    }

    /// Returns the first store call or the end of a statement that the block lets pass. It calls the store only to
    /// resolve names.
    fn first<R: Threads + Sync, B: Backend<Shot = T>, L>(
        &mut self,
        rt: &R,
        alloc: Global,
        backend: &mut B,
        stmt: &Stmt,
        bytes: u64,
        steps: &mut Steps<L>,
    ) -> Result<Next<T>, NoMemory>
        requires sync { IsSync R.row }
        requires counts { steps.old < 2 ^ 64 }
        requires sound { AsksSoundly bytes stmt.now }
        requires passes { block_refusal (places_in self.old).block (kind_of_stmt stmt.now) ≡ None }
        requires holds { HoldsOf T.Shown self.old (B.state backend.old) }
        ensures opens { OpensTo T.Shown bytes B.alone (B.state backend.old)
            (performs (places_in self.old) bytes stmt.now) (places_in self.old) result (B.state backend.new)
            steps.old steps.new }
        ensures takes { IfOk result (λ n. Takes T.Shown (finish_meant (places_in self.old) stmt.now) n self.old self.new) }
        ensures kept { OnErr result (Carries self.old self.new) }
        ensures name { self.new.name ≡ self.old.name }
        ensures number { self.new.number ≡ self.old.number }
        ensures kin { B.kin backend.new ≡ B.kin backend.old }
    {
        let opening = self.opening(alloc, stmt)?;
        match opening {
            Opening::Next(next) => Ok(next),
            Opening::Names => self.resolve_names(rt, alloc, backend, stmt, bytes, steps),
            Opening::Finish(number) => Ok(Next::Deed(self.finish(number))),
        }
    }
}
