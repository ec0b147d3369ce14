//! Sessions with policies.
ghost use Rattle.std.specs.Prelude.{◌≡◌, ℕ, suc, ◌<◌, ◌≤◌, ◌^◌, List, [], ◌∷◌, ◌++◌, length, None, false, true, IfOk, OnErr, OnOk};
ghost use Rattle.std.specs.Thread.{IsSync};
ghost use Rattle.ts_bucket.specs.Bucket.{is_time as is_time_of};
ghost use Rattle.result_text.specs.declared.replies.Said.TheVariants.{Fault as FaultLine, Policy as PolicyLine};
ghost use Rattle.ts_sessions.specs.declared.kinds.StatementKind.TheVariants.{Defines};
ghost use Rattle.ts_sessions.specs.Held.{GoesOn};
ghost use Rattle.ts_sessions.specs.Places.{Block as BlockPlace, block_kind, none};
ghost use Rattle.ts_sessions.specs.Sessions.{AnswersSo, IfAnswered, IsReply, Stepped};
ghost use Rattle.ts_sessions.specs.Step.{block_refusal, misread as misread_as};
ghost use Rattle.ts_model.specs.Numbers.{bad_time};
ghost use Rattle.policy_jobs.specs.Policies.{policies_after_tick};
ghost use Rattle.policy_jobs.specs.Runs.{RunsTo};
ghost use Rattle.policy_jobs.specs.Sessions.{HoldsOf, places_in};
ghost use Rattle.policy_jobs.specs.Turns.{adds_policy, lets_pass, misses_time, runs_due, ticks};

use crate::adding::adding_refusal;
use crate::jobs::Job;
use crate::kept::KeptPolicies;
use crate::policies::{Policy, due_texts};
use crate::reading::{PolicyRead, read_policy};
use crate::runs::{TickOutcome, run_all};
use crate::statements::PolicyStmt;
use result_text::Said;
use std::alloc::Global;
use std::thread::Threads;
use stmt_reader::Fault;
use ts_bucket::{MAX_TIME, MIN_TIME};
use ts_model::{Backend, Gate, Refusal, Shown, codes};
use ts_schema::{Name, NoMemory, Steps};
use ts_sessions::{Actor, Block, Reply, StepEnd, bare, step_end, text_refusal, write_reply};

/// A session with policies: an actor, which executes every line except statements on policies, and the policies in
/// the order in which they were added. They live as long as the session.
#[derive(Drop)]
pub struct PolicySession<A> {
    /// The actor.
    pub actor: A,
    /// The policies.
    pub policies: KeptPolicies,
}

impl<A: Actor> PolicySession<A> {
    /// Executes a statement on policies, if the block allows it.
    pub(crate) fn perform<R: Threads + Sync, B: Backend<Shot = A::Shot>, G: Gate, L>(
        &mut self,
        rt: &R,
        alloc: Global,
        backend: &mut B,
        gate: &G,
        stmt: PolicyStmt,
        steps: &mut Steps<L>,
    ) -> StepEnd
        requires sync { IsSync R.row }
        requires holds { HoldsOf A.holds self.old (B.state backend.old) }
        ensures stepped { Stepped B.alone (B.state backend.old)
            (lets_pass A.semantics.does (places_in A.places self.old) stmt
            (block_refusal (A.within (A.places self.old.actor)) Defines))
            (A.named self.old.actor) result (B.state backend.new) (places_in A.places self.new) steps.old steps.new }
        ensures name { A.named self.new.actor ≡ A.named self.old.actor }
        ensures number { A.numbered self.new.actor ≡ A.numbered self.old.actor }
        ensures waiting { A.waiting self.new.actor ≤ A.waiting self.old.actor }
        ensures holds { IfAnswered result (HoldsOf A.holds self.new (B.state backend.new)) }
        ensures kin { B.kin backend.new ≡ B.kin backend.old }
    {
        let _so_far = steps.count();
        match barrier(self.actor.block()) {
            Some(refusal) => refuse(alloc, self.actor.name(), refusal),
            None => match stmt {
                PolicyStmt::Add { job, every } => self.add(alloc, backend, job, every),
                PolicyStmt::Tick(now) => self.tick(rt, alloc, backend, gate, now, steps),
            },
        }
    }

    /// Adds a policy, unless it is refused.
    fn add<B: Backend<Shot = A::Shot>>(
        &mut self,
        alloc: Global,
        backend: &mut B,
        job: Job,
        every: i64,
    ) -> StepEnd
        requires holds { HoldsOf A.holds self.old (B.state backend.old) }
        ensures stepped { (n : ℕ) → n < 2 ^ 64 → Stepped B.alone (B.state backend.old)
            (adds_policy (places_in A.places self.old) job every)
            (A.named self.old.actor) result (B.state backend.new) (places_in A.places self.new) n n }
        ensures kept { result ≡ StepEnd.NoMemory → self.new.policies ≡ self.old.policies }
        ensures actor { self.new.actor ≡ self.old.actor }
        ensures holds { IfAnswered result (HoldsOf A.holds self.new (B.state backend.new)) }
        ensures kin { B.kin backend.new ≡ B.kin backend.old }
    {
        let shot = match backend.snap() {
            Ok(shot) => shot,
            Err(NoMemory) => return StepEnd::NoMemory,
        };
        let pos = shot.position();
        match adding_refusal(pos, shot.roster(), self.policies.len(), &job, every) {
            Some(refusal) => refuse(alloc, self.actor.name(), refusal),
            None => self.keep(
                alloc,
                pos,
                Policy {
                    job,
                    every,
                    ran: None,
                },
            ),
        }
    }

    /// Keeps a policy that was added at a position.
    fn keep(&mut self, alloc: Global, pos: u64, policy: Policy) -> StepEnd
        ensures says { AnswersSo (A.named self.old.actor)
            (PolicyLine (suc (length self.old.policies)) pos ∷ []) false result }
        ensures policies { IfAnswered result
            (self.new.policies ≡ self.old.policies ++ policy ∷ []) }
        ensures kept { result ≡ StepEnd.NoMemory → self.new.policies ≡ self.old.policies }
        ensures actor { self.new.actor ≡ self.old.actor }
    {
        match self.keep_with_reply(alloc, pos, policy) {
            Ok(reply) => StepEnd::Reply(reply),
            Err(NoMemory) => StepEnd::NoMemory,
        }
    }

    /// Keeps a policy, and returns the reply that it was added at a position.
    fn keep_with_reply(
        &mut self,
        alloc: Global,
        pos: u64,
        policy: Policy,
    ) -> Result<Reply, NoMemory>
        ensures reply { IfOk result (λ r. IsReply (A.named self.old.actor)
            (PolicyLine (suc (length self.old.policies)) pos ∷ []) r) }
        ensures policies { OnOk result (self.new.policies ≡ self.old.policies ++ policy ∷ []) }
        // If it runs out of memory, it adds no policy, since no reply reports one.
        ensures kept { OnErr result (self.new.policies ≡ self.old.policies) }
        ensures actor { self.new.actor ≡ self.old.actor }
    {
        let number = self.policies.len() as u64 + 1;
        let reply = write_line(alloc, self.actor.name(), Said::Policy { number, pos })?;
        self.policies.push(policy)?;
        Ok(reply)
    }

    /// Executes a tick: runs the policies that are due, and marks them as run, whatever the outcome.
    fn tick<R: Threads + Sync, B: Backend<Shot = A::Shot>, G: Gate, L>(
        &mut self,
        rt: &R,
        alloc: Global,
        backend: &mut B,
        gate: &G,
        now: i64,
        steps: &mut Steps<L>,
    ) -> StepEnd
        requires sync { IsSync R.row }
        requires outside { A.within (A.places self.old.actor) ≡ none }
        requires holds { HoldsOf A.holds self.old (B.state backend.old) }
        ensures stepped { Stepped B.alone (B.state backend.old)
            (ticks A.semantics.does (places_in A.places self.old) now)
            (A.named self.old.actor) result (B.state backend.new) (places_in A.places self.new) steps.old steps.new }
        ensures name { A.named self.new.actor ≡ A.named self.old.actor }
        ensures number { A.numbered self.new.actor ≡ A.numbered self.old.actor }
        ensures waiting { A.waiting self.new.actor ≡ 0 }
        ensures holds { IfAnswered result (HoldsOf A.holds self.new (B.state backend.new)) }
        ensures kin { B.kin backend.new ≡ B.kin backend.old }
    {
        let _so_far = steps.count();
        if !is_time(now) {
            return self.miss_time(alloc, backend);
        }
        if self.policies.is_idle(now) {
            return say(alloc, self.actor.name(), Said::Tick { time: now, due: 0 });
        }
        match self.run_due(rt, alloc, backend, gate, now, steps) {
            Ok(run) => {
                self.mark(now);
                step_end(run.reply, run.failed)
            }
            Err(NoMemory) => StepEnd::NoMemory,
        }
    }

    /// Marks the policies that are due at a time as run then.
    fn mark(&mut self, now: i64)
        ensures policies { self.new.policies ≡ policies_after_tick now self.old.policies }
        ensures actor { self.new.actor ≡ self.old.actor }
    {
        self.policies.mark(now);
    }

    /// Refuses a tick whose time is out of range, at the position of the store.
    fn miss_time<B: Backend<Shot = A::Shot>>(&self, alloc: Global, backend: &mut B) -> StepEnd
        ensures stepped { (n : ℕ) → n < 2 ^ 64 → Stepped B.alone (B.state backend.old)
            (misses_time (places_in A.places self.now)) (A.named self.now.actor) result
            (B.state backend.new) (places_in A.places self.now) n n }
        ensures goes { GoesOn (B.state backend.old) (B.state backend.new) }
        ensures kin { B.kin backend.new ≡ B.kin backend.old }
    {
        match backend.snap() {
            Ok(shot) => refuse(alloc, self.actor.name(), bad_time(shot.position())),
            Err(NoMemory) => StepEnd::NoMemory,
        }
    }

    /// Runs the policies that are due at a time, after the line of the tick.
    fn run_due<R: Threads + Sync, B: Backend<Shot = A::Shot>, G: Gate, L>(
        &mut self,
        rt: &R,
        alloc: Global,
        backend: &mut B,
        gate: &G,
        now: i64,
        steps: &mut Steps<L>,
    ) -> Result<TickOutcome, NoMemory>
        requires sync { IsSync R.row }
        requires time { is_time_of now ≡ true }
        requires outside { A.within (A.places self.old.actor) ≡ none }
        requires holds { HoldsOf A.holds self.old (B.state backend.old) }
        ensures ran { RunsTo B.alone (B.state backend.old)
            (runs_due A.semantics.does now (A.places self.old.actor) self.old.policies)
            (A.named self.old.actor) result (B.state backend.new) (A.places self.new.actor) steps.old steps.new }
        ensures policies { self.new.policies ≡ self.old.policies }
        ensures name { A.named self.new.actor ≡ A.named self.old.actor }
        ensures number { A.numbered self.new.actor ≡ A.numbered self.old.actor }
        ensures waiting { A.waiting self.new.actor ≡ 0 }
        ensures holds { OnOk result (A.holds self.new.actor (B.state backend.new)) }
        ensures kin { B.kin backend.new ≡ B.kin backend.old }
    {
        let _so_far = steps.count();
        let texts = due_texts(alloc, self.policies.as_slice(), now)?;
        let line = Said::Tick {
            time: now,
            due: texts.len() as u64,
        };
        let reply = write_line(alloc, self.actor.name(), line)?;
        let run = TickOutcome {
            reply,
            failed: false,
        };
        run_all(
            rt,
            alloc,
            &mut self.actor,
            backend,
            gate,
            texts.items(),
            run,
            steps,
        )
    }
}

/// The refusal of a time that is out of range.
fn bad_time(pos: u64) -> Refusal
    ensures { result ≡ record { code = bad_time; pos = pos; mark = 0 } }
{
    Refusal {
        code: codes::BAD_TIME,
        pos,
        mark: 0,
    }
}

/// Whether this is a time.
fn is_time(now: i64) -> bool
    ensures { result ≡ is_time_of now }
{
    MIN_TIME <= now && now <= MAX_TIME
}

/// The refusal of statements on policies in a block, or `None`.
fn barrier(block: Block) -> Option<Refusal>
    ensures { (place : BlockPlace) → block ≡ block_kind place → result ≡ block_refusal place Defines }
{
    match block {
        Block::Outside => None,
        Block::Write => Some(bare(codes::IN_WRITE_BLOCK)),
        Block::Read => Some(bare(codes::IN_READ_BLOCK)),
    }
}

/// The refusal of a text that can't be read, with the place of its first fault.
pub(crate) fn misread(fault: Fault) -> Refusal
    ensures { result ≡ misread_as fault }
{
    match fault {
        Fault::NoToken(place) => text_refusal(codes::NO_TOKEN, place),
        Fault::Syntax(place) => text_refusal(codes::SYNTAX, place),
        Fault::BadNumber(place) => text_refusal(codes::BAD_NUMBER, place),
    }
}

/// Ends a statement of the session `name` with a refusal.
pub(crate) fn refuse(alloc: Global, name: &Name, refusal: Refusal) -> StepEnd
    ensures { AnswersSo name.now (FaultLine refusal ∷ []) false result }
{
    say(alloc, name, Said::Fault(refusal))
}

/// Ends a statement of the session `name` with this one line.
fn say(alloc: Global, name: &Name, line: Said) -> StepEnd
    ensures { AnswersSo name.now (line ∷ []) false result }
{
    match write_line(alloc, name, line) {
        Ok(reply) => StepEnd::Reply(reply),
        Err(NoMemory) => StepEnd::NoMemory,
    }
}

/// The reply of the session `name` with only this line.
fn write_line(alloc: Global, name: &Name, line: Said) -> Result<Reply, NoMemory>
    ensures { IfOk result (λ r. IsReply name.now (line ∷ []) r) }
{
    write_reply(alloc, name, &[line])
}
