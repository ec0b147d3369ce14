//! What all workers have replied.
ghost use Rattle.std.specs.Prelude.{◌≡◌, ◌++◌, false, flat_map, length, map, nat_lt, not, sum_by, OnOk, IfOk};
ghost use Rattle.std.specs.List.{list_any};
ghost use Rattle.ts_schema.specs.Counts.{raised_by};
ghost use Rattle.par_workers.specs.Slots.{workers_of};
ghost use Rattle.par_run.specs.Outputs.{output_in, refusals_only, with_session, with_sessions};
ghost use Rattle.par_run.specs.Workers.{ran_out, replies_of};

use crate::crews::{Crew, Crews};
use crate::executors::Executor;
use crate::replies::Replies;
use crate::workers::SessionWorker;
use par_workers::Slot;
use std::alloc::Global;
use transcript::{Exchange, SessionTranscript};
use ts_model::Backend;
use ts_schema::{NoMemory, Seq};
use ts_sessions::Actor;

/// What a run writes.
#[derive(Drop)]
pub(crate) struct Output {
    /// The text of all refusals and replies.
    pub text: Vec<u8>,
    /// Whether one of them is a FAULT.
    pub fault: bool,
    /// The sessions in the order of their replies, each with its lines and their replies.
    pub sessions: Vec<SessionTranscript>,
}

/// The refusals of a run, and the replies of its workers in the order in which they ran, unless a worker ran out of
/// memory.
pub(crate) fn all_replies<A, B, G>(
    alloc: Global,
    crews: Crews<'_, A, B, G>,
) -> Result<Output, NoMemory>
where
    A: Actor + Drop,
    B: Backend,
    ensures setup { OnOk result (list_any ran_out (workers_of crews.entry.setup.items) ≡ false) }
    ensures at_once { OnOk result (list_any ran_out (workers_of crews.entry.at_once.items) ≡ false) }
    ensures last { OnOk result (list_any ran_out (workers_of crews.entry.last.items) ≡ false) }
    ensures output { IfOk result (λ output. output_in output ≡
        with_sessions (map (replies_of A.named) (workers_of crews.entry.last.items))
        (with_sessions (map (replies_of A.named) (workers_of crews.entry.at_once.items))
        (with_sessions (map (replies_of A.named) (workers_of crews.entry.setup.items))
        (refusals_only crews.entry.refusals.items)))) }
{
    let Crews {
        refusals,
        setup,
        at_once,
        last,
    } = crews;
    let mut output = Output {
        fault: has_bytes(refusals.as_slice()),
        text: refusals,
        sessions: Vec::new(alloc),
    };
    append_crew(&mut output, setup)?;
    append_crew(&mut output, at_once)?;
    append_crew(&mut output, last)?;
    Ok(output)
}

/// Whether a text has a byte.
fn has_bytes(text: &[u8]) -> bool
    ensures { result ≡ nat_lt 0 (length text.now) }
{
    !text.is_empty()
}

/// Appends the replies of a crew's workers, in order, unless a worker ran out of memory.
fn append_crew<A, B, G>(output: &mut Output, crew: Crew<'_, A, B, G>) -> Result<(), NoMemory>
where
    A: Actor + Drop,
    B: Backend,
    ensures enough { OnOk result (list_any ran_out (workers_of crew.entry.items) ≡ false) }
    ensures output { OnOk result (output_in output.new
        ≡ with_sessions (map (replies_of A.named) (workers_of crew.entry.items)) (output_in output.old)) }
{
    for slot in crew {
        append_worker(output, slot.0)?;
    }
    Ok(())
}

#[tactic(auto, using(crate::proofs::OutputLaws::appended))]
/// Appends the replies of a worker, unless it ran out of memory.
fn append_worker<A, G>(output: &mut Output, worker: SessionWorker<'_, A, G>) -> Result<(), NoMemory>
where
    A: Actor + Drop,
    ensures enough { OnOk result (ran_out worker.entry ≡ false) }
    ensures output { OnOk result
        (output_in output.new ≡ with_session (replies_of A.named worker.entry) (output_in output.old)) }
{
    if worker.out_of_memory {
        return Err(NoMemory);
    }
    let SessionWorker { executor, .. } = worker;
    let Executor {
        actor,
        alloc,
        replies,
        ..
    } = executor;
    let name = Vec::from_slice(alloc, actor.name().bytes())?;
    let Replies { exchanges, fault } = replies;
    append_texts(exchanges.as_slice(), &mut output.text)?;
    output.fault |= fault;
    output.sessions.push(SessionTranscript {
        name: Seq::of(name),
        replies: Seq::of(exchanges),
    })?;
    Ok(())
}

/// Appends the texts of the replies to lines, in order.
fn append_texts(exchanges: &[Exchange], text: &mut Vec<u8>) -> Result<(), NoMemory>
    ensures text { OnOk result (text.new.items
        ≡ text.old.items ++ flat_map (λ exchange. exchange.reply) exchanges.now) }
{
    for exchange in exchanges {
        text.extend_from_slice(exchange.reply.items())?;
    }
    Ok(())
}

/// Whether no worker of a crew ran out of memory.
pub(crate) fn had_memory<A, B, G>(crew: &[Slot<SessionWorker<'_, A, G>, B>]) -> bool
where
    A: Actor + Drop,
    B: Backend,
    ensures { result ≡ not (list_any ran_out (workers_of crew.now)) }
{
    !crew.iter().any(|slot| slot.0.out_of_memory)
}

/// How many stored rows all workers have read. The sum saturates.
pub(crate) fn all_reads<A, B, G>(crews: &Crews<'_, A, B, G>) -> u64
where
    A: Actor + Drop,
    B: Backend,
    ensures { result ≡ raised_by (sum_by (λ w. (replies_of A.named w).reads)
        (workers_of crews.now.setup.items ++ workers_of crews.now.at_once.items
        ++ workers_of crews.now.last.items)) 0 }
{
    reads_of(crews.setup.as_slice())
        .saturating_add(reads_of(crews.at_once.as_slice()))
        .saturating_add(reads_of(crews.last.as_slice()))
}

/// How many stored rows the workers of a crew have read.
fn reads_of<A, B, G>(crew: &[Slot<SessionWorker<'_, A, G>, B>]) -> u64
where
    A: Actor + Drop,
    B: Backend,
    ensures { result ≡ raised_by (sum_by (λ w. (replies_of A.named w).reads) (workers_of crew.now)) 0 }
{
    let mut reads: u64 = 0;
    for slot in crew {
        reads = reads.saturating_add(slot.0.executor.steps.count());
    }
    reads
}
