//! A session whose lines of an input are executed at a store.
ghost use Rattle.std.specs.Prelude.{◌≡◌, ◌≤◌, length};
ghost use Rattle.ts_io.specs.declared.limits.TheConstants.{INPUT_LIMIT};
ghost use Rattle.par_lines.specs.Places.{script_of, IsWithin};

use crate::executors::{Executor, Reads};
use crate::replies::Replies;
use par_lines::{LinePlace, SessionLines};
use par_workers::Worker;
use std::alloc::Global;
use std::thread::Threads;
use ts_model::{Backend, Gate};
use ts_schema::Steps;
use ts_sessions::Actor;

/// A session with its lines of an input.
#[derive(Drop)]
pub(crate) struct SessionWorker<'a, A, G> {
    /// The executor of the lines.
    pub executor: Executor<'a, A, G>,
    /// The input.
    pub input: &'a [u8],
    /// The places of the lines in the input, in order.
    pub lines: Vec<LinePlace>,
    /// Whether one of them ran out of memory.
    pub out_of_memory: bool,
}

impl<'a, A: Actor, G: Gate> SessionWorker<'a, A, G> {
    ghost use Rattle.par_run.specs.Workers.{number_of, worker_script, IsReady};

    #[tactic(auto, using(crate::proofs::ReplyLaws::said_nothing))]
    /// A session before the first of its lines of an input. It allocates no memory.
    pub fn new(
        alloc: Global,
        session: SessionLines,
        input: &'a [u8],
        gate: &'a G,
    ) -> SessionWorker<'a, A, G>
        requires short { length input.now ≤ INPUT_LIMIT }
        requires within { IsWithin (length input.now) session }
        ensures script { worker_script A.named result ≡ script_of input.now session }
        ensures number { number_of A.numbered result ≡ session.number }
        ensures ready { IsReady A.Actor result }
    {
        let SessionLines {
            name,
            number,
            lines,
        } = session;
        SessionWorker {
            executor: Executor {
                actor: A::begin(alloc, name, number),
                gate,
                alloc,
                replies: Replies::new(alloc),
                steps: Steps::new(Reads),
            },
            input,
            lines,
            out_of_memory: false,
        }
    }
}

impl<'a, A: Actor, G: Gate> Worker for SessionWorker<'a, A, G> {
    ghost use Rattle.par_laws.specs.Broken.{WorkedOrBroke};
    ghost use Rattle.par_run.specs.Workers.{ran_out, replies_of, worker_script, IsReady};

    type Shot = A::Shot;

    ghost ready = { IsReady A.Actor };

    ghost did = { WorkedOrBroke A.within A.semantics.does (A.semantics.opening 0)
        (worker_script A.named) (replies_of A.named) ran_out };

    fn work<R: Threads + Sync, B: Backend<Shot = A::Shot>>(&mut self, rt: &R, backend: &mut B) {
        let end = self
            .executor
            .execute_all(rt, backend, self.input, self.lines.as_slice());
        self.out_of_memory = end.is_err();
    }
}
