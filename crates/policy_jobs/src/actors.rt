//! Implements `Actor` for a session with policies, so that it can execute the lines of a session.
use crate::kept::KeptPolicies;
use crate::reading::{PolicyRead, read_policy};
use crate::sessions::{PolicySession, misread, refuse};
use std::alloc::Global;
use std::thread::Threads;
use ts_model::{Backend, Gate};
use ts_schema::{Name, Steps};
use ts_sessions::{Actor, Block, StepEnd};

impl<A: Actor> Actor for PolicySession<A> {
    ghost use Rattle.std.specs.Prelude.{[]};
    ghost use Rattle.policy_jobs.specs.Sessions.{HoldsOf, places_in};
    ghost use Rattle.policy_jobs.specs.Turns.{PolicyPlaces, policy_does, policy_semantics};

    type Shot = A::Shot;

    ghost Places = { PolicyPlaces A.Places };

    ghost semantics = { policy_semantics A.within A.semantics };

    ghost replies = { policy_does A.replies A.within };

    ghost places = { λ s. places_in A.places s };

    ghost named = { λ s. A.named s.actor };

    ghost numbered = { λ s. A.numbered s.actor };

    ghost waiting = { λ s. A.waiting s.actor };

    ghost within = { λ p. A.within p.inner };

    ghost waits = { λ s. A.waits s.actor };

    ghost holds = { λ s h. HoldsOf A.holds s h };

    ghost holds_on = { λ s g h b k. record { actor = A.holds_on s.actor g h b k.actor; policies = k.policies } };

    ghost alike = { λ m n i. record { inner = A.alike m n i; policies = [] } };

    ghost begun = { λ s h k. A.begun s.actor h k.actor };

    fn begin(alloc: Global, name: Name, number: u32) -> PolicySession<A> {
        PolicySession {
            actor: A::begin(alloc, name, number),
            policies: KeptPolicies::new(alloc),
        }
    }

    fn number(&self) -> u32 {
        self.actor.number()
    }

    fn name(&self) -> &Name {
        self.actor.name()
    }

    fn queued(&self) -> u64 {
        self.actor.queued()
    }

    fn block(&self) -> Block {
        self.actor.block()
    }

    fn act<R: Threads + Sync, B: Backend<Shot = A::Shot>, G: Gate, L>(
        &mut self,
        rt: &R,
        alloc: Global,
        backend: &mut B,
        gate: &G,
        text: &[u8],
        skip: u32,
        steps: &mut Steps<L>,
    ) -> StepEnd {
        let _so_far = steps.count();
        match read_policy(alloc, text, skip) {
            PolicyRead::Other => self.actor.act(rt, alloc, backend, gate, text, skip, steps),
            PolicyRead::Stmt(stmt) => self.perform(rt, alloc, backend, gate, stmt, steps),
            PolicyRead::Fault(fault) => refuse(alloc, self.actor.name(), misread(fault)),
            PolicyRead::NoMemory => StepEnd::NoMemory,
        }
    }

    fn tells_replies() {
        A::tells_replies();
    }

    fn stays_outside() {
        A::stays_outside();
    }
}
