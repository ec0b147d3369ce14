//! The policies of a session, with the earliest time at which one of them is due.
ghost use Rattle.std.specs.Prelude.{◌≡◌, [], ◌∷◌, ◌++◌, ◌^◌, ◌<◌, length, not, OnErr, OnOk};
ghost use Rattle.std.specs.List.{list_any};
ghost use Rattle.policy_jobs.specs.Policies.{is_due, policies_after_tick};

use crate::policies::{Policy, first_due, is_before, is_idle, mark_due};
use std::alloc::Global;
use std::marker::Model;
use ts_schema::NoMemory;

/// Policies in the order in which they were added. Contracts see the list of them.
#[derive(Drop)]
pub struct KeptPolicies {
    /// The policies.
    items: Vec<Policy>,
    /// The earliest time at which one of them is due.
    due_from: i128,
}

impl Model for KeptPolicies {
    ghost use Rattle.std.specs.Prelude.{◌≡◌, List};
    ghost use Rattle.policy_jobs.specs.Policies.{first_due};
    ghost use Rattle.policy_jobs.specs.declared.policies.Policy.{Policy};

    ghost Value = { List Policy };

    ghost view = { λ p. p.items.items };

    ghost invariant = { λ p. p.due_from ≡ first_due p.items.items };
}

impl KeptPolicies {
    /// An empty list of policies. It takes no memory.
    pub fn new(alloc: Global) -> KeptPolicies
        ensures none { result ≡ [] }
    {
        KeptPolicies {
            items: Vec::new(alloc),
            due_from: i64::MAX as i128,
        }
    }

    /// The number of policies.
    pub fn len(&self) -> usize
        ensures len { result ≡ length self.now }
        ensures small { result < 2 ^ 63 }
    {
        self.items.len()
    }

    /// The policies, in order.
    pub fn as_slice(&self) -> &[Policy]
        ensures items { result.now ≡ self.now }
    {
        self.items.as_slice()
    }

    /// Appends a policy.
    pub fn push(&mut self, policy: Policy) -> Result<(), NoMemory>
        ensures pushed { OnOk result (self.new ≡ self.old ++ policy ∷ []) }
        ensures kept { OnErr result (self.new ≡ self.old) }
    {
        self.items.push(policy)?;
        self.due_from = first_due(self.items.as_slice());
        Ok(())
    }

    /// Whether none is due at a time.
    pub fn is_idle(&self, now: i64) -> bool
        ensures idle { result ≡ not (list_any (is_due now) self.now) }
    {
        if is_before(now, self.due_from) {
            return true;
        }
        is_idle(self.items.as_slice(), now)
    }

    /// Marks the policies that are due at a time as run then.
    pub fn mark(&mut self, now: i64)
        ensures ran { self.new ≡ policies_after_tick now self.old }
    {
        mark_due(self.items.as_mut_slice(), now);
        self.due_from = first_due(self.items.as_slice());
    }
}
