//! How a lock is created.
ghost use Rattle.std.specs.Prelude.{◌≡◌, ◌<◌, [], ◌∷◌, Some, MatchResult};
ghost use Rattle.turn_lock.specs.Made.{Makes};

use crate::grown::Grown;
use crate::lock::TurnLock;
use crate::opening::Opening;
use crate::pass::Pass;
use atomic_table::{Refused, Table};
use std::alloc::{AllocFailed, Global};
use std::snapshot::Snapshot;

/// A new lock with its first pass, or the value if memory ran out.
#[derive(Drop)]
pub enum MadeLock<V: Grown> {
    Made { lock: TurnLock<V>, pass: Pass<V> },
    NoMemory(V),
}

// A list of the value, or the value itself if memory ran out.
fn put_in_slot<V>(alloc: Global, value: V) -> Result<Vec<Option<V>>, V>
    ensures { MatchResult result (λ slots. slots.items ≡ Some value ∷ []) (λ v. v ≡ value) }
{
    let mut slots = Vec::new(alloc);
    match slots.push(Some(value)) {
        Ok(()) => Ok(slots),
        Err(AllocFailed { value }) => {
            slots.destroy_empty();
            Err(value.unwrap())
        }
    }
}

// The value of a list that has only it.
fn take_from_slot<V>(mut slots: Vec<Option<V>>) -> V
    requires { (v : V) × (slots.items ≡ Some v ∷ []) }
    ensures { slots.items ≡ Some result ∷ [] }
{
    let value = slots.pop().unwrap();
    slots.destroy_empty();
    value.unwrap()
}

impl<V: Grown> TurnLock<V> {
    /// A lock around the value, and the first pass, which has all the shares and has seen the value's
    /// events.
    pub fn new(alloc: Global, value: V, shares: u32) -> MadeLock<V>
        requires { 0 < shares }
        ensures { Makes V.base V.events V.closed value shares result }
    {
        let position = value.position();
        let opening = Opening {
            shares,
            value: Snapshot::of(&value),
        };
        let slots = match put_in_slot(alloc, value) {
            Ok(slots) => slots,
            Err(value) => return MadeLock::NoMemory(value),
        };
        match Table::new(alloc, &[0, 0, position], slots, &opening) {
            Ok((table, seat)) => MadeLock::Made {
                lock: TurnLock { table },
                pass: Pass {
                    seat,
                    shares,
                    position,
                },
            },
            Err(Refused { slots }) => MadeLock::NoMemory(take_from_slot(slots)),
        }
    }
}
