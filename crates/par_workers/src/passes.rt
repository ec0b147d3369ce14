//! Gives passes to workers, and collects them.
ghost use Rattle.std.specs.Prelude.{◌≡◌, ◌+◌, ◌-◌, ◌<◌, ◌++◌, All, IsSome, Some, length, flat_map, sum_by};
ghost use mathlib.Core.List.{IsPrefix};
ghost use Rattle.turn_lock.specs.Pass.{shares_of, seen_of, made_of, with_shares, StaysIn};
ghost use Rattle.shared_store.specs.Stores.{IsPassOf};
ghost use Rattle.par_workers.specs.Slots.{BeginsAt, HasPass, IsKnownTo, made_in, shares_in, workers_of};

use crate::slots::Slot;
use shared_store::{Pass, SharedStore};
use ts_model::Backend;

// Gives each slot a pass with one share.
pub(crate) fn share_passes<W, B: Backend>(
    store: &SharedStore<B>,
    all: &mut Pass<B>,
    slots: &mut [Slot<W, B>],
)
    requires pass { IsPassOf store.now all.old }
    requires room { length slots.old < shares_of all.old }
    ensures pass { IsPassOf store.now all.new }
    ensures same { all.new ≡ with_shares (shares_of all.old - length slots.old) all.old }
    ensures workers { workers_of slots.new ≡ workers_of slots.old }
    ensures begins { All (BeginsAt store.now all.old) slots.new }
{
    if let Some((slot, rest)) = slots.split_first_mut() {
        slot.1 = Some(store.split(all, 1));
        share_passes(store, all, rest);
    }
}

// Takes the pass of a slot.
pub(crate) fn take_pass<W, B: Backend>(slot: &mut Slot<W, B>) -> Pass<B>
    requires { IsSome slot.old.1 }
    ensures had { slot.old.1 ≡ Some result }
    ensures worker { slot.new.0 ≡ slot.old.0 }
{
    slot.1.take().unwrap()
}

// Joins the passes of all slots to one.
#[tactic(auto, using(crate::proofs::SlotLaws::passes_rest, crate::proofs::SlotLaws::there_is_pass))]
pub(crate) fn collect<W, B: Backend>(
    store: &SharedStore<B>,
    all: Pass<B>,
    slots: &mut [Slot<W, B>],
) -> Pass<B>
    requires pass { IsPassOf store.now all }
    requires passes { All (HasPass store.now) slots.old }
    ensures pass { IsPassOf store.now result }
    ensures shares { shares_of result ≡ shares_of all + sum_by shares_in slots.old }
    ensures workers { workers_of slots.new ≡ workers_of slots.old }
    ensures begins { IsPrefix (seen_of all) (seen_of result) }
    ensures stays { StaysIn result all }
    ensures known { All (IsKnownTo result) slots.old }
    ensures made { made_of result ≡ made_of all ++ flat_map made_in slots.old }
{
    match slots.split_first_mut() {
        None => all,
        Some((slot, rest)) => {
            let pass = take_pass(slot);
            let all = store.join(all, pass);
            collect(store, all, rest)
        }
    }
}
