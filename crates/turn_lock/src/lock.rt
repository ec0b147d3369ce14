//! The lock: three words and one slot of a table.
use crate::grown::Grown;
use crate::lock_rule::Turns;
use crate::opening::Opening;
use crate::view::PassState;
use atomic_table::Table;
use std::alloc::Global;
use std::marker::Model;

// The indexes of the words: the next ticket to draw, the ticket served, and the position at which the events end.
pub(crate) const NEXT: usize = 0;

pub(crate) const SERVING: usize = 1;

pub(crate) const END: usize = 2;

// The slot of the value.
pub(crate) const VALUE: usize = 0;

/// A lock around one value, which serves its passes in the order of their tickets.
#[derive(Drop)]
pub struct TurnLock<V: Grown> {
    pub(crate) table: Table<Option<V>, PassState<V::Base, V::Entry>, Opening<V>, Turns, Global>,
}

impl<V: Grown> Model for TurnLock<V> {
    ghost use Rattle.std.specs.Prelude.{◌≡◌};
    ghost use Rattle.turn_lock.specs.Pass.{Guarded};

    ghost Value = { Guarded V };

    ghost view = { λ l. record {
      lock = l.table.shared.table_id;
      opened = l.table.shared.key.value.value;
      shares = l.table.shared.key.shares;
    } };

    ghost invariant = { λ l. (l.table.shared.table_id.words ≡ 3) × (l.table.shared.table_id.slots ≡ 1) };
}
