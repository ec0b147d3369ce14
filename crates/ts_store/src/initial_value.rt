//! The value of a disk when a store started on it. Only contracts use it.
ghost use Rattle.std.specs.Prelude.{◌≡◌, ◌<◌, length};

use logbook::{Opening, Rule, Seen, Start};
use std::marker::Model;

/// The rule of a book with one entry that is never written again.
pub struct OneEntry;

impl<T> Rule<T, ()> for OneEntry {
    ghost use Rattle.std.specs.Prelude.{[]};
    ghost use base.Fml.{ftrue};

    ghost holds = { λ cells log. Unit {0} };

    ghost first = { [] };

    ghost hinted = { λ n log. Unit {0} };

    ghost shows = { λ log. [] };

    ghost keeps = { λ names log. ftrue };

    ghost moves = { λ ask before after answer. Unit {0} };
}

impl<T> Opening<T, T> for OneEntry {
    ghost use Rattle.std.specs.Prelude.{[], ◌∷◌};

    ghost log = { λ count value. value ∷ [] };
}

/// An earlier value. It takes no memory, and no code can read it. Contracts see the value.
#[derive(Drop)]
pub struct InitialValue<T> {
    seen: Seen<T, (), OneEntry>,
    ghost some: { 0 < length seen.log },
}

impl<T> Model for InitialValue<T> {
    ghost use Rattle.ts_store.specs.Notes.{first_entry};

    ghost Value = { T };

    ghost view = { λ b. first_entry b.seen.log b.some };
}

impl<T> InitialValue<T> {
    /// Records the present value for contracts.
    pub fn of(value: &T) -> InitialValue<T>
        ensures value { result ≡ value.now }
    {
        let (seen, _pens) = Seen::open_row::<T, OneEntry>(value, Start::alone(), 0);
        InitialValue { seen }
    }
}
