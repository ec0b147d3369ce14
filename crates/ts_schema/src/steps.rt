//! A count of steps.
ghost use Rattle.std.specs.Prelude.{◌≡◌, ◌+◌, ◌-◌, ◌^◌};
ghost use Rattle.ts_schema.specs.Counts.{one_more};

use std::marker::Model;

/// A count of steps. Creating one takes a value of `L`. So code that is generic in `L` can't create one and
/// must count on the one that it is lent. Contracts see it as the number.
#[derive(Drop)]
pub struct Steps<L> {
    name: L,
    count: u64,
}

impl<L> Model for Steps<L> {
    ghost use Rattle.std.specs.Prelude.{ℕ};

    ghost Value = { ℕ };

    ghost view = { λ s. s.count };
}

impl<L> Steps<L> {
    /// A count of 0.
    pub fn new(name: L) -> Steps<L>
        ensures zero { result ≡ 0 }
    {
        Steps { name, count: 0 }
    }

    /// The count. Reading it tells the prover that it has 64 bits. So calls that pass steps on begin with `let
    /// _so_far = ..` and ignore the value.
    pub fn count(&self) -> u64
        ensures count { result ≡ self.now }
    {
        self.count
    }

    /// Raises the count by one, or leaves it at its type's last value.
    pub fn tick(&mut self)
        ensures raised { self.new ≡ one_more self.old }
    {
        self.count = self.count.saturating_add(1);
    }
}
