//! The rule of the lock, and what its steps report. These types are only for the proofs.
use crate::grown::Grown;
use crate::opening::Opening;
use crate::view::PassState;
use atomic_table::{Join, Play, Split, TableRule};
use std::marker::{Brand, PhantomData};

/// The rule of the lock, which each step keeps.
pub struct Turns;

impl<V: Grown> TableRule<Option<V>, PassState<V::Base, V::Entry>, Opening<V>> for Turns {
    ghost use Rattle.turn_lock.specs.Rule.{Kept};
    ghost use Rattle.turn_lock.specs.Steps.{fresh};

    ghost holds = { Kept V.base V.first V.events V.closed };

    ghost first = { λ key.
        fresh key.shares (V.base key.value.value) (V.events key.value.value) (V.closed key.value.value) };
}

/// Takes the next ticket.
pub struct Draw;

impl<S, B, E> Play<S, PassState<B, E>> for Draw {
    ghost use Rattle.turn_lock.specs.Steps.{Draws};

    ghost then = { Draws };
}

/// Reads which ticket is served, and takes the value if it is the pass's own.
pub struct Look;

impl<V: Grown> Play<Option<V>, PassState<V::Base, V::Entry>> for Look {
    ghost use Rattle.turn_lock.specs.Steps.{Looks};

    ghost then = { Looks V.base V.events V.closed };
}

/// Stores the position at which the events end.
pub struct Post;

impl<V: Grown> Play<Option<V>, PassState<V::Base, V::Entry>> for Post {
    ghost use Rattle.turn_lock.specs.Steps.{Posts};

    ghost then = { Posts V.base V.first V.events V.closed };
}

/// Serves the next ticket, and returns the value.
pub struct Advance;

impl<S, B, E> Play<S, PassState<B, E>> for Advance {
    ghost use Rattle.turn_lock.specs.Steps.{Advances};

    ghost then = { Advances };
}

/// Checks the two passes that were joined.
pub struct Count;

impl<S, B, E> Play<S, PassState<B, E>> for Count {
    ghost use Rattle.turn_lock.specs.Steps.{Counts};

    ghost then = { Counts };
}

/// How many shares a split gives away. Each call picks it.
pub trait Cutting {
    ghost use Rattle.std.specs.Prelude.{ℕ};

    ghost count: { ℕ };
}

impl Cutting for Brand {
    ghost count = { 0 };
}

/// A split that gives away as many shares as `C` says.
pub struct Cut<C> {
    cutting: PhantomData<C>,
}

impl<B, E, C: Cutting> Split<PassState<B, E>> for Cut<C> {
    ghost use Rattle.turn_lock.specs.Steps.{left_with, given};

    ghost left = { left_with C.count };

    ghost right = { given C.count };
}

/// A join of two passes into one.
pub struct Pair;

impl<B, E> Join<PassState<B, E>> for Pair {
    ghost use Rattle.turn_lock.specs.Steps.{joined, spent};

    ghost both = { joined };

    ghost spent = { spent };
}
