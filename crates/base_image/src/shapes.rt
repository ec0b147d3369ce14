//! The numbers of keys and parts of an aggregate's groups.
ghost use Rattle.std.specs.Prelude.{◌≡◌, length};

use ts_model::ViewDef;

/// The numbers of keys and parts of an aggregate's groups. Their bytes don't contain these numbers.
#[derive(Clone, Copy, Debug, PartialEq, Eq)]
pub struct Shape {
    /// The keys.
    pub keys: usize,
    /// The parts.
    pub parts: usize,
}

impl Shape {
    /// The shape for parts without groups.
    pub fn none() -> Shape
        ensures { result ≡ record { keys = 0; parts = 0 } }
    {
        Shape { keys: 0, parts: 0 }
    }

    /// The shape of the groups of an aggregate.
    pub fn of(def: &ViewDef) -> Shape
        ensures { result ≡ record { keys = length def.now.fold.keys; parts = length def.now.fold.aggs } }
    {
        Shape {
            keys: def.fold.keys.len(),
            parts: def.fold.aggs.len(),
        }
    }
}
