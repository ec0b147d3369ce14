//! Changes of the values within a span.

ghost use Rattle.std.specs.Prelude.{◌≡◌};
ghost use Rattle.span_map.specs.Changes.{value_after};

/// A change of a value.
#[derive(Clone, Copy, Debug)]
pub(crate) enum Change {
    /// It becomes this position.
    Set(u64),
    /// It is removed if it is at most this position.
    ClearUpto(u64),
    /// It becomes this position if it was below or missing.
    Raise(u64),
}

/// A value after the change.
pub(crate) fn apply(change: Change, value: Option<u64>) -> Option<u64>
    ensures { result ≡ value_after change value }
{
    match change {
        Change::Set(pos) => Some(pos),
        Change::ClearUpto(pos) => value.filter(|old| pos < *old),
        Change::Raise(pos) => match value {
            Some(old) => Some(old.max(pos)),
            None => Some(pos),
        },
    }
}
