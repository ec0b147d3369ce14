//! The law of the lock, which is true at every moment.
ghost use Rattle.turn_lock.specs.declared.opening.Opening.{Opening};
ghost use Rattle.turn_lock.specs.declared.view.PassState.{PassState};
ghost use Rattle.atomic_table.specs.Table.{State};
ghost use Rattle.std.specs.Prelude.{Option};
ghost use Rattle.turn_lock.specs.Rule.{Kept};
ghost use Rattle.turn_lock.specs.Moments.{IsMoment};

use crate::grown::Grown;

/// States what the rule of the lock, which each step keeps, says about every moment. It does nothing: its clause is the
/// law.
pub fn every_moment<V: Grown>()
    ensures { (key : Opening V) (s : State (Option V) (PassState V.Base V.Entry)) →
        Kept V.base V.first V.events V.closed key s → IsMoment V.base V.first V.events V.closed key s }
{}
