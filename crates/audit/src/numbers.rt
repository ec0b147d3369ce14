//! Whether numbers of events are the positions after one, up to another, each once.
ghost use Rattle.std.specs.Prelude.{◌≡◌, ◌≤◌, IsPermutation, MatchOption};
ghost use Rattle.std.specs.List.Sorted.{IsNonDecreasing};
ghost use Rattle.turn_lock.specs.Positions.{positions_between};
ghost use Rattle.audit.specs.Answers.{IsLost};
ghost use Rattle.audit.specs.ReplayedReplies.{LieBetween};

use ts_schema::Seq;

/// The lowest position after `start` and up to `end` that isn't among these numbers exactly once. All of the numbers
/// are in that range.
pub(crate) fn first_lost(numbers: Seq<u64>, start: u64, end: u64) -> Option<u64>
    requires order { start ≤ end }
    requires lie { LieBetween start end numbers }
    ensures lost { MatchOption result (IsPermutation numbers (positions_between start end)) (IsLost numbers start end) }
{
    let mut numbers = numbers.into_items();
    numbers.sort_unstable();
    first_gap(numbers.as_slice(), start, end)
}

/// The same for numbers in ascending order.
fn first_gap(numbers: &[u64], start: u64, end: u64) -> Option<u64>
    requires order { start ≤ end }
    requires lie { LieBetween start end numbers.now }
    requires rise { IsNonDecreasing numbers.now }
    ensures lost { MatchOption result (numbers.now ≡ positions_between start end) (IsLost numbers.now start end) }
{
    let mut seen = start;
    for number in numbers {
        if *number <= seen {
            return Some(*number);
        }
        if *number - seen > 1 {
            return Some(seen + 1);
        }
        seen = *number;
    }
    if seen < end { Some(seen + 1) } else { None }
}
