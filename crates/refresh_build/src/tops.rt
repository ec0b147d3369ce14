//! The ends of groups.
ghost use Rattle.std.specs.Prelude.{◌≡◌};
ghost use Rattle.std.specs.List.{AllByRecursion};
ghost use Rattle.group_fold.specs.Laws.{end_of_last};
ghost use Rattle.group_fold.specs.Grouping.{IsOfTime};

use partial_agg::Group;
use ts_bucket::Width;

/// The end of the bucket of the last of these groups.
pub(crate) fn end_of(width: Width, groups: &[Group]) -> Option<i64>
    requires times { AllByRecursion (IsOfTime width) groups.now }
    ensures end { result ≡ end_of_last width groups.now }
{
    match groups {
        [.., last] => Some(last.start + width.step),
        [] => None,
    }
}
