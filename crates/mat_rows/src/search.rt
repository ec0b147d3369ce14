//! The place at which the groups from a number on begin.

ghost use Rattle.std.specs.Prelude.{◌≤◌, length};
ghost use Rattle.mat_rows.specs.Replacing.{PartsAt};
ghost use Rattle.partial_agg.specs.Groups.{AreInOrder};

use block_list::BlockList;
use partial_agg::Group;
use ts_bucket::Span;

/// The number of groups of a list in order that start below a number.
pub(crate) fn place_from(groups: &BlockList<Group>, x: i64) -> usize
    requires { AreInOrder groups.now.items }
    ensures bound { result ≤ length groups.now.items }
    ensures parts { PartsAt x groups.now.items result }
{
    let mut low = 0;
    let mut high = groups.len();
    while low < high {
        let middle = low + (high - low) / 2;
        if groups.get(middle).start < x {
            low = middle + 1;
        } else {
            high = middle;
        }
    }
    low
}

/// The places at which the groups that start in a span begin and end, in a list in order.
pub(crate) fn places(groups: &BlockList<Group>, span: Span) -> (usize, usize)
    requires { AreInOrder groups.now.items }
    ensures start { result.0 ≤ length groups.now.items }
    ensures end { result.1 ≤ length groups.now.items }
    ensures start_parts { PartsAt span.lo groups.now.items result.0 }
    ensures end_parts { PartsAt span.hi groups.now.items result.1 }
    ensures order { result.0 ≤ result.1 }
{
    let start = place_from(groups, span.lo);
    let end = place_from(groups, span.hi);
    (start, end)
}
