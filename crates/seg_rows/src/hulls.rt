//! Hulls of the times of rows.
ghost use Rattle.std.specs.Prelude.{◌≡◌};
ghost use Rattle.seg_rows.specs.Hulls.{hull_at, hull_of, joined_hull, most_of};

use ts_bucket::Hull;
use ts_schema::Row;

/// The least hull that holds both.
pub fn join_hulls(a: Option<Hull>, b: Option<Hull>) -> Option<Hull>
    ensures joined { result ≡ joined_hull a b }
{
    match (a, b) {
        (None, other) => other,
        (Some(g), None) => Some(g),
        (Some(g), Some(h)) => Some(Hull {
            least: g.least.min(h.least),
            most: g.most.max(h.most),
        }),
    }
}

/// The greatest number of a hull.
pub fn greatest_time(hull: Option<Hull>) -> Option<i64>
    ensures most { result ≡ most_of hull }
{
    match hull {
        None => None,
        Some(hull) => Some(hull.most),
    }
}

/// The hull of the time of a row.
pub fn point(row: &Row) -> Option<Hull>
    ensures point { result ≡ hull_at row.now.at }
{
    Some(Hull {
        least: row.at,
        most: row.at,
    })
}

/// The hull of the times of these rows.
#[tactic(auto, using(crate::proofs::HullLaws::hull_push, std::proofs::lemmas::Grind::common_steps))]
pub fn row_hull(rows: &[Row]) -> Option<Hull>
    ensures hull { result ≡ hull_of rows.now }
{
    let mut hull = None;
    for row in rows {
        hull = join_hulls(hull, point(row));
    }
    hull
}
