//! Rules by which the values of two maps are combined.

ghost use Rattle.std.specs.Prelude.{◌≡◌};
ghost use Rattle.span_map.specs.Combined.{combined_by};

/// A rule that combines the values of two maps at a number.
#[derive(Clone, Copy, Debug, PartialEq, Eq)]
pub enum Rule {
    /// The value of the second map, and that of the first if the second has none.
    Over,
    /// The later of the two.
    Later,
    /// The value of the second map, if it is above that of the first, or the first has none.
    Above,
    /// The value of the second map, if it is at or above that of the first, or the first has
    /// none.
    NotBelow,
    /// The value of the second map, if the first has one.
    Where,
}

/// The result of a rule for two values.
pub(crate) fn combine_values(rule: Rule, first: Option<u64>, second: Option<u64>) -> Option<u64>
    ensures { result ≡ combined_by rule first second }
{
    match rule {
        Rule::Over => match second {
            Some(pos) => Some(pos),
            None => first,
        },
        Rule::Later => match (first, second) {
            (Some(p), Some(q)) => Some(p.max(q)),
            (Some(p), None) => Some(p),
            (None, value) => value,
        },
        Rule::Above => match first {
            Some(pos) => second.filter(|later| pos < *later),
            None => second,
        },
        Rule::NotBelow => match first {
            Some(pos) => second.filter(|later| pos <= *later),
            None => second,
        },
        Rule::Where => match first {
            Some(_) => second,
            None => None,
        },
    }
}
