//! The partial aggregate of a column, and what a function shows of it.
ghost use Rattle.std.specs.Prelude.{◌≡◌, ◌+◌, ◌-◌, ◌^◌, ◌<◌, List, [], ◌∷◌, Option, None, Some, ℤ, is_some, nat_lt};
ghost use Rattle.ts_num.specs.Aggregates.{aggregate, greater, lesser, shown_or_null};
ghost use Rattle.partial_agg.specs.Ends.{end_of, EndsIn, IsEnd};
ghost use Rattle.partial_agg.specs.Summaries.{IsBounded, summary_of_both, mean_shown, datum_of, sum_shown, summary, TakesIn, TakesInAll, value_of};

use std::marker::Model;
use ts_num::{Datum, Fun, lowest};

/// What a column of values, one for each row of a group, sums up to. Contracts see it as a `Summary`; it is the
/// partial aggregate of a column if that is the column's `summary`.
#[derive(Clone, Copy, Debug, PartialEq, Eq)]
pub struct Partial {
    /// The number of rows.
    pub count: u64,
    /// The number of values that aren't NULL.
    pub values: u64,
    /// The sum of the values.
    pub sum: i128,
    /// The least value. It counts only if there are values, and is 0 if there are none.
    least: i64,
    /// The greatest value, in the same way.
    most: i64,
}

impl Model for Partial {
    ghost use Rattle.partial_agg.specs.Summaries.{Summary};

    ghost Value = { Summary };

    ghost use Rattle.partial_agg.specs.Ends.{end_of, kept_end, IsKept};

    ghost view = { λ p. record {
      count = p.count;
      values = p.values;
      sum = p.sum;
      least = end_of p.values p.least;
      most = end_of p.values p.most;
    } };

    ghost invariant = { λ p. IsKept p.count p.values p.sum p.least p.most };

    ghost inverse = { λ s. record {
      count = s.count;
      values = s.values;
      sum = s.sum;
      least = kept_end s.least;
      most = kept_end s.most;
    } };

    ghost inverse_ok = { λ p h i. record {
      count = p.count;
      values = p.values;
      sum = p.sum;
      least = h.least_is i;
      most = h.most_is i;
    } };
}

impl Partial {
    /// The partial aggregate of no rows.
    pub fn none() -> Partial
        ensures none { result ≡ summary [] }
    {
        Partial {
            count: 0,
            values: 0,
            sum: 0,
            least: 0,
            most: 0,
        }
    }

    /// The partial aggregate of one row, with this value.
    #[inline]
    pub fn one(v: Option<i64>) -> Partial
        ensures { result ≡ summary (v ∷ []) }
    {
        match v {
            None => Partial {
                count: 1,
                values: 0,
                sum: 0,
                least: 0,
                most: 0,
            },
            Some(v) => Partial {
                count: 1,
                values: 1,
                sum: i128::from(v),
                least: v,
                most: v,
            },
        }
    }

    /// The partial aggregate with these numbers of rows and of values, this sum, and this least and greatest
    /// value. The last two must be given if and only if there are values. There must be fewer than `2^62` rows
    /// and at most as many values as rows. The sum must be one that `values` 64-bit values can have.
    pub fn of(count: u64, values: u64, sum: i128, least: Option<i64>, most: Option<i64>) -> Partial
        requires bounded { IsBounded count values sum }
        requires least { is_some least ≡ nat_lt 0 values }
        requires most { is_some most ≡ nat_lt 0 values }
        ensures { result ≡ record { count = count; values = values; sum = sum; least = least; most = most } }
    {
        Partial {
            count,
            values,
            sum,
            least: least.unwrap_or(0),
            most: most.unwrap_or(0),
        }
    }

    /// The least value, `None` if there are none.
    #[inline]
    pub fn least(&self) -> Option<i64>
        ensures { result ≡ self.now.least }
    {
        end(self.values, self.least)
    }

    /// The greatest value, `None` if there are none.
    #[inline]
    pub fn most(&self) -> Option<i64>
        ensures { result ≡ self.now.most }
    {
        end(self.values, self.most)
    }

    /// Adds one more row, with this value. There must be fewer than `2^62 - 1` rows before.
    #[inline(always)]
    pub fn add(&mut self, v: Option<i64>)
        requires { self.old.count < 2 ^ 62 - 1 }
        ensures added { self.new ≡ summary_of_both self.old (summary (v ∷ [])) }
        ensures of_column { TakesIn v self.old self.new }
    {
        match v {
            None => self.add_null(),
            Some(v) => self.add_value(v),
        }
    }

    /// Adds one more row, with NULL.
    #[inline(always)]
    fn add_null(&mut self)
        requires { self.old.count < 2 ^ 62 - 1 }
        ensures { self.new ≡ summary_of_both self.old (summary (None ∷ [])) }
    {
        self.count += 1;
    }

    /// Adds one more row, with this value.
    #[inline(always)]
    fn add_value(&mut self, v: i64)
        requires { self.old.count < 2 ^ 62 - 1 }
        ensures { self.new ≡ summary_of_both self.old (summary (Some v ∷ [])) }
    {
        let (least, most) = ends_with(self.values, self.least, self.most, v);
        self.count += 1;
        self.values += 1;
        self.sum += i128::from(v);
        self.least = least;
        self.most = most;
    }

    /// Adds the rows of another partial aggregate. Together there must be fewer than `2^62`.
    #[inline]
    pub fn merge(&mut self, other: &Partial)
        requires { self.old.count + other.now.count < 2 ^ 62 }
        ensures merged { self.new ≡ summary_of_both self.old other.now }
        ensures of_columns { TakesInAll other.now self.old self.new }
    {
        let least = least_joined(self.values, self.least, other.values, other.least);
        let most = most_joined(self.values, self.most, other.values, other.most);
        self.count += other.count;
        self.values += other.values;
        self.sum += other.sum;
        self.least = least;
        self.most = most;
    }

    /// The value of an aggregate function for the rows.
    #[inline]
    pub fn finish(&self, fun: Fun) -> Datum
        ensures shown { result ≡ datum_of fun self.now }
        ensures of_column { (column : List (Option ℤ)) → self.now ≡ summary column → result ≡ aggregate fun column }
    {
        match fun {
            Fun::CountAll => Datum::Int(i128::from(self.count)),
            Fun::Count => Datum::Int(i128::from(self.values)),
            Fun::Sum => sum(self.values, self.sum),
            Fun::Min => value(self.least()),
            Fun::Max => value(self.most()),
            Fun::Avg => mean(self.values, self.sum),
        }
    }

    /// The whole number that an aggregate function returns for the rows, or none for NULL and for a mean.
    #[inline(always)]
    pub fn number(&self, fun: Fun) -> Option<i128>
        ensures number { result ≡ value_of (datum_of fun self.now) }
    {
        match fun {
            Fun::CountAll => Some(i128::from(self.count)),
            Fun::Count => Some(i128::from(self.values)),
            Fun::Sum => sum_number(self.values, self.sum),
            Fun::Min => number(self.least()),
            Fun::Max => number(self.most()),
            Fun::Avg => mean_number(self.values, self.sum),
        }
    }
}

/// The end stored along with `values` values.
#[inline(always)]
fn end(values: u64, v: i64) -> Option<i64>
    ensures { result ≡ end_of values v }
{
    match values {
        0 => None,
        _ => Some(v),
    }
}

/// The least and the greatest of `values` values and of one more.
#[inline(always)]
fn ends_with(values: u64, least: i64, most: i64, v: i64) -> (i64, i64)
    ensures least { Some result.0 ≡ lesser (end_of values least) (Some v) }
    ensures most { Some result.1 ≡ greater (end_of values most) (Some v) }
{
    match values {
        0 => (v, v),
        _ => (least.min(v), most.max(v)),
    }
}

/// The least value of two columns, given the number of values of each, as it is stored.
fn least_joined(values: u64, least: i64, more: u64, other: i64) -> i64
    requires own { IsEnd values least }
    requires other { IsEnd more other }
    ensures { EndsIn (values + more) (lesser (end_of values least) (end_of more other)) result }
{
    match (values, more) {
        (0, _) => other,
        (_, 0) => least,
        (_, _) => least.min(other),
    }
}

/// The greatest value of two columns, given the number of values of each, as it is stored.
fn most_joined(values: u64, most: i64, more: u64, other: i64) -> i64
    requires own { IsEnd values most }
    requires other { IsEnd more other }
    ensures { EndsIn (values + more) (greater (end_of values most) (end_of more other)) result }
{
    match (values, more) {
        (0, _) => other,
        (_, 0) => most,
        (_, _) => most.max(other),
    }
}

/// A number, or NULL if it is missing.
fn value(v: Option<i64>) -> Datum
    ensures { result ≡ shown_or_null v }
{
    match v {
        None => Datum::Null,
        Some(v) => Datum::Int(i128::from(v)),
    }
}

/// The sum of `values` values.
fn sum(values: u64, sum: i128) -> Datum
    ensures { result ≡ sum_shown values sum }
{
    match values {
        0 => Datum::Null,
        _ => Datum::Int(sum),
    }
}

/// The mean of `values` values.
fn mean(values: u64, sum: i128) -> Datum
    ensures { result ≡ mean_shown values sum }
{
    match values {
        0 => Datum::Null,
        _ => Datum::Ratio(lowest(sum, values)),
    }
}

/// A number, if it isn't missing.
#[inline]
fn number(v: Option<i64>) -> Option<i128>
    ensures { result ≡ value_of (shown_or_null v) }
{
    match v {
        None => None,
        Some(v) => Some(i128::from(v)),
    }
}

/// The sum of `values` values as a number.
#[inline(always)]
fn sum_number(values: u64, sum: i128) -> Option<i128>
    ensures { result ≡ value_of (sum_shown values sum) }
{
    match values {
        0 => None,
        _ => Some(sum),
    }
}

/// The mean of `values` values as a whole number: none, since it is shown as a ratio.
#[inline(always)]
fn mean_number(values: u64, sum: i128) -> Option<i128>
    ensures { result ≡ value_of (mean_shown values sum) }
{
    match values {
        0 => None,
        _ => None,
    }
}
