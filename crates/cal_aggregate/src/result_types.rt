//! The types of aggregates.
ghost use Rattle.std.specs.Prelude.{◌≡◌, pos, ◌*ℤ◌, Some};
ghost use Rattle.std.specs.Int.{int_min, int_max};
ghost use Rattle.cal_value.specs.Interval.{cut, cut_ends};
ghost use Rattle.cal_aggregate.specs.ResultType as spec;
ghost use Rattle.cal_aggregate.specs.ResultType.{agg_type, counts, row_bound, sums};

use cal_value::{Agg, Interval, Kind, NUMBER_LIMIT, SqlType, cut_at_limit, cut_product};

// A bound on rows, cut at 10^38.
fn cut_bound(bound: u128) -> i128
    ensures { result ≡ pos (row_bound bound) }
{
    if bound < NUMBER_LIMIT as u128 {
        bound as i128
    } else {
        NUMBER_LIMIT
    }
}

#[tactic(auto, using(cal_value::proofs::IntervalLemmas::cut_rules))]
fn least_sum(lo: i128, rows: i128) -> i128
    ensures { result ≡ cut (int_min lo (lo *ℤ rows)) }
{
    let product = cut_product(lo, rows);
    cut_at_limit(lo).min(product)
}

#[tactic(auto, using(cal_value::proofs::IntervalLemmas::cut_rules))]
fn greatest_sum(hi: i128, rows: i128) -> i128
    ensures { result ≡ cut (int_max hi (hi *ℤ rows)) }
{
    let product = cut_product(hi, rows);
    cut_at_limit(hi).max(product)
}

/// The interval of counts of at most so many rows. A bound past 10^38 - 1 counts as 10^38. Takes no memory.
pub fn count_interval(bound: u128) -> Interval
    ensures { result ≡ counts bound }
{
    Interval::Range {
        lo: 0,
        hi: cut_bound(bound),
    }
}

/// The interval of sums of at most so many numbers of an interval, and of at least one, cut at 10^38. Takes no memory.
pub fn sum_interval(numbers: Interval, bound: u128) -> Interval
    ensures { result ≡ cut_ends (sums bound numbers) }
{
    let rows = cut_bound(bound).max(1);
    match numbers {
        Interval::Never => Interval::Never,
        Interval::Range { lo, hi } => Interval::Range {
            lo: least_sum(lo, rows),
            hi: greatest_sum(hi, rows),
        },
    }
}

/// The interval with 0 added. Takes no memory.
pub fn with_zero(interval: Interval) -> Interval
    ensures { result ≡ spec.with_zero interval }
{
    match interval {
        Interval::Never => Interval::Range { lo: 0, hi: 0 },
        Interval::Range { lo, hi } => Interval::Range {
            lo: lo.min(0),
            hi: hi.max(0),
        },
    }
}

#[tactic(auto, using(crate::proofs::AggregateLemmas::sum_rules))]
fn sum_type(argument: SqlType, bound: u128) -> Option<SqlType>
    ensures { result ≡ agg_type Agg.Sum (Some argument) bound }
{
    if argument.kind.is(Kind::Integer) {
        SqlType::number(true, sum_interval(argument.interval, bound))
    } else {
        None
    }
}

#[tactic(auto, using(crate::proofs::AggregateLemmas::sum_rules))]
fn sum0_type(argument: SqlType, bound: u128) -> Option<SqlType>
    ensures { result ≡ agg_type Agg.Sum0 (Some argument) bound }
{
    if argument.kind.is(Kind::Integer) {
        SqlType::number(false, with_zero(sum_interval(argument.interval, bound)))
    } else {
        None
    }
}

/// The type of the aggregate over at most `bound` values of the argument's type. COUNT alone takes no argument, as
/// COUNT(*). None where the argument is missing or of the wrong kind, or where the interval leaves the range of numbers.
/// Takes no memory.
pub fn result_type(agg: Agg, argument: Option<SqlType>, bound: u128) -> Option<SqlType>
    ensures { result ≡ agg_type agg argument bound }
{
    match (agg, argument) {
        (Agg::Count, _) => SqlType::number(false, count_interval(bound)),
        (Agg::Sum, Some(t)) => sum_type(t, bound),
        (Agg::Sum0, Some(t)) => sum0_type(t, bound),
        (Agg::Min | Agg::Max, Some(t)) => Some(SqlType {
            nullable: true,
            ..t
        }),
        (_, None) => None,
    }
}
