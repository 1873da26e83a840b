//! How many rows joins and groups have at most.
ghost use Rattle.std.specs.Prelude.{◌≡◌, ◌*◌};
ghost use Rattle.cal_aggregate.specs.ResultType.{row_bound};
ghost use Rattle.cal_rel.specs.Typing as spec;

use cal_schema::JoinKind;
use cal_value::{List, NUMBER_LIMIT};

// The product, cut at 10^38.
fn product_bound(left: u128, right: u128) -> u128
    ensures { result ≡ row_bound (left * right) }
{
    match left.checked_mul(right) {
        Some(rows) => rows.min(NUMBER_LIMIT as u128),
        None => NUMBER_LIMIT as u128,
    }
}

fn inner_bound(by_left: bool, by_right: bool, left: u128, right: u128) -> u128
    ensures { result ≡ spec.inner_bound by_left by_right left right }
{
    match (by_left, by_right) {
        (true, true) => left.min(right),
        (true, false) => right,
        (false, true) => left,
        (false, false) => product_bound(left, right),
    }
}

fn left_bound(by_right: bool, left: u128, right: u128) -> u128
    ensures { result ≡ spec.left_bound by_right left right }
{
    if by_right {
        left
    } else {
        product_bound(left, right.max(1))
    }
}

/// How many rows a join has at most, over sides of at most so many rows; `by_left` and `by_right` tell which sides have
/// a key whose columns are equated with the other side's.
pub fn join_bound(kind: JoinKind, by_left: bool, by_right: bool, left: u128, right: u128) -> u128
    ensures { result ≡ spec.join_bound kind (record { left = by_left; right = by_right }) left right }
{
    match kind {
        JoinKind::Inner => inner_bound(by_left, by_right, left, right),
        JoinKind::Left => left_bound(by_right, left, right),
    }
}

/// How many groups rows have at most.
pub fn group_bound(groups: &List<u32>, rows: u128) -> u128
    ensures { result ≡ spec.group_bound groups.now rows }
{
    match groups.as_slice() {
        [] => 1,
        [_, ..] => rows,
    }
}
