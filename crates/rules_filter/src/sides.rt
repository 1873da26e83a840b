//! The conjuncts of a filter over a join or an aggregate, by the columns that they read.
ghost use Rattle.std.specs.Prelude.{◌≡◌, IfOk, filter, map};
ghost use Rattle.expr_parts.specs.Columns as parts;
ghost use Rattle.filter_images.specs.FilterIntoJoin.{is_right};
ghost use Rattle.rules_filter.specs.Sides.{is_on};

use cal_expr::Expr;
use cal_value::{List, NoMemory};
use expr_parts::{over_columns, reads_below, reads_from, shifted_down};
use std::alloc::Global;

/// Where a conjunct belongs: it reads columns of the left side alone, or none; of the right side alone; of both; or not of the
/// left side alone.
#[derive(Clone, Copy, Debug)]
pub(crate) enum Side {
    Left,
    Right,
    Both,
    NotLeft,
}

fn is_right(conjunct: &Expr, width: usize) -> bool
    ensures { result ≡ is_right width conjunct.now }
{
    !reads_below(conjunct, width) && reads_from(conjunct, width)
}

fn is_on(conjunct: &Expr, width: usize, side: Side) -> bool
    ensures { result ≡ is_on width side conjunct.now }
{
    match side {
        Side::Left => reads_below(conjunct, width),
        Side::Right => is_right(conjunct, width),
        Side::Both => !reads_below(conjunct, width) && !is_right(conjunct, width),
        Side::NotLeft => !reads_below(conjunct, width),
    }
}

/// Those that belong there, in their order. Left rows have so many columns.
pub(crate) fn those_on(
    alloc: Global,
    conjuncts: &List<Expr>,
    width: usize,
    side: Side,
) -> Result<List<Expr>, NoMemory>
    ensures { IfOk result (λ those. those ≡ filter (is_on width side) conjuncts.now) }
{
    let mut those = List::new(alloc);
    for conjunct in conjuncts.as_slice() {
        if is_on(conjunct, width, side) {
            those.push(conjunct.copy(alloc)?)?;
        }
    }
    Ok(those)
}

fn column_number(width: usize) -> Result<u32, NoMemory>
    ensures { IfOk result (λ n. n ≡ width) }
{
    match u32::try_from(width) {
        Ok(n) => Ok(n),
        Err(_) => Err(NoMemory),
    }
}

fn all_shifted(alloc: Global, conjuncts: &List<Expr>, by: u32) -> Result<List<Expr>, NoMemory>
    ensures { IfOk result (λ moved. moved ≡ map (parts.shifted_down by) conjuncts.now) }
{
    let mut moved = List::new(alloc);
    for conjunct in conjuncts.as_slice() {
        moved.push(shifted_down(alloc, conjunct, by)?)?;
    }
    Ok(moved)
}

/// Each over the right side's own columns, where left rows have so many. Want of memory comes also where no column has that
/// number.
pub(crate) fn over_the_right(
    alloc: Global,
    conjuncts: &List<Expr>,
    width: usize,
) -> Result<List<Expr>, NoMemory>
    ensures { IfOk result (λ moved. moved ≡ map (parts.shifted_down width) conjuncts.now) }
{
    let by = column_number(width)?;
    all_shifted(alloc, conjuncts, by)
}

/// Each over the columns below an aggregate with these groups.
pub(crate) fn over_the_groups(
    alloc: Global,
    conjuncts: &List<Expr>,
    groups: &List<u32>,
) -> Result<List<Expr>, NoMemory>
    ensures { IfOk result (λ moved. moved ≡ map (parts.over_columns groups.now) conjuncts.now) }
{
    let mut moved = List::new(alloc);
    for conjunct in conjuncts.as_slice() {
        moved.push(over_columns(alloc, conjunct, groups)?)?;
    }
    Ok(moved)
}
