//! What filters and projections make of rows.
ghost use Rattle.std.specs.Prelude.{◌≡◌, All, IfOk, map, filter};
ghost use Rattle.cal_expr.specs.WellFormed.{IsWellFormed};
ghost use Rattle.cal_rel.specs.Operators as spec;
ghost use Rattle.cal_rel.specs.Operators.{holds};

use cal_expr::{Expr, eval};
use cal_value::{List, NoMemory, Row};
use std::alloc::Global;

/// Whether the condition is TRUE of the row.
pub(crate) fn holds_of(alloc: Global, condition: &Expr, row: &Row) -> Result<bool, NoMemory>
    requires { IsWellFormed condition.now row.now }
    ensures { IfOk result (λ held. held ≡ holds condition.now row.now) }
{
    let value = eval(alloc, condition, row)?;
    Ok(value.is_true())
}

/// The values of the items over the row.
pub(crate) fn values(alloc: Global, items: &List<Expr>, row: &Row) -> Result<Row, NoMemory>
    requires { All (λ e. IsWellFormed e row.now) items.now }
    ensures { IfOk result (λ values. values ≡ spec.projected items.now row.now) }
{
    let mut values = List::from_vec(Vec::with_capacity(alloc, items.len())?);
    for item in items.as_slice() {
        let value = eval(alloc, item, row)?;
        values.push(value)?;
    }
    Ok(values)
}

/// The rows of which the predicate is TRUE. No row is copied.
pub(crate) fn filtered(
    alloc: Global,
    predicate: &Expr,
    rows: List<Row>,
) -> Result<List<Row>, NoMemory>
    requires { All (λ row. IsWellFormed predicate.now row) rows }
    ensures { IfOk result (λ kept. kept ≡ filter (holds predicate.now) rows) }
{
    let mut kept = List::new(alloc);
    for row in rows.into_vec() {
        if holds_of(alloc, predicate, &row)? {
            kept.push(row)?;
        }
    }
    Ok(kept)
}

/// The items of each row.
pub(crate) fn projected(
    alloc: Global,
    items: &List<Expr>,
    rows: &List<Row>,
) -> Result<List<Row>, NoMemory>
    requires { All (λ row. All (λ e. IsWellFormed e row) items.now) rows.now }
    ensures { IfOk result (λ made. made ≡ map (spec.projected items.now) rows.now) }
{
    let mut made = List::from_vec(Vec::with_capacity(alloc, rows.len())?);
    for row in rows.as_slice() {
        let values = values(alloc, items, row)?;
        made.push(values)?;
    }
    Ok(made)
}
