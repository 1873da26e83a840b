//! Joins on a condition, by the operators that go by pairs of columns and a rest.
ghost use Rattle.std.specs.Prelude.{◌≡◌, IfOk};
ghost use Rattle.cal_schema.specs.declared.join_kind.JoinKind.TheVariants.{Inner};
ghost use Rattle.cal_rel.specs.Bag.{binary_bag};
ghost use Rattle.cal_rel.specs.Tree.{join_on};
ghost use Rattle.row_exec.specs.Ready.{CanJoinOn, CanMergeOn};

use crate::split::split;
use cal_expr::Expr;
use cal_schema::JoinKind;
use cal_value::{List, NoMemory, Row};
use exec_ops::{hash_join, merge_join, nested_join};
use std::alloc::Global;

/// The join by trying each pair of rows. Left and right rows have so many columns.
pub(crate) fn nested(
    alloc: Global,
    kind: JoinKind,
    on: &Expr,
    left: &List<Row>,
    right: &List<Row>,
    widths: (usize, u32),
) -> Result<List<Row>, NoMemory>
    requires { CanJoinOn on.now widths.0 left.now right.now }
    ensures { IfOk result (λ rows.
        rows ≡ binary_bag (join_on kind on.now) widths.1 left.now right.now) }
{
    let on = split(alloc, on, widths.0, widths.1)?;
    nested_join(alloc, kind, left, right, &on)
}

/// The join by a map from the keys of the right rows.
pub(crate) fn hashed(
    alloc: Global,
    kind: JoinKind,
    on: &Expr,
    left: &List<Row>,
    right: &List<Row>,
    widths: (usize, u32),
) -> Result<List<Row>, NoMemory>
    requires { CanJoinOn on.now widths.0 left.now right.now }
    ensures { IfOk result (λ rows.
        rows ≡ binary_bag (join_on kind on.now) widths.1 left.now right.now) }
{
    let on = split(alloc, on, widths.0, widths.1)?;
    hash_join(alloc, kind, left, right, &on)
}

/// The inner join of rows that are sorted on their keys.
pub(crate) fn merged(
    alloc: Global,
    on: &Expr,
    left: &List<Row>,
    right: &List<Row>,
    widths: (usize, u32),
) -> Result<List<Row>, NoMemory>
    requires { CanMergeOn on.now widths.0 left.now right.now }
    ensures { IfOk result (λ rows.
        rows ≡ binary_bag (join_on Inner on.now) widths.1 left.now right.now) }
{
    let on = split(alloc, on, widths.0, widths.1)?;
    merge_join(alloc, left, right, &on)
}
