//! Rows in order.
ghost use Rattle.std.specs.Prelude.{IfOk};
ghost use Rattle.std.specs.List.Sorted.{IsPermutation, IsStable};
ghost use Rattle.cal_value.specs.Order.{IsInOrder, row_cmp};

use cal_value::{Collation, List, NoMemory, Row, compare_rows};
use std::alloc::Global;

/// The rows in the order of the keys. Rows that tie stay in their order.
pub fn sort_rows(_alloc: Global, rows: List<Row>, keys: &Collation) -> Result<List<Row>, NoMemory>
    ensures same { IfOk result (λ sorted. IsPermutation rows sorted) }
    ensures in_order { IfOk result (λ sorted. IsInOrder keys.now sorted) }
    ensures stable { IfOk result (λ sorted. IsStable (row_cmp keys.now) rows sorted) }
{
    let mut rows = rows.into_vec();
    rows.sort_by(|a, b| compare_rows(a, b, keys))?;
    Ok(List::from_vec(rows))
}
