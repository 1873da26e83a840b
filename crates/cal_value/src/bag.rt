//! Two tests of lists of rows as their definitions have them. They take no memory and are plain: `same_bag` takes as
//! many steps as the square of the number of rows.
ghost use Rattle.std.specs.Prelude.{◌≡◌, ◌↔◌, IsTrue, ◌==◌, count_by};
ghost use Rattle.std.specs.List.{list_all};
ghost use Rattle.cal_value.specs.Equal.{row_eq};
ghost use Rattle.cal_value.specs.Order.{SameBag, IsInOrder};

use crate::list::List;
use crate::order::{Collation, compare_rows};
use crate::value::Row;

fn count_of(row: &Row, rows: &List<Row>) -> usize
    ensures { result ≡ count_by (row_eq row.now) rows.now }
{
    rows.as_slice()
        .iter()
        .filter(|other| *row == **other)
        .count()
}

fn counts_agree(of: &List<Row>, a: &List<Row>, b: &List<Row>) -> bool
    ensures { result
        ≡ list_all (λ r. count_by (row_eq r) a.now == count_by (row_eq r) b.now) of.now }
{
    of.as_slice()
        .iter()
        .all(|row| count_of(row, a) == count_of(row, b))
}

/// Whether each row occurs equally often in both lists.
pub fn same_bag(a: &List<Row>, b: &List<Row>) -> bool
    ensures { IsTrue result ↔ SameBag a.now b.now }
{
    counts_agree(a, a, b) && counts_agree(b, a, b)
}

/// Whether no row is greater than the next one.
pub fn is_in_order(rows: &List<Row>, keys: &Collation) -> bool
    ensures { IsTrue result ↔ IsInOrder keys.now rows.now }
{
    let rows = rows.as_slice();
    for at in 1..rows.len() {
        if compare_rows(&rows[at], &rows[at - 1], keys).is_lt() {
            return false;
        }
    }
    true
}
