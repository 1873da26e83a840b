//! The rows of tables, shared for the time of a statement.
ghost use Rattle.std.specs.Prelude.{◌≡◌, IfOk, map};
ghost use Rattle.std.specs.Arc.{arc_value};

use cal_value::{Duplicate, List, NoMemory, Row};
use std::alloc::Global;
use std::sync::Arc;

/// The rows of each table behind a shared pointer.
pub(crate) fn shared(
    alloc: Global,
    tables: List<List<Row>>,
) -> Result<List<Arc<List<Row>>>, NoMemory>
    ensures { IfOk result (λ parts. map arc_value parts ≡ tables) }
{
    let mut parts = List::new(alloc);
    for rows in tables.into_vec() {
        parts.push(Arc::new(alloc, rows)?)?;
    }
    Ok(parts)
}

/// The same rows once more, without a copy of them.
pub(crate) fn shared_again(
    alloc: Global,
    parts: &[Arc<List<Row>>],
) -> Result<List<Arc<List<Row>>>, NoMemory>
    ensures { IfOk result (λ again. map arc_value again ≡ map arc_value parts.now) }
{
    let mut again = List::new(alloc);
    for rows in parts {
        again.push(Arc::try_clone(rows)?)?;
    }
    Ok(again)
}

// The rows, copied only where they are shared with somebody else.
fn unshared(alloc: Global, rows: Arc<List<Row>>) -> Result<List<Row>, NoMemory>
    ensures { IfOk result (λ list. list ≡ arc_value rows) }
{
    match Arc::try_unwrap(rows) {
        Ok(list) => Ok(list),
        Err(rows) => (*rows).copy(alloc),
    }
}

/// The rows of each table again.
pub(crate) fn all_unshared(
    alloc: Global,
    parts: List<Arc<List<Row>>>,
) -> Result<List<List<Row>>, NoMemory>
    ensures { IfOk result (λ tables. tables ≡ map arc_value parts) }
{
    let mut tables = List::new(alloc);
    for rows in parts.into_vec() {
        tables.push(unshared(alloc, rows)?)?;
    }
    Ok(tables)
}
