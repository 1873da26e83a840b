//! Numbers of columns.
ghost use Rattle.std.specs.Prelude.{◌≡◌, ◌++◌, ◌+◌, ◌-◌, IfOk, OnOk, map};
ghost use Rattle.std.specs.List.{range_with_len};
ghost use Rattle.join_images.specs.JoinCommute as spec;

use cal_expr::Expr;
use cal_value::{List, NoMemory};
use std::alloc::Global;

/// The same number, as columns are numbered. Want of memory comes also where it is too great for that.
pub(crate) fn column_number(width: usize) -> Result<u32, NoMemory>
    ensures { IfOk result (λ n. n ≡ width) }
{
    match u32::try_from(width) {
        Ok(n) => Ok(n),
        Err(_) => Err(NoMemory),
    }
}

fn push_columns(columns: &mut List<u32>, from: u32, end: u32) -> Result<(), NoMemory>
    ensures { OnOk result (columns.new ≡ columns.old ++ range_with_len from (end - from)) }
{
    for at in from..end {
        columns.push(at)?;
    }
    Ok(())
}

fn columns_from(alloc: Global, left: u32, right: u32, end: u32) -> Result<List<u32>, NoMemory>
    requires { end ≡ right + left }
    ensures { IfOk result (λ columns. columns ≡ spec.exchanged_columns left right) }
{
    let mut columns = List::new(alloc);
    push_columns(&mut columns, right, end)?;
    push_columns(&mut columns, 0, right)?;
    Ok(columns)
}

/// Where the columns of left rows and then those of right rows, so many of each, stand once right rows come first.
pub(crate) fn exchanged_columns(
    alloc: Global,
    left: usize,
    right: usize,
) -> Result<List<u32>, NoMemory>
    ensures { IfOk result (λ columns. columns ≡ spec.exchanged_columns left right) }
{
    let left = column_number(left)?;
    let right = column_number(right)?;
    match right.checked_add(left) {
        Some(end) => columns_from(alloc, left, right, end),
        None => Err(NoMemory),
    }
}

/// Each column as an item.
pub(crate) fn items_of(alloc: Global, columns: &List<u32>) -> Result<List<Expr>, NoMemory>
    ensures { IfOk result (λ items. items ≡ map (λ at. Expr.Column at) columns.now) }
{
    let mut items = List::new(alloc);
    for at in columns.as_slice() {
        items.push(Expr::Column(*at))?;
    }
    Ok(items)
}
