//! The columns that an expression reads, and other expressions in their places.
ghost use Rattle.std.specs.Prelude.{◌≡◌, [], ◌∷◌, ◌++◌, IfOk, nat_lt, nat_le};
ghost use Rattle.std.specs.List.{list_all};
ghost use Rattle.expr_parts.specs.Columns as spec;

use cal_expr::Expr;
use cal_value::{Duplicate, List, NoMemory};
use std::alloc::Global;

fn one_column(alloc: Global, at: u32) -> Result<List<u32>, NoMemory>
    ensures { IfOk result (λ columns. columns ≡ at ∷ []) }
{
    let mut columns = List::new(alloc);
    columns.push(at)?;
    Ok(columns)
}

fn appended(mut columns: List<u32>, more: &List<u32>) -> Result<List<u32>, NoMemory>
    ensures { IfOk result (λ all. all ≡ columns ++ more.now) }
{
    for at in more.as_slice() {
        columns.push(*at)?;
    }
    Ok(columns)
}

/// The columns that it reads, from left to right, each as often as it is read.
pub fn columns_read(alloc: Global, e: &Expr) -> Result<List<u32>, NoMemory>
    ensures { IfOk result (λ columns. columns ≡ spec.columns_read e.now) }
{
    match e {
        Expr::Column(at) => one_column(alloc, *at),
        Expr::Literal(_) => Ok(List::new(alloc)),
        Expr::Negate(a) => columns_read(alloc, a.get()),
        Expr::Binary { op: _, left, right } => {
            let columns = columns_read(alloc, left.get())?;
            let more = columns_read(alloc, right.get())?;
            appended(columns, &more)
        }
        Expr::Not(a) => columns_read(alloc, a.get()),
        Expr::IsNull(a) => columns_read(alloc, a.get()),
    }
}

/// Whether each column that it reads is one of the first `width`. Takes no memory.
#[tactic(auto, using(crate::proofs::PartSteps::read_steps))]
pub fn reads_below(e: &Expr, width: usize) -> bool
    ensures { result ≡ list_all (λ at. nat_lt at width) (spec.columns_read e.now) }
{
    match e {
        Expr::Column(at) => (*at as usize) < width,
        Expr::Literal(_) => true,
        Expr::Negate(a) => reads_below(a.get(), width),
        Expr::Binary { op: _, left, right } => {
            reads_below(left.get(), width) && reads_below(right.get(), width)
        }
        Expr::Not(a) => reads_below(a.get(), width),
        Expr::IsNull(a) => reads_below(a.get(), width),
    }
}

/// Whether it reads none of the first `width` columns. Takes no memory.
#[tactic(auto, using(crate::proofs::PartSteps::read_steps))]
pub fn reads_from(e: &Expr, width: usize) -> bool
    ensures { result ≡ list_all (λ at. nat_le width at) (spec.columns_read e.now) }
{
    match e {
        Expr::Column(at) => width <= *at as usize,
        Expr::Literal(_) => true,
        Expr::Negate(a) => reads_from(a.get(), width),
        Expr::Binary { op: _, left, right } => {
            reads_from(left.get(), width) && reads_from(right.get(), width)
        }
        Expr::Not(a) => reads_from(a.get(), width),
        Expr::IsNull(a) => reads_from(a.get(), width),
    }
}

/// Whether it reads no column. Takes no memory.
#[tactic(auto, using(crate::proofs::PartSteps::test_steps))]
pub fn is_constant(e: &Expr) -> bool
    ensures { result ≡ spec.is_constant e.now }
{
    match e {
        Expr::Column(_) => false,
        Expr::Literal(_) => true,
        Expr::Negate(a) => is_constant(a.get()),
        Expr::Binary { op: _, left, right } => is_constant(left.get()) && is_constant(right.get()),
        Expr::Not(a) => is_constant(a.get()),
        Expr::IsNull(a) => is_constant(a.get()),
    }
}

/// The expression with the item of that place for each column. A column past the items stays.
pub fn over_items(alloc: Global, e: &Expr, items: &List<Expr>) -> Result<Expr, NoMemory>
    ensures { IfOk result (λ made. made ≡ spec.over_items items.now e.now) }
{
    match e {
        Expr::Column(at) => match items.get(*at as usize) {
            Some(item) => item.copy(alloc),
            None => Ok(Expr::Column(*at)),
        },
        Expr::Literal(value) => Ok(Expr::Literal(value.copy(alloc)?)),
        Expr::Negate(a) => Expr::negate(alloc, over_items(alloc, a.get(), items)?),
        Expr::Binary { op, left, right } => {
            let left = over_items(alloc, left.get(), items)?;
            let right = over_items(alloc, right.get(), items)?;
            Expr::binary(alloc, *op, left, right)
        }
        Expr::Not(a) => Expr::not(alloc, over_items(alloc, a.get(), items)?),
        Expr::IsNull(a) => Expr::is_null(alloc, over_items(alloc, a.get(), items)?),
    }
}

/// The expression with the column that stands in that place of the list for each column. One past the list stays.
pub fn over_columns(alloc: Global, e: &Expr, columns: &List<u32>) -> Result<Expr, NoMemory>
    ensures { IfOk result (λ made. made ≡ spec.over_columns columns.now e.now) }
{
    match e {
        Expr::Column(at) => match columns.get(*at as usize) {
            Some(column) => Ok(Expr::Column(*column)),
            None => Ok(Expr::Column(*at)),
        },
        Expr::Literal(value) => Ok(Expr::Literal(value.copy(alloc)?)),
        Expr::Negate(a) => Expr::negate(alloc, over_columns(alloc, a.get(), columns)?),
        Expr::Binary { op, left, right } => {
            let left = over_columns(alloc, left.get(), columns)?;
            let right = over_columns(alloc, right.get(), columns)?;
            Expr::binary(alloc, *op, left, right)
        }
        Expr::Not(a) => Expr::not(alloc, over_columns(alloc, a.get(), columns)?),
        Expr::IsNull(a) => Expr::is_null(alloc, over_columns(alloc, a.get(), columns)?),
    }
}

/// The expression with each column's number less by `by`, and 0 for a lesser one.
pub fn shifted_down(alloc: Global, e: &Expr, by: u32) -> Result<Expr, NoMemory>
    ensures { IfOk result (λ made. made ≡ spec.shifted_down by e.now) }
{
    match e {
        Expr::Column(at) => Ok(Expr::Column(at.saturating_sub(by))),
        Expr::Literal(value) => Ok(Expr::Literal(value.copy(alloc)?)),
        Expr::Negate(a) => Expr::negate(alloc, shifted_down(alloc, a.get(), by)?),
        Expr::Binary { op, left, right } => {
            let left = shifted_down(alloc, left.get(), by)?;
            let right = shifted_down(alloc, right.get(), by)?;
            Expr::binary(alloc, *op, left, right)
        }
        Expr::Not(a) => Expr::not(alloc, shifted_down(alloc, a.get(), by)?),
        Expr::IsNull(a) => Expr::is_null(alloc, shifted_down(alloc, a.get(), by)?),
    }
}
