//! What is asked of a table's adapter.
ghost use Rattle.std.specs.Prelude.{◌≡◌, filter_map, IfOk, IfSome, IsTrue, None, OnOk, Some};
ghost use Rattle.std.specs.List.{range_with_len};
ghost use Rattle.std.specs.Option.{option_copied};
ghost use Rattle.adapters.specs.Scan.{is_comparison};
ghost use Rattle.phys_plan.specs.Ways as ways;
ghost use Rattle.plan_nodes.specs.Orders as orders;
ghost use Rattle.plan_scans.specs.Chains.{AddsTests, AreColumns, AreTests, CanRequest, IsRequest};

use crate::chain::Chain;
use adapters::{ColumnTest, ScanRequest};
use cal_expr::Expr;
use cal_value::{Duplicate, List, NoMemory, Op};
use plan_nodes::item_column;
use std::alloc::{AllocError, Global};

fn add_comparison(
    alloc: Global,
    op: Op,
    left: &Expr,
    right: &Expr,
    tests: &mut List<ColumnTest>,
) -> Result<(), NoMemory>
    requires op { IsTrue (is_comparison op) }
    requires column { IsTrue (ways.form_of left.now).is_column }
    requires literal { IsTrue (ways.form_of right.now).is_literal }
    ensures { OnOk result (AddsTests (Expr.Binary op left.now right.now) tests.old tests.new) }
{
    let Expr::Column(column) = left else {
        unreachable!()
    };
    let Expr::Literal(value) = right else {
        unreachable!()
    };
    let literal = value.copy(alloc)?;
    tests.push(ColumnTest {
        column: *column,
        op,
        literal,
    })
}

// Adds the comparisons of the predicate.
fn add_tests(alloc: Global, predicate: &Expr, tests: &mut List<ColumnTest>) -> Result<(), NoMemory>
    requires { IsTrue (ways.is_tests predicate.now) }
    ensures { OnOk result (AddsTests predicate.now tests.old tests.new) }
{
    let Expr::Binary { op, left, right } = predicate else {
        unreachable!()
    };
    match op {
        Op::And => {
            add_tests(alloc, left.get(), tests)?;
            add_tests(alloc, right.get(), tests)
        }
        _ => add_comparison(alloc, *op, left.get(), right.get(), tests),
    }
}

fn tests_of(alloc: Global, predicate: Option<&Expr>) -> Result<List<ColumnTest>, NoMemory>
    requires { IfSome (option_copied predicate) (λ e. IsTrue (ways.is_tests e)) }
    ensures { IfOk result (AreTests (option_copied predicate.entry)) }
{
    let mut tests = List::new(alloc);
    match predicate {
        None => Ok(tests),
        Some(predicate) => {
            add_tests(alloc, predicate, &mut tests)?;
            Ok(tests)
        }
    }
}

fn all_columns(alloc: Global, width: u32) -> Result<Vec<u32>, AllocError>
    ensures { IfOk result (λ columns. columns.items ≡ range_with_len 0 width) }
{
    (0..width).collect(alloc)
}

fn item_columns(alloc: Global, items: &[Expr]) -> Result<Vec<u32>, AllocError>
    ensures { IfOk result (λ columns. columns.items ≡ filter_map orders.item_column items.now) }
{
    items
        .iter()
        .filter_map(|item| item_column(item))
        .collect(alloc)
}

fn columns_of(
    alloc: Global,
    items: Option<&List<Expr>>,
    width: usize,
) -> Result<List<u32>, NoMemory>
    requires { IfSome (option_copied items) (λ es. IsTrue (ways.are_different es)) }
    ensures { IfOk result (AreColumns width (option_copied items.entry)) }
{
    match items {
        Some(items) => Ok(List::from_vec(item_columns(alloc, items.as_slice())?)),
        None => match u32::try_from(width) {
            Ok(width) => Ok(List::from_vec(all_columns(alloc, width)?)),
            Err(_) => Err(NoMemory),
        },
    }
}

/// What the chain asks of its table's adapter, where the table has so many columns.
pub(crate) fn request_of(
    alloc: Global,
    chain: &Chain<'_>,
    width: usize,
) -> Result<ScanRequest, NoMemory>
    requires { CanRequest chain.now }
    ensures { IfOk result (IsRequest width chain.now) }
{
    let tests = tests_of(alloc, chain.predicate)?;
    let columns = columns_of(alloc, chain.items, width)?;
    Ok(ScanRequest { columns, tests })
}
