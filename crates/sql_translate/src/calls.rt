//! The group columns and the calls of an aggregate query, each once.
ghost use Rattle.std.specs.Prelude.{◌≡◌, ◌==◌, ◌<◌, ◌^◌, ◌++◌, ◌∷◌, [], length, map, option_map, option_copied, IfOk, OnOk};
ghost use Rattle.std.specs.List.{flat_map, list_any};
ghost use Rattle.cal_aggregate.specs.Parts.{distinct};
ghost use Rattle.cal_rel.specs.Equal.{agg_eq};
ghost use Rattle.sql_algebra.specs.Algebra as spec;
ghost use Rattle.sql_algebra.specs.Algebra.{placed, same_call, same_argument};
ghost use Rattle.sql_meaning.specs.Groups.{group_places};
ghost use Rattle.sql_meaning.specs.Parts.{item_trees, listed};
ghost use Rattle.sql_meaning.specs.Scope as scopes;
ghost use Rattle.sql_meaning.specs.Scope.{types_in};
ghost use Rattle.sql_translate.specs.Once.{with_one, with_each};

use cal_expr::Expr;
use cal_value::{Agg, List, NoMemory};
use sql_algebra::{ExprCall, Layout};
use sql_meaning::{Entry, column_at};
use sql_to_rel::expression;
use sql_tree::{ColumnName, Item, Items, Select, Tree};
use sqlite_items::Boxed;
use std::alloc::Global;

fn is_same_agg(a: Agg, b: Agg) -> bool
    ensures { result ≡ agg_eq a b }
{
    a as u8 == b as u8
}

fn is_same_argument(a: &Option<Expr>, b: &Option<Expr>) -> bool
    ensures { result ≡ same_argument a.now b.now }
{
    match (a, b) {
        (None, None) => true,
        (Some(a), Some(b)) => *a == *b,
        _ => false,
    }
}

/// Whether it is the same aggregate of the same expression.
pub(crate) fn is_same_call(a: &ExprCall, b: &ExprCall) -> bool
    ensures { result ≡ same_call a.now b.now }
{
    is_same_agg(a.agg, b.agg) && is_same_argument(&a.argument, &b.argument)
}

fn has_call(calls: &[ExprCall], call: &ExprCall) -> bool
    ensures { result ≡ list_any (λ other. same_call other call.now) calls.now }
{
    calls.iter().any(|other| is_same_call(other, call))
}

// Puts the call behind the others where it is none of them.
fn add_call(call: ExprCall, calls: &mut List<ExprCall>) -> Result<(), NoMemory>
    ensures { OnOk result (calls.new ≡ with_one same_call calls.old call) }
{
    if has_call(calls.as_slice(), &call) {
        return Ok(());
    }
    calls.push(call)
}

/// The call of an aggregate with this argument.
pub(crate) fn call_of(
    alloc: Global,
    agg: Agg,
    argument: &Option<Boxed<Tree>>,
    scope: &[Entry<'_>],
) -> Result<ExprCall, NoMemory>
    requires { length (types_in scope.now) < 2 ^ 32 }
    ensures { IfOk result (λ call. call ≡ spec.call_of agg (option_map (placed scope.now) argument.now)) }
{
    match argument {
        Some(argument) => Ok(ExprCall {
            agg,
            argument: Some(expression(alloc, argument.get(), scope)?),
        }),
        None => Ok(ExprCall {
            agg: Agg::Count,
            argument: None,
        }),
    }
}

// Puts the calls in the tree behind the others, each once.
fn add_calls(
    alloc: Global,
    tree: &Tree,
    scope: &[Entry<'_>],
    calls: &mut List<ExprCall>,
) -> Result<(), NoMemory>
    requires { length (types_in scope.now) < 2 ^ 32 }
    ensures { OnOk result (calls.new
        ≡ with_each same_call calls.old (placed scope.now tree.now).calls) }
{
    match tree {
        Tree::Column { .. } => Ok(()),
        Tree::Literal { .. } => Ok(()),
        Tree::Negate { operand, .. } => add_calls(alloc, operand.get(), scope, calls),
        Tree::Binary { left, right, .. } => {
            add_calls(alloc, left.get(), scope, calls)?;
            add_calls(alloc, right.get(), scope, calls)
        }
        Tree::Not { operand, .. } => add_calls(alloc, operand.get(), scope, calls),
        Tree::IsNull { operand, .. } => add_calls(alloc, operand.get(), scope, calls),
        Tree::Aggregate { agg, argument, .. } => {
            let call = call_of(alloc, *agg, argument, scope)?;
            add_call(call, calls)
        }
    }
}

fn add_item_calls(
    alloc: Global,
    items: &[Item],
    scope: &[Entry<'_>],
    calls: &mut List<ExprCall>,
) -> Result<(), NoMemory>
    requires { length (types_in scope.now) < 2 ^ 32 }
    ensures { OnOk result (calls.new ≡ with_each same_call calls.old
        (flat_map (λ item. (placed scope.now item.tree).calls) items.now)) }
{
    for item in items {
        add_calls(alloc, &item.tree, scope, calls)?;
    }
    Ok(())
}

#[tactic(auto, using(crate::proofs::Steps::map_rules))]
fn item_calls(alloc: Global, items: &Items, scope: &[Entry<'_>]) -> Result<List<ExprCall>, NoMemory>
    requires { length (types_in scope.now) < 2 ^ 32 }
    ensures { IfOk result (λ calls. calls ≡ with_each same_call []
        (flat_map (λ tree. (placed scope.now tree).calls) (item_trees items.now))) }
{
    let mut calls = List::new(alloc);
    match items {
        Items::Star => {}
        Items::Listed(items) => add_item_calls(alloc, items.as_slice(), scope, &mut calls)?,
    }
    Ok(calls)
}

fn add_condition_calls(
    alloc: Global,
    condition: &Option<Tree>,
    scope: &[Entry<'_>],
    calls: &mut List<ExprCall>,
) -> Result<(), NoMemory>
    requires { length (types_in scope.now) < 2 ^ 32 }
    ensures { OnOk result (calls.new ≡ with_each same_call calls.old
        (flat_map (λ tree. (placed scope.now tree).calls) (listed condition.now))) }
{
    match condition {
        Some(tree) => add_calls(alloc, tree, scope, calls),
        None => Ok(()),
    }
}

// The calls of the items, and then those of HAVING.
#[tactic(auto, using(crate::proofs::Steps::once_rules))]
fn select_calls(
    alloc: Global,
    select: &Select,
    scope: &[Entry<'_>],
) -> Result<List<ExprCall>, NoMemory>
    requires { length (types_in scope.now) < 2 ^ 32 }
    ensures { IfOk result (λ calls. calls ≡ (spec.layout_of scope.now select.now).calls) }
{
    let mut calls = item_calls(alloc, &select.items, scope)?;
    add_condition_calls(alloc, &select.having, scope, &mut calls)?;
    Ok(calls)
}

// Puts the column behind the others where it is none of them.
fn add_column(column: u32, columns: &mut List<u32>) -> Result<(), NoMemory>
    ensures { OnOk result (columns.new ≡ with_one ◌==◌ columns.old column) }
{
    if columns.as_slice().contains(&column) {
        return Ok(());
    }
    columns.push(column)
}

fn group_columns(
    alloc: Global,
    columns: &[ColumnName],
    scope: &[Entry<'_>],
) -> Result<List<u32>, NoMemory>
    requires { length (types_in scope.now) < 2 ^ 32 }
    ensures { IfOk result (λ groups.
        groups ≡ with_each ◌==◌ [] (map (scopes.column_at scope.now) columns.now)) }
{
    let mut groups = List::new(alloc);
    for name in columns {
        add_column(column_at(scope, name) as u32, &mut groups)?;
    }
    Ok(groups)
}

/// The columns of the Aggregate of an aggregate query.
#[tactic(auto, using(crate::proofs::Steps::once_rules))]
pub(crate) fn layout_of(
    alloc: Global,
    select: &Select,
    scope: &[Entry<'_>],
) -> Result<Layout, NoMemory>
    requires { length (types_in scope.now) < 2 ^ 32 }
    ensures { IfOk result (λ layout. layout ≡ spec.layout_of scope.now select.now) }
{
    let groups = group_columns(alloc, select.groups.as_slice(), scope)?;
    let calls = select_calls(alloc, select, scope)?;
    Ok(Layout { groups, calls })
}
