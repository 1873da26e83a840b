//! The items, HAVING and DISTINCT.
ghost use Rattle.std.specs.Prelude.{◌≡◌, ◌==◌, ◌<◌, ◌^◌, true, length, map, position, IfOk};
ghost use Rattle.cal_expr.specs.declared.expr.Expr.TheVariants.{Column};
ghost use Rattle.cal_rel.specs.Tree.{tree_of};
ghost use Rattle.sql_algebra.specs.Algebra as spec;
ghost use Rattle.sql_algebra.specs.Algebra.{placed, place_among, same_call};
ghost use Rattle.sql_meaning.specs.Names.{places_from};
ghost use Rattle.sql_meaning.specs.Scope.{types_in};
ghost use Rattle.sql_to_rel.specs.Numbered.{numbered};

use crate::calls::{call_of, is_same_call};
use crate::numbers::column_number;
use cal_expr::Expr;
use cal_rel::Rel;
use cal_value::{Duplicate, List, NoMemory};
use sql_algebra::{ExprCall, Layout};
use sql_meaning::{Entry, column_at};
use sql_names::star_places;
use sql_to_rel::expression;
use sql_tree::{Item, Items, Tree};
use std::alloc::Global;

// ---- over rows

fn star_items(alloc: Global, scope: &[Entry<'_>]) -> Result<List<Expr>, NoMemory>
    requires { length (types_in scope.now) < 2 ^ 32 }
    ensures { IfOk result (λ items. items ≡ spec.row_items scope.now Items.Star) }
{
    let places = star_places(alloc, scope)?;
    let mut items = List::new(alloc);
    for at in places.as_slice() {
        items.push(Expr::Column(column_number(*at)?))?;
    }
    Ok(items)
}

fn listed_items(alloc: Global, items: &[Item], scope: &[Entry<'_>]) -> Result<List<Expr>, NoMemory>
    requires { length (types_in scope.now) < 2 ^ 32 }
    ensures { IfOk result (λ all. all ≡ map (λ item. numbered scope.now item.tree) items.now) }
{
    let mut all = List::new(alloc);
    for item in items {
        let made = expression(alloc, &item.tree, scope)?;
        all.push(made)?;
    }
    Ok(all)
}

/// The items over the rows of FROM.
pub(crate) fn row_items(
    alloc: Global,
    items: &Items,
    scope: &[Entry<'_>],
) -> Result<List<Expr>, NoMemory>
    requires { length (types_in scope.now) < 2 ^ 32 }
    ensures { IfOk result (λ all. all ≡ spec.row_items scope.now items.now) }
{
    match items {
        Items::Star => star_items(alloc, scope),
        Items::Listed(items) => listed_items(alloc, items.as_slice(), scope),
    }
}

// ---- over an Aggregate's rows

fn first_group(groups: &[u32], column: usize) -> Option<usize>
    ensures { result ≡ position (λ group. group == column) groups.now }
{
    groups.iter().position(|group| *group as usize == column)
}

fn group_place(groups: &[u32], column: usize) -> usize
    ensures { result ≡ place_among ◌==◌ column groups.now }
{
    match first_group(groups, column) {
        Some(at) => at,
        None => groups.len(),
    }
}

fn group_column(layout: &Layout, column: usize) -> Result<Expr, NoMemory>
    ensures { IfOk result (λ e. e ≡ spec.group_at layout.now column) }
{
    let at = group_place(layout.groups.as_slice(), column);
    Ok(Expr::Column(column_number(at)?))
}

fn first_call(call: &ExprCall, calls: &[ExprCall]) -> Option<usize>
    ensures { result ≡ position (λ other. same_call other call.now) calls.now }
{
    calls.iter().position(|other| is_same_call(other, call))
}

fn call_place(call: &ExprCall, calls: &[ExprCall]) -> usize
    ensures { result ≡ place_among same_call call.now calls.now }
{
    match first_call(call, calls) {
        Some(at) => at,
        None => calls.len(),
    }
}

fn call_column(layout: &Layout, call: &ExprCall) -> Result<Expr, NoMemory>
    ensures { IfOk result (λ e. e ≡ spec.call_at layout.now call.now) }
{
    let groups = column_number(layout.groups.len())?;
    let at = column_number(call_place(call, layout.calls.as_slice()))?;
    let column = groups as usize + at as usize;
    Ok(Expr::Column(column_number(column)?))
}

/// The expression over an Aggregate's rows that a tree stands for.
pub(crate) fn group_expression(
    alloc: Global,
    tree: &Tree,
    scope: &[Entry<'_>],
    layout: &Layout,
) -> Result<Expr, NoMemory>
    requires { length (types_in scope.now) < 2 ^ 32 }
    ensures { IfOk result (λ e. e ≡ (placed scope.now tree.now).group layout.now) }
{
    match tree {
        Tree::Column { name, .. } => group_column(layout, column_at(scope, name)),
        Tree::Literal { value, .. } => Ok(Expr::Literal(value.copy(alloc)?)),
        Tree::Negate { operand, .. } => {
            let operand = group_expression(alloc, operand.get(), scope, layout)?;
            Expr::negate(alloc, operand)
        }
        Tree::Binary {
            op,
            left,
            right,
            ..
        } => {
            let left = group_expression(alloc, left.get(), scope, layout)?;
            let right = group_expression(alloc, right.get(), scope, layout)?;
            Expr::binary(alloc, *op, left, right)
        }
        Tree::Not { operand, .. } => {
            let operand = group_expression(alloc, operand.get(), scope, layout)?;
            Expr::not(alloc, operand)
        }
        Tree::IsNull { operand, .. } => {
            let operand = group_expression(alloc, operand.get(), scope, layout)?;
            Expr::is_null(alloc, operand)
        }
        Tree::Aggregate { agg, argument, .. } => {
            let call = call_of(alloc, *agg, argument, scope)?;
            call_column(layout, &call)
        }
    }
}

fn star_groups(alloc: Global, scope: &[Entry<'_>], layout: &Layout) -> Result<List<Expr>, NoMemory>
    requires { length (types_in scope.now) < 2 ^ 32 }
    ensures { IfOk result (λ items. items ≡ spec.group_items scope.now layout.now Items.Star) }
{
    let places = star_places(alloc, scope)?;
    let mut items = List::new(alloc);
    for at in places.as_slice() {
        items.push(group_column(layout, *at)?)?;
    }
    Ok(items)
}

fn listed_groups(
    alloc: Global,
    items: &[Item],
    scope: &[Entry<'_>],
    layout: &Layout,
) -> Result<List<Expr>, NoMemory>
    requires { length (types_in scope.now) < 2 ^ 32 }
    ensures { IfOk result (λ all.
        all ≡ map (λ item. (placed scope.now item.tree).group layout.now) items.now) }
{
    let mut all = List::new(alloc);
    for item in items {
        let made = group_expression(alloc, &item.tree, scope, layout)?;
        all.push(made)?;
    }
    Ok(all)
}

/// The items over an Aggregate's rows.
pub(crate) fn group_items(
    alloc: Global,
    items: &Items,
    scope: &[Entry<'_>],
    layout: &Layout,
) -> Result<List<Expr>, NoMemory>
    requires { length (types_in scope.now) < 2 ^ 32 }
    ensures { IfOk result (λ all. all ≡ spec.group_items scope.now layout.now items.now) }
{
    match items {
        Items::Star => star_groups(alloc, scope, layout),
        Items::Listed(items) => listed_groups(alloc, items.as_slice(), scope, layout),
    }
}

/// The rows of an Aggregate of which HAVING is TRUE.
#[tactic(auto, using(cal_rel::proofs::TreeSteps::tree_steps))]
pub(crate) fn having_tree(
    alloc: Global,
    tree: Rel,
    condition: &Option<Tree>,
    scope: &[Entry<'_>],
    layout: &Layout,
) -> Result<Rel, NoMemory>
    requires { length (types_in scope.now) < 2 ^ 32 }
    ensures { IfOk result (λ rel. tree_of rel
        ≡ spec.kept (λ c. (placed scope.now c).group layout.now) condition.now (tree_of tree)) }
{
    match condition {
        Some(condition) => {
            let predicate = group_expression(alloc, condition, scope, layout)?;
            Rel::filter(alloc, tree, predicate)
        }
        None => Ok(tree),
    }
}

// ---- DISTINCT

// The columns of so many items.
fn all_columns(alloc: Global, items: &[Expr]) -> Result<List<u32>, NoMemory>
    ensures { IfOk result (λ columns. columns ≡ places_from 0 items.now) }
{
    let mut columns = List::new(alloc);
    for at in 0..items.len() {
        columns.push(column_number(at)?)?;
    }
    Ok(columns)
}

/// One of equal rows, of as many columns as there are items.
#[tactic(auto, using(cal_rel::proofs::TreeSteps::tree_steps))]
pub(crate) fn distinct_tree(alloc: Global, tree: Rel, items: &[Expr]) -> Result<Rel, NoMemory>
    ensures { IfOk result (λ rel. tree_of rel
        ≡ spec.once_tree true (places_from 0 items.now) (tree_of tree)) }
{
    let columns = all_columns(alloc, items)?;
    Rel::aggregate(alloc, tree, columns, List::new(alloc))
}
