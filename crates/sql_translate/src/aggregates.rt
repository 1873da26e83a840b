//! The Aggregate of an aggregate query, over a Project where an argument isn't a column.
ghost use Rattle.std.specs.Prelude.{◌≡◌, [], map, position, unwrap_or, IfOk, OnOk};
ghost use Rattle.std.specs.List.{flat_map, list_all};
ghost use Rattle.cal_expr.specs.Equal.{expr_eq};
ghost use Rattle.cal_expr.specs.declared.expr.Expr.TheVariants.{Column};
ghost use Rattle.cal_rel.specs.Tree.{tree_of};
ghost use Rattle.sql_algebra.specs.Algebra as spec;
ghost use Rattle.sql_algebra.specs.Algebra.{call_over, column_in, place_among, takes_column};
ghost use Rattle.sql_meaning.specs.Parts.{listed};
ghost use Rattle.sql_translate.specs.Once.{with_one, with_each};

use crate::numbers::column_number;
use cal_expr::Expr;
use cal_rel::{AggCall, Rel};
use cal_value::{Duplicate, List, NoMemory};
use sql_algebra::{ExprCall, Layout};
use std::alloc::Global;

fn column_of(expr: &Expr) -> Option<u32>
    ensures { result ≡ column_in expr.now }
{
    match expr {
        Expr::Column(column) => Some(*column),
        _ => None,
    }
}

fn is_column(call: &ExprCall) -> bool
    ensures { result ≡ takes_column call.now }
{
    match &call.argument {
        Some(argument) => column_of(argument).is_some(),
        None => true,
    }
}

fn take_columns(calls: &[ExprCall]) -> bool
    ensures { result ≡ list_all takes_column calls.now }
{
    calls.iter().all(is_column)
}

// ---- where each argument is a column

// The column, and 0 of what is none.
fn own_column(expr: &Expr) -> u32
    ensures { result ≡ unwrap_or (column_in expr.now) 0 }
{
    column_of(expr).unwrap_or(0)
}

fn own_call(call: &ExprCall) -> AggCall
    ensures { result ≡ call_over (λ e. unwrap_or (column_in e) 0) call.now }
{
    AggCall {
        agg: call.agg,
        argument: call.argument.as_ref().map(own_column),
    }
}

fn own_calls(alloc: Global, calls: &[ExprCall]) -> Result<List<AggCall>, NoMemory>
    ensures { IfOk result (λ all. all ≡ map (call_over (λ e. unwrap_or (column_in e) 0)) calls.now) }
{
    let mut all = List::new(alloc);
    for call in calls {
        all.push(own_call(call))?;
    }
    Ok(all)
}

// ---- over a Project

fn add_once(expr: Expr, exprs: &mut List<Expr>) -> Result<(), NoMemory>
    ensures { OnOk result (exprs.new ≡ with_one expr_eq exprs.old expr) }
{
    if exprs.as_slice().contains(&expr) {
        return Ok(());
    }
    exprs.push(expr)
}

// The group columns as expressions, each once.
fn group_inputs(alloc: Global, groups: &[u32]) -> Result<List<Expr>, NoMemory>
    ensures { IfOk result (λ exprs. exprs ≡ with_each expr_eq [] (map Column groups.now)) }
{
    let mut exprs = List::new(alloc);
    for column in groups {
        add_once(Expr::Column(*column), &mut exprs)?;
    }
    Ok(exprs)
}

// Puts the arguments behind the others, each once.
fn add_arguments(alloc: Global, calls: &[ExprCall], exprs: &mut List<Expr>) -> Result<(), NoMemory>
    ensures { OnOk result (exprs.new
        ≡ with_each expr_eq exprs.old (flat_map (λ call. listed call.argument) calls.now)) }
{
    for call in calls {
        if let Some(argument) = &call.argument {
            add_once(argument.copy(alloc)?, exprs)?;
        }
    }
    Ok(())
}

// The group columns and then the arguments, each once.
#[tactic(auto, using(crate::proofs::Steps::once_rules))]
fn inputs(alloc: Global, layout: &Layout) -> Result<List<Expr>, NoMemory>
    ensures { IfOk result (λ exprs. exprs ≡ spec.inputs layout.now) }
{
    let mut exprs = group_inputs(alloc, layout.groups.as_slice())?;
    add_arguments(alloc, layout.calls.as_slice(), &mut exprs)?;
    Ok(exprs)
}

fn first_place(expr: &Expr, exprs: &[Expr]) -> Option<usize>
    ensures { result ≡ position (λ other. expr_eq other expr.now) exprs.now }
{
    exprs.iter().position(|other| *other == *expr)
}

fn place_in(expr: &Expr, exprs: &[Expr]) -> usize
    ensures { result ≡ place_among expr_eq expr.now exprs.now }
{
    match first_place(expr, exprs) {
        Some(at) => at,
        None => exprs.len(),
    }
}

fn group_over(column: u32, exprs: &[Expr]) -> Result<u32, NoMemory>
    ensures { IfOk result (λ at. at ≡ place_among expr_eq (Column column) exprs.now) }
{
    let group = Expr::Column(column);
    column_number(place_in(&group, exprs))
}

fn groups_over(alloc: Global, groups: &[u32], exprs: &[Expr]) -> Result<List<u32>, NoMemory>
    ensures { IfOk result (λ places.
        places ≡ map (λ column. place_among expr_eq (Column column) exprs.now) groups.now) }
{
    let mut places = List::new(alloc);
    for column in groups {
        places.push(group_over(*column, exprs)?)?;
    }
    Ok(places)
}

fn call_in(call: &ExprCall, exprs: &[Expr]) -> Result<AggCall, NoMemory>
    ensures { IfOk result (λ made.
        made ≡ call_over (λ e. place_among expr_eq e exprs.now) call.now) }
{
    let argument = match &call.argument {
        Some(argument) => Some(column_number(place_in(argument, exprs))?),
        None => None,
    };
    Ok(AggCall {
        agg: call.agg,
        argument,
    })
}

fn calls_over(alloc: Global, calls: &[ExprCall], exprs: &[Expr]) -> Result<List<AggCall>, NoMemory>
    ensures { IfOk result (λ all.
        all ≡ map (call_over (λ e. place_among expr_eq e exprs.now)) calls.now) }
{
    let mut all = List::new(alloc);
    for call in calls {
        all.push(call_in(call, exprs)?)?;
    }
    Ok(all)
}

#[tactic(auto, using(cal_rel::proofs::TreeSteps::tree_steps))]
fn over_columns(alloc: Global, tree: Rel, layout: &Layout) -> Result<Rel, NoMemory>
    ensures { IfOk result (λ rel. tree_of rel
        ≡ spec.aggregate_at (λ e. unwrap_or (column_in e) 0) layout.now (tree_of tree)) }
{
    let groups = layout.groups.copy(alloc)?;
    let calls = own_calls(alloc, layout.calls.as_slice())?;
    Rel::aggregate(alloc, tree, groups, calls)
}

#[tactic(auto, using(cal_rel::proofs::TreeSteps::tree_steps))]
fn over_project(alloc: Global, tree: Rel, layout: &Layout) -> Result<Rel, NoMemory>
    ensures { IfOk result (λ rel. tree_of rel ≡ spec.over_project layout.now (tree_of tree)) }
{
    let exprs = inputs(alloc, layout)?;
    let groups = groups_over(alloc, layout.groups.as_slice(), exprs.as_slice())?;
    let calls = calls_over(alloc, layout.calls.as_slice(), exprs.as_slice())?;
    let projected = Rel::project(alloc, tree, exprs)?;
    Rel::aggregate(alloc, projected, groups, calls)
}

/// The Aggregate of these groups and calls over the rows of the tree.
pub(crate) fn aggregate_tree(alloc: Global, tree: Rel, layout: &Layout) -> Result<Rel, NoMemory>
    ensures { IfOk result (λ rel. tree_of rel ≡ spec.aggregate_tree layout.now (tree_of tree)) }
{
    if take_columns(layout.calls.as_slice()) {
        over_columns(alloc, tree, layout)
    } else {
        over_project(alloc, tree, layout)
    }
}
