//! Plans that are one pass over a table.
ghost use Rattle.std.specs.Prelude.{◌≡◌, None, IfSome};
ghost use Rattle.row_exec.specs.Passes as spec;
ghost use Rattle.row_exec.specs.Passes.{IsPass};

use cal_expr::Expr;
use cal_value::List;
use plan_nodes::{Plan, PlanNode};
use std::marker::Model;

/// Which rows of which table are kept, and which items are made of each: all rows, and the row itself, where there are none.
#[derive(Drop)]
pub(crate) struct TablePass<'a> {
    pub(crate) table: u32,
    pub(crate) condition: Option<&'a Expr>,
    pub(crate) items: Option<&'a List<Expr>>,
}

impl<'a> Model for TablePass<'a> {
    ghost use Rattle.std.specs.Coded.{codes};
    ghost use Rattle.std.specs.Option.{option_copied};
    ghost use Rattle.cal_expr.specs.contracts.expr.Expr as expr;
    ghost use Rattle.row_exec.specs.Passes.{Pass};

    ghost Value = { Pass };

    ghost coded = { Prim.hlevel (codes, expr.the_row.coded) };

    ghost view = { λ p. record {
      table = p.table;
      condition = option_copied p.condition;
      items = option_copied p.items;
    } };
}

// The table whose scan the plan is.
fn scan_of(plan: &Plan) -> Option<u32>
    ensures { IfSome result (λ table. IsPass plan.now (spec.whole table)) }
{
    match &plan.node {
        PlanNode::MemScan { table } => Some(*table),
        PlanNode::CsvScan { table } => Some(*table),
        _ => None,
    }
}

// The table whose scan, made enumerable, the plan is.
fn whole_table(plan: &Plan) -> Option<u32>
    ensures { IfSome result (λ table. IsPass plan.now (spec.whole table)) }
{
    let PlanNode::ToEnumerable = &plan.node else {
        return None;
    };
    match plan.inputs.as_slice() {
        [input] => scan_of(input),
        _ => None,
    }
}

// A filter above the whole table.
fn filter_pass(plan: &Plan) -> Option<TablePass<'_>>
    ensures plan { IfSome result (IsPass plan.now) }
    ensures whole { IfSome result (λ pass. pass.items ≡ None) }
{
    let PlanNode::Filter { predicate } = &plan.node else {
        return None;
    };
    match plan.inputs.as_slice() {
        [input] => {
            let table = whole_table(input)?;
            Some(TablePass {
                table,
                condition: Some(predicate),
                items: None,
            })
        }
        _ => None,
    }
}

// What a projection may stand above: the whole table, or a filter above it.
fn pass_below(plan: &Plan) -> Option<TablePass<'_>>
    ensures plan { IfSome result (IsPass plan.now) }
    ensures whole { IfSome result (λ pass. pass.items ≡ None) }
{
    match whole_table(plan) {
        Some(table) => Some(TablePass {
            table,
            condition: None,
            items: None,
        }),
        None => filter_pass(plan),
    }
}

fn project_pass(plan: &Plan) -> Option<TablePass<'_>>
    ensures { IfSome result (IsPass plan.now) }
{
    let PlanNode::Project { items } = &plan.node else {
        return None;
    };
    match plan.inputs.as_slice() {
        [input] => {
            let below = pass_below(input)?;
            Some(TablePass {
                table: below.table,
                condition: below.condition,
                items: Some(items),
            })
        }
        _ => None,
    }
}

/// The plan as one pass over a table, where it is a filter, a projection, or a projection above a filter, above the table's scan.
/// Takes no memory.
pub(crate) fn pass_of(plan: &Plan) -> Option<TablePass<'_>>
    ensures { IfSome result (IsPass plan.now) }
{
    match filter_pass(plan) {
        Some(pass) => Some(pass),
        None => project_pass(plan),
    }
}
