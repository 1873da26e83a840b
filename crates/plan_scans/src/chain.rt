//! Plans that are one scan of a table.
ghost use Rattle.std.specs.Prelude.{◌≡◌, Some, option_map};
ghost use Rattle.plan_scans.specs.Chains as spec;
ghost use Rattle.plan_scans.specs.Chains.{IsChain};

use cal_expr::Expr;
use cal_value::List;
use plan_nodes::{Plan, PlanNode};
use std::marker::Model;

/// Which table is scanned, whether a file holds it, which of its rows are kept, and which items are made of each: all rows
/// and the row itself where there are none.
#[derive(Drop)]
pub(crate) struct Chain<'a> {
    pub(crate) table: u32,
    pub(crate) csv: bool,
    pub(crate) predicate: Option<&'a Expr>,
    pub(crate) items: Option<&'a List<Expr>>,
}

impl<'a> Model for Chain<'a> {
    ghost use Rattle.std.specs.Coded.{codes};
    ghost use Rattle.std.specs.Option.{option_copied};
    ghost use Rattle.cal_expr.specs.contracts.expr.Expr as expr;
    ghost use Rattle.plan_scans.specs.Chains as spec;

    ghost Value = { spec.Chain };

    ghost coded = { Prim.hlevel (codes, expr.the_row.coded) };

    ghost view = { λ c. record {
      table = c.table;
      csv = c.csv;
      predicate = option_copied c.predicate;
      items = option_copied c.items;
    } };
}

fn whole<'a>(csv: bool, table: u32) -> Option<Chain<'a>>
    ensures { result ≡ Some (spec.whole csv table) }
{
    Some(Chain {
        table,
        csv,
        predicate: None,
        items: None,
    })
}

fn tested<'a>(predicate: &'a Expr, below: Option<Chain<'a>>) -> Option<Chain<'a>>
    ensures { result ≡ option_map (spec.tested predicate.now) below.entry }
{
    let below = below?;
    Some(Chain {
        table: below.table,
        csv: below.csv,
        predicate: Some(predicate),
        items: below.items,
    })
}

fn made<'a>(items: &'a List<Expr>, below: Option<Chain<'a>>) -> Option<Chain<'a>>
    ensures { result ≡ option_map (spec.made items.now) below.entry }
{
    let below = below?;
    Some(Chain {
        table: below.table,
        csv: below.csv,
        predicate: below.predicate,
        items: Some(items),
    })
}

// Of a node over the chain of its first input.
fn chained<'a>(node: &'a PlanNode, below: Option<Chain<'a>>) -> Option<Chain<'a>>
    ensures { result ≡ spec.chained node.now below.entry }
{
    match node {
        PlanNode::MemScan { table } => whole(false, *table),
        PlanNode::CsvScan { table } => whole(true, *table),
        PlanNode::MemFilter { predicate } => tested(predicate, below),
        PlanNode::MemProject { items } => made(items, below),
        PlanNode::CsvProject { items } => made(items, below),
        PlanNode::TileRead { .. }
        | PlanNode::ToEnumerable
        | PlanNode::Filter { .. }
        | PlanNode::Project { .. }
        | PlanNode::NestedLoopJoin { .. }
        | PlanNode::HashJoin { .. }
        | PlanNode::MergeJoin { .. }
        | PlanNode::HashAggregate { .. }
        | PlanNode::SortedAggregate { .. }
        | PlanNode::EmptyRows { .. }
        | PlanNode::Sort { .. } => None,
    }
}

/// The plan as one scan of a table, where it is one. Takes no memory.
pub(crate) fn chain_of(plan: &Plan) -> Option<Chain<'_>>
    ensures { IsChain plan.now result }
{
    match plan.inputs.as_slice() {
        [] => chained(&plan.node, None),
        [input, ..] => chained(&plan.node, chain_of(input)),
    }
}
