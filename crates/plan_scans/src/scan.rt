//! The rows of scans.
ghost use Rattle.std.specs.Prelude.{◌≡◌, ◌+◌, ◌≤◌, length, IfOk, IsSome, OnOk};
ghost use Rattle.cal_rel.specs.Bag as bag;
ghost use Rattle.cal_snapshot.specs.Parts.{rows_in, rows_of};
ghost use Rattle.cal_snapshot.specs.declared.part.Part.TheVariants.{Tile};
ghost use Rattle.plan_nodes.specs.Seen.{reads};
ghost use Rattle.plan_scans.specs.Chains as spec;
ghost use Rattle.plan_scans.specs.Chains.{CanRead, chain_rows, rows_held};
ghost use Rattle.plan_scans.specs.Scans.{AreScanned, CanScan, HoldsTiles};

use crate::chain::{Chain, chain_of};
use crate::request::request_of;
use adapters::{Adapter, CsvAdapter, MemAdapter};
use cal_schema::Schema;
use cal_snapshot::{Part, Snapshot};
use cal_value::{List, NoMemory, Row, Steps};
use plan_nodes::{Plan, PlanNode};
use std::alloc::Global;
use std::sync::ledger::Ledger;

fn table_width(schema: &Schema, table: u32) -> usize
    ensures { result ≡ bag.table_width schema.now table }
{
    match schema.tables.get(table as usize) {
        Some(table) => table.columns.len(),
        None => 0,
    }
}

fn table_rows<L: Ledger>(
    alloc: Global,
    chain: &Chain<'_>,
    schema: &Schema,
    snapshot: &Snapshot,
    steps: &mut Steps<L>,
) -> Result<List<Row>, NoMemory>
    requires { CanRead schema.now snapshot.now chain.now }
    ensures rows { IfOk result (λ rows.
        rows ≡ chain_rows chain.now (rows_in snapshot.now chain.now.table)) }
    ensures all { OnOk result
        (steps.new ≡ steps.old + length (rows_in snapshot.now chain.now.table)) }
    ensures some { steps.old ≤ steps.new }
    ensures most { steps.new ≤ steps.old + length (rows_in snapshot.now chain.now.table) }
{
    let request = request_of(alloc, chain, table_width(schema, chain.table))?;
    if chain.csv {
        CsvAdapter.scan(alloc, snapshot, chain.table, &request, steps)
    } else {
        MemAdapter.scan(alloc, snapshot, chain.table, &request, steps)
    }
}

fn tile_rows<L: Ledger>(
    alloc: Global,
    tile: u32,
    snapshot: &Snapshot,
    steps: &mut Steps<L>,
) -> Result<List<Row>, NoMemory>
    requires { IsSome (rows_of snapshot.now (Tile tile)) }
    ensures rows { IfOk result (λ rows. rows ≡ rows_held snapshot.now tile) }
    ensures all { OnOk result (steps.new ≡ steps.old + length (rows_held snapshot.now tile)) }
    ensures some { steps.old ≤ steps.new }
    ensures most { steps.new ≤ steps.old + length (rows_held snapshot.now tile) }
{
    let Some(count) = snapshot.rows_len(Part::Tile(tile)) else {
        unreachable!()
    };
    let mut rows = List::new(alloc);
    for at in 0..count {
        let row = snapshot.take(alloc, Part::Tile(tile), at, steps)?;
        rows.push(row)?;
    }
    Ok(rows)
}

fn tile_in(node: &PlanNode) -> Option<u32>
    ensures { result ≡ spec.tile_in node.now }
{
    match node {
        PlanNode::TileRead { tile } => Some(*tile),
        PlanNode::MemScan { .. }
        | PlanNode::CsvScan { .. }
        | PlanNode::MemFilter { .. }
        | PlanNode::MemProject { .. }
        | PlanNode::CsvProject { .. }
        | PlanNode::ToEnumerable
        | PlanNode::Filter { .. }
        | PlanNode::Project { .. }
        | PlanNode::NestedLoopJoin { .. }
        | PlanNode::HashJoin { .. }
        | PlanNode::MergeJoin { .. }
        | PlanNode::HashAggregate { .. }
        | PlanNode::SortedAggregate { .. }
        | PlanNode::EmptyRows { .. }
        | PlanNode::Sort { .. } => None,
    }
}

/// The rows of a plan whose root hands on rows of a table or of a tile, in their order. It makes one step for each row of
/// that part; where there is no memory, at most so many.
pub fn scan_rows<L: Ledger>(
    alloc: Global,
    plan: &Plan,
    schema: &Schema,
    snapshot: &Snapshot,
    steps: &mut Steps<L>,
) -> Result<List<Row>, NoMemory>
    requires tiles { HoldsTiles schema.now snapshot.now }
    requires plan { CanScan schema.now snapshot.now plan.now }
    ensures rows { IfOk result (AreScanned schema.now snapshot.now plan.now) }
    ensures all { OnOk result (steps.new ≡ steps.old + reads plan.now) }
    ensures some { steps.old ≤ steps.new }
    ensures most { steps.new ≤ steps.old + reads plan.now }
{
    match tile_in(&plan.node) {
        Some(tile) => tile_rows(alloc, tile, snapshot, steps),
        None => match chain_of(plan) {
            Some(chain) => table_rows(alloc, &chain, schema, snapshot, steps),
            None => unreachable!(),
        },
    }
}
