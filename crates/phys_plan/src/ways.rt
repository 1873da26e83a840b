ghost use Rattle.std.specs.Prelude.{◌≡◌, ◌↔◌, IsTrue, IfOk};
ghost use Rattle.phys_plan.specs.Ways as spec;

use cal_value::{Collation, Duplicate, NoMemory};
use plan_nodes::{Convention, PlanNode, convention_of};
use std::alloc::Global;

/// What may be asked of a plan's root: enumerable rows, or a node that a table's adapter can take over.
#[derive(Clone, Copy, Debug, PartialEq, Eq, Hash)]
pub enum Want {
    Rows,
    MemScanned,
    MemFiltered,
    MemKept,
    CsvScanned,
    CsvKept,
    Tiled,
}

/// What is asked of a set: a kind of root, and an order of its rows.
#[derive(Debug, Drop)]
pub struct Ask {
    pub set: u32,
    pub want: Want,
    pub order: Collation,
}

/// A node that may be a plan's root, and what it asks of its inputs.
#[derive(Debug, Drop)]
pub struct Way {
    pub node: PlanNode,
    pub first: Option<Ask>,
    pub second: Option<Ask>,
}

impl Duplicate for Ask {
    ghost use Rattle.std.specs.Prelude.{◌≡◌, IfOk};

    fn copy(&self, alloc: Global) -> Result<Ask, NoMemory> {
        let order = self.order.copy(alloc)?;
        Ok(Ask {
            set: self.set,
            want: self.want,
            order,
        })
    }
}

fn is_mem_scan(node: &PlanNode) -> bool
    ensures { result ≡ spec.is_mem_scan node.now }
{
    match node {
        PlanNode::MemScan { .. } => true,
        _ => false,
    }
}

fn is_mem_filter(node: &PlanNode) -> bool
    ensures { result ≡ spec.is_mem_filter node.now }
{
    match node {
        PlanNode::MemFilter { .. } => true,
        _ => false,
    }
}

fn is_csv_scan(node: &PlanNode) -> bool
    ensures { result ≡ spec.is_csv_scan node.now }
{
    match node {
        PlanNode::CsvScan { .. } => true,
        _ => false,
    }
}

/// Whether a node is of the kind that is asked. Takes no memory.
pub fn fits(want: Want, node: &PlanNode) -> bool
    ensures { result ≡ spec.fits want node.now }
{
    match want {
        Want::Rows => convention_of(node).is(Convention::Enumerable),
        Want::MemScanned => is_mem_scan(node),
        Want::MemFiltered => is_mem_scan(node) || is_mem_filter(node),
        Want::MemKept => convention_of(node).is(Convention::Mem),
        Want::CsvScanned => is_csv_scan(node),
        Want::CsvKept => convention_of(node).is(Convention::Csv),
        Want::Tiled => convention_of(node).is(Convention::Tile),
    }
}
