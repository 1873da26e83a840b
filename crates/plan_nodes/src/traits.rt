ghost use Rattle.std.specs.Prelude.{◌≡◌};
ghost use Rattle.plan_nodes.specs.Conventions as spec;
ghost use Rattle.plan_nodes.specs.Conventions.{same_convention, convention_of};

use crate::nodes::PlanNode;
use crate::orders::is_prefix;
use cal_value::{Collation, Duplicate, NoMemory};
use std::alloc::Global;

/// In which form rows are handed on.
#[derive(Clone, Copy, Debug, PartialEq, Eq, Hash)]
pub enum Convention {
    Csv,
    Mem,
    Tile,
    Enumerable,
}

/// The form of the rows, and how they are sorted.
#[derive(Debug, Drop)]
pub struct Traits {
    pub convention: Convention,
    pub collation: Collation,
}

impl Convention {
    /// Whether the two are one convention.
    pub fn is(self, other: Convention) -> bool
        ensures { result ≡ same_convention self other }
    {
        match (self, other) {
            (Convention::Csv, Convention::Csv)
            | (Convention::Mem, Convention::Mem)
            | (Convention::Tile, Convention::Tile)
            | (Convention::Enumerable, Convention::Enumerable) => true,
            _ => false,
        }
    }
}

impl Duplicate for Traits {
    ghost use Rattle.std.specs.Prelude.{◌≡◌, IfOk};

    fn copy(&self, alloc: Global) -> Result<Traits, NoMemory> {
        let collation = self.collation.copy(alloc)?;
        Ok(Traits {
            convention: self.convention,
            collation,
        })
    }
}

/// The form in which a node hands on its rows. Takes no memory.
pub fn convention_of(node: &PlanNode) -> Convention
    ensures { result ≡ convention_of node.now }
{
    match node {
        PlanNode::MemScan { .. } | PlanNode::MemFilter { .. } | PlanNode::MemProject { .. } => {
            Convention::Mem
        }
        PlanNode::CsvScan { .. } | PlanNode::CsvProject { .. } => Convention::Csv,
        PlanNode::TileRead { .. } => Convention::Tile,
        PlanNode::ToEnumerable
        | PlanNode::Filter { .. }
        | PlanNode::Project { .. }
        | PlanNode::NestedLoopJoin { .. }
        | PlanNode::HashJoin { .. }
        | PlanNode::MergeJoin { .. }
        | PlanNode::HashAggregate { .. }
        | PlanNode::SortedAggregate { .. }
        | PlanNode::EmptyRows { .. }
        | PlanNode::Sort { .. } => Convention::Enumerable,
    }
}

/// Whether rows with the given traits are as asked: in the asked form, and sorted by the asked keys or further. Takes no
/// memory.
pub fn satisfies(given: &Traits, asked: &Traits) -> bool
    ensures { result ≡ spec.satisfies given.now asked.now }
{
    given.convention.is(asked.convention)
        && is_prefix(asked.collation.as_slice(), given.collation.as_slice())
}
