use cal_expr::Expr;
use cal_schema::{AggCall, JoinKind};
use cal_value::{Collation, Duplicate, List, NoMemory, SqlType};
use std::alloc::Global;

/// The nodes of plans. A table is named by its number, a tile by its instance. Columns are named by their places from 0,
/// those of a join's right rows behind those of its left rows.
#[derive(Debug, Drop)]
pub enum PlanNode {
    MemScan {
        table: u32,
    },
    CsvScan {
        table: u32,
    },
    TileRead {
        tile: u32,
    },
    MemFilter {
        predicate: Expr,
    },
    MemProject {
        items: List<Expr>,
    },
    CsvProject {
        items: List<Expr>,
    },
    ToEnumerable,
    Filter {
        predicate: Expr,
    },
    Project {
        items: List<Expr>,
    },
    NestedLoopJoin {
        kind: JoinKind,
        on: Expr,
    },
    HashJoin {
        kind: JoinKind,
        on: Expr,
    },
    MergeJoin {
        on: Expr,
    },
    HashAggregate {
        groups: List<u32>,
        calls: List<AggCall>,
    },
    SortedAggregate {
        groups: List<u32>,
        calls: List<AggCall>,
    },
    EmptyRows {
        types: List<SqlType>,
    },
    Sort {
        keys: Collation,
    },
}

impl Duplicate for PlanNode {
    ghost use Rattle.std.specs.Prelude.{◌≡◌, IfOk};

    fn copy(&self, alloc: Global) -> Result<PlanNode, NoMemory> {
        match self {
            PlanNode::MemScan { table } => Ok(PlanNode::MemScan { table: *table }),
            PlanNode::CsvScan { table } => Ok(PlanNode::CsvScan { table: *table }),
            PlanNode::TileRead { tile } => Ok(PlanNode::TileRead { tile: *tile }),
            PlanNode::MemFilter { predicate } => {
                let predicate = predicate.copy(alloc)?;
                Ok(PlanNode::MemFilter { predicate })
            }
            PlanNode::MemProject { items } => {
                let items = items.copy(alloc)?;
                Ok(PlanNode::MemProject { items })
            }
            PlanNode::CsvProject { items } => {
                let items = items.copy(alloc)?;
                Ok(PlanNode::CsvProject { items })
            }
            PlanNode::ToEnumerable => Ok(PlanNode::ToEnumerable),
            PlanNode::Filter { predicate } => {
                let predicate = predicate.copy(alloc)?;
                Ok(PlanNode::Filter { predicate })
            }
            PlanNode::Project { items } => {
                let items = items.copy(alloc)?;
                Ok(PlanNode::Project { items })
            }
            PlanNode::NestedLoopJoin { kind, on } => {
                let on = on.copy(alloc)?;
                Ok(PlanNode::NestedLoopJoin { kind: *kind, on })
            }
            PlanNode::HashJoin { kind, on } => {
                let on = on.copy(alloc)?;
                Ok(PlanNode::HashJoin { kind: *kind, on })
            }
            PlanNode::MergeJoin { on } => {
                let on = on.copy(alloc)?;
                Ok(PlanNode::MergeJoin { on })
            }
            PlanNode::HashAggregate { groups, calls } => {
                let groups = groups.copy(alloc)?;
                let calls = calls.copy(alloc)?;
                Ok(PlanNode::HashAggregate { groups, calls })
            }
            PlanNode::SortedAggregate { groups, calls } => {
                let groups = groups.copy(alloc)?;
                let calls = calls.copy(alloc)?;
                Ok(PlanNode::SortedAggregate { groups, calls })
            }
            PlanNode::EmptyRows { types } => {
                let types = types.copy(alloc)?;
                Ok(PlanNode::EmptyRows { types })
            }
            PlanNode::Sort { keys } => {
                let keys = keys.copy(alloc)?;
                Ok(PlanNode::Sort { keys })
            }
        }
    }
}
