//! Spaces as tables: tables with their adapters, columns and rows, sets with their columns and estimates, and members.
use cal_expr::Expr;
use cal_rel::{PlanInfo, Rel};
use cal_schema::{AdapterKind, AggCall, ColumnDef, JoinKind, RelType, Schema, TableDef, TileInfo};
use cal_value::{Agg, Interval, Kind, List, NoMemory, Op, SqlText, SqlType, Value};
use memo_sets::Member;
use sqlite_items::Boxed;
use std::alloc::Global;

const INT: SqlType = SqlType {
    kind: Kind::Integer,
    nullable: true,
    interval: Interval::Range { lo: -9, hi: 9 },
};

/// A member: a node over sets.
#[derive(Clone, Copy)]
pub(crate) enum Node {
    Scan(u32),
    Empty,
    /// The first column is 1.
    Test(u32),
    /// The first column is the second one.
    Same(u32),
    /// These columns.
    Pick(u32, &'static [u32]),
    /// Rows of two sets, where the first column is that column of both.
    Match(JoinKind, u32, u32, u32),
    /// Each row with each.
    Cross(u32, u32),
    /// How many rows there are of each value of these columns.
    Count(u32, &'static [u32]),
}

/// `tables`: adapter, columns, rows. `sets`: columns and estimate of each. `members`: set and node.
#[derive(Clone, Copy)]
pub(crate) struct Given {
    pub(crate) tables: &'static [(AdapterKind, u32, u64)],
    pub(crate) sets: &'static [(u32, u128)],
    pub(crate) members: &'static [(u32, Node)],
}

fn text(alloc: Global, text: &str) -> Result<SqlText, NoMemory> {
    SqlText::of(alloc, text).or(Err(NoMemory))
}

fn columns(alloc: Global, count: u32) -> Result<List<ColumnDef>, NoMemory> {
    let mut columns = List::new(alloc);
    for k in 0..count {
        let name = format!(in alloc; "C{k}")?;
        columns.push(ColumnDef {
            name: text(alloc, name.as_str())?,
            kind: INT,
        })?;
    }
    Ok(columns)
}

fn table(alloc: Global, k: usize, adapter: AdapterKind, count: u32) -> Result<TableDef, NoMemory> {
    let name = format!(in alloc; "T{k}")?;
    Ok(TableDef {
        schema: text(alloc, "S")?,
        name: text(alloc, name.as_str())?,
        columns: columns(alloc, count)?,
        adapter,
        file: text(alloc, "")?,
        max_rows: 1000,
        primary_key: List::new(alloc),
    })
}

pub(crate) fn schema_of(alloc: Global, given: &Given) -> Result<Schema, NoMemory> {
    let mut tables = List::new(alloc);
    for (k, (adapter, count, _)) in given.tables.iter().enumerate() {
        tables.push(table(alloc, k, *adapter, *count)?)?;
    }
    Ok(Schema {
        default_schema: None,
        tables,
    })
}

pub(crate) fn rows_of(alloc: Global, given: &Given) -> Result<List<u64>, NoMemory> {
    let mut all = List::new(alloc);
    for (_, _, rows) in given.tables {
        all.push(*rows)?;
    }
    Ok(all)
}

pub(crate) fn types_of(alloc: Global, given: &Given) -> Result<List<Option<RelType>>, NoMemory> {
    let mut all = List::new(alloc);
    for (count, _) in given.sets {
        let columns = List::from_vec(vec![in alloc; INT; *count as usize]?);
        all.push(Some(RelType {
            columns,
            bound: 1000,
        }))?;
    }
    Ok(all)
}

pub(crate) fn estimates_of(alloc: Global, given: &Given) -> Result<List<u128>, NoMemory> {
    let mut all = List::new(alloc);
    for (_, estimate) in given.sets {
        all.push(*estimate)?;
    }
    Ok(all)
}

fn equal(alloc: Global, left: Expr, right: Expr) -> Result<Expr, NoMemory> {
    let left = Boxed::new(alloc, left)?;
    let right = Boxed::new(alloc, right)?;
    Ok(Expr::Binary {
        op: Op::Equal,
        left,
        right,
    })
}

fn picked(alloc: Global, columns: &[u32]) -> Result<List<Expr>, NoMemory> {
    let mut items = List::new(alloc);
    for column in columns {
        items.push(Expr::Column(*column))?;
    }
    Ok(items)
}

fn matched(alloc: Global, kind: JoinKind, j: u32, k: u32, column: u32) -> Result<Rel, NoMemory> {
    let on = equal(alloc, Expr::Column(0), Expr::Column(column))?;
    Rel::join(alloc, kind, Rel::Hole(j), Rel::Hole(k), on)
}

fn counted(alloc: Global, k: u32, columns: &[u32]) -> Result<Rel, NoMemory> {
    let mut groups = List::new(alloc);
    for column in columns {
        groups.push(*column)?;
    }
    let mut calls = List::new(alloc);
    calls.push(AggCall {
        agg: Agg::Count,
        argument: None,
    })?;
    Rel::aggregate(alloc, Rel::Hole(k), groups, calls)
}

fn rel_of(alloc: Global, node: Node) -> Result<Rel, NoMemory> {
    match node {
        Node::Scan(table) => Ok(Rel::Scan(table)),
        Node::Empty => Ok(Rel::Empty(List::new(alloc))),
        Node::Test(k) => {
            let test = equal(alloc, Expr::Column(0), Expr::Literal(Value::Int(1)))?;
            Rel::filter(alloc, Rel::Hole(k), test)
        }
        Node::Same(k) => {
            let test = equal(alloc, Expr::Column(0), Expr::Column(1))?;
            Rel::filter(alloc, Rel::Hole(k), test)
        }
        Node::Pick(k, columns) => {
            let items = picked(alloc, columns)?;
            Rel::project(alloc, Rel::Hole(k), items)
        }
        Node::Match(kind, j, k, column) => matched(alloc, kind, j, k, column),
        Node::Cross(j, k) => {
            let all = Expr::Literal(Value::Bool(true));
            Rel::join(alloc, JoinKind::Inner, Rel::Hole(j), Rel::Hole(k), all)
        }
        Node::Count(k, columns) => counted(alloc, k, columns),
    }
}

pub(crate) fn members_of(alloc: Global, given: &Given) -> Result<List<Member>, NoMemory> {
    let mut all = List::new(alloc);
    for (set, node) in given.members {
        let rel = rel_of(alloc, *node)?;
        all.push(Member { set: *set, rel })?;
    }
    Ok(all)
}
