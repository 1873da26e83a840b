use crate::{Planned, find_best};
use cal_expr::Expr;
use cal_rel::{PlanInfo, Rel};
use cal_schema::{AdapterKind, ColumnDef, JoinKind, RelType, Schema, TableDef, TileInfo};
use cal_value::{Collation, Interval, KeyOrder, List, NoMemory, Op, SqlText, SqlType, Value};
use memo_sets::Member;
use phys_plan::Space;
use plan_nodes::{PlanNode, plan_reads};
use std::alloc::Global;
use std::test::Fail;

fn list_of<T: Drop, const N: usize>(alloc: Global, items: [T; N]) -> Result<List<T>, NoMemory> {
    Ok(List::from_vec(Vec::from_array(alloc, items)?))
}

// ---- a table of two columns, kept in memory

fn number() -> SqlType {
    SqlType::integer(false, Interval::Range { lo: 1, hi: 9 })
}

fn column(alloc: Global) -> Result<ColumnDef, Fail> {
    let name = SqlText::of(alloc, "C")?;
    Ok(ColumnDef {
        name,
        kind: number(),
    })
}

fn table(alloc: Global) -> Result<TableDef, Fail> {
    let columns = list_of(alloc, [column(alloc)?, column(alloc)?])?;
    Ok(TableDef {
        schema: SqlText::of(alloc, "")?,
        name: SqlText::of(alloc, "T")?,
        columns,
        adapter: AdapterKind::Mem,
        file: SqlText::of(alloc, "")?,
        max_rows: 4,
        primary_key: List::new(alloc),
    })
}

fn schema(alloc: Global) -> Result<Schema, Fail> {
    let tables = list_of(alloc, [table(alloc)?])?;
    Ok(Schema {
        default_schema: None,
        tables,
    })
}

// ---- members

// Column 1 before column 0.
fn swapped(alloc: Global, set: u32) -> Result<Rel, NoMemory> {
    let items = list_of(alloc, [Expr::Column(1), Expr::Column(0)])?;
    Rel::project(alloc, Rel::Hole(set), items)
}

// Column 0 is 3.
fn threes(alloc: Global, set: u32) -> Result<Rel, NoMemory> {
    let three = Expr::Literal(Value::Int(3));
    let predicate = Expr::binary(alloc, Op::Equal, Expr::Column(0), three)?;
    Rel::filter(alloc, Rel::Hole(set), predicate)
}

// The set with itself, where column 0 is the same.
fn joined(alloc: Global, set: u32) -> Result<Rel, NoMemory> {
    let on = Expr::binary(alloc, Op::Equal, Expr::Column(0), Expr::Column(2))?;
    Rel::join(alloc, JoinKind::Inner, Rel::Hole(set), Rel::Hole(set), on)
}

fn add(members: &mut List<Member>, set: u32, rel: Rel) -> Result<(), NoMemory> {
    members.push(Member { set, rel })
}

// The sets 0 and 1 swap each other's columns, and 0 has the table. The set 2 filters 0, the set 3 filters itself, the sets 4 and 5 join 0.
fn members(alloc: Global) -> Result<List<Member>, NoMemory> {
    let mut members = List::new(alloc);
    add(&mut members, 0, Rel::Scan(0))?;
    add(&mut members, 0, swapped(alloc, 1)?)?;
    add(&mut members, 1, swapped(alloc, 0)?)?;
    add(&mut members, 2, threes(alloc, 0)?)?;
    add(&mut members, 3, threes(alloc, 3)?)?;
    add(&mut members, 4, joined(alloc, 0)?)?;
    add(&mut members, 5, joined(alloc, 0)?)?;
    Ok(members)
}

fn pair(alloc: Global) -> Result<Option<RelType>, NoMemory> {
    let columns = list_of(alloc, [number(), number()])?;
    Ok(Some(RelType { columns, bound: 4 }))
}

fn two_pairs(alloc: Global) -> Result<Option<RelType>, NoMemory> {
    let columns = list_of(alloc, [number(), number(), number(), number()])?;
    Ok(Some(RelType { columns, bound: 16 }))
}

fn types(alloc: Global) -> Result<List<Option<RelType>>, NoMemory> {
    let mut types = List::new(alloc);
    for _ in 0..4u32 {
        types.push(pair(alloc)?)?;
    }
    types.push(two_pairs(alloc)?)?;
    types.push(two_pairs(alloc)?)?;
    Ok(types)
}

// ---- the cheapest plan

fn ascending(alloc: Global, columns: &[u32]) -> Result<Collation, NoMemory> {
    let mut keys = List::new(alloc);
    for column in columns {
        keys.push(KeyOrder {
            column: *column,
            descending: false,
            nulls_first: false,
        })?;
    }
    Ok(keys)
}

// The table has four rows.
fn found(alloc: Global, root: u32, columns: &[u32]) -> Result<Option<Planned>, Fail> {
    let members = members(alloc)?;
    let schema = schema(alloc)?;
    let tiles = List::<TileInfo>::new(alloc);
    let types = types(alloc)?;
    let space = Space {
        members: &members,
        info: PlanInfo::new(&schema, &tiles, &types),
        estimates: list_of(alloc, [4, 4, 1, 4, 4, 100])?,
        tables: list_of(alloc, [4])?,
    };
    let order = ascending(alloc, columns)?;
    Ok(find_best(alloc, &space, root, &order)?)
}

const NONE: u128 = u128::MAX;

// What it shows, the set, the columns by which its rows are sorted, and the cost.
const CASES: &[(&str, u32, &[u32], u128)] = &[
    ("a scan", 0, &[], 11),
    ("sorted", 0, &[0], 24),
    ("projected in memory", 1, &[], 12),
    ("sorted behind a project", 1, &[1], 25),
    ("filtered in memory", 2, &[], 9),
    ("sorted behind a filter", 2, &[1, 0], 11),
    ("only of itself", 3, &[], NONE),
    ("only of itself, sorted", 3, &[0], NONE),
    ("of no member", 6, &[], NONE),
    ("hashed", 4, &[], 43),
    ("hashed and sorted", 4, &[0], 56),
    ("nested loops", 5, &[], 47),
    ("merged", 5, &[0], 157),
    ("nested loops, sorted", 5, &[1], 748),
];

fn cost(found: Option<Planned>) -> u128 {
    match found {
        Some(best) => best.cost,
        None => NONE,
    }
}

#[test]
fn finds_the_least_cost(rt: HostRuntime) -> Result<(), Fail> {
    for (name, root, columns, wanted) in CASES {
        let cost = cost(found(rt.alloc(), *root, columns)?);
        assert_eq!(rt; cost, *wanted, "{name}");
    }
    Ok(())
}

fn is_merge(node: &PlanNode) -> bool {
    match node {
        PlanNode::MergeJoin { .. } => true,
        _ => false,
    }
}

// A merge of two inputs that read eight rows.
fn is_merged(found: Option<Planned>) -> bool {
    match found {
        Some(best) => {
            is_merge(&best.plan.node) && best.plan.inputs.len() == 2 && plan_reads(&best.plan) == 8
        }
        None => false,
    }
}

#[test]
fn tells_the_plan(rt: HostRuntime) -> Result<(), Fail> {
    let best = found(rt.alloc(), 5, &[0])?;
    assert!(rt; is_merged(best));
    Ok(())
}
