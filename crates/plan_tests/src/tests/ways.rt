use cal_expr::Expr;
use cal_rel::{AggCall, JoinKind, PlanInfo, Rel, RelType};
use cal_schema::{AdapterKind, Schema, TableDef, TileInfo, TileKey};
use cal_value::{
    Collation, Duplicate, Interval, KeyOrder, List, NoMemory, Op, SqlText, SqlType, Value,
};
use memo_sets::Member;
use phys_plan::{Alternative, Ask, Space, State, Want, Way, alternatives_of, same_state, ways_of};
use plan_nodes::PlanNode;
use std::alloc::Global;
use std::test::Fail;

// ---- a space: two tables, a tile, and a set for each form of member

fn table(alloc: Global, adapter: AdapterKind) -> Result<TableDef, Fail> {
    Ok(TableDef {
        schema: SqlText::of(alloc, "S")?,
        name: SqlText::of(alloc, "T")?,
        columns: List::new(alloc),
        adapter,
        file: SqlText::of(alloc, "")?,
        max_rows: 10,
        primary_key: List::new(alloc),
    })
}

fn schema(alloc: Global) -> Result<Schema, Fail> {
    let mut tables = List::new(alloc);
    tables.push(table(alloc, AdapterKind::Mem)?)?;
    tables.push(table(alloc, AdapterKind::Csv)?)?;
    Ok(Schema {
        default_schema: None,
        tables,
    })
}

fn tiles(alloc: Global) -> Result<List<TileInfo>, NoMemory> {
    let key = TileKey {
        lattice: 0,
        dims: 1,
        measures: [None; 8],
    };
    let mut tiles = List::new(alloc);
    tiles.push(TileInfo {
        instance: 6,
        key,
        rows: 2,
        versions: List::new(alloc),
    })?;
    Ok(tiles)
}

// Sets 0 and 1 have three columns.
fn types(alloc: Global) -> Result<List<Option<RelType>>, NoMemory> {
    let mut types = List::new(alloc);
    for _ in 0..2u32 {
        let mut columns = List::new(alloc);
        for _ in 0..3u32 {
            columns.push(SqlType::integer(false, Interval::Range { lo: 1, hi: 9 }))?;
        }
        types.push(Some(RelType { columns, bound: 9 }))?;
    }
    Ok(types)
}

fn over(alloc: Global, input: u32, predicate: Expr) -> Result<Rel, NoMemory> {
    Rel::filter(alloc, Rel::Hole(input), predicate)
}

fn number(n: i128) -> Expr {
    Expr::Literal(Value::Int(n))
}

// A column is 1.
fn is_one(alloc: Global, op: Op, column: u32) -> Result<Expr, NoMemory> {
    Expr::binary(alloc, op, Expr::Column(column), number(1))
}

fn two_tests(alloc: Global) -> Result<Expr, NoMemory> {
    let left = is_one(alloc, Op::Less, 0)?;
    let right = is_one(alloc, Op::Equal, 1)?;
    Expr::binary(alloc, Op::And, left, right)
}

fn test_and_true(alloc: Global) -> Result<Expr, NoMemory> {
    let left = is_one(alloc, Op::Equal, 0)?;
    Expr::binary(alloc, Op::And, left, Expr::Literal(Value::Bool(true)))
}

fn filtered(alloc: Global, set: u32) -> Result<Rel, NoMemory> {
    let predicate = match set {
        2 => is_one(alloc, Op::Equal, 0)?,
        3 => Expr::binary(alloc, Op::Equal, number(1), Expr::Column(0))?,
        4 => test_and_true(alloc)?,
        5 => Expr::binary(alloc, Op::Equal, Expr::Column(0), Expr::Column(1))?,
        _ => two_tests(alloc)?,
    };
    over(alloc, 0, predicate)
}

fn projected(alloc: Global, second: Expr) -> Result<Rel, NoMemory> {
    let mut items = List::new(alloc);
    items.push(Expr::Column(1))?;
    items.push(second)?;
    Rel::project(alloc, Rel::Hole(0), items)
}

fn join(alloc: Global, kind: JoinKind, on: Expr) -> Result<Rel, NoMemory> {
    Rel::join(alloc, kind, Rel::Hole(0), Rel::Hole(1), on)
}

fn equated(alloc: Global, kind: JoinKind) -> Result<Rel, NoMemory> {
    let on = Expr::binary(alloc, Op::Equal, Expr::Column(0), Expr::Column(4))?;
    join(alloc, kind, on)
}

fn grouped(alloc: Global) -> Result<Rel, NoMemory> {
    let mut groups = List::new(alloc);
    groups.push(2)?;
    Rel::aggregate(alloc, Rel::Hole(0), groups, List::new(alloc))
}

fn other(alloc: Global, set: u32) -> Result<Rel, NoMemory> {
    match set {
        0 => Ok(Rel::Scan(0)),
        1 => Ok(Rel::Scan(1)),
        13 => grouped(alloc),
        14 => Ok(Rel::Empty(List::new(alloc))),
        15 => Ok(Rel::StarScan { lattice: 0 }),
        16 => Ok(Rel::TileScan(0)),
        _ => Ok(Rel::Scan(9)),
    }
}

fn member(alloc: Global, set: u32) -> Result<Rel, NoMemory> {
    match set {
        2..=6 => filtered(alloc, set),
        7 => projected(alloc, Expr::Column(0)),
        8 => projected(alloc, Expr::Column(1)),
        9 => projected(alloc, number(1)),
        10 => equated(alloc, JoinKind::Inner),
        11 => equated(alloc, JoinKind::Left),
        12 => join(alloc, JoinKind::Inner, Expr::Literal(Value::Bool(true))),
        _ => other(alloc, set),
    }
}

// Of the sets 0 to 17, and one more of the set 14.
fn members(alloc: Global) -> Result<List<Member>, NoMemory> {
    let mut members = List::new(alloc);
    for set in 0..18u32 {
        let rel = member(alloc, set)?;
        members.push(Member { set, rel })?;
    }
    let rel = Rel::Scan(1);
    members.push(Member { set: 14, rel })?;
    Ok(members)
}

fn estimates(alloc: Global) -> Result<List<u128>, NoMemory> {
    const ROWS: [u128; 17] = [10, 20, 4, 4, 4, 4, 4, 10, 10, 10, 40, 40, 200, 3, 0, 8, 2];
    Ok(List::from_vec(Vec::from_array(alloc, ROWS)?))
}

fn lens(alloc: Global) -> Result<List<u64>, NoMemory> {
    Ok(List::from_vec(Vec::from_array(alloc, [5, 7])?))
}

// ---- what is compared

// A set, a kind, and the columns of an order.
type Asked = Option<(u32, Want, &'static [u32])>;

fn name(node: &PlanNode) -> &'static str {
    match node {
        PlanNode::MemScan { .. } => "MemScan",
        PlanNode::CsvScan { .. } => "CsvScan",
        PlanNode::TileRead { .. } => "TileRead",
        PlanNode::MemFilter { .. } => "MemFilter",
        PlanNode::MemProject { .. } => "MemProject",
        PlanNode::CsvProject { .. } => "CsvProject",
        PlanNode::ToEnumerable => "ToEnumerable",
        PlanNode::Filter { .. } => "Filter",
        PlanNode::Project { .. } => "Project",
        PlanNode::NestedLoopJoin { .. } => "NestedLoopJoin",
        PlanNode::HashJoin { .. } => "HashJoin",
        PlanNode::MergeJoin { .. } => "MergeJoin",
        PlanNode::HashAggregate { .. } => "HashAggregate",
        PlanNode::SortedAggregate { .. } => "SortedAggregate",
        PlanNode::EmptyRows { .. } => "EmptyRows",
        PlanNode::Sort { .. } => "Sort",
    }
}

fn is_by(order: &Collation, columns: &[u32]) -> bool {
    let keys = order.as_slice();
    keys.len() == columns.len()
        && keys
            .iter()
            .zip(columns)
            .all(|(key, column)| key.column == *column)
}

fn is_asked(ask: &Option<Ask>, wanted: Asked) -> bool {
    match (ask, wanted) {
        (None, None) => true,
        (Some(ask), Some((set, want, columns))) => {
            ask.set == set && ask.want == want && is_by(&ask.order, columns)
        }
        _ => false,
    }
}

fn ascending(alloc: Global, columns: &[u32]) -> Result<Collation, NoMemory> {
    let mut order = List::new(alloc);
    for column in columns {
        order.push(KeyOrder {
            column: *column,
            descending: false,
            nulls_first: false,
        })?;
    }
    Ok(order)
}

// ---- ways

type Row = (&'static str, Asked, Asked);

const ANY: &[u32] = &[];

const LEFT: Asked = Some((0, Want::Rows, ANY));

const RIGHT: Asked = Some((1, Want::Rows, ANY));

// What it shows, a set, the order that is asked, and the roots of its plans behind the three that make rows of kept ones.
const WAYS: &[(&str, u32, &[u32], &[Row])] = &[
    ("table in memory", 0, ANY, &[("MemScan", None, None)]),
    ("table in a file", 1, ANY, &[("CsvScan", None, None)]),
    (
        "in an order",
        1,
        &[2, 0],
        &[("Sort", RIGHT, None), ("CsvScan", None, None)],
    ),
    (
        "column, comparison, literal",
        2,
        ANY,
        &[
            ("Filter", LEFT, None),
            ("MemFilter", Some((0, Want::MemScanned, ANY)), None),
        ],
    ),
    (
        "literal, comparison, column",
        3,
        ANY,
        &[("Filter", LEFT, None)],
    ),
    ("TRUE among conjuncts", 4, ANY, &[("Filter", LEFT, None)]),
    ("two columns compared", 5, ANY, &[("Filter", LEFT, None)]),
    (
        "two tests",
        6,
        ANY,
        &[
            ("Filter", LEFT, None),
            ("MemFilter", Some((0, Want::MemScanned, ANY)), None),
        ],
    ),
    (
        "different columns",
        7,
        ANY,
        &[
            ("Project", LEFT, None),
            ("MemProject", Some((0, Want::MemFiltered, ANY)), None),
            ("CsvProject", Some((0, Want::CsvScanned, ANY)), None),
        ],
    ),
    ("column repeated", 8, ANY, &[("Project", LEFT, None)]),
    ("item that is no column", 9, ANY, &[("Project", LEFT, None)]),
    (
        "join with a pair",
        10,
        ANY,
        &[
            ("NestedLoopJoin", LEFT, RIGHT),
            ("HashJoin", LEFT, RIGHT),
            (
                "MergeJoin",
                Some((0, Want::Rows, &[0])),
                Some((1, Want::Rows, &[1])),
            ),
        ],
    ),
    (
        "LEFT join with a pair",
        11,
        ANY,
        &[("NestedLoopJoin", LEFT, RIGHT), ("HashJoin", LEFT, RIGHT)],
    ),
    (
        "join without pairs",
        12,
        ANY,
        &[("NestedLoopJoin", LEFT, RIGHT)],
    ),
    (
        "groups",
        13,
        ANY,
        &[
            ("HashAggregate", LEFT, None),
            ("SortedAggregate", Some((0, Want::Rows, &[2])), None),
        ],
    ),
    (
        "two members",
        14,
        ANY,
        &[("EmptyRows", None, None), ("CsvScan", None, None)],
    ),
    ("star", 15, ANY, &[]),
    ("tile", 16, ANY, &[("TileRead", None, None)]),
    ("table that isn't there", 17, ANY, &[]),
    ("set that isn't there", 18, ANY, &[]),
];

fn is_way(way: &Way, row: &Row) -> bool {
    let (wanted, first, second) = *row;
    name(&way.node) == wanted && is_asked(&way.first, first) && is_asked(&way.second, second)
}

fn is_converter(way: &Way, set: u32, want: Want) -> bool {
    is_way(way, &("ToEnumerable", Some((set, want, ANY)), None))
}

fn are_ways(ways: &[Way], set: u32, rows: &[Row]) -> bool {
    match ways {
        [mem, csv, tiled, ways @ ..] => {
            is_converter(mem, set, Want::MemKept)
                && is_converter(csv, set, Want::CsvKept)
                && is_converter(tiled, set, Want::Tiled)
                && ways.len() == rows.len()
                && ways.iter().zip(rows).all(|(way, row)| is_way(way, row))
        }
        _ => false,
    }
}

fn has_ways(
    alloc: Global,
    space: &Space,
    set: u32,
    order: &[u32],
    rows: &[Row],
) -> Result<bool, NoMemory> {
    let order = ascending(alloc, order)?;
    let ways = ways_of(alloc, space, set, order.as_slice())?;
    Ok(are_ways(ways.as_slice(), set, rows))
}

#[test]
fn ways_of_members(rt: HostRuntime) -> Result<(), Fail> {
    let alloc = rt.alloc();
    let (schema, tiles, types, members) = (
        schema(alloc)?,
        tiles(alloc)?,
        types(alloc)?,
        members(alloc)?,
    );
    let space = Space {
        members: &members,
        info: PlanInfo::new(&schema, &tiles, &types),
        estimates: estimates(alloc)?,
        tables: lens(alloc)?,
    };
    for (name, set, order, rows) in WAYS {
        let same = has_ways(alloc, &space, *set, order, rows)?;
        assert!(rt; same, "{name}");
    }
    Ok(())
}

// ---- alternatives

// A node with the rows of its part and its weight, and what is asked and needed of each input.
type Wanted = (&'static str, u64, u128, Needed, Needed);

// A set, a kind, and the columns of the asked and of the needed order.
type Needed = Option<(u32, Want, &'static [u32], &'static [u32])>;

const ONE: &[u32] = &[0];

const NO: Needed = None;

// Of a set the estimate, a kind, the columns of the asked and of the needed order, and the alternatives behind as many
// converters.
type Case = (
    &'static str,
    (u32, u128),
    Want,
    &'static [u32],
    &'static [u32],
    usize,
    &'static [Wanted],
);

const STATES: &[Case] = &[
    (
        "table in memory",
        (0, 10),
        Want::MemKept,
        ANY,
        ANY,
        0,
        &[("MemScan", 5, 7, NO, NO)],
    ),
    (
        "table in a file",
        (1, 20),
        Want::CsvScanned,
        ANY,
        ANY,
        0,
        &[("CsvScan", 7, 17, NO, NO)],
    ),
    (
        "tile",
        (16, 2),
        Want::Tiled,
        ANY,
        ANY,
        0,
        &[("TileRead", 2, 3, NO, NO)],
    ),
    ("scan in an order", (0, 10), Want::MemKept, ANY, ONE, 0, &[]),
    (
        "filter of a table in memory",
        (2, 4),
        Want::MemFiltered,
        ANY,
        ANY,
        0,
        &[("MemFilter", 0, 1, Some((0, Want::MemScanned, ANY, ANY)), NO)],
    ),
    (
        "filter that is no scan",
        (2, 4),
        Want::MemScanned,
        ANY,
        ANY,
        0,
        &[],
    ),
    (
        "items of a file",
        (7, 10),
        Want::CsvKept,
        ANY,
        ANY,
        0,
        &[(
            "CsvProject",
            0,
            1,
            Some((0, Want::CsvScanned, ANY, ANY)),
            NO,
        )],
    ),
    (
        "order through a filter",
        (2, 4),
        Want::Rows,
        ONE,
        ONE,
        3,
        &[
            ("Sort", 0, 13, Some((2, Want::Rows, ANY, ANY)), NO),
            ("Filter", 0, 11, Some((0, Want::Rows, ANY, ONE)), NO),
        ],
    ),
    (
        "order through items",
        (7, 10),
        Want::Rows,
        ANY,
        ONE,
        3,
        &[("Project", 0, 11, Some((0, Want::Rows, ANY, &[1])), NO)],
    ),
    (
        "join in an order",
        (10, 40),
        Want::Rows,
        ANY,
        ONE,
        3,
        &[
            (
                "NestedLoopJoin",
                0,
                231,
                Some((0, Want::Rows, ANY, ONE)),
                Some((1, Want::Rows, ANY, ANY)),
            ),
            (
                "MergeJoin",
                0,
                71,
                Some((0, Want::Rows, ONE, ONE)),
                Some((1, Want::Rows, &[1], &[1])),
            ),
        ],
    ),
    (
        "groups in an order",
        (13, 3),
        Want::Rows,
        ANY,
        ONE,
        3,
        &[(
            "SortedAggregate",
            0,
            14,
            Some((0, Want::Rows, &[2], &[2])),
            NO,
        )],
    ),
];

fn state(
    alloc: Global,
    set: u32,
    want: Want,
    order: &[u32],
    need: &[u32],
) -> Result<State, NoMemory> {
    let order = ascending(alloc, order)?;
    let need = ascending(alloc, need)?;
    let ask = Ask { set, want, order };
    Ok(State { ask, need })
}

// Compared with a copy of its own, too.
fn is_needed(alloc: Global, found: &Option<State>, wanted: Needed) -> Result<bool, NoMemory> {
    match (found, wanted) {
        (None, None) => Ok(true),
        (Some(found), Some((set, want, order, need))) => {
            let wanted = state(alloc, set, want, order, need)?;
            let copy = found.copy(alloc)?;
            Ok(same_state(found, &wanted) && same_state(&copy, found))
        }
        _ => Ok(false),
    }
}

fn is_alternative(
    alloc: Global,
    found: &Alternative,
    rows: u128,
    wanted: &Wanted,
) -> Result<bool, NoMemory> {
    let (node, part, weight, first, second) = *wanted;
    let first = is_needed(alloc, &found.first, first)?;
    let second = is_needed(alloc, &found.second, second)?;
    let numbers = found.rows == rows && found.part_rows == part && found.weight == weight;
    Ok(name(&found.node) == node && numbers && first && second)
}

fn are_alternatives(
    alloc: Global,
    found: &[Alternative],
    rows: u128,
    wanted: &[Wanted],
) -> Result<bool, NoMemory> {
    for (found, wanted) in found.iter().zip(wanted) {
        if !is_alternative(alloc, found, rows, wanted)? {
            return Ok(false);
        }
    }
    Ok(found.len() == wanted.len())
}

fn are_converters(found: &[Alternative], rows: u128) -> bool {
    found.iter().all(|a| name(&a.node) == "ToEnumerable"
        && a.rows == rows
        && a.weight == rows.saturating_add(1))
}

fn has_alternatives(alloc: Global, space: &Space, case: &Case) -> Result<bool, NoMemory> {
    let (_, (set, rows), want, order, need, converters, wanted) = *case;
    let state = state(alloc, set, want, order, need)?;
    let found = alternatives_of(alloc, space, &state)?;
    if found.len() < converters {
        return Ok(false);
    }
    let (first, others) = found.as_slice().split_at(converters);
    Ok(are_converters(first, rows) && are_alternatives(alloc, others, rows, wanted)?)
}

#[test]
fn alternatives_of_states(rt: HostRuntime) -> Result<(), Fail> {
    let alloc = rt.alloc();
    let (schema, tiles, types, members) = (
        schema(alloc)?,
        tiles(alloc)?,
        types(alloc)?,
        members(alloc)?,
    );
    let space = Space {
        members: &members,
        info: PlanInfo::new(&schema, &tiles, &types),
        estimates: estimates(alloc)?,
        tables: lens(alloc)?,
    };
    for case in STATES {
        let same = has_alternatives(alloc, &space, case)?;
        assert!(rt; same, "{}", case.0);
    }
    Ok(())
}
