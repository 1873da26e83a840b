use crate::estimate;
use cal_expr::Expr;
use cal_rel::{JoinKind, PlanInfo, Rel, RelType};
use cal_schema::{AdapterKind, ColumnDef, Measure, Schema, TableDef, TileInfo, TileKey};
use cal_snapshot::Snapshot;
use cal_value::{Agg, List, NoMemory, Op, Row, SqlText, SqlType, Value};
use std::alloc::Global;
use std::sync::Arc;
use std::test::Fail;

// ---- trees as words: the inputs of a node, then the node

// A tree, and how many rows it is thought to have. Tables 0 to 3 have one column and 0, 1, 2 and 7 rows, tiles 0 to 2 have 2^50, 2^50 - 1 and
// 2^64 - 1. Behind a join stands its condition.
const ESTIMATES: &[(&str, u128)] = &[
    ("T0", 0),
    ("T1", 1),
    ("T2", 2),
    ("T3", 7),
    ("T4", 0),
    ("I0", 1125899906842624),
    ("I2", 18446744073709551615),
    ("I3", 0),
    ("S0", 0),
    ("H0", 0),
    ("empty", 0),
    ("T0 filter", 0),
    ("T1 filter", 1),
    ("T2 filter", 1),
    ("T3 filter", 4),
    ("T3 filter filter", 2),
    ("T0 project", 0),
    ("T1 project", 1),
    ("T2 project", 2),
    ("T3 project", 7),
    ("T0 group", 0),
    ("T1 group", 1),
    ("T2 group", 1),
    ("T3 group", 4),
    ("T0 all", 1),
    ("T1 all", 1),
    ("T2 all", 1),
    ("T3 all", 1),
    ("H0 all", 1),
    ("T0 T0 inner:pair", 0),
    ("T0 T3 inner:pair", 7),
    ("T1 T1 inner:pair", 1),
    ("T2 T3 inner:pair", 7),
    ("T3 T2 inner:pair", 7),
    ("T0 T3 inner:true", 0),
    ("T1 T3 inner:true", 7),
    ("T2 T3 inner:true", 14),
    ("T3 T2 inner:true", 14),
    ("T0 T3 left:pair", 7),
    ("T2 T3 left:pair", 7),
    ("T3 T2 left:pair", 7),
    ("T0 T3 left:true", 0),
    ("T3 T0 left:true", 7),
    ("T3 T2 left:true", 14),
    ("T2 T3 inner:turned", 7),
    ("T2 T3 inner:among", 7),
    ("T2 T3 inner:either", 14),
    ("T2 T3 inner:less", 14),
    ("T2 T3 inner:within", 14),
    ("T2 T3 inner:literal", 14),
    ("T1 T2 inner:true T3 inner:pair", 14),
    ("T1 T2 inner:true T3 inner:later", 7),
    ("T1 T2 T3 inner:pair inner:pair", 7),
    ("H0 T3 inner:pair", 7),
    ("empty T3 inner:pair", 7),
    ("T3 group T2 inner:pair", 4),
    ("T3 project T2 inner:pair", 7),
    ("T3 filter T2 inner:pair", 4),
    ("I0 I1 inner:true", 1267650600228228275596796362752),
    ("I0 I0 inner:true", 1267650600228229401496703205376),
    ("I2 I2 inner:true", 1267650600228229401496703205376),
    ("I2 I2 left:true", 1267650600228229401496703205376),
    (
        "I2 I2 inner:true I2 I2 inner:true inner:true",
        1267650600228229401496703205376,
    ),
    ("I2 I2 inner:true project", 1267650600228229401496703205376),
    ("I2 I2 inner:true filter", 633825300114114700748351602688),
    ("I2 I2 inner:true group", 633825300114114700748351602688),
    ("I2 I2 inner:true T0 inner:true", 0),
];

fn equation(alloc: Global, left: u32, right: u32) -> Result<Expr, NoMemory> {
    Expr::binary(alloc, Op::Equal, Expr::Column(left), Expr::Column(right))
}

fn both(alloc: Global, op: Op, left: u32, right: u32) -> Result<Expr, NoMemory> {
    let first = equation(alloc, left, left)?;
    let second = equation(alloc, left, right)?;
    Expr::binary(alloc, op, first, second)
}

fn condition(alloc: Global, name: &str) -> Result<Expr, NoMemory> {
    match name {
        "pair" => equation(alloc, 0, 1),
        "turned" => equation(alloc, 1, 0),
        "later" => equation(alloc, 1, 2),
        "within" => equation(alloc, 0, 0),
        "among" => both(alloc, Op::And, 0, 1),
        "either" => both(alloc, Op::Or, 0, 1),
        "less" => Expr::binary(alloc, Op::Less, Expr::Column(0), Expr::Column(1)),
        "literal" => {
            let one = Expr::Literal(Value::Int(1));
            Expr::binary(alloc, Op::Equal, Expr::Column(0), one)
        }
        _ => Ok(Expr::Literal(Value::Bool(true))),
    }
}

fn list_of<T: Drop, const N: usize>(alloc: Global, items: [T; N]) -> Result<List<T>, NoMemory> {
    Ok(List::from_vec(Vec::from_array(alloc, items)?))
}

// ---- nodes over the trees so far

fn filtered(alloc: Global, trees: &mut List<Rel>) -> Result<(), NoMemory> {
    match trees.pop() {
        Some(input) => trees.push(Rel::filter(alloc, input, Expr::Column(0))?),
        None => Ok(()),
    }
}

fn projected(alloc: Global, trees: &mut List<Rel>) -> Result<(), NoMemory> {
    let items = list_of(alloc, [Expr::Column(0)])?;
    match trees.pop() {
        Some(input) => trees.push(Rel::project(alloc, input, items)?),
        None => Ok(()),
    }
}

fn grouped(alloc: Global, trees: &mut List<Rel>, groups: List<u32>) -> Result<(), NoMemory> {
    match trees.pop() {
        Some(input) => trees.push(Rel::aggregate(alloc, input, groups, List::new(alloc))?),
        None => Ok(()),
    }
}

fn joined(
    alloc: Global,
    trees: &mut List<Rel>,
    kind: JoinKind,
    on: Expr,
    right: Rel,
) -> Result<(), NoMemory> {
    match trees.pop() {
        Some(left) => trees.push(Rel::join(alloc, kind, left, right, on)?),
        None => Ok(()),
    }
}

fn joined_on(
    alloc: Global,
    trees: &mut List<Rel>,
    kind: JoinKind,
    on: &str,
) -> Result<(), NoMemory> {
    let on = condition(alloc, on)?;
    match trees.pop() {
        Some(right) => joined(alloc, trees, kind, on, right),
        None => Ok(()),
    }
}

// A number behind this letter.
fn number_after(word: &str, letter: char) -> Option<u32> {
    word.strip_prefix(letter)?.parse::<u32>().ok()
}

fn leaf(alloc: Global, word: &str) -> Result<Rel, NoMemory> {
    if let Some(table) = number_after(word, 'T') {
        return Ok(Rel::Scan(table));
    }
    if let Some(at) = number_after(word, 'I') {
        return Ok(Rel::TileScan(at));
    }
    if let Some(lattice) = number_after(word, 'S') {
        return Ok(Rel::StarScan { lattice });
    }
    if let Some(set) = number_after(word, 'H') {
        return Ok(Rel::Hole(set));
    }
    Ok(Rel::Empty(list_of(alloc, [SqlType::boolean(true)])?))
}

fn push_node(alloc: Global, trees: &mut List<Rel>, word: &str) -> Result<(), NoMemory> {
    match word {
        "filter" => filtered(alloc, trees),
        "project" => projected(alloc, trees),
        "group" => grouped(alloc, trees, list_of(alloc, [0])?),
        "all" => grouped(alloc, trees, List::new(alloc)),
        _ => trees.push(leaf(alloc, word)?),
    }
}

fn push_word(alloc: Global, trees: &mut List<Rel>, word: &str) -> Result<(), NoMemory> {
    match word.split_once(':') {
        Some(("left", on)) => joined_on(alloc, trees, JoinKind::Left, on),
        Some((_, on)) => joined_on(alloc, trees, JoinKind::Inner, on),
        None => push_node(alloc, trees, word),
    }
}

fn trees_of(alloc: Global, text: &str) -> Result<List<Rel>, NoMemory> {
    let mut trees = List::new(alloc);
    for word in text.split(' ') {
        push_word(alloc, &mut trees, word)?;
    }
    Ok(trees)
}

// ---- four tables of one column, three tiles, and a set

fn no_name(alloc: Global) -> SqlText {
    SqlText::from_characters(Vec::new(alloc))
}

fn table(alloc: Global) -> Result<TableDef, NoMemory> {
    let column = ColumnDef {
        name: no_name(alloc),
        kind: SqlType::boolean(true),
    };
    Ok(TableDef {
        schema: no_name(alloc),
        name: no_name(alloc),
        columns: list_of(alloc, [column])?,
        adapter: AdapterKind::Mem,
        file: no_name(alloc),
        max_rows: 9,
        primary_key: List::new(alloc),
    })
}

fn schema(alloc: Global) -> Result<Schema, NoMemory> {
    let mut tables = List::new(alloc);
    for _ in 0..4u8 {
        tables.push(table(alloc)?)?;
    }
    Ok(Schema {
        default_schema: None,
        tables,
    })
}

fn tile(alloc: Global, rows: u64) -> TileInfo {
    let count = Some(Measure {
        agg: Agg::Count,
        column: None,
    });
    let key = TileKey {
        lattice: 0,
        dims: 0,
        measures: [count, None, None, None, None, None, None, None],
    };
    TileInfo {
        instance: 5,
        key,
        rows,
        versions: List::new(alloc),
    }
}

fn tiles(alloc: Global) -> Result<List<TileInfo>, NoMemory> {
    let mut tiles = List::new(alloc);
    for rows in [1125899906842624, 1125899906842623, u64::MAX] {
        tiles.push(tile(alloc, rows))?;
    }
    Ok(tiles)
}

fn sets(alloc: Global) -> Result<List<Option<RelType>>, NoMemory> {
    let columns = list_of(alloc, [SqlType::boolean(true)])?;
    list_of(alloc, [Some(RelType { columns, bound: 9 })])
}

fn rows(alloc: Global, count: u8) -> Result<Arc<List<Row>>, NoMemory> {
    let mut rows = List::new(alloc);
    for _ in 0..count {
        let row = list_of(alloc, [Value::Bool(true)])?;
        rows.push(row)?;
    }
    Ok(Arc::new(alloc, rows)?)
}

fn snapshot(alloc: Global) -> Result<Snapshot, NoMemory> {
    let mut tables = List::new(alloc);
    for count in [0, 1, 2, 7] {
        tables.push(rows(alloc, count)?)?;
    }
    Snapshot::start(alloc, tables)
}

// The estimate of the one tree of these words.
fn estimate_of(
    alloc: Global,
    info: &PlanInfo,
    snapshot: &Snapshot,
    text: &str,
) -> Result<Option<u128>, NoMemory> {
    let trees = trees_of(alloc, text)?;
    match trees.as_slice() {
        [tree] => Ok(Some(estimate(tree, info, snapshot))),
        _ => Ok(None),
    }
}

fn first_wrong(
    alloc: Global,
    info: &PlanInfo,
    snapshot: &Snapshot,
) -> Result<&'static str, NoMemory> {
    for (text, rows) in ESTIMATES {
        if estimate_of(alloc, info, snapshot, text)? != Some(*rows) {
            return Ok(text);
        }
    }
    Ok("")
}

#[test]
fn estimates_of_trees(rt: HostRuntime) -> Result<(), Fail> {
    let alloc = rt.alloc();
    let (schema, tiles) = (schema(alloc)?, tiles(alloc)?);
    let (sets, snapshot) = (sets(alloc)?, snapshot(alloc)?);
    let info = PlanInfo::new(&schema, &tiles, &sets);
    assert_eq!(rt; first_wrong(alloc, &info, &snapshot)?, "");
    Ok(())
}
