use cal_expr::Expr;
use cal_rel::{AggCall, JoinKind, PlanInfo, Rel, RelType, StarPair, pairs_of, type_of};
use cal_schema::{AdapterKind, ColumnDef, Measure, Schema, TableDef, TileInfo, TileKey};
use cal_value::{Agg, Duplicate, Interval, List, NUMBER_LIMIT, NoMemory, Op, SqlText, SqlType};
use std::alloc::Global;
use std::test::Fail;

fn list_of<T: Drop, const N: usize>(alloc: Global, items: [T; N]) -> Result<List<T>, NoMemory> {
    Ok(List::from_vec(Vec::from_array(alloc, items)?))
}

fn range(lo: i128, hi: i128) -> Interval {
    Interval::Range { lo, hi }
}

fn equation(alloc: Global, left: u32, right: u32) -> Result<Expr, NoMemory> {
    Expr::binary(alloc, Op::Equal, Expr::Column(left), Expr::Column(right))
}

// ---- four tables of three columns, a tile, and a set beside one that is gone

fn key_type() -> SqlType {
    SqlType::integer(false, range(1, 9))
}

fn column(alloc: Global, kind: SqlType) -> Result<ColumnDef, Fail> {
    let name = SqlText::of(alloc, "C")?;
    Ok(ColumnDef { name, kind })
}

fn columns(alloc: Global) -> Result<List<ColumnDef>, Fail> {
    let first = column(alloc, key_type())?;
    let second = column(alloc, SqlType::text(false))?;
    let third = column(alloc, SqlType::boolean(true))?;
    Ok(list_of(alloc, [first, second, third])?)
}

fn table(alloc: Global, max_rows: u64, primary_key: List<u32>) -> Result<TableDef, Fail> {
    let columns = columns(alloc)?;
    let name = SqlText::of(alloc, "T")?;
    Ok(TableDef {
        schema: SqlText::of(alloc, "S")?,
        name,
        columns,
        adapter: AdapterKind::Mem,
        file: SqlText::of(alloc, "")?,
        max_rows,
        primary_key,
    })
}

// Tables of 10, 4, 7 and 5 rows: two with a key of one column, one without, and one with a key of two.
fn schema(alloc: Global) -> Result<Schema, Fail> {
    let first = table(alloc, 10, list_of(alloc, [0])?)?;
    let second = table(alloc, 4, list_of(alloc, [0])?)?;
    let third = table(alloc, 7, List::new(alloc))?;
    let fourth = table(alloc, 5, list_of(alloc, [0, 1])?)?;
    let tables = list_of(alloc, [first, second, third, fourth])?;
    Ok(Schema {
        default_schema: None,
        tables,
    })
}

fn tiles(alloc: Global) -> Result<List<TileInfo>, NoMemory> {
    let count = Some(Measure {
        agg: Agg::Count,
        column: None,
    });
    let key = TileKey {
        lattice: 0,
        dims: 1,
        measures: [count, None, None, None, None, None, None, None],
    };
    let tile = TileInfo {
        instance: 0,
        key,
        rows: 2,
        versions: List::new(alloc),
    };
    list_of(alloc, [tile])
}

fn typed<const N: usize>(
    alloc: Global,
    columns: [SqlType; N],
    bound: u128,
) -> Result<RelType, NoMemory> {
    let columns = list_of(alloc, columns)?;
    Ok(RelType { columns, bound })
}

const MANY: u128 = 100000000000000000000;

fn sets(alloc: Global) -> Result<List<Option<RelType>>, NoMemory> {
    let set = typed(alloc, [SqlType::boolean(true)], MANY)?;
    list_of(alloc, [Some(set), None])
}

#[derive(Drop)]
struct World {
    schema: Schema,
    tiles: List<TileInfo>,
    sets: List<Option<RelType>>,
}

fn small_world(alloc: Global) -> Result<World, Fail> {
    let schema = schema(alloc)?;
    let tiles = tiles(alloc)?;
    let sets = sets(alloc)?;
    Ok(World {
        schema,
        tiles,
        sets,
    })
}

fn type_in(alloc: Global, world: &World, tree: &Rel) -> Result<Option<RelType>, NoMemory> {
    let info = PlanInfo::new(&world.schema, &world.tiles, &world.sets);
    type_of(alloc, tree, &info)
}

fn is_typed(alloc: Global, world: &World, tree: &Rel) -> Result<bool, NoMemory> {
    let t = type_in(alloc, world, tree)?;
    Ok(t.is_some())
}

fn has_type(alloc: Global, world: &World, tree: Rel, wanted: RelType) -> Result<bool, NoMemory> {
    let t = type_in(alloc, world, &tree)?;
    Ok(t == Some(wanted))
}

fn bound_of(alloc: Global, world: &World, tree: Rel) -> Result<Option<u128>, NoMemory> {
    let t = type_in(alloc, world, &tree)?;
    Ok(t.map(|t| t.bound))
}

// ---- small trees

fn project_one(alloc: Global, table: u32, item: u32) -> Result<Rel, NoMemory> {
    let items = list_of(alloc, [Expr::Column(item)])?;
    Rel::project(alloc, Rel::Scan(table), items)
}

fn group_one(alloc: Global, table: u32, group: u32, call: AggCall) -> Result<Rel, NoMemory> {
    let groups = list_of(alloc, [group])?;
    let calls = list_of(alloc, [call])?;
    Rel::aggregate(alloc, Rel::Scan(table), groups, calls)
}

fn equi_join(
    alloc: Global,
    kind: JoinKind,
    left: Rel,
    right: Rel,
    pair: (u32, u32),
) -> Result<Rel, NoMemory> {
    let on = equation(alloc, pair.0, pair.1)?;
    Rel::join(alloc, kind, left, right, on)
}

#[test]
fn leaves_without_a_type(rt: HostRuntime) -> Result<(), Fail> {
    let alloc = rt.alloc();
    let world = small_world(alloc)?;
    for tree in &[
        Rel::Scan(4),
        Rel::TileScan(0),
        Rel::StarScan { lattice: 0 },
        Rel::Hole(1),
        Rel::Hole(2),
    ] {
        assert!(rt; !is_typed(alloc, &world, tree)?);
    }
    for interval in [range(1, 0), range(0, NUMBER_LIMIT)] {
        assert!(rt; !is_listed(alloc, &world, interval)?);
    }
    Ok(())
}

fn is_listed(alloc: Global, world: &World, interval: Interval) -> Result<bool, NoMemory> {
    let types = list_of(alloc, [SqlType::integer(false, interval)])?;
    is_typed(alloc, world, &Rel::Empty(types))
}

fn is_filtered(alloc: Global, world: &World, table: u32, at: u32) -> Result<bool, NoMemory> {
    let tree = Rel::filter(alloc, Rel::Scan(table), Expr::Column(at))?;
    is_typed(alloc, world, &tree)
}

fn is_joined(alloc: Global, world: &World, table: u32, at: u32) -> Result<bool, NoMemory> {
    let (left, right) = (Rel::Scan(1), Rel::Scan(table));
    let tree = Rel::join(alloc, JoinKind::Left, left, right, Expr::Column(at))?;
    is_typed(alloc, world, &tree)
}

fn is_projected(alloc: Global, world: &World, table: u32, item: u32) -> Result<bool, NoMemory> {
    let tree = project_one(alloc, table, item)?;
    is_typed(alloc, world, &tree)
}

fn is_grouped(
    alloc: Global,
    world: &World,
    table: u32,
    group: u32,
    call: AggCall,
) -> Result<bool, NoMemory> {
    let tree = group_one(alloc, table, group, call)?;
    is_typed(alloc, world, &tree)
}

#[test]
fn nodes_without_a_type(rt: HostRuntime) -> Result<(), Fail> {
    let alloc = rt.alloc();
    let world = small_world(alloc)?;
    // BOOLEAN, of another kind, past the end, and over no table
    for (table, at, wanted) in [(0, 2, true), (0, 1, false), (0, 6, false), (4, 2, false)] {
        assert_eq!(rt; is_filtered(alloc, &world, table, at)?, wanted);
        assert_eq!(rt; is_joined(alloc, &world, table, at)?, wanted);
    }
    for (table, at) in [(0, 3), (4, 0)] {
        assert!(rt; !is_projected(alloc, &world, table, at)?);
    }
    // a group past the end, no table, an argument past the end, SUM of a text, SUM of nothing
    let table = [
        (0, 3, Agg::Count, None),
        (4, 0, Agg::Count, None),
        (0, 0, Agg::Count, Some(3)),
        (0, 0, Agg::Sum, Some(1)),
        (0, 0, Agg::Sum, None),
    ];
    for (table, group, agg, argument) in table {
        assert!(rt; !is_grouped(alloc, &world, table, group, AggCall { agg, argument })?);
    }
    Ok(())
}

fn filter_has_type(alloc: Global, world: &World) -> Result<bool, NoMemory> {
    let columns = [key_type(), SqlType::text(false), SqlType::boolean(true)];
    let wanted = typed(alloc, columns, 10)?;
    let tree = Rel::filter(alloc, Rel::Scan(0), Expr::Column(2))?;
    has_type(alloc, world, tree, wanted)
}

fn project_has_type(alloc: Global, world: &World) -> Result<bool, NoMemory> {
    let wanted = typed(alloc, [SqlType::text(false)], 7)?;
    let tree = project_one(alloc, 2, 1)?;
    has_type(alloc, world, tree, wanted)
}

fn group_has_type(alloc: Global, world: &World) -> Result<bool, NoMemory> {
    let sum = SqlType::integer(true, range(1, 36));
    let wanted = typed(alloc, [SqlType::boolean(true), sum], 4)?;
    let (agg, argument) = (Agg::Sum, Some(0));
    let tree = group_one(alloc, 1, 2, AggCall { agg, argument })?;
    has_type(alloc, world, tree, wanted)
}

#[test]
fn types_of_nodes(rt: HostRuntime) -> Result<(), Fail> {
    let alloc = rt.alloc();
    let world = small_world(alloc)?;
    assert!(rt; filter_has_type(alloc, &world)?);
    assert!(rt; project_has_type(alloc, &world)?);
    assert!(rt; group_has_type(alloc, &world)?);
    Ok(())
}

#[test]
fn types_of_joins(rt: HostRuntime) -> Result<(), Fail> {
    let alloc = rt.alloc();
    let world = small_world(alloc)?;
    let (key, text, truth) = (key_type(), SqlType::text(false), SqlType::boolean(true));
    let (any_key, any_text) = (SqlType::integer(true, range(1, 9)), SqlType::text(true));
    for (kind, columns, bound) in [
        (JoinKind::Inner, [key, text, truth, key, text, truth], 4),
        (
            JoinKind::Left,
            [key, text, truth, any_key, any_text, truth],
            10,
        ),
    ] {
        let wanted = typed(alloc, columns, bound)?;
        let tree = equi_join(alloc, kind, Rel::Scan(0), Rel::Scan(1), (0, 3))?;
        assert!(rt; has_type(alloc, &world, tree, wanted)?);
    }
    Ok(())
}

fn bound_of_join(
    alloc: Global,
    world: &World,
    kind: JoinKind,
    left: Rel,
    right: Rel,
    pair: (u32, u32),
) -> Result<Option<u128>, NoMemory> {
    let tree = equi_join(alloc, kind, left, right, pair)?;
    bound_of(alloc, world, tree)
}

fn bound_of_tables(
    alloc: Global,
    world: &World,
    kind: JoinKind,
    sides: (u32, u32),
    pair: (u32, u32),
) -> Result<Option<u128>, NoMemory> {
    let (left, right) = (Rel::Scan(sides.0), Rel::Scan(sides.1));
    bound_of_join(alloc, world, kind, left, right, pair)
}

// A filter over the right table keeps its key.
fn bound_over_filter(
    alloc: Global,
    world: &World,
    kind: JoinKind,
    sides: (u32, u32),
    pair: (u32, u32),
) -> Result<Option<u128>, NoMemory> {
    let filtered = Rel::filter(alloc, Rel::Scan(sides.1), Expr::Column(2))?;
    bound_of_join(alloc, world, kind, Rel::Scan(sides.0), filtered, pair)
}

// A projection loses it.
fn bound_over_projection(alloc: Global, world: &World) -> Result<Option<u128>, NoMemory> {
    let projected = project_one(alloc, 1, 0)?;
    bound_of_join(
        alloc,
        world,
        JoinKind::Left,
        Rel::Scan(0),
        projected,
        (0, 3),
    )
}

#[test]
fn bounds_of_joins(rt: HostRuntime) -> Result<(), Fail> {
    let alloc = rt.alloc();
    let world = small_world(alloc)?;
    let table = [
        // keys of both sides, of the right one, of the left one
        (JoinKind::Inner, 0, 1, (0, 3), 4),
        (JoinKind::Inner, 1, 0, (3, 0), 4),
        (JoinKind::Inner, 2, 0, (0, 3), 7),
        (JoinKind::Inner, 0, 2, (3, 0), 7),
        // other columns than the key's, no key, a part of a key, columns of one side
        (JoinKind::Inner, 0, 1, (1, 4), 40),
        (JoinKind::Inner, 2, 2, (0, 3), 49),
        (JoinKind::Inner, 2, 3, (0, 3), 35),
        (JoinKind::Inner, 0, 1, (0, 0), 40),
        (JoinKind::Left, 1, 0, (0, 3), 4),
        (JoinKind::Left, 0, 2, (0, 3), 70),
    ];
    for (kind, left, right, pair, wanted) in table {
        let bound = bound_of_tables(alloc, &world, kind, (left, right), pair)?;
        assert_eq!(rt; bound, Some(wanted));
        let bound = bound_over_filter(alloc, &world, kind, (left, right), pair)?;
        assert_eq!(rt; bound, Some(wanted));
    }
    assert_eq!(rt; bound_over_projection(alloc, &world)?, Some(40));
    Ok(())
}

fn no_rows(alloc: Global) -> Result<Rel, NoMemory> {
    let types = list_of(alloc, [SqlType::boolean(false)])?;
    Ok(Rel::Empty(types))
}

fn bound_of_one_group(alloc: Global, world: &World) -> Result<Option<u128>, NoMemory> {
    let (groups, calls) = (List::new(alloc), List::new(alloc));
    let tree = Rel::aggregate(alloc, Rel::Scan(0), groups, calls)?;
    bound_of(alloc, world, tree)
}

fn bound_of_none(alloc: Global, world: &World) -> Result<Option<u128>, NoMemory> {
    let empty = no_rows(alloc)?;
    bound_of(alloc, world, empty)
}

fn bound_over_none(alloc: Global, world: &World) -> Result<Option<u128>, NoMemory> {
    let empty = no_rows(alloc)?;
    bound_of_join(alloc, world, JoinKind::Left, Rel::Scan(0), empty, (2, 3))
}

fn bound_of_holes(alloc: Global, world: &World) -> Result<Option<u128>, NoMemory> {
    let (left, right) = (Rel::Hole(0), Rel::Hole(0));
    bound_of_join(alloc, world, JoinKind::Inner, left, right, (0, 1))
}

#[test]
fn bounds_without_rows_and_past_all(rt: HostRuntime) -> Result<(), Fail> {
    let alloc = rt.alloc();
    let world = small_world(alloc)?;
    assert_eq!(rt; bound_of_one_group(alloc, &world)?, Some(1));
    assert_eq!(rt; bound_of_none(alloc, &world)?, Some(0));
    assert_eq!(rt; bound_over_none(alloc, &world)?, Some(10));
    assert_eq!(rt; bound_of_holes(alloc, &world)?, Some(NUMBER_LIMIT as u128));
    Ok(())
}

// Of left rows of three columns: an equation within them, and two of both sides, written either way round.
fn conjunction(alloc: Global) -> Result<Expr, NoMemory> {
    let both = Expr::binary(
        alloc,
        Op::And,
        equation(alloc, 0, 4)?,
        equation(alloc, 3, 1)?,
    )?;
    Expr::binary(alloc, Op::And, equation(alloc, 2, 1)?, both)
}

#[test]
fn pairs_of_a_conjunction(rt: HostRuntime) -> Result<(), Fail> {
    let alloc = rt.alloc();
    let whole = conjunction(alloc)?;
    let pairs = pairs_of(alloc, &whole, 3)?;
    let wanted = [
        StarPair { left: 0, right: 1 },
        StarPair { left: 1, right: 0 },
    ];
    assert_eq!(rt; pairs.as_slice(), wanted.as_slice());
    let either = Expr::binary(alloc, Op::Or, whole, Expr::Column(0))?;
    assert!(rt; pairs_of(alloc, &either, 3)?.is_empty());
    Ok(())
}

// ---- trees that differ

fn leaves(alloc: Global) -> Result<List<Rel>, NoMemory> {
    let (number, other) = (
        list_of(alloc, [SqlType::integer(false, range(0, 0))])?,
        list_of(alloc, [SqlType::integer(false, range(0, 1))])?,
    );
    list_of(
        alloc,
        [
            Rel::Scan(0),
            Rel::Scan(1),
            Rel::TileScan(0),
            Rel::StarScan { lattice: 0 },
            Rel::Hole(0),
            Rel::Empty(List::new(alloc)),
            Rel::Empty(number),
            Rel::Empty(other),
        ],
    )
}

fn nodes(alloc: Global, mut trees: List<Rel>) -> Result<List<Rel>, NoMemory> {
    for (table, at) in [(0, 0), (0, 1), (1, 0)] {
        trees.push(Rel::filter(alloc, Rel::Scan(table), Expr::Column(at))?)?;
        trees.push(project_one(alloc, table, at)?)?;
    }
    for (table, group, agg, argument) in [
        (0, 0, Agg::Sum, Some(0)),
        (1, 0, Agg::Sum, Some(0)),
        (0, 1, Agg::Sum, Some(0)),
        (0, 0, Agg::Min, Some(0)),
        (0, 0, Agg::Sum, Some(1)),
        (0, 0, Agg::Sum, None),
    ] {
        let call = AggCall { agg, argument };
        trees.push(group_one(alloc, table, group, call)?)?;
    }
    Ok(trees)
}

fn joins(alloc: Global, mut trees: List<Rel>) -> Result<List<Rel>, NoMemory> {
    for (kind, left, right, on) in [
        (JoinKind::Inner, 0, 1, 0),
        (JoinKind::Left, 0, 1, 0),
        (JoinKind::Inner, 1, 1, 0),
        (JoinKind::Inner, 0, 0, 0),
        (JoinKind::Inner, 0, 1, 1),
    ] {
        let (left, right) = (Rel::Scan(left), Rel::Scan(right));
        trees.push(Rel::join(alloc, kind, left, right, Expr::Column(on))?)?;
    }
    Ok(trees)
}

#[test]
fn a_tree_equals_its_copy_alone(rt: HostRuntime) -> Result<(), Fail> {
    let alloc = rt.alloc();
    let trees = joins(alloc, nodes(alloc, leaves(alloc)?)?)?;
    let copies = trees.copy(alloc)?;
    for at in 0..trees.len() {
        for other in 0..copies.len() {
            assert_eq!(rt; trees.get(at) == copies.get(other), at == other);
        }
    }
    Ok(())
}
