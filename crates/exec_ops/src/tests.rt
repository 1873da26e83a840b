ghost use Rattle.std.specs.Prelude.{◌≡◌, ◌↔◌, ◌++◌, IsTrue, IfOk, IfSome, IsSome, All, map};
ghost use Rattle.cal_value.specs.Types.{HasTypes};
ghost use Rattle.cal_expr.specs.Typing.{type_of};
ghost use Rattle.exec_ops.specs.Ready.{CanGroup, CanJoin, HasCallType};
ghost use Rattle.exec_ops.specs.Sort.{ascending};

use crate::{JoinOn, hash_group, hash_join, merge_join, nested_join, sort_rows, sorted_group};
use cal_aggregate::result_type;
use cal_expr::{Expr, expr_type};
use cal_schema::{AggCall, JoinKind, RelType, StarPair};
use cal_value::{
    Agg, Collation, Duplicate, Interval, KeyOrder, List, NoMemory, Op, Row, SqlType, Value,
    has_types, is_in_order,
};
use std::alloc::Global;
use std::process::Abort;
use std::test::Fail;

fn list_of<T: Drop, const N: usize>(alloc: Global, items: [T; N]) -> Result<List<T>, NoMemory> {
    Ok(List::from_vec(Vec::from_array(alloc, items)?))
}

// Numbers, where `N` stands for NULL.
const N: i128 = -99;

fn row(alloc: Global, numbers: &[i128]) -> Result<Row, NoMemory> {
    let mut row = List::new(alloc);
    for number in numbers {
        let value = if *number == N {
            Value::Null
        } else {
            Value::Int(*number)
        };
        row.push(value)?;
    }
    Ok(row)
}

fn rows<const W: usize>(alloc: Global, numbers: &[[i128; W]]) -> Result<List<Row>, NoMemory> {
    let mut rows = List::new(alloc);
    for values in numbers {
        rows.push(row(alloc, values.as_slice())?)?;
    }
    Ok(rows)
}

fn types(alloc: Global, width: usize) -> Result<List<SqlType>, NoMemory> {
    let mut types = List::new(alloc);
    for _ in 0..width {
        types.push(SqlType::integer(true, Interval::Range { lo: 0, hi: 99 }))?;
    }
    Ok(types)
}

fn have_types(rows: &List<Row>, types: &List<SqlType>) -> bool
    ensures { IsTrue result ↔ All (λ row. HasTypes row types.now) rows.now }
{
    rows.as_slice().iter().all(|row| has_types(row, types))
}

// ---- joins of rows of two columns

fn appended(
    alloc: Global,
    left: &List<SqlType>,
    right: &List<SqlType>,
) -> Result<List<SqlType>, NoMemory>
    ensures { IfOk result (λ both. both ≡ left.now ++ right.now) }
{
    let mut both = left.copy(alloc)?;
    for t in right.as_slice() {
        both.push(*t)?;
    }
    Ok(both)
}

fn is_typed(rest: &Option<Expr>, types: &List<SqlType>) -> bool
    ensures { IsTrue result ↔ IfSome rest.now (λ e. IsSome (type_of e types.now)) }
{
    match rest {
        Some(condition) => expr_type(condition, types).is_some(),
        None => true,
    }
}

fn can_join(
    alloc: Global,
    left: &List<Row>,
    right: &List<Row>,
    on: &JoinOn,
) -> Result<bool, NoMemory>
    ensures { IfOk result (λ can. IsTrue can → CanJoin on.now left.now right.now) }
{
    let left_types = types(alloc, 2)?;
    let right_types = types(alloc, on.right_width as usize)?;
    let both = appended(alloc, &left_types, &right_types)?;
    if !have_types(left, &left_types) {
        return Ok(false);
    }
    if !have_types(right, &right_types) {
        return Ok(false);
    }
    Ok(is_typed(&on.rest, &both))
}

// The left row's first column equals the right one's; and the same of the second; and the second is less.
#[derive(Clone, Copy)]
enum On {
    All,
    First,
    Both,
    FirstAndLess,
}

fn pairs(alloc: Global, on: On) -> Result<List<StarPair>, NoMemory> {
    let first = StarPair { left: 0, right: 0 };
    let second = StarPair { left: 1, right: 1 };
    match on {
        On::All => Ok(List::new(alloc)),
        On::First | On::FirstAndLess => list_of(alloc, [first]),
        On::Both => list_of(alloc, [first, second]),
    }
}

fn join_on(alloc: Global, on: On) -> Result<JoinOn, NoMemory> {
    let rest = if matches!(on, On::FirstAndLess) {
        let less = Expr::binary(alloc, Op::Less, Expr::Column(1), Expr::Column(3))?;
        Some(less)
    } else {
        None
    };
    Ok(JoinOn {
        pairs: pairs(alloc, on)?,
        rest,
        right_width: 2,
    })
}

fn expect_join(
    rt: &impl Abort,
    alloc: Global,
    kind: JoinKind,
    left: &List<Row>,
    right: &List<Row>,
    on: &JoinOn,
    wanted: &List<Row>,
) -> Result<(), NoMemory> {
    let can = can_join(alloc, left, right, on)?;
    assert!(rt; can);
    let nested = nested_join(alloc, kind, left, right, on)?;
    assert!(rt; nested == *wanted);
    let hashed = hash_join(alloc, kind, left, right, on)?;
    assert!(rt; hashed == *wanted);
    Ok(())
}

#[derive(Clone, Copy)]
struct Case {
    kind: JoinKind,
    on: On,
    left: &'static [[i128; 2]],
    right: &'static [[i128; 2]],
    wanted: &'static [[i128; 4]],
}

const LEFT: &[[i128; 2]] = &[[1, 10], [2, 20], [N, 30], [2, 40]];

const RIGHT: &[[i128; 2]] = &[[2, 25], [N, 8], [2, 9], [3, 1]];

const CASES: [Case; 8] = [
    Case {
        kind: JoinKind::Inner,
        on: On::First,
        left: LEFT,
        right: RIGHT,
        wanted: &[[2, 20, 2, 25], [2, 20, 2, 9], [2, 40, 2, 25], [2, 40, 2, 9]],
    },
    Case {
        kind: JoinKind::Left,
        on: On::First,
        left: LEFT,
        right: RIGHT,
        wanted: &[
            [1, 10, N, N],
            [2, 20, 2, 25],
            [2, 20, 2, 9],
            [N, 30, N, N],
            [2, 40, 2, 25],
            [2, 40, 2, 9],
        ],
    },
    Case {
        kind: JoinKind::Inner,
        on: On::FirstAndLess,
        left: LEFT,
        right: RIGHT,
        wanted: &[[2, 20, 2, 25]],
    },
    Case {
        kind: JoinKind::Left,
        on: On::FirstAndLess,
        left: LEFT,
        right: RIGHT,
        wanted: &[[1, 10, N, N], [2, 20, 2, 25], [N, 30, N, N], [2, 40, N, N]],
    },
    Case {
        kind: JoinKind::Inner,
        on: On::All,
        left: &[[1, 10], [N, 20]],
        right: &[[2, 15], [N, 5]],
        wanted: &[[1, 10, 2, 15], [1, 10, N, 5], [N, 20, 2, 15], [N, 20, N, 5]],
    },
    Case {
        kind: JoinKind::Left,
        on: On::All,
        left: &[[1, 10], [N, 20]],
        right: &[],
        wanted: &[[1, 10, N, N], [N, 20, N, N]],
    },
    Case {
        kind: JoinKind::Inner,
        on: On::First,
        left: LEFT,
        right: &[],
        wanted: &[],
    },
    Case {
        kind: JoinKind::Inner,
        on: On::Both,
        left: &[[N, N], [1, N], [1, 3], [1, 4]],
        right: &[[N, 3], [1, N], [1, 3], [2, N]],
        wanted: &[[1, 3, 1, 3]],
    },
];

fn expect_case(rt: &impl Abort, alloc: Global, case: Case) -> Result<(), NoMemory> {
    let left = rows(alloc, case.left)?;
    let right = rows(alloc, case.right)?;
    let wanted = rows(alloc, case.wanted)?;
    let on = join_on(alloc, case.on)?;
    expect_join(rt, alloc, case.kind, &left, &right, &on, &wanted)
}

#[test]
fn rows_are_joined(rt: HostRuntime) -> Result<(), Fail> {
    for case in CASES {
        expect_case(&rt, rt.alloc(), case)?;
    }
    Ok(())
}

// ---- joins of sorted rows

fn left_keys(alloc: Global, pairs: &List<StarPair>) -> Result<Collation, NoMemory>
    ensures { IfOk result (λ keys. keys ≡ map ascending (map (λ p. p.left) pairs.now)) }
{
    let mut keys = List::new(alloc);
    for pair in pairs.as_slice() {
        keys.push(key(pair.left))?;
    }
    Ok(keys)
}

fn right_keys(alloc: Global, pairs: &List<StarPair>) -> Result<Collation, NoMemory>
    ensures { IfOk result (λ keys. keys ≡ map ascending (map (λ p. p.right) pairs.now)) }
{
    let mut keys = List::new(alloc);
    for pair in pairs.as_slice() {
        keys.push(key(pair.right))?;
    }
    Ok(keys)
}

fn key(column: u32) -> KeyOrder
    ensures { result ≡ ascending column }
{
    KeyOrder {
        column,
        descending: false,
        nulls_first: false,
    }
}

fn expect_merge(
    rt: &impl Abort,
    alloc: Global,
    left: &List<Row>,
    right: &List<Row>,
    on: &JoinOn,
    wanted: &List<Row>,
) -> Result<(), NoMemory> {
    let can = can_join(alloc, left, right, on)?;
    assert!(rt; can);
    let keys = left_keys(alloc, &on.pairs)?;
    let left_in_order = is_in_order(left, &keys);
    assert!(rt; left_in_order);
    let keys = right_keys(alloc, &on.pairs)?;
    let right_in_order = is_in_order(right, &keys);
    assert!(rt; right_in_order);
    let merged = merge_join(alloc, left, right, on)?;
    assert!(rt; merged == *wanted);
    Ok(())
}

const SORTED_LEFT: &[[i128; 2]] = &[[1, 2], [2, 30], [2, 4], [5, 5], [N, 1]];

const SORTED_RIGHT: &[[i128; 2]] = &[[2, 17], [2, 8], [4, 9], [N, 6]];

const MERGES: [Case; 3] = [
    Case {
        kind: JoinKind::Inner,
        on: On::First,
        left: SORTED_LEFT,
        right: SORTED_RIGHT,
        wanted: &[[2, 30, 2, 17], [2, 30, 2, 8], [2, 4, 2, 17], [2, 4, 2, 8]],
    },
    Case {
        kind: JoinKind::Inner,
        on: On::FirstAndLess,
        left: SORTED_LEFT,
        right: SORTED_RIGHT,
        wanted: &[[2, 4, 2, 17], [2, 4, 2, 8]],
    },
    Case {
        kind: JoinKind::Inner,
        on: On::Both,
        left: &[[1, 3], [1, 4], [1, N], [N, N]],
        right: &[[1, 3], [1, N], [2, N], [N, 3]],
        wanted: &[[1, 3, 1, 3]],
    },
];

fn expect_merge_of(rt: &impl Abort, alloc: Global, case: Case) -> Result<(), NoMemory> {
    let left = rows(alloc, case.left)?;
    let right = rows(alloc, case.right)?;
    let wanted = rows(alloc, case.wanted)?;
    let on = join_on(alloc, case.on)?;
    expect_merge(rt, alloc, &left, &right, &on, &wanted)
}

#[test]
fn sorted_rows_are_merged(rt: HostRuntime) -> Result<(), Fail> {
    for case in MERGES {
        expect_merge_of(&rt, rt.alloc(), case)?;
    }
    Ok(())
}

// ---- groups

fn has_type(call: AggCall, t: &RelType) -> bool
    ensures { IsTrue result ↔ HasCallType t.now call.agg call.argument }
{
    match call.argument {
        Some(column) => match t.columns.get(column as usize) {
            Some(s) => result_type(call.agg, Some(*s), t.bound).is_some(),
            None => false,
        },
        None => true,
    }
}

fn have_call_types(calls: &List<AggCall>, t: &RelType) -> bool
    ensures { IsTrue result ↔ All (λ call. HasCallType t.now call.agg call.argument) calls.now }
{
    calls.as_slice().iter().all(|call| has_type(*call, t))
}

fn can_group(rows: &List<Row>, calls: &List<AggCall>, t: &RelType) -> bool
    ensures { IsTrue result → CanGroup calls.now rows.now }
{
    if !have_types(rows, &t.columns) {
        return false;
    }
    if rows.len() as u128 > t.bound {
        return false;
    }
    have_call_types(calls, t)
}

fn call(agg: Agg, argument: Option<u32>) -> AggCall {
    AggCall { agg, argument }
}

fn all_calls(alloc: Global) -> Result<List<AggCall>, NoMemory> {
    list_of(
        alloc,
        [
            call(Agg::Count, None),
            call(Agg::Count, Some(1)),
            call(Agg::Sum, Some(1)),
            call(Agg::Min, Some(1)),
            call(Agg::Max, Some(1)),
        ],
    )
}

fn group_type(alloc: Global, rows: &List<Row>) -> Result<RelType, NoMemory> {
    let columns = types(alloc, 2)?;
    let bound = rows.len() as u128;
    Ok(RelType { columns, bound })
}

fn expect_hashed(
    rt: &impl Abort,
    alloc: Global,
    rows: &List<Row>,
    groups: &List<u32>,
    wanted: &List<Row>,
) -> Result<(), NoMemory> {
    let calls = all_calls(alloc)?;
    let t = group_type(alloc, rows)?;
    let can = can_group(rows, &calls, &t);
    assert!(rt; can);
    let hashed = hash_group(alloc, rows, groups, &calls)?;
    assert!(rt; hashed == *wanted);
    Ok(())
}

fn group_keys(alloc: Global, groups: &List<u32>) -> Result<Collation, NoMemory>
    ensures { IfOk result (λ keys. keys ≡ map ascending groups.now) }
{
    let mut keys = List::new(alloc);
    for column in groups.as_slice() {
        keys.push(key(*column))?;
    }
    Ok(keys)
}

fn expect_sorted(
    rt: &impl Abort,
    alloc: Global,
    rows: &List<Row>,
    groups: &List<u32>,
    wanted: &List<Row>,
) -> Result<(), NoMemory> {
    let calls = all_calls(alloc)?;
    let t = group_type(alloc, rows)?;
    let can = can_group(rows, &calls, &t);
    assert!(rt; can);
    let keys = group_keys(alloc, groups)?;
    let in_order = is_in_order(rows, &keys);
    assert!(rt; in_order);
    let sorted = sorted_group(alloc, rows, groups, &calls)?;
    assert!(rt; sorted == *wanted);
    Ok(())
}

// Groups over which COUNT(*), COUNT, SUM, MIN and MAX of the second column stand behind the key.
fn expect_groups<const W: usize>(
    rt: &impl Abort,
    alloc: Global,
    numbers: &[[i128; 2]],
    groups: &List<u32>,
    wanted: &[[i128; W]],
    sorted: bool,
) -> Result<(), NoMemory> {
    let rows_in = rows(alloc, numbers)?;
    let wanted = rows(alloc, wanted)?;
    expect_hashed(rt, alloc, &rows_in, groups, &wanted)?;
    if sorted {
        expect_sorted(rt, alloc, &rows_in, groups, &wanted)?;
    }
    Ok(())
}

const MIXED: &[[i128; 2]] = &[[2, 5], [N, 7], [2, N], [N, 7], [1, N]];

#[test]
fn groups_stand_in_order_of_first_appearance(rt: HostRuntime) -> Result<(), Fail> {
    let first = list_of(rt.alloc(), [0])?;
    let wanted = [[2, 2, 1, 5, 5, 5], [N, 2, 2, 14, 7, 7], [1, 1, 0, N, N, N]];
    expect_groups(&rt, rt.alloc(), MIXED, &first, wanted.as_slice(), false)?;
    Ok(())
}

#[test]
fn groups_may_have_two_columns(rt: HostRuntime) -> Result<(), Fail> {
    let both = list_of(rt.alloc(), [1, 0])?;
    let wanted = [
        [5, 2, 1, 1, 5, 5, 5],
        [7, N, 2, 2, 14, 7, 7],
        [N, 2, 1, 0, N, N, N],
        [N, 1, 1, 0, N, N, N],
    ];
    expect_groups(&rt, rt.alloc(), MIXED, &both, wanted.as_slice(), false)?;
    Ok(())
}

#[test]
fn sorted_rows_are_grouped(rt: HostRuntime) -> Result<(), Fail> {
    let first = list_of(rt.alloc(), [0])?;
    let sorted = [[1, N], [2, 5], [2, N], [N, 7], [N, 8]];
    let wanted = [[1, 1, 0, N, N, N], [2, 2, 1, 5, 5, 5], [N, 2, 2, 15, 7, 8]];
    expect_groups(
        &rt,
        rt.alloc(),
        sorted.as_slice(),
        &first,
        wanted.as_slice(),
        true,
    )?;
    Ok(())
}

#[test]
fn without_columns_there_is_one_group(rt: HostRuntime) -> Result<(), Fail> {
    let none = List::new(rt.alloc());
    expect_groups(
        &rt,
        rt.alloc(),
        MIXED,
        &none,
        [[5, 3, 19, 5, 7]].as_slice(),
        true,
    )?;
    expect_groups(
        &rt,
        rt.alloc(),
        &[],
        &none,
        [[0, 0, N, N, N]].as_slice(),
        true,
    )?;
    Ok(())
}

#[test]
fn no_rows_have_no_keys(rt: HostRuntime) -> Result<(), Fail> {
    let first = list_of(rt.alloc(), [0])?;
    let wanted: [[i128; 6]; 0] = [];
    expect_groups(&rt, rt.alloc(), &[], &first, wanted.as_slice(), true)?;
    Ok(())
}

// ---- sorts

const UNSORTED: &[[i128; 3]] = &[
    [1, 5, 1],
    [N, 1, 2],
    [1, N, 3],
    [2, 3, 4],
    [1, 5, 5],
    [1, 2, 6],
];

const SORTED: &[[i128; 3]] = &[
    [N, 1, 2],
    [2, 3, 4],
    [1, 2, 6],
    [1, 5, 1],
    [1, 5, 5],
    [1, N, 3],
];

#[test]
fn rows_are_sorted_by_their_keys(rt: HostRuntime) -> Result<(), Fail> {
    let down = KeyOrder {
        column: 0,
        descending: true,
        nulls_first: true,
    };
    let up = KeyOrder {
        column: 1,
        descending: false,
        nulls_first: false,
    };
    let keys = list_of(rt.alloc(), [down, up])?;
    let unsorted = rows(rt.alloc(), UNSORTED)?;
    let sorted = sort_rows(rt.alloc(), unsorted, &keys)?;
    assert!(rt; sorted == rows(rt.alloc(), SORTED)?);
    Ok(())
}
