ghost use Rattle.std.specs.Prelude.{◌≡◌, ◌↔◌, ◌++◌, ◌∷◌, [], IsTrue, IfOk, IsSome, All};
ghost use Rattle.cal_value.specs.Types.{HasTypes};
ghost use Rattle.cal_expr.specs.Typing.{type_of};
ghost use Rattle.cal_rel.specs.Typing as typing;
ghost use Rattle.cal_expr.specs.WellFormed.{IsWellFormed};
ghost use Rattle.cal_snapshot.specs.Parts.{start_of};
ghost use Rattle.exec_ops.specs.Ready.{CanGroup, HasCallType};
ghost use Rattle.exec_ops.specs.Sort.{IsSortedOn};
ghost use Rattle.row_exec.specs.Examples.{HasValues};
ghost use Rattle.row_exec.specs.Ready.{CanGroupSorted, CanJoinOn, CanMergeOn, CanRunOne, CanRunTwo};

use crate::lent::pass_rows;
use crate::one_input::one_input;
use crate::pass::{TablePass, pass_of};
use crate::small::counted_nothing;
use crate::two_inputs::two_inputs;
use cal_aggregate::result_type;
use cal_expr::{Expr, expr_type};
use cal_schema::{AggCall, JoinKind, RelType};
use cal_snapshot::Snapshot;
use cal_value::{
    Agg, Duplicate, Interval, KeyOrder, Kind, List, NoMemory, Op, Row, SqlType, Steps, Value,
    has_types, is_in_order,
};
use plan_nodes::{Plan, PlanNode, ascending_by, left_order, right_order};
use sqlite_items::Items;
use std::alloc::Global;
use std::marker::Brand;
use std::sync::Arc;
use std::sync::ledger::{Blank, Ledger};
use std::test::Fail;

fn list_of<T: Drop, const N: usize>(alloc: Global, items: [T; N]) -> Result<List<T>, NoMemory> {
    Ok(List::from_vec(Vec::from_array(alloc, items)?))
}

// Numbers, where `N` stands for NULL.
const N: i128 = -99;

fn row(alloc: Global, numbers: &[i128]) -> Result<Row, NoMemory> {
    let mut row = List::new(alloc);
    for number in numbers {
        let value = if *number == N {
            Value::Null
        } else {
            Value::Int(*number)
        };
        row.push(value)?;
    }
    Ok(row)
}

fn rows<const W: usize>(alloc: Global, numbers: &[[i128; W]]) -> Result<List<Row>, NoMemory> {
    let mut rows = List::new(alloc);
    for values in numbers {
        rows.push(row(alloc, values.as_slice())?)?;
    }
    Ok(rows)
}

fn types(alloc: Global) -> Result<List<SqlType>, NoMemory> {
    let digits = SqlType::integer(true, Interval::Range { lo: 0, hi: 99 });
    list_of(alloc, [digits, digits])
}

fn have_types(rows: &List<Row>, types: &List<SqlType>) -> bool
    ensures { IsTrue result ↔ All (λ row. HasTypes row types.now) rows.now }
{
    rows.as_slice().iter().all(|row| has_types(row, types))
}

// ---- one input, of rows of two columns

fn are_typed(items: &List<Expr>, types: &List<SqlType>) -> bool
    ensures { IsTrue result ↔ All (λ e. IsSome (type_of e types.now)) items.now }
{
    items
        .as_slice()
        .iter()
        .all(|item| expr_type(item, types).is_some())
}

fn has_type(call: AggCall, t: &RelType) -> bool
    ensures { IsTrue result ↔ HasCallType t.now call.agg call.argument }
{
    match call.argument {
        Some(column) => match t.columns.get(column as usize) {
            Some(s) => result_type(call.agg, Some(*s), t.bound).is_some(),
            None => false,
        },
        None => true,
    }
}

fn have_call_types(calls: &List<AggCall>, t: &RelType) -> bool
    ensures { IsTrue result ↔ All (λ call. HasCallType t.now call.agg call.argument) calls.now }
{
    calls.as_slice().iter().all(|call| has_type(*call, t))
}

fn can_group(calls: &List<AggCall>, rows: &List<Row>, t: &RelType) -> bool
    ensures { IsTrue result → CanGroup calls.now rows.now }
{
    if !have_types(rows, &t.columns) {
        return false;
    }
    if rows.len() as u128 > t.bound {
        return false;
    }
    have_call_types(calls, t)
}

fn can_filter(predicate: &Expr, rows: &List<Row>, types: &List<SqlType>) -> bool
    ensures { IsTrue result → All (λ row. IsWellFormed predicate.now row) rows.now }
{
    have_types(rows, types) && expr_type(predicate, types).is_some()
}

fn can_project(items: &List<Expr>, rows: &List<Row>, types: &List<SqlType>) -> bool
    ensures { IsTrue result → All (λ row. All (λ e. IsWellFormed e row) items.now) rows.now }
{
    have_types(rows, types) && are_typed(items, types)
}

fn is_sorted(alloc: Global, groups: &List<u32>, rows: &List<Row>) -> Result<bool, NoMemory>
    ensures { IfOk result (λ sorted. IsTrue sorted → IsSortedOn groups.now rows.now) }
{
    let keys = ascending_by(alloc, groups)?;
    Ok(is_in_order(rows, &keys))
}

fn can_group_sorted(
    alloc: Global,
    groups: &List<u32>,
    calls: &List<AggCall>,
    rows: &List<Row>,
    t: &RelType,
) -> Result<bool, NoMemory>
    ensures { IfOk result (λ can. IsTrue can → CanGroupSorted groups.now calls.now rows.now) }
{
    if !is_sorted(alloc, groups, rows)? {
        return Ok(false);
    }
    Ok(can_group(calls, rows, t))
}

fn can_run_one(
    alloc: Global,
    node: &PlanNode,
    rows: &List<Row>,
    t: &RelType,
) -> Result<bool, NoMemory>
    ensures { IfOk result (λ can. IsTrue can → CanRunOne node.now rows.now) }
{
    match node {
        PlanNode::ToEnumerable => Ok(true),
        PlanNode::Filter { predicate } => Ok(can_filter(predicate, rows, &t.columns)),
        PlanNode::Project { items } => Ok(can_project(items, rows, &t.columns)),
        PlanNode::HashAggregate { calls, .. } => Ok(can_group(calls, rows, t)),
        PlanNode::SortedAggregate { groups, calls } => {
            can_group_sorted(alloc, groups, calls, rows, t)
        }
        PlanNode::Sort { .. } => Ok(true),
        _ => Ok(false),
    }
}

fn row_type(alloc: Global) -> Result<RelType, NoMemory> {
    let columns = types(alloc)?;
    Ok(RelType { columns, bound: 9 })
}

// None where the node can't be run over the rows.
fn answer_one(
    alloc: Global,
    node: &PlanNode,
    given: List<Row>,
) -> Result<Option<List<Row>>, NoMemory> {
    let t = row_type(alloc)?;
    if can_run_one(alloc, node, &given, &t)? {
        Ok(Some(one_input(alloc, node, given)?))
    } else {
        Ok(None)
    }
}

// Whether the node makes these rows of those.
fn makes(
    alloc: Global,
    node: &PlanNode,
    given: List<Row>,
    wanted: &List<Row>,
) -> Result<bool, NoMemory> {
    match answer_one(alloc, node, given)? {
        Some(made) => Ok(made == *wanted),
        None => Ok(false),
    }
}

fn gives(
    alloc: Global,
    node: &PlanNode,
    given: &[[i128; 2]],
    wanted: &[[i128; 2]],
) -> Result<bool, NoMemory> {
    let given = rows(alloc, given)?;
    let wanted = rows(alloc, wanted)?;
    makes(alloc, node, given, &wanted)
}

const MIXED: &[[i128; 2]] = &[[2, 20], [30, 3], [N, 40], [2, 50]];

const RISING: &[[i128; 2]] = &[[2, 20], [2, 50], [30, 3], [N, 40]];

const GROUPS: &[[i128; 2]] = &[[2, 70], [30, 3], [N, 40]];

fn filters(alloc: Global) -> Result<bool, NoMemory> {
    let predicate = Expr::binary(alloc, Op::Less, Expr::Column(0), Expr::Column(1))?;
    let node = PlanNode::Filter { predicate };
    gives(alloc, &node, MIXED, &[[2, 20], [2, 50]])
}

fn projects(alloc: Global) -> Result<bool, NoMemory> {
    let items = list_of(alloc, [Expr::Column(1), Expr::Column(0)])?;
    let node = PlanNode::Project { items };
    gives(alloc, &node, MIXED, &[[20, 2], [3, 30], [40, N], [50, 2]])
}

fn sorts(alloc: Global) -> Result<bool, NoMemory> {
    let key = KeyOrder {
        column: 0,
        descending: true,
        nulls_first: true,
    };
    let keys = list_of(alloc, [key])?;
    let node = PlanNode::Sort { keys };
    gives(alloc, &node, MIXED, &[[N, 40], [30, 3], [2, 20], [2, 50]])
}

fn sums(alloc: Global) -> Result<List<AggCall>, NoMemory> {
    let sum = AggCall {
        agg: Agg::Sum,
        argument: Some(1),
    };
    list_of(alloc, [sum])
}

fn groups_by_hash(alloc: Global) -> Result<bool, NoMemory> {
    let groups = list_of(alloc, [0])?;
    let calls = sums(alloc)?;
    let node = PlanNode::HashAggregate { groups, calls };
    gives(alloc, &node, MIXED, GROUPS)
}

fn groups_in_order(alloc: Global) -> Result<bool, NoMemory> {
    let groups = list_of(alloc, [0])?;
    let calls = sums(alloc)?;
    let node = PlanNode::SortedAggregate { groups, calls };
    gives(alloc, &node, RISING, GROUPS)
}

#[test]
fn nodes_of_one_input(rt: HostRuntime) -> Result<(), Fail> {
    let alloc = rt.alloc();
    assert!(rt; gives(alloc, &PlanNode::ToEnumerable, MIXED, MIXED)?);
    assert!(rt; filters(alloc)?);
    assert!(rt; projects(alloc)?);
    assert!(rt; sorts(alloc)?);
    assert!(rt; groups_by_hash(alloc)?);
    assert!(rt; groups_in_order(alloc)?);
    Ok(())
}

// ---- two inputs, of rows of two columns

fn appended(
    alloc: Global,
    left: &List<SqlType>,
    right: &List<SqlType>,
) -> Result<List<SqlType>, NoMemory>
    ensures { IfOk result (λ both. both ≡ left.now ++ right.now) }
{
    let mut both = left.copy(alloc)?;
    for t in right.as_slice() {
        both.push(*t)?;
    }
    Ok(both)
}

fn is_condition(on: &Expr, types: &List<SqlType>) -> bool
    ensures { result ≡ typing.is_condition on.now types.now }
{
    match expr_type(on, types) {
        Some(t) => t.kind == Kind::Boolean,
        None => false,
    }
}

fn can_join_on(
    alloc: Global,
    on: &Expr,
    left: &List<Row>,
    right: &List<Row>,
) -> Result<bool, NoMemory>
    ensures { IfOk result (λ can. IsTrue can → CanJoinOn on.now 2 left.now right.now) }
{
    let types = types(alloc)?;
    let both = appended(alloc, &types, &types)?;
    if types.len() != 2 || !have_types(left, &types) || !have_types(right, &types) {
        return Ok(false);
    }
    Ok(is_condition(on, &both))
}

fn can_merge_on(
    alloc: Global,
    on: &Expr,
    left: &List<Row>,
    right: &List<Row>,
) -> Result<bool, NoMemory>
    ensures { IfOk result (λ can. IsTrue can → CanMergeOn on.now 2 left.now right.now) }
{
    let lefts = left_order(alloc, 2, on)?;
    let rights = right_order(alloc, 2, on)?;
    if !is_in_order(left, &lefts) || !is_in_order(right, &rights) {
        return Ok(false);
    }
    can_join_on(alloc, on, left, right)
}

fn can_run_two(
    alloc: Global,
    node: &PlanNode,
    left: &List<Row>,
    right: &List<Row>,
) -> Result<bool, NoMemory>
    ensures { IfOk result (λ can. IsTrue can → CanRunTwo node.now 2 left.now right.now) }
{
    match node {
        PlanNode::NestedLoopJoin { on, .. } => can_join_on(alloc, on, left, right),
        PlanNode::HashJoin { on, .. } => can_join_on(alloc, on, left, right),
        PlanNode::MergeJoin { on } => can_merge_on(alloc, on, left, right),
        _ => Ok(false),
    }
}

// None where the node can't be run over the rows.
fn answer_two(
    alloc: Global,
    node: &PlanNode,
    left: &List<Row>,
    right: &List<Row>,
) -> Result<Option<List<Row>>, NoMemory> {
    if can_run_two(alloc, node, left, right)? {
        Ok(Some(two_inputs(alloc, node, left, right, (2, 2))?))
    } else {
        Ok(None)
    }
}

// The first columns of both sides are equal, and the left row's second is less.
fn equal_and_less(alloc: Global) -> Result<Expr, NoMemory> {
    let equal = Expr::binary(alloc, Op::Equal, Expr::Column(2), Expr::Column(0))?;
    let less = Expr::binary(alloc, Op::Less, Expr::Column(1), Expr::Column(3))?;
    Expr::binary(alloc, Op::And, equal, less)
}

const LEFT: &[[i128; 2]] = &[[1, 10], [2, 20], [2, 40], [N, 30]];

const RIGHT: &[[i128; 2]] = &[[2, 25], [2, 9], [3, 1], [N, 80]];

const INNER: &[[i128; 4]] = &[[2, 20, 2, 25]];

const PADDED: &[[i128; 4]] = &[[1, 10, N, N], [2, 20, 2, 25], [2, 40, N, N], [N, 30, N, N]];

fn makes_of_both(
    alloc: Global,
    node: &PlanNode,
    left: &List<Row>,
    right: &List<Row>,
    wanted: &List<Row>,
) -> Result<bool, NoMemory> {
    match answer_two(alloc, node, left, right)? {
        Some(made) => Ok(made == *wanted),
        None => Ok(false),
    }
}

// Whether the join makes these rows of those on both sides.
fn joins(alloc: Global, node: &PlanNode, wanted: &[[i128; 4]]) -> Result<bool, NoMemory> {
    let left = rows(alloc, LEFT)?;
    let right = rows(alloc, RIGHT)?;
    let wanted = rows(alloc, wanted)?;
    makes_of_both(alloc, node, &left, &right, &wanted)
}

fn nested(alloc: Global) -> Result<bool, NoMemory> {
    let on = equal_and_less(alloc)?;
    let kind = JoinKind::Left;
    joins(alloc, &PlanNode::NestedLoopJoin { kind, on }, PADDED)
}

fn hashed(alloc: Global) -> Result<bool, NoMemory> {
    let on = equal_and_less(alloc)?;
    let kind = JoinKind::Left;
    joins(alloc, &PlanNode::HashJoin { kind, on }, PADDED)
}

fn merged(alloc: Global) -> Result<bool, NoMemory> {
    let on = equal_and_less(alloc)?;
    joins(alloc, &PlanNode::MergeJoin { on }, INNER)
}

#[test]
fn nodes_of_two_inputs(rt: HostRuntime) -> Result<(), Fail> {
    let alloc = rt.alloc();
    assert!(rt; nested(alloc)?);
    assert!(rt; hashed(alloc)?);
    assert!(rt; merged(alloc)?);
    Ok(())
}

// ---- one pass over a table, of rows of two columns

fn snapshot_of(alloc: Global, rows: List<Row>) -> Result<Snapshot, NoMemory>
    ensures { IfOk result (λ snapshot. snapshot ≡ start_of (rows ∷ [])) }
{
    let mut tables = List::new(alloc);
    tables.push(Arc::new(alloc, rows)?)?;
    Snapshot::start(alloc, tables)
}

// Whether the condition and the items have values over each row of these types.
fn has_values(pass: &TablePass<'_>, types: &List<SqlType>) -> bool
    ensures { IsTrue result → HasValues types.now pass.now }
{
    let tested = match pass.condition {
        Some(condition) => expr_type(condition, types).is_some(),
        None => true,
    };
    let computed = match pass.items {
        Some(items) => are_typed(items, types),
        None => true,
    };
    tested && computed
}

// None where the pass can't go over these rows as the first table.
fn passed<L: Ledger>(
    alloc: Global,
    blank: Blank,
    pass: &TablePass<'_>,
    given: List<Row>,
) -> Result<Option<List<Row>>, NoMemory>
    requires name { blank.name ≡ L.name }
    requires parts { blank.parts ≡ L.parts }
    requires whole { L.parts ≡ 1 }
{
    let mut steps: Steps<L> = Steps::new(blank);
    let types = types(alloc)?;
    if pass.table != 0 || !has_values(pass, &types) || !have_types(&given, &types) {
        return Ok(None);
    }
    let snapshot = snapshot_of(alloc, given)?;
    Ok(Some(pass_rows(alloc, pass, &snapshot, &mut steps)?))
}

fn node(alloc: Global, word: &str) -> Result<PlanNode, NoMemory> {
    match word {
        "MemScan" => Ok(PlanNode::MemScan { table: 0 }),
        "CsvScan" => Ok(PlanNode::CsvScan { table: 0 }),
        "MemFilter" => Ok(PlanNode::MemFilter {
            predicate: Expr::Literal(Value::Bool(true)),
        }),
        "Filter" => Ok(PlanNode::Filter {
            predicate: Expr::binary(alloc, Op::Less, Expr::Column(0), Expr::Column(1))?,
        }),
        "Project" => Ok(PlanNode::Project {
            items: list_of(alloc, [Expr::Column(1), Expr::Column(0)])?,
        }),
        _ => Ok(PlanNode::ToEnumerable),
    }
}

fn over(alloc: Global, below: Option<Plan>, word: &str) -> Result<Plan, NoMemory> {
    let mut inputs = Items::new(alloc);
    if let Some(below) = below {
        inputs.push(below)?;
    }
    Ok(Plan {
        node: node(alloc, word)?,
        inputs,
        rows: 4,
        part_rows: 0,
    })
}

// The plan of these nodes, from the input up.
fn plan_of(alloc: Global, words: &[&str]) -> Result<Option<Plan>, NoMemory> {
    let mut plan = None;
    for word in words {
        plan = Some(over(alloc, plan.take(), word)?);
    }
    Ok(plan)
}

fn pass_makes(alloc: Global, plan: &Plan) -> Result<Option<List<Row>>, NoMemory> {
    match pass_of(plan) {
        Some(pass) => {
            let given = rows(alloc, MIXED)?;
            passed::<Brand>(alloc, Blank::new(1), &pass, given)
        }
        None => Ok(None),
    }
}

// None where the plan of these nodes isn't one pass.
fn made_by(alloc: Global, words: &[&str]) -> Result<Option<List<Row>>, NoMemory> {
    match plan_of(alloc, words)? {
        Some(plan) => pass_makes(alloc, &plan),
        None => Ok(None),
    }
}

fn are_wanted(
    alloc: Global,
    made: &Option<List<Row>>,
    wanted: Option<&[[i128; 2]]>,
) -> Result<bool, NoMemory> {
    match (made, wanted) {
        (Some(made), Some(wanted)) => Ok(*made == rows(alloc, wanted)?),
        (None, None) => Ok(true),
        _ => Ok(false),
    }
}

const KEPT: &[[i128; 2]] = &[[2, 20], [2, 50]];

const TURNED: &[[i128; 2]] = &[[20, 2], [3, 30], [40, N], [50, 2]];

// Nodes from the input up, and what they make of the rows of a table where they are one pass over it.
const PASSES: &[(&[&str], Option<&[[i128; 2]]>)] = &[
    (&["MemScan", "ToEnumerable", "Filter"], Some(KEPT)),
    (&["CsvScan", "ToEnumerable", "Filter"], Some(KEPT)),
    (&["MemScan", "ToEnumerable", "Project"], Some(TURNED)),
    (
        &["MemScan", "ToEnumerable", "Filter", "Project"],
        Some(&[[20, 2], [50, 2]]),
    ),
    (&["MemScan", "ToEnumerable"], None),
    (&["MemScan", "MemFilter", "ToEnumerable", "Project"], None),
    (&["MemScan", "ToEnumerable", "Project", "Filter"], None),
];

#[test]
fn passes_over_a_table(rt: HostRuntime) -> Result<(), Fail> {
    for (words, wanted) in PASSES {
        let made = made_by(rt.alloc(), words)?;
        assert!(rt; are_wanted(rt.alloc(), &made, *wanted)?, "{words:?}");
    }
    Ok(())
}

// ---- a plan

#[test]
fn a_plan_that_counts_no_rows(rt: HostRuntime) -> Result<(), Fail> {
    let made = counted_nothing(rt.alloc())?;
    let wanted = rows(rt.alloc(), &[[0]])?;
    assert!(rt; made == wanted);
    Ok(())
}
