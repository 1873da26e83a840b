//! The types of trees.
ghost use Rattle.std.specs.Prelude.{◌≡◌, ◌++◌, IfOk, Some, map, option_map, slice_get};
ghost use Rattle.std.specs.List.{list_all};
ghost use Rattle.cal_expr.specs.Typing as expressions;
ghost use Rattle.cal_schema.specs.Fits.{types_of};
ghost use Rattle.cal_rel.specs.Tree.{tree_of, scan, tile_scan, star_scan, join_on};
ghost use Rattle.cal_rel.specs.Typing as spec;
ghost use Rattle.cal_rel.specs.Typing.{types_by};

use crate::bounds::{group_bound, join_bound};
use crate::info::PlanInfo;
use crate::pairs::{is_keyed, left_columns, pairs_of, right_columns};
use crate::rel::Rel;
use cal_aggregate::result_type;
use cal_expr::{Expr, expr_type};
use cal_schema::{AggCall, JoinKind, RelType, TableDef};
use cal_value::{Duplicate, Interval, Kind, List, NoMemory, SqlType};
use std::alloc::Global;

fn is_condition(e: &Expr, columns: &List<SqlType>) -> bool
    ensures { result ≡ spec.is_condition e.now columns.now }
{
    match expr_type(e, columns) {
        Some(t) => t.kind.is(Kind::Boolean),
        None => false,
    }
}

fn filter_type(predicate: &Expr, t: RelType) -> Option<RelType>
    ensures { result ≡ spec.filter_type predicate.now t }
{
    if is_condition(predicate, &t.columns) {
        Some(t)
    } else {
        None
    }
}

// ---- lists of types

fn item_types(
    alloc: Global,
    items: &List<Expr>,
    columns: &List<SqlType>,
) -> Result<Option<List<SqlType>>, NoMemory>
    ensures { IfOk result
        (λ ts. ts ≡ types_by (λ item. expressions.type_of item columns.now) items.now) }
{
    let mut types = List::new(alloc);
    for item in items.as_slice() {
        let Some(t) = expr_type(item, columns) else {
            return Ok(None);
        };
        types.push(t)?;
    }
    Ok(Some(types))
}

fn key_types(
    alloc: Global,
    groups: &List<u32>,
    columns: &List<SqlType>,
) -> Result<Option<List<SqlType>>, NoMemory>
    ensures { IfOk result (λ ts. ts ≡ types_by (slice_get columns.now) groups.now) }
{
    let mut types = List::new(alloc);
    for group in groups.as_slice() {
        let Some(t) = column_type(columns, *group) else {
            return Ok(None);
        };
        types.push(t)?;
    }
    Ok(Some(types))
}

fn column_type(columns: &List<SqlType>, column: u32) -> Option<SqlType>
    ensures { result ≡ slice_get columns.now column }
{
    columns.get(column as usize).copied()
}

fn call_type(columns: &List<SqlType>, rows: u128, call: AggCall) -> Option<SqlType>
    ensures { result ≡ spec.call_type columns.now rows call }
{
    match call.argument {
        None => result_type(call.agg, None, rows),
        Some(column) => {
            let t = column_type(columns, column)?;
            result_type(call.agg, Some(t), rows)
        }
    }
}

fn call_types(
    alloc: Global,
    calls: &List<AggCall>,
    columns: &List<SqlType>,
    rows: u128,
) -> Result<Option<List<SqlType>>, NoMemory>
    ensures { IfOk result (λ ts. ts ≡ types_by (spec.call_type columns.now rows) calls.now) }
{
    let mut types = List::new(alloc);
    for call in calls.as_slice() {
        let Some(t) = call_type(columns, rows, *call) else {
            return Ok(None);
        };
        types.push(t)?;
    }
    Ok(Some(types))
}

fn appended(mut types: List<SqlType>, more: &List<SqlType>) -> Result<List<SqlType>, NoMemory>
    ensures { IfOk result (λ all. all ≡ types ++ more.now) }
{
    for t in more.as_slice() {
        types.push(*t)?;
    }
    Ok(types)
}

fn nullable(t: SqlType) -> SqlType
    ensures { result ≡ spec.nullable t }
{
    SqlType {
        nullable: true,
        ..t
    }
}

fn padded(mut types: List<SqlType>, more: &List<SqlType>) -> Result<List<SqlType>, NoMemory>
    ensures { IfOk result (λ all. all ≡ types ++ map spec.nullable more.now) }
{
    for t in more.as_slice() {
        types.push(nullable(*t))?;
    }
    Ok(types)
}

// ---- nodes

fn of_columns(columns: Option<List<SqlType>>, bound: u128) -> Option<RelType>
    ensures { result ≡ option_map (spec.of_columns bound) columns }
{
    match columns {
        Some(columns) => Some(RelType { columns, bound }),
        None => None,
    }
}

fn project_type(alloc: Global, items: &List<Expr>, t: RelType) -> Result<Option<RelType>, NoMemory>
    ensures { IfOk result (λ u. u ≡ spec.project_type items.now t) }
{
    let columns = item_types(alloc, items, &t.columns)?;
    Ok(of_columns(columns, t.bound))
}

fn group_columns(
    alloc: Global,
    groups: &List<u32>,
    calls: &List<AggCall>,
    t: &RelType,
) -> Result<Option<List<SqlType>>, NoMemory>
    ensures { IfOk result (λ ts. ts ≡ spec.group_columns groups.now calls.now t.now) }
{
    let Some(keys) = key_types(alloc, groups, &t.columns)? else {
        return Ok(None);
    };
    let Some(values) = call_types(alloc, calls, &t.columns, t.bound)? else {
        return Ok(None);
    };
    let columns = appended(keys, &values)?;
    Ok(Some(columns))
}

fn aggregate_type(
    alloc: Global,
    groups: &List<u32>,
    calls: &List<AggCall>,
    t: RelType,
) -> Result<Option<RelType>, NoMemory>
    ensures { IfOk result (λ u. u ≡ spec.aggregate_type groups.now calls.now t) }
{
    let columns = group_columns(alloc, groups, calls, &t)?;
    Ok(of_columns(columns, group_bound(groups, t.bound)))
}

fn join_columns(
    kind: JoinKind,
    left: List<SqlType>,
    right: &List<SqlType>,
) -> Result<List<SqlType>, NoMemory>
    ensures { IfOk result (λ ts. ts ≡ spec.join_columns kind left right.now) }
{
    match kind {
        JoinKind::Inner => appended(left, right),
        JoinKind::Left => padded(left, right),
    }
}

// Whether the condition is BOOLEAN over the columns of both sides.
fn is_join_condition(
    alloc: Global,
    on: &Expr,
    left: &List<SqlType>,
    right: &List<SqlType>,
) -> Result<bool, NoMemory>
    ensures { IfOk result (λ b. b ≡ spec.is_condition on.now (left.now ++ right.now)) }
{
    let both = appended(left.copy(alloc)?, right)?;
    Ok(is_condition(on, &both))
}

fn join_type(
    alloc: Global,
    kind: JoinKind,
    on: &Expr,
    by: (bool, bool),
    s: RelType,
    t: RelType,
) -> Result<Option<RelType>, NoMemory>
    ensures { IfOk result
        (λ u. u ≡ spec.join_type kind on.now (record { left = by.0; right = by.1 }) s t) }
{
    if !is_join_condition(alloc, on, &s.columns, &t.columns)? {
        return Ok(None);
    }
    let columns = join_columns(kind, s.columns, &t.columns)?;
    let bound = join_bound(kind, by.0, by.1, s.bound, t.bound);
    Ok(Some(RelType { columns, bound }))
}

// ---- leaves

fn is_ordered(interval: Interval) -> bool
    ensures { result ≡ spec.is_ordered interval }
{
    match interval {
        Interval::Never => true,
        Interval::Range { lo, hi } => lo <= hi,
    }
}

fn is_listed(t: SqlType) -> bool
    ensures { result ≡ spec.is_listed t }
{
    !t.kind.is(Kind::Integer) || (t.interval.is_in_range() && is_ordered(t.interval))
}

fn are_listed(types: &List<SqlType>) -> bool
    ensures { result ≡ list_all spec.is_listed types.now }
{
    types.as_slice().iter().all(|t| is_listed(*t))
}

fn empty_type(alloc: Global, types: &List<SqlType>) -> Result<Option<RelType>, NoMemory>
    ensures { IfOk result (λ t. t ≡ spec.empty_type types.now) }
{
    if are_listed(types) {
        let columns = types.copy(alloc)?;
        Ok(Some(RelType { columns, bound: 0 }))
    } else {
        Ok(None)
    }
}

fn table_columns(alloc: Global, table: &TableDef) -> Result<List<SqlType>, NoMemory>
    ensures { IfOk result (λ ts. ts ≡ types_of table.now) }
{
    let mut types = List::new(alloc);
    for column in table.columns.as_slice() {
        types.push(column.kind)?;
    }
    Ok(types)
}

fn scan_type(alloc: Global, info: &PlanInfo, table: u32) -> Result<Option<RelType>, NoMemory>
    ensures { IfOk result (λ t. t ≡ spec.leaf_type info.now (scan table)) }
{
    match info.table(table) {
        Some(table) => {
            let columns = table_columns(alloc, table)?;
            Ok(Some(RelType {
                columns,
                bound: u128::from(table.max_rows),
            }))
        }
        None => Ok(None),
    }
}

// A schema has no lattices yet, so no tile and no star has a type.
fn tile_type(info: &PlanInfo, at: u32) -> Option<RelType>
    ensures { result ≡ spec.leaf_type info.now (tile_scan at) }
{
    let _ = &info.schema;
    None
}

fn star_type(info: &PlanInfo, lattice: u32) -> Option<RelType>
    ensures { result ≡ spec.leaf_type info.now (star_scan lattice) }
{
    let _ = &info.schema;
    None
}

// ---- trees

// Which sides of a join have a key whose columns are equated with the other side's.
fn keyed_sides(
    alloc: Global,
    info: &PlanInfo,
    width: usize,
    on: &Expr,
    left: &Rel,
    right: &Rel,
) -> Result<(bool, bool), NoMemory>
    ensures { IfOk result
        (λ by. record { left = by.0; right = by.1 }
        ≡ spec.keyed info.now width on.now (tree_of left.now) (tree_of right.now)) }
{
    let pairs = pairs_of(alloc, on, width)?;
    let columns = left_columns(alloc, &pairs)?;
    let by_left = is_keyed(info, left, &columns);
    let columns = right_columns(alloc, &pairs)?;
    let by_right = is_keyed(info, right, &columns);
    Ok((by_left, by_right))
}

fn binary_type(
    alloc: Global,
    info: &PlanInfo,
    kind: JoinKind,
    on: &Expr,
    left: &Rel,
    right: &Rel,
    of: (RelType, RelType),
) -> Result<Option<RelType>, NoMemory>
    ensures { IfOk result
        (λ t. t ≡ spec.binary_type info.now (join_on kind on.now)
        (tree_of left.now) (tree_of right.now) of.0 of.1) }
{
    let by = keyed_sides(alloc, info, of.0.columns.len(), on, left, right)?;
    let (s, t) = of;
    join_type(alloc, kind, on, by, s, t)
}

/// The type of the tree over `info`: none exactly where it isn't well formed.
#[tactic(auto, using(crate::proofs::TreeSteps::tree_steps))]
pub fn type_of(alloc: Global, rel: &Rel, info: &PlanInfo) -> Result<Option<RelType>, NoMemory>
    ensures { IfOk result (λ t. t ≡ spec.type_of info.now (tree_of rel.now)) }
{
    match rel {
        Rel::Scan(table) => scan_type(alloc, info, *table),
        Rel::TileScan(at) => Ok(tile_type(info, *at)),
        Rel::StarScan { lattice } => Ok(star_type(info, *lattice)),
        Rel::Filter { input, predicate } => {
            let Some(t) = type_of(alloc, input.get(), info)? else {
                return Ok(None);
            };
            Ok(filter_type(predicate, t))
        }
        Rel::Project { input, items } => {
            let Some(t) = type_of(alloc, input.get(), info)? else {
                return Ok(None);
            };
            project_type(alloc, items, t)
        }
        Rel::Join {
            kind,
            left,
            right,
            on,
        } => {
            let left = left.get();
            let right = right.get();
            let Some(s) = type_of(alloc, left, info)? else {
                return Ok(None);
            };
            let Some(t) = type_of(alloc, right, info)? else {
                return Ok(None);
            };
            binary_type(alloc, info, *kind, on, left, right, (s, t))
        }
        Rel::Aggregate {
            input,
            groups,
            calls,
        } => {
            let Some(t) = type_of(alloc, input.get(), info)? else {
                return Ok(None);
            };
            aggregate_type(alloc, groups, calls, t)
        }
        Rel::Empty(types) => empty_type(alloc, types),
        Rel::Hole(set) => info.set_type(alloc, *set),
    }
}
