//! Groups of rows.
ghost use Rattle.std.specs.Prelude.{◌≡◌, ◌++◌, ◌∷◌, [], length, map, All, IfOk};
ghost use Rattle.std.specs.List.{range_with_len};
ghost use Rattle.cal_value.specs.Order.{column_of};
ghost use Rattle.cal_aggregate.specs.Aggregate.{aggregated, combined};
ghost use Rattle.cal_aggregate.specs.Combine.{CanCombine};
ghost use Rattle.cal_aggregate.specs.ResultType.{IsAggregable};
ghost use Rattle.exec_ops.specs.Group as spec;
ghost use Rattle.exec_ops.specs.Group.{aggregate_of, called, values_in};
ghost use Rattle.exec_ops.specs.Places.{ArePlacesIn, rows_at};
ghost use Rattle.exec_ops.specs.Ready.{CanCall, CanCallEach, CanGroup};
ghost use Rattle.exec_ops.specs.Steps.{grouped_at};

use crate::index::{Index, index_of};
use cal_aggregate::{combine, start_value};
use cal_schema::AggCall;
use cal_value::{Agg, List, NoMemory, Row, Value};
use std::alloc::Global;

fn combine_row(
    alloc: Global,
    agg: Agg,
    so_far: Value,
    row: &Row,
    column: u32,
) -> Result<Value, NoMemory>
    requires { CanCombine agg so_far (column_of row.now column) }
    ensures { IfOk result (λ value. value ≡ combined agg so_far (column_of row.now column)) }
{
    let null = Value::Null;
    let value = row.get(column as usize).unwrap_or(&null);
    combine(alloc, agg, so_far, value)
}

// The aggregate of the values in a column of the rows at these places.
fn aggregate_in(
    alloc: Global,
    agg: Agg,
    column: u32,
    rows: &List<Row>,
    places: &[usize],
) -> Result<Value, NoMemory>
    requires within { ArePlacesIn rows.now places.now }
    requires typed { IsAggregable agg (values_in column (rows_at rows.now places.now)) }
    ensures { IfOk result (λ value. value
        ≡ aggregated agg (values_in column (rows_at rows.now places.now))) }
{
    let mut so_far = start_value(agg);
    for place in places {
        so_far = combine_row(alloc, agg, so_far, &rows.as_slice()[*place], column)?;
    }
    Ok(so_far)
}

fn value_of(
    alloc: Global,
    call: AggCall,
    rows: &List<Row>,
    places: &[usize],
) -> Result<Value, NoMemory>
    requires within { ArePlacesIn rows.now places.now }
    requires typed { CanCall call.agg call.argument (rows_at rows.now places.now) }
    ensures { IfOk result (λ value. value
        ≡ aggregate_of call.agg call.argument (rows_at rows.now places.now)) }
{
    match call.argument {
        Some(column) => aggregate_in(alloc, call.agg, column, rows, places),
        None => Ok(Value::Int(places.len() as i128)),
    }
}

/// The key of a group, and behind it what the calls make of its rows, which are at these places.
pub(crate) fn group_row(
    alloc: Global,
    key: Row,
    calls: &List<AggCall>,
    rows: &List<Row>,
    places: &[usize],
) -> Result<Row, NoMemory>
    requires within { ArePlacesIn rows.now places.now }
    requires typed { CanCallEach calls.now (rows_at rows.now places.now) }
    ensures { IfOk result (λ row. row ≡ key ++ called calls.now (rows_at rows.now places.now)) }
{
    let mut row = key;
    for call in calls.as_slice() {
        row.push(value_of(alloc, *call, rows, places)?)?;
    }
    Ok(row)
}

/// The places of so many rows.
#[tactic(auto, using(crate::proofs::GroupLemmas::place_rules))]
pub(crate) fn all_places(alloc: Global, len: usize) -> Result<List<usize>, NoMemory>
    ensures { IfOk result (λ places. places ≡ range_with_len 0 len) }
{
    let mut places = List::new(alloc);
    for at in 0..len {
        places.push(at)?;
    }
    Ok(places)
}

/// All rows as one group.
pub(crate) fn whole_group(
    alloc: Global,
    rows: &List<Row>,
    calls: &List<AggCall>,
) -> Result<List<Row>, NoMemory>
    requires { CanGroup calls.now rows.now }
    ensures { IfOk result (λ groups. groups ≡ called calls.now rows.now ∷ []) }
{
    let places = all_places(alloc, rows.len())?;
    let row = group_row(alloc, List::new(alloc), calls, rows, places.as_slice())?;
    let mut groups = List::new(alloc);
    groups.push(row)?;
    Ok(groups)
}

fn groups_of(
    alloc: Global,
    index: Index,
    calls: &List<AggCall>,
    rows: &List<Row>,
) -> Result<List<Row>, NoMemory>
    requires lengths { length index.places.items ≡ length index.keys.keys }
    requires within { All (ArePlacesIn rows.now) index.places.items }
    requires typed { All (λ ps. CanCallEach calls.now (rows_at rows.now ps)) index.places.items }
    ensures { IfOk result (λ groups. groups
        ≡ grouped_at calls.now rows.now index.keys.keys index.places.items) }
{
    let Index { keys, places } = index;
    let mut groups: List<Row> = List::new(alloc);
    for key in keys {
        let places = places[groups.len()].as_slice();
        let row = group_row(alloc, key, calls, rows, places)?;
        groups.push(row)?;
    }
    Ok(groups)
}

/// The groups of rows with equal values in these columns, NULL equal to NULL, in order of first appearance: each with
/// these values, and behind them what the calls make of its rows. Without columns all rows are one group, also where
/// there are none. Looks at each row once.
pub fn hash_group(
    alloc: Global,
    rows: &List<Row>,
    groups: &List<u32>,
    calls: &List<AggCall>,
) -> Result<List<Row>, NoMemory>
    requires { CanGroup calls.now rows.now }
    ensures { IfOk result (λ made. made ≡ spec.group_rows groups.now calls.now rows.now) }
{
    if groups.is_empty() {
        return whole_group(alloc, rows, calls);
    }
    let index = index_of(alloc, rows, groups.as_slice())?;
    groups_of(alloc, index, calls, rows)
}
