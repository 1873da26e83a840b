//! Groups of sorted rows.
ghost use Rattle.std.specs.Prelude.{◌≡◌, ◌<◌, ◌≤◌, ◌++◌, [], length, IfOk, slice_index_or, slice_range, take_while};
ghost use Rattle.std.specs.List.{list_all, range_with_len};
ghost use Rattle.cal_value.specs.Equal.{value_eq};
ghost use Rattle.cal_value.specs.Order.{column_of, columns_of};
ghost use Rattle.exec_ops.specs.Group as spec;
ghost use Rattle.exec_ops.specs.Group.{by_key, called, same_key};
ghost use Rattle.exec_ops.specs.Ready.{CanGroup};
ghost use Rattle.exec_ops.specs.Sort.{IsSortedOn};
ghost use Rattle.exec_ops.specs.Steps.{end_of_run};

use crate::groups::{all_places, group_row, whole_group};
use cal_schema::AggCall;
use cal_value::{List, NoMemory, Row, Value, values_at};
use std::alloc::Global;

fn is_same_in(a: &Row, b: &Row, column: u32) -> bool
    ensures { result ≡ value_eq (column_of a.now column) (column_of b.now column) }
{
    let null = Value::Null;
    let a = a.get(column as usize).unwrap_or(&null);
    let b = b.get(column as usize).unwrap_or(&null);
    *a == *b
}

fn are_same_in(a: &Row, b: &Row, columns: &[u32]) -> bool
    ensures { result
        ≡ list_all (λ c. value_eq (column_of a.now c) (column_of b.now c)) columns.now }
{
    columns.iter().all(|column| is_same_in(a, b, *column))
}

#[tactic(auto, using(crate::proofs::SortedLemmas::key_rules))]
fn has_same_key(a: &Row, b: &Row, columns: &[u32]) -> bool
    ensures { result ≡ same_key columns.now a.now b.now }
{
    are_same_in(a, b, columns)
}

// How many rows from the front on have this row's key.
fn count_same(first: &Row, rows: &[Row], columns: &[u32]) -> usize
    ensures { result ≡ length (take_while (same_key columns.now first.now) rows.now) }
{
    rows.iter()
        .take_while(|row| has_same_key(first, row, columns))
        .count()
}

// The place behind the rows from this one on that have its key.
#[tactic(auto, using(crate::proofs::SortedLemmas::end_rules))]
fn end_of_group(rows: &List<Row>, columns: &[u32], start: usize) -> usize
    requires { start < length rows.now }
    ensures end { let first = slice_index_or rows.now start [] in
        result ≡ end_of_run (same_key columns.now first) rows.now start }
    ensures after { start < result }
    ensures within { result ≤ length rows.now }
{
    let rows = rows.as_slice();
    start + count_same(&rows[start], &rows[start..], columns)
}

// The group of the rows from one place up to another, with the key of the first. The places are those of all rows.
#[tactic(auto, using(crate::proofs::GroupLemmas::part_rules))]
fn group_between(
    alloc: Global,
    rows: &List<Row>,
    places: &[usize],
    start: usize,
    end: usize,
    groups: &[u32],
    calls: &List<AggCall>,
) -> Result<Row, NoMemory>
    requires ready { CanGroup calls.now rows.now }
    requires places { places.now ≡ range_with_len 0 (length rows.now) }
    requires start { start < end }
    requires end { end ≤ length rows.now }
    ensures { let first = slice_index_or rows.now start [] in
        let group = slice_range rows.now start end in
        IfOk result (λ row. row ≡ columns_of first groups.now ++ called calls.now group) }
{
    let key = values_at(alloc, &rows.as_slice()[start], groups)?;
    group_row(alloc, key, calls, rows, &places[start..end])
}

fn groups_in(
    alloc: Global,
    rows: &List<Row>,
    groups: &[u32],
    calls: &List<AggCall>,
) -> Result<List<Row>, NoMemory>
    requires ready { CanGroup calls.now rows.now }
    requires sorted { IsSortedOn groups.now rows.now }
    ensures { IfOk result (λ made. made ≡ by_key groups.now calls.now rows.now) }
{
    let places = all_places(alloc, rows.len())?;
    let mut made = List::new(alloc);
    let mut start = 0;
    while start < rows.len() {
        let end = end_of_group(rows, groups, start);
        let places = places.as_slice();
        let row = group_between(alloc, rows, places, start, end, groups, calls)?;
        made.push(row)?;
        start = end;
    }
    Ok(made)
}

/// The groups of rows that are sorted on these columns, the same list as that of `hash_group`. Keeps no keys of rows.
pub fn sorted_group(
    alloc: Global,
    rows: &List<Row>,
    groups: &List<u32>,
    calls: &List<AggCall>,
) -> Result<List<Row>, NoMemory>
    requires ready { CanGroup calls.now rows.now }
    requires sorted { IsSortedOn groups.now rows.now }
    ensures { IfOk result (λ made. made ≡ spec.group_rows groups.now calls.now rows.now) }
{
    if groups.is_empty() {
        return whole_group(alloc, rows, calls);
    }
    groups_in(alloc, rows, groups.as_slice(), calls)
}
