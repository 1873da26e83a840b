//! The rows that stand in a model.
ghost use Rattle.std.specs.Prelude.{◌≡◌, [], IfOk};
ghost use Rattle.std.specs.List.{list_any};
ghost use Rattle.std.specs.Option.{option_copied};
ghost use Rattle.cal_value.specs.Logic.{is_null};
ghost use Rattle.serde_json.specs.View.{view, items_view};
ghost use Rattle.model_fields.specs.Reading.{Gives, each, read_item};
ghost use Rattle.model_fields.specs.Rows as spec;

use crate::fault::{ModelCause, ModelFault, at_item, bad};
use crate::member::{list_of, short, sql_text};
use cal_schema::ColumnDef;
use cal_value::{Interval, Kind, List, Row, SqlType, TEXT_LIMIT, Value, values_at};
use indexmap::IndexSet;
use serde_json::Value as Json;
use std::alloc::Global;

fn whole(alloc: Global, range: Interval, number: Option<i64>) -> Result<Value, ModelFault>
    ensures { Gives (λ v. v) result (spec.whole range number) }
{
    match number {
        Some(number) => {
            let number = i128::from(number);
            if range.holds(number) {
                Ok(Value::Int(number))
            } else {
                Err(bad(alloc, ModelCause::BadValue))
            }
        }
        None => Err(bad(alloc, ModelCause::BadValue)),
    }
}

fn text_cell(alloc: Global, text: &str) -> Result<Value, ModelFault>
    ensures { Gives (λ v. v) result (spec.short_cell text.now) }
{
    let text = short(alloc, text, TEXT_LIMIT as usize)?;
    Ok(Value::Text(sql_text(alloc, text)?))
}

fn cell(alloc: Global, kind: SqlType, value: &Json) -> Result<Value, ModelFault>
    ensures { Gives (λ v. v) result (spec.cell kind.kind kind.interval (view value.now)) }
{
    match (kind.kind, value) {
        (_, Json::Null) => Ok(Value::Null),
        (Kind::Boolean, Json::Bool(truth)) => Ok(Value::Bool(*truth)),
        (Kind::Integer, Json::Number(number)) => whole(alloc, kind.interval, number.as_i64()),
        (Kind::Text, Json::String(text)) => text_cell(alloc, text.as_str()),
        _ => Err(bad(alloc, ModelCause::WrongKind)),
    }
}

fn cell_in(alloc: Global, column: Option<&ColumnDef>, value: &Json) -> Result<Value, ModelFault>
    ensures { Gives (λ v. v) result (spec.cell_in (option_copied column.entry) (view value.now)) }
{
    match column {
        Some(column) => cell(alloc, column.kind, value),
        None => Err(bad(alloc, ModelCause::BadValue)),
    }
}

fn next_cell(
    alloc: Global,
    columns: &List<ColumnDef>,
    before: &Row,
    value: &Json,
) -> Result<Value, ModelFault>
    ensures { Gives (λ v. v) result (read_item (spec.next_cell columns.now) before.now (view value.now)) }
{
    let place = before.len();
    at_item(alloc, place, cell_in(alloc, columns.get(place), value))
}

fn each_cell(alloc: Global, columns: &List<ColumnDef>, values: &[Json]) -> Result<Row, ModelFault>
    ensures { Gives (λ r. r) result (each (spec.next_cell columns.now) (items_view values.now)) }
{
    let mut row = List::new(alloc);
    for value in values {
        let cell = next_cell(alloc, columns, &row, value)?;
        row.push(cell)?;
    }
    Ok(row)
}

#[tactic(auto, using(crate::proofs::ItemLemmas::count_items))]
fn cells(alloc: Global, columns: &List<ColumnDef>, values: &[Json]) -> Result<Row, ModelFault>
    ensures { Gives (λ r. r) result (spec.cells columns.now (items_view values.now)) }
{
    if values.len() == columns.len() {
        each_cell(alloc, columns, values)
    } else {
        Err(bad(alloc, ModelCause::BadValue))
    }
}

fn row(alloc: Global, columns: &List<ColumnDef>, value: &Json) -> Result<Row, ModelFault>
    ensures { Gives (λ r. r) result (spec.row_of columns.now (view value.now)) }
{
    let values = list_of(alloc, value)?;
    cells(alloc, columns, values)
}

fn next_row(
    alloc: Global,
    columns: &List<ColumnDef>,
    before: &List<Row>,
    value: &Json,
) -> Result<Row, ModelFault>
    ensures { Gives (λ r. r) result (read_item (spec.row columns.now) before.now (view value.now)) }
{
    at_item(alloc, before.len(), row(alloc, columns, value))
}

fn each_row(
    alloc: Global,
    columns: &List<ColumnDef>,
    values: &[Json],
) -> Result<List<Row>, ModelFault>
    ensures { Gives (λ rs. rs) result (each (spec.row columns.now) (items_view values.now)) }
{
    let mut rows = List::new(alloc);
    for value in values {
        let row = next_row(alloc, columns, &rows, value)?;
        rows.push(row)?;
    }
    Ok(rows)
}

#[tactic(auto, using(crate::proofs::ItemLemmas::count_items))]
fn row_list(
    alloc: Global,
    columns: &List<ColumnDef>,
    most: u64,
    values: &[Json],
) -> Result<List<Row>, ModelFault>
    ensures { Gives (λ rs. rs) result (spec.row_list columns.now most (items_view values.now)) }
{
    if most < values.len() as u64 {
        Err(bad(alloc, ModelCause::TooMany))
    } else {
        each_row(alloc, columns, values)
    }
}

/// At most so many rows, each with as many values as there are columns, which are as their columns say.
pub fn rows(
    alloc: Global,
    columns: &List<ColumnDef>,
    most: u64,
    value: &Json,
) -> Result<List<Row>, ModelFault>
    ensures { Gives (λ rs. rs) result (spec.rows columns.now most (view value.now)) }
{
    let values = list_of(alloc, value)?;
    row_list(alloc, columns, most, values)
}

// ---- the keys of rows

fn has_null(values: &[Value]) -> bool
    ensures { result ≡ list_any is_null values.now }
{
    values.iter().any(|value| value.is_null())
}

// Adds the key of one more row.
fn add_key(alloc: Global, before: &mut IndexSet<Row>, key: Row) -> Result<(), ModelFault>
    ensures { Gives (λ nothing. before.new.keys) result (spec.with_key before.old.keys key) }
{
    if has_null(key.as_slice()) {
        return Err(bad(alloc, ModelCause::NullValue));
    }
    if before.insert(key)? {
        Ok(())
    } else {
        Err(bad(alloc, ModelCause::KeyTaken))
    }
}

fn add_row(
    alloc: Global,
    key: &[u32],
    number: usize,
    before: &mut IndexSet<Row>,
    row: &Row,
) -> Result<(), ModelFault>
    ensures { Gives (λ nothing. before.new.keys) result (spec.row_key_added key.now number before.old.keys row.now) }
{
    let values = values_at(alloc, row, key)?;
    at_item(alloc, number, add_key(alloc, before, values))
}

fn all_apart(alloc: Global, key: &[u32], rows: &[Row]) -> Result<(), ModelFault>
    ensures { Gives (λ nothing. nothing) result (spec.keys_from key.now 0 [] rows.now) }
{
    let mut keys = IndexSet::new(alloc);
    for (number, row) in rows.iter().enumerate() {
        add_row(alloc, key, number, &mut keys, row)?;
    }
    Ok(())
}

/// That no row has NULL in its key and none the key of an earlier row, where there is a key.
pub fn keys_apart(alloc: Global, key: &List<u32>, rows: &List<Row>) -> Result<(), ModelFault>
    ensures { Gives (λ nothing. nothing) result (spec.keys_apart key.now rows.now) }
{
    match key.as_slice() {
        [] => Ok(()),
        all => all_apart(alloc, all, rows.as_slice()),
    }
}
