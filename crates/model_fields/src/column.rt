//! The columns of a table.
ghost use Rattle.std.specs.Prelude.{◌≡◌, ◌≤◌, ◌==◌, length, IfOk};
ghost use Rattle.std.specs.List.{list_any};
ghost use Rattle.std.specs.Str.{chars};
ghost use Rattle.serde_json.specs.View.{view, items_view};
ghost use Rattle.cal_schema.specs.Column.{column_of};
ghost use Rattle.cal_schema.specs.Lookup.{is_same_name};
ghost use Rattle.model_fields.specs.Reading.{Gives, each, read_item};
ghost use Rattle.model_fields.specs.Rows as spec;

use crate::fault::{ModelCause, ModelFault, at_item, bad};
use crate::member::{list_of, text_of};
use cal_schema::{ColumnDef, ColumnFault};
use cal_value::{COLUMN_LIMIT, List, SqlText};
use serde_json::Value as Json;
use std::alloc::Global;

pub(crate) fn is_named(column: &ColumnDef, name: &SqlText) -> bool
    ensures { result ≡ spec.is_column_named name.now column.now }
{
    column.name == *name
}

fn has_name(columns: &[ColumnDef], name: &SqlText) -> bool
    ensures { result ≡ list_any (spec.is_column_named name.now) columns.now }
{
    columns.iter().any(|column| is_named(column, name))
}

fn parsed(alloc: Global, text: &str) -> Result<ColumnDef, ModelFault>
    ensures { Gives (λ c. c) result (spec.parsed (column_of (chars text.now))) }
{
    match ColumnDef::parse(alloc, text) {
        Ok(column) => Ok(column),
        Err(ColumnFault::NameTooLong { .. }) => Err(bad(alloc, ModelCause::TextTooLong)),
        Err(ColumnFault::BadColumn) => Err(bad(alloc, ModelCause::BadValue)),
        Err(ColumnFault::NoMemory) => Err(ModelFault::NoMemory),
    }
}

fn column(alloc: Global, before: &List<ColumnDef>, value: &Json) -> Result<ColumnDef, ModelFault>
    ensures { Gives (λ c. c) result (spec.column before.now (view value.now)) }
{
    let text = text_of(alloc, value)?;
    let column = parsed(alloc, text)?;
    if has_name(before.as_slice(), &column.name) {
        Err(bad(alloc, ModelCause::Repeated))
    } else {
        Ok(column)
    }
}

fn next_column(
    alloc: Global,
    before: &List<ColumnDef>,
    value: &Json,
) -> Result<ColumnDef, ModelFault>
    ensures { Gives (λ c. c) result (read_item spec.column before.now (view value.now)) }
{
    at_item(alloc, before.len(), column(alloc, before, value))
}

fn each_column(alloc: Global, values: &[Json]) -> Result<List<ColumnDef>, ModelFault>
    ensures columns { Gives (λ cs. cs) result (each spec.column (items_view values.now)) }
    ensures count { IfOk result (λ cs. length cs ≡ length values.now) }
{
    let mut columns = List::new(alloc);
    for value in values {
        let column = next_column(alloc, &columns, value)?;
        columns.push(column)?;
    }
    Ok(columns)
}

/// The 1 to 32 columns of a list.
#[tactic(auto, using(crate::proofs::ItemLemmas::count_items))]
fn column_list(alloc: Global, values: &[Json]) -> Result<List<ColumnDef>, ModelFault>
    ensures columns { Gives (λ cs. cs) result (spec.column_list (items_view values.now)) }
    ensures few { IfOk result (λ cs. length cs ≤ COLUMN_LIMIT) }
{
    if values.len() == 0 {
        Err(bad(alloc, ModelCause::BadValue))
    } else if values.len() > COLUMN_LIMIT as usize {
        Err(bad(alloc, ModelCause::TooMany))
    } else {
        each_column(alloc, values)
    }
}

/// The columns of a table: 1 to 32 texts `NAME:type`, whose names differ.
pub fn columns(alloc: Global, value: &Json) -> Result<List<ColumnDef>, ModelFault>
    ensures columns { Gives (λ cs. cs) result (spec.columns (view value.now)) }
    ensures few { IfOk result (λ cs. length cs ≤ COLUMN_LIMIT) }
{
    let values = list_of(alloc, value)?;
    column_list(alloc, values)
}
