//! The tables of a schema.
ghost use Rattle.std.specs.Prelude.{◌≡◌, ◌≤◌, ◌+◌, length, IfOk};
ghost use Rattle.std.specs.List.{list_any};
ghost use Rattle.serde_json.specs.View.{view, items_view};
ghost use Rattle.model_fields.specs.Reading.{Gives, each, read_item};
ghost use Rattle.model_json.specs.Tables as spec;

use crate::draft::{Contents, Draft};
use cal_schema::{AdapterKind, ColumnDef, TableDef, is_compressed};
use cal_value::{COLUMN_LIMIT, Duplicate, List, ROW_LIMIT, Row, SqlText, TABLE_LIMIT};
use model_fields::{
    KeyMember, ModelCause, ModelFault, at_item, at_member, bad, columns, keyed, keys_apart,
    list_of, name_of, object_of, primary_key, required, rows, sql_text, text_of, word_at,
};
use serde_json::Value as Json;
use std::alloc::Global;

// ---- operands

fn file(alloc: Global, value: &Json) -> Result<SqlText, ModelFault>
    ensures { Gives (λ t. t) result (spec.file (view value.now)) }
{
    let text = text_of(alloc, value)?;
    let name = sql_text(alloc, text)?;
    if is_compressed(name.as_slice()) {
        Err(bad(alloc, ModelCause::Compressed))
    } else {
        Ok(name)
    }
}

fn file_at(alloc: Global, operand: &Json) -> Result<SqlText, ModelFault>
    ensures { Gives (λ t. t) result (spec.file_at (view operand.now)) }
{
    let value = required(alloc, operand, "file")?;
    at_member(alloc, "file", file(alloc, value))
}

fn row_limit(alloc: Global, number: Option<u64>) -> Result<u64, ModelFault>
    ensures { Gives (λ n. n) result (spec.row_limit number) }
{
    match number {
        Some(number) => {
            if 1 <= number && number <= ROW_LIMIT {
                Ok(number)
            } else {
                Err(bad(alloc, ModelCause::BadValue))
            }
        }
        None => Err(bad(alloc, ModelCause::BadValue)),
    }
}

fn max_rows(alloc: Global, value: &Json) -> Result<u64, ModelFault>
    ensures { Gives (λ n. n) result (spec.max_rows (view value.now)) }
{
    match value.as_number() {
        Some(number) => row_limit(alloc, number.as_u64()),
        None => Err(bad(alloc, ModelCause::WrongKind)),
    }
}

fn most_rows(alloc: Global, operand: &Json) -> Result<u64, ModelFault>
    ensures { Gives (λ n. n) result (spec.most_rows (view operand.now)) }
{
    match operand.get("maxRows") {
        Some(value) => at_member(alloc, "maxRows", max_rows(alloc, value)),
        None => Ok(ROW_LIMIT),
    }
}

fn csv_operand(alloc: Global, operand: &Json) -> Result<Contents, ModelFault>
    ensures { Gives (λ c. c) result (spec.csv_operand (view operand.now)) }
{
    let file = file_at(alloc, operand)?;
    let max_rows = most_rows(alloc, operand)?;
    let key = KeyMember::of(operand)?;
    Ok(Contents {
        file,
        max_rows,
        columns: List::new(alloc),
        primary_key: List::new(alloc),
        key,
        rows: None,
    })
}

fn columns_at(alloc: Global, operand: &Json) -> Result<List<ColumnDef>, ModelFault>
    ensures columns { Gives (λ cs. cs) result (spec.columns_at (view operand.now)) }
    ensures few { IfOk result (λ cs. length cs ≤ COLUMN_LIMIT) }
{
    let value = required(alloc, operand, "columns")?;
    at_member(alloc, "columns", columns(alloc, value))
}

fn rows_at(
    alloc: Global,
    columns: &List<ColumnDef>,
    most: u64,
    operand: &Json,
) -> Result<List<Row>, ModelFault>
    ensures { Gives (λ rs. rs) result (spec.rows_at columns.now most (view operand.now)) }
{
    let value = required(alloc, operand, "rows")?;
    at_member(alloc, "rows", rows(alloc, columns, most, value))
}

fn row_key(
    alloc: Global,
    columns: &List<ColumnDef>,
    rows: &List<Row>,
    operand: &Json,
) -> Result<List<u32>, ModelFault>
    requires { length columns.now ≤ COLUMN_LIMIT }
    ensures { Gives (λ ks. ks) result (spec.row_key columns.now rows.now (view operand.now)) }
{
    let key = primary_key(alloc, columns, operand)?;
    at_member(alloc, "rows", keys_apart(alloc, &key, rows))?;
    Ok(key)
}

fn mem_operand(alloc: Global, operand: &Json) -> Result<Contents, ModelFault>
    ensures { Gives (λ c. c) result (spec.mem_operand (view operand.now)) }
{
    let max_rows = most_rows(alloc, operand)?;
    let columns = columns_at(alloc, operand)?;
    let rows = rows_at(alloc, &columns, max_rows, operand)?;
    let primary_key = row_key(alloc, &columns, &rows, operand)?;
    let columns = keyed(alloc, &primary_key, &columns)?;
    Ok(Contents {
        file: SqlText::from_characters(Vec::new(alloc)),
        max_rows,
        columns,
        primary_key,
        key: KeyMember::none(),
        rows: Some(rows),
    })
}

fn operand(alloc: Global, adapter: AdapterKind, value: &Json) -> Result<Contents, ModelFault>
    ensures { Gives (λ c. c) result (spec.operand adapter (view value.now)) }
{
    let operand = object_of(alloc, value)?;
    match adapter {
        AdapterKind::Csv => csv_operand(alloc, operand),
        AdapterKind::Mem => mem_operand(alloc, operand),
    }
}

fn operand_at(alloc: Global, adapter: AdapterKind, table: &Json) -> Result<Contents, ModelFault>
    ensures { Gives (λ c. c) result (spec.operand_at adapter (view table.now)) }
{
    let value = required(alloc, table, "operand")?;
    at_member(alloc, "operand", operand(alloc, adapter, value))
}

// ---- tables

fn is_named(draft: &Draft, name: &SqlText) -> bool
    ensures { result ≡ spec.is_draft_named name.now draft.now }
{
    draft.table.name == *name
}

fn has_name(drafts: &[Draft], name: &SqlText) -> bool
    ensures { result ≡ list_any (spec.is_draft_named name.now) drafts.now }
{
    drafts.iter().any(|draft| is_named(draft, name))
}

fn table_name(alloc: Global, before: &List<Draft>, value: &Json) -> Result<SqlText, ModelFault>
    ensures { Gives (λ t. t) result (spec.table_name before.now (view value.now)) }
{
    let text = name_of(alloc, value)?;
    let name = sql_text(alloc, text)?;
    if has_name(before.as_slice(), &name) {
        Err(bad(alloc, ModelCause::Repeated))
    } else {
        Ok(name)
    }
}

fn name_at(alloc: Global, before: &List<Draft>, table: &Json) -> Result<SqlText, ModelFault>
    ensures { Gives (λ t. t) result (spec.name_at before.now (view table.now)) }
{
    let value = required(alloc, table, "name")?;
    at_member(alloc, "name", table_name(alloc, before, value))
}

fn factory(alloc: Global, value: &Json) -> Result<AdapterKind, ModelFault>
    ensures { Gives (λ a. a) result (spec.factory (view value.now)) }
{
    let text = text_of(alloc, value)?;
    if text == "org.apache.calcite.adapter.csv.CsvTableFactory" {
        Ok(AdapterKind::Csv)
    } else if text == "cal.MemTableFactory" {
        Ok(AdapterKind::Mem)
    } else {
        Err(bad(alloc, ModelCause::BadValue))
    }
}

fn factory_at(alloc: Global, table: &Json) -> Result<AdapterKind, ModelFault>
    ensures { Gives (λ a. a) result (spec.factory_at (view table.now)) }
{
    let value = required(alloc, table, "factory")?;
    at_member(alloc, "factory", factory(alloc, value))
}

fn draft_of(
    schema_at: usize,
    schema: SqlText,
    table_at: usize,
    name: SqlText,
    adapter: AdapterKind,
    contents: Contents,
) -> Draft
    ensures { result ≡ spec.draft_of schema_at schema table_at name adapter contents }
{
    Draft {
        schema_at,
        table_at,
        table: TableDef {
            schema,
            name,
            columns: contents.columns,
            adapter,
            file: contents.file,
            max_rows: contents.max_rows,
            primary_key: contents.primary_key,
        },
        key: contents.key,
        rows: contents.rows,
    }
}

fn table(
    alloc: Global,
    schema_at: usize,
    schema: &SqlText,
    before: &List<Draft>,
    value: &Json,
) -> Result<Draft, ModelFault>
    ensures { Gives (λ t. t) result (spec.table schema_at schema.now before.now (view value.now)) }
{
    let table = object_of(alloc, value)?;
    let name = name_at(alloc, before, table)?;
    word_at(alloc, table, "type", "custom")?;
    let adapter = factory_at(alloc, table)?;
    let contents = operand_at(alloc, adapter, table)?;
    let schema = schema.copy(alloc)?;
    Ok(draft_of(schema_at, schema, before.len(), name, adapter, contents))
}

fn next_table(
    alloc: Global,
    schema_at: usize,
    schema: &SqlText,
    before: &List<Draft>,
    value: &Json,
) -> Result<Draft, ModelFault>
    ensures { Gives (λ t. t) result (read_item (spec.table schema_at schema.now) before.now (view value.now)) }
{
    at_item(
        alloc,
        before.len(),
        table(alloc, schema_at, schema, before, value),
    )
}

fn each_table(
    alloc: Global,
    schema_at: usize,
    schema: &SqlText,
    values: &[Json],
) -> Result<List<Draft>, ModelFault>
    ensures tables { Gives (λ ts. ts) result (each (spec.table schema_at schema.now) (items_view values.now)) }
    ensures count { IfOk result (λ ts. length ts ≡ length values.now) }
{
    let mut tables = List::new(alloc);
    for value in values {
        let table = next_table(alloc, schema_at, schema, &tables, value)?;
        tables.push(table)?;
    }
    Ok(tables)
}

#[tactic(auto, using(model_fields::proofs::ItemLemmas::count_items))]
fn table_list(
    alloc: Global,
    schema_at: usize,
    schema: &SqlText,
    before: usize,
    values: &[Json],
) -> Result<List<Draft>, ModelFault>
    requires { before ≤ TABLE_LIMIT }
    ensures tables { Gives (λ ts. ts) result (spec.table_list schema_at schema.now before (items_view values.now)) }
    ensures few { IfOk result (λ ts. before + length ts ≤ TABLE_LIMIT) }
{
    if TABLE_LIMIT as usize - before < values.len() {
        Err(bad(alloc, ModelCause::TooMany))
    } else {
        each_table(alloc, schema_at, schema, values)
    }
}

/// The tables of a schema, of which there may be 64 with those of the schemas before it.
pub fn tables(
    alloc: Global,
    schema_at: usize,
    schema: &SqlText,
    before: usize,
    value: &Json,
) -> Result<List<Draft>, ModelFault>
    requires { before ≤ TABLE_LIMIT }
    ensures tables { Gives (λ ts. ts) result (spec.tables schema_at schema.now before (view value.now)) }
    ensures few { IfOk result (λ ts. before + length ts ≤ TABLE_LIMIT) }
{
    let values = list_of(alloc, value)?;
    table_list(alloc, schema_at, schema, before, values)
}
