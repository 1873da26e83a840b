//! A model: its document, its files, and what it means with their headers.
ghost use Rattle.std.specs.Prelude.{◌≡◌, ◌≢◌, ◌≤◌, ℕ, List as ListOf, Option, Ok, Err, IfOk, IfErr, length, map};
ghost use Rattle.serde_json.specs.View.{view, items_view};
ghost use Rattle.cal_schema.specs.declared.column.ColumnDef.{ColumnDef};
ghost use Rattle.cal_schema.specs.Valid.{IsValidSchema};
ghost use Rattle.model_fields.specs.declared.fault.ModelFault.TheVariants as faults;
ghost use Rattle.model_fields.specs.Reading.{Gives, item_in_turn, in_turn};
ghost use Rattle.model_json.specs.ModelOf as spec;
ghost use Rattle.model_json.specs.Schemas as walk;

use crate::draft::{Draft, Drafts};
use crate::schemas::first_walk;
use cal_schema::{ColumnDef, Schema, TableDef};
use cal_value::{COLUMN_LIMIT, Duplicate, List, NoMemory, Row, SqlText, TABLE_LIMIT};
use model_fields::{ModelCause, ModelFault, at_item, at_member, bad, keyed, list_of, required};
use serde_json::{Category, Value as Json};
use std::alloc::Global;

/// A document that the first walk found no fault in, and what it gave.
#[derive(Drop)]
pub struct ModelDoc {
    pub json: Json,
    pub drafts: Drafts,
}

/// The schema of a model, and for each of its tables the rows that stand in the model, where they do.
#[derive(Debug, Drop)]
pub struct Model {
    pub schema: Schema,
    pub inline: List<Option<List<Row>>>,
}

// ---- the document

fn document(alloc: Global, bytes: &[u8]) -> Result<Json, ModelFault>
    ensures { Gives (λ json. view json) result (spec.document bytes.now) }
{
    match Json::from_slice(alloc, bytes) {
        Ok(json) => Ok(json),
        Err(error) => match error.classify() {
            Category::Memory => Err(ModelFault::NoMemory),
            _ => Err(ModelFault::NotJson),
        },
    }
}

fn checked(alloc: Global, json: Json) -> Result<ModelDoc, ModelFault>
    ensures document { Gives (λ doc. view doc.json) result (spec.checked (view json)) }
    ensures walked { IfOk result spec.IsWalked }
{
    let drafts = first_walk(alloc, &json)?;
    Ok(ModelDoc { json, drafts })
}

/// The document of a model file. `NotJson` comes exactly where the bytes are no JSON text of at most 127 levels, and
/// `BadModel` exactly where the first walk finds a fault, which it tells with its path: all but the primary keys of
/// tables that are read from files, and lattices.
#[tactic(auto, using(crate::proofs::WalkLemmas::model_when_fault))]
pub fn read_model(alloc: Global, bytes: &[u8]) -> Result<ModelDoc, ModelFault>
    ensures document { Gives (λ doc. view doc.json) result (spec.read_model bytes.now) }
    ensures walked { IfOk result spec.IsWalked }
    ensures fault { IfErr result (λ e. (headers : ListOf (Option (ListOf ColumnDef))) →
        e ≢ faults.NoMemory → spec.model_of bytes.now headers ≡ Err e) }
{
    let json = document(alloc, bytes)?;
    checked(alloc, json)
}

// ---- the second walk

fn at_operand(
    alloc: Global,
    draft: &Draft,
    read: Result<List<u32>, ModelFault>,
) -> Result<List<u32>, ModelFault>
    ensures { Gives (λ ks. ks) result (spec.under_operand draft.now.schema_at draft.now.table_at read) }
{
    let read = at_member(alloc, "operand", read);
    let read = at_item(alloc, draft.table_at, read);
    let read = at_member(alloc, "tables", read);
    let read = at_item(alloc, draft.schema_at, read);
    at_member(alloc, "schemas", read)
}

fn file_key_at(
    alloc: Global,
    draft: &Draft,
    columns: &List<ColumnDef>,
) -> Result<List<u32>, ModelFault>
    requires { length columns.now ≤ COLUMN_LIMIT }
    ensures { Gives (λ ks. ks) result (spec.file_key_at draft.now columns.now) }
{
    at_operand(alloc, draft, draft.key.places(alloc, columns))
}

fn with_columns(
    alloc: Global,
    table: &TableDef,
    columns: &List<ColumnDef>,
    primary_key: List<u32>,
) -> Result<TableDef, NoMemory>
    ensures { IfOk result (λ t. t ≡ spec.with_columns table.now columns.now primary_key) }
{
    let schema = table.schema.copy(alloc)?;
    let name = table.name.copy(alloc)?;
    let file = table.file.copy(alloc)?;
    let columns = keyed(alloc, &primary_key, columns)?;
    Ok(TableDef {
        schema,
        name,
        columns,
        adapter: table.adapter,
        file,
        max_rows: table.max_rows,
        primary_key,
    })
}

fn file_table(
    alloc: Global,
    draft: &Draft,
    columns: &List<ColumnDef>,
) -> Result<TableDef, ModelFault>
    requires { length columns.now ≤ COLUMN_LIMIT }
    ensures { Gives (λ t. t) result (spec.file_table draft.now columns.now) }
{
    let key = file_key_at(alloc, draft, columns)?;
    Ok(with_columns(alloc, &draft.table, columns, key)?)
}

fn header_at(
    alloc: Global,
    headers: &List<Option<List<ColumnDef>>>,
    number: usize,
) -> Result<List<ColumnDef>, NoMemory>
    requires { spec.AreShort headers.now }
    ensures header { IfOk result (λ cs. cs ≡ spec.header_at headers.now number) }
    ensures short { IfOk result (λ cs. length cs ≤ COLUMN_LIMIT) }
{
    match headers.get(number) {
        Some(Some(columns)) => columns.copy(alloc),
        _ => Ok(List::new(alloc)),
    }
}

fn whole_table(
    alloc: Global,
    headers: &List<Option<List<ColumnDef>>>,
    number: usize,
    draft: &Draft,
) -> Result<TableDef, ModelFault>
    requires { spec.AreShort headers.now }
    ensures { Gives (λ t. t) result (spec.whole_table headers.now number draft.now) }
{
    match &draft.rows {
        Some(_) => Ok(draft.table.copy(alloc)?),
        None => {
            let columns = header_at(alloc, headers, number)?;
            file_table(alloc, draft, &columns)
        }
    }
}

fn second_walk(
    alloc: Global,
    headers: &List<Option<List<ColumnDef>>>,
    drafts: &[Draft],
) -> Result<List<TableDef>, ModelFault>
    requires { spec.AreShort headers.now }
    ensures tables { Gives (λ ts. ts) result (spec.second_walk headers.now drafts.now) }
    ensures count { IfOk result (λ ts. length ts ≡ length drafts.now) }
{
    let mut tables = List::new(alloc);
    for draft in drafts {
        let table = whole_table(alloc, headers, tables.len(), draft)?;
        tables.push(table)?;
    }
    Ok(tables)
}

// ---- the third walk

#[tactic(auto, using(crate::proofs::WalkLemmas::lattices_some))]
fn no_lattices(alloc: Global, values: &[Json]) -> Result<(), ModelFault>
    ensures { Gives (λ nothing. nothing) result (spec.no_lattices (items_view values.now)) }
{
    match values {
        [] => Ok(()),
        _ => Err(bad(alloc, ModelCause::NotYet)),
    }
}

fn lattice_list(alloc: Global, value: &Json) -> Result<(), ModelFault>
    ensures { Gives (λ nothing. nothing) result (spec.lattice_list (view value.now)) }
{
    let values = list_of(alloc, value)?;
    no_lattices(alloc, values)
}

fn lattices(alloc: Global, schema: &Json) -> Result<(), ModelFault>
    ensures { Gives (λ nothing. nothing) result (spec.schema_lattices (view schema.now)) }
{
    match schema.get("lattices") {
        Some(value) => at_member(alloc, "lattices", lattice_list(alloc, value)),
        None => Ok(()),
    }
}

fn next_lattices(alloc: Global, number: usize, schema: &Json) -> Result<(), ModelFault>
    ensures { Gives (λ nothing. nothing) result (item_in_turn spec.lattices number tt (view schema.now)) }
{
    at_item(alloc, number, lattices(alloc, schema))
}

fn each_lattices(alloc: Global, schemas: &[Json]) -> Result<(), ModelFault>
    ensures { Gives (λ nothing. nothing) result (in_turn spec.lattices 0 tt (items_view schemas.now)) }
{
    for (number, schema) in schemas.iter().enumerate() {
        next_lattices(alloc, number, schema)?;
    }
    Ok(())
}

fn lattices_of(alloc: Global, schemas: &Json) -> Result<(), ModelFault>
    ensures { Gives (λ nothing. nothing) result (spec.lattices_of (view schemas.now)) }
{
    let values = list_of(alloc, schemas)?;
    each_lattices(alloc, values)
}

fn third_walk(alloc: Global, document: &Json) -> Result<(), ModelFault>
    ensures { Gives (λ nothing. nothing) result (spec.third_walk (view document.now)) }
{
    let schemas = required(alloc, document, "schemas")?;
    at_member(alloc, "schemas", lattices_of(alloc, schemas))
}

// ---- the whole

fn inline_rows(alloc: Global, drafts: List<Draft>) -> Result<List<Option<List<Row>>>, NoMemory>
    ensures { IfOk result (λ all. all ≡ map spec.inline_rows drafts) }
{
    let mut inline = List::new(alloc);
    for draft in drafts.into_vec() {
        inline.push(draft.rows)?;
    }
    Ok(inline)
}

fn resolved(
    alloc: Global,
    document: &Json,
    headers: &List<Option<List<ColumnDef>>>,
    drafts: Drafts,
) -> Result<Model, ModelFault>
    requires { spec.AreShort headers.now }
    ensures model { Gives (λ m. m) result (spec.resolved (view document.now) headers.now drafts) }
    ensures count { IfOk result (λ m. length m.schema.tables ≡ length drafts.tables) }
{
    let tables = second_walk(alloc, headers, drafts.tables.as_slice())?;
    third_walk(alloc, document)?;
    let inline = inline_rows(alloc, drafts.tables)?;
    Ok(Model {
        schema: Schema {
            default_schema: drafts.default_schema,
            tables,
        },
        inline,
    })
}

/// The model of a document, given for each table that is read from a file the columns of its header, in the order of the
/// tables. A fault is the first one of the primary keys of those tables, or of lattices. Where rows stand in the model, they
/// fill their table.
#[tactic(auto, using(crate::proofs::WalkLemmas::model_when_read))]
pub fn resolve(
    alloc: Global,
    doc: ModelDoc,
    headers: &List<Option<List<ColumnDef>>>,
) -> Result<Model, ModelFault>
    requires walked { spec.IsWalked doc }
    requires short { spec.AreShort headers.now }
    ensures model { Gives (λ m. m) result (spec.resolve (view doc.json) headers.now) }
    ensures whole { (bytes : ListOf ℕ) → spec.read_model bytes ≡ Ok (view doc.json) →
        Gives (λ m. m) result (spec.model_of bytes headers.now) }
    ensures few { IfOk result (λ m. length m.schema.tables ≤ TABLE_LIMIT) }

    // The schema is valid where each header is that of the file in its place.
    ensures valid { (names : ListOf (Option (ListOf ℕ))) →
        spec.FilesAre names (walk.first_walk (view doc.json)) →
        spec.AreHeadersOf names headers.now → IfOk result (λ m. IsValidSchema m.schema) }
    ensures files { (names : ListOf (Option (ListOf ℕ))) →
        spec.FilesAre names (walk.first_walk (view doc.json)) →
        IfOk result (λ m. names ≡ map spec.file_of m.schema.tables) }
    ensures inline { IfOk result (λ m. spec.AreInlineFilled m.schema.tables m.inline) }
{
    let ModelDoc { json, drafts } = doc;
    resolved(alloc, &json, headers, drafts)
}
