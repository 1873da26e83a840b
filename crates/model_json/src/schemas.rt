//! The first walk over a document.
ghost use Rattle.std.specs.Prelude.{◌≡◌, ◌≤◌, ◌+◌, length, IfOk, OnOk, option_map, string_bytes};
ghost use Rattle.std.specs.Option.{option_copied};
ghost use Rattle.serde_json.specs.View.{view, items_view};
ghost use Rattle.model_fields.specs.Reading.{Gives, item_in_turn};
ghost use Rattle.model_json.specs.Schemas as spec;

use crate::draft::{Draft, Drafts};
use crate::tables::tables;
use cal_value::{Duplicate, List, NAME_LIMIT, SqlText, TABLE_LIMIT};
use indexmap::IndexSet;
use model_fields::{
    ModelCause, ModelFault, at_item, at_member, bad, character_count, list_of, name_of, object_of,
    required, sql_text, text_of, word_at,
};
use serde_json::Value as Json;
use std::alloc::Global;

// ---- the default schema

fn is_text(value: &Json, text: &str) -> bool
    ensures { result ≡ spec.is_text text.now (view value.now) }
{
    match value.as_str() {
        Some(found) => found == text,
        None => false,
    }
}

fn is_schema_named(schema: &Json, name: &str) -> bool
    ensures { result ≡ spec.is_schema_named name.now (view schema.now) }
{
    match schema.get("name") {
        Some(value) => is_text(value, name),
        None => false,
    }
}

fn has_schema(schemas: &[Json], name: &str) -> bool
    ensures { result ≡ spec.has_schema name.now (items_view schemas.now) }
{
    for schema in schemas {
        if is_schema_named(schema, name) {
            return true;
        }
    }
    false
}

fn default_schema(
    alloc: Global,
    schemas: &[Json],
    value: &Json,
) -> Result<Option<SqlText>, ModelFault>
    ensures { Gives (λ t. t) result (spec.default_schema (items_view schemas.now) (view value.now)) }
{
    let text = text_of(alloc, value)?;
    if character_count(text) <= NAME_LIMIT as usize && has_schema(schemas, text) {
        Ok(Some(sql_text(alloc, text)?))
    } else {
        Err(bad(alloc, ModelCause::NoSuchName))
    }
}

fn default_at(alloc: Global, schemas: &[Json], root: &Json) -> Result<Option<SqlText>, ModelFault>
    ensures { Gives (λ t. t) result (spec.default_at (items_view schemas.now) (view root.now)) }
{
    match root.get("defaultSchema") {
        Some(value) => at_member(
            alloc,
            "defaultSchema",
            default_schema(alloc, schemas, value),
        ),
        None => Ok(None),
    }
}

// ---- schemas

fn schema_name(alloc: Global, value: &Json) -> Result<SqlText, ModelFault>
    ensures { Gives (λ t. t) result (spec.schema_name (view value.now)) }
{
    let text = name_of(alloc, value)?;
    Ok(sql_text(alloc, text)?)
}

fn schema_name_at(alloc: Global, schema: &Json) -> Result<SqlText, ModelFault>
    ensures { Gives (λ t. t) result (spec.schema_name_at (view schema.now)) }
{
    let value = required(alloc, schema, "name")?;
    at_member(alloc, "name", schema_name(alloc, value))
}

fn insert_name(
    alloc: Global,
    names: &mut IndexSet<SqlText>,
    name: &SqlText,
) -> Result<(), ModelFault>
    ensures { Gives (λ nothing. names.new.keys) result (spec.with_name names.old.keys name.now) }
{
    let name = name.copy(alloc)?;
    if names.insert(name)? {
        Ok(())
    } else {
        Err(bad(alloc, ModelCause::Repeated))
    }
}

fn add_name(alloc: Global, names: &mut IndexSet<SqlText>, name: &SqlText) -> Result<(), ModelFault>
    ensures { Gives (λ nothing. names.new.keys) result (spec.name_added names.old.keys name.now) }
{
    at_member(alloc, "name", insert_name(alloc, names, name))
}

fn tables_at(
    alloc: Global,
    number: usize,
    name: &SqlText,
    before: usize,
    schema: &Json,
) -> Result<List<Draft>, ModelFault>
    requires { before ≤ TABLE_LIMIT }
    ensures tables { Gives (λ ts. ts) result (spec.tables_at number name.now before (view schema.now)) }
    ensures few { IfOk result (λ ts. before + length ts ≤ TABLE_LIMIT) }
{
    match schema.get("tables") {
        Some(value) => at_member(alloc, "tables", tables(alloc, number, name, before, value)),
        None => Ok(List::new(alloc)),
    }
}

fn schema(
    alloc: Global,
    number: usize,
    names: &mut IndexSet<SqlText>,
    all: &mut Vec<Draft>,
    value: &Json,
) -> Result<(), ModelFault>
    requires { length all.old.items ≤ TABLE_LIMIT }
    ensures seen { Gives (λ nothing. spec.seen names.new.keys all.new.items) result (spec.schema number (spec.seen names.old.keys all.old.items) (view value.now)) }
    ensures few { OnOk result (length all.new.items ≤ TABLE_LIMIT) }
{
    let object = object_of(alloc, value)?;
    let name = schema_name_at(alloc, object)?;
    add_name(alloc, names, &name)?;
    word_at(alloc, object, "type", "map")?;
    let mut found = tables_at(alloc, number, &name, all.len(), object)?.into_vec();
    all.append(&mut found)?;
    Ok(())
}

fn next_schema(
    alloc: Global,
    number: usize,
    names: &mut IndexSet<SqlText>,
    all: &mut Vec<Draft>,
    value: &Json,
) -> Result<(), ModelFault>
    requires { length all.old.items ≤ TABLE_LIMIT }
    ensures seen { Gives (λ nothing. spec.seen names.new.keys all.new.items) result (item_in_turn spec.schema number (spec.seen names.old.keys all.old.items) (view value.now)) }
    ensures few { OnOk result (length all.new.items ≤ TABLE_LIMIT) }
{
    at_item(alloc, number, schema(alloc, number, names, all, value))
}

fn schemas(alloc: Global, values: &[Json]) -> Result<List<Draft>, ModelFault>
    ensures tables { Gives (λ ts. ts) result (spec.schema_tables (items_view values.now)) }
    ensures few { IfOk result (λ ts. length ts ≤ TABLE_LIMIT) }
{
    let mut names = IndexSet::new(alloc);
    let mut all = Vec::new(alloc);
    for (number, value) in values.iter().enumerate() {
        next_schema(alloc, number, &mut names, &mut all, value)?;
    }
    Ok(List::from_vec(all))
}

fn all_schemas(alloc: Global, values: &[Json]) -> Result<List<Draft>, ModelFault>
    ensures tables { Gives (λ ts. ts) result (spec.all_schemas (items_view values.now)) }
    ensures few { IfOk result (λ ts. length ts ≤ TABLE_LIMIT) }
{
    at_member(alloc, "schemas", schemas(alloc, values))
}

// ---- the document

fn document(alloc: Global, value: &Json) -> Result<&Json, ModelFault>
    ensures { Gives (λ root. view root.now) result (spec.a_document (view value.now)) }
{
    match value.as_object() {
        Some(_) => Ok(value),
        None => {
            let mut path = List::new(alloc);
            path.push(b'/')?;
            Err(ModelFault::BadModel {
                path,
                cause: ModelCause::WrongKind,
            })
        }
    }
}

fn list_at<'a>(alloc: Global, root: &'a Json) -> Result<&'a [Json], ModelFault>
    ensures { Gives (λ items. items_view items.now) result (spec.schemas_at (view root.now)) }
{
    let value = required(alloc, root, "schemas")?;
    at_member(alloc, "schemas", list_of(alloc, value))
}

/// What a document says, but for the primary keys of tables that are read from files, and for lattices.
pub fn first_walk(alloc: Global, value: &Json) -> Result<Drafts, ModelFault>
    ensures drafts { Gives (λ ds. ds) result (spec.first_walk (view value.now)) }
    ensures few { IfOk result (λ ds. length ds.tables ≤ TABLE_LIMIT) }
{
    let root = document(alloc, value)?;
    word_at(alloc, root, "version", "1.0")?;
    let values = list_at(alloc, root)?;
    let default_schema = default_at(alloc, values, root)?;
    let tables = all_schemas(alloc, values)?;
    Ok(Drafts {
        default_schema,
        tables,
    })
}
