//! The primary key of a table.
ghost use Rattle.std.specs.Prelude.{◌≡◌, ◌≤◌, ◌<◌, length, None, IfOk, IfSome};
ghost use Rattle.std.specs.List.{list_any};
ghost use Rattle.serde_json.specs.View.{view, items_view};
ghost use Rattle.model_fields.specs.Reading.{Gives, each, read_item};
ghost use Rattle.model_fields.specs.KeyItems as item;
ghost use Rattle.model_fields.specs.Rows as spec;

use crate::column::is_named;
use crate::fault::{ModelCause, ModelFault, at_item, at_member, bad};
use crate::member::{list_of, sql_text, text_of};
use cal_schema::ColumnDef;
use cal_value::{COLUMN_LIMIT, Duplicate, List, NoMemory, SqlText, SqlType};
use serde_json::Value as Json;
use std::alloc::Global;
use std::marker::Model;

fn place_of(columns: &List<ColumnDef>, name: &SqlText) -> Option<usize>
    ensures place { result ≡ spec.place_of columns.now name.now }
    ensures within { IfSome result (λ at. at < length columns.now) }
{
    columns
        .as_slice()
        .iter()
        .position(|column| is_named(column, name))
}

fn is_among(places: &[u32], place: usize) -> bool
    ensures { result ≡ list_any (spec.is_place place) places.now }
{
    places.iter().any(|k| *k as usize == place)
}

fn fresh_place(alloc: Global, before: &List<u32>, place: Option<usize>) -> Result<u32, ModelFault>
    requires { IfSome place (λ at. at < COLUMN_LIMIT) }
    ensures { Gives (λ k. k) result (spec.fresh_place before.now place) }
{
    match place {
        None => Err(bad(alloc, ModelCause::NoSuchName)),
        Some(place) => {
            if is_among(before.as_slice(), place) {
                Err(bad(alloc, ModelCause::Repeated))
            } else {
                Ok(place as u32)
            }
        }
    }
}

fn named_place(columns: &List<ColumnDef>, name: &SqlText) -> Option<usize>
    requires { length columns.now ≤ COLUMN_LIMIT }
    ensures place { result ≡ spec.place_of columns.now name.now }
    ensures within { IfSome result (λ at. at < COLUMN_LIMIT) }
{
    match place_of(columns, name) {
        Some(place) => Some(place),
        None => None,
    }
}

fn key_column(
    alloc: Global,
    columns: &List<ColumnDef>,
    before: &List<u32>,
    value: &Json,
) -> Result<u32, ModelFault>
    requires { length columns.now ≤ COLUMN_LIMIT }
    ensures { Gives (λ k. k) result (item.key_item columns.now before.now (view value.now)) }
{
    let text = text_of(alloc, value)?;
    let name = sql_text(alloc, text)?;
    fresh_place(alloc, before, named_place(columns, &name))
}

fn next_key_column(
    alloc: Global,
    columns: &List<ColumnDef>,
    before: &List<u32>,
    value: &Json,
) -> Result<u32, ModelFault>
    requires { length columns.now ≤ COLUMN_LIMIT }
    ensures { Gives (λ k. k) result (read_item (item.key_item columns.now) before.now (view value.now)) }
{
    at_item(
        alloc,
        before.len(),
        key_column(alloc, columns, before, value),
    )
}

fn each_key_column(
    alloc: Global,
    columns: &List<ColumnDef>,
    values: &[Json],
) -> Result<List<u32>, ModelFault>
    requires { length columns.now ≤ COLUMN_LIMIT }
    ensures { Gives (λ ks. ks) result (each (item.key_item columns.now) (items_view values.now)) }
{
    let mut key = List::new(alloc);
    for value in values {
        let place = next_key_column(alloc, columns, &key, value)?;
        key.push(place)?;
    }
    Ok(key)
}

fn key_columns(
    alloc: Global,
    columns: &List<ColumnDef>,
    value: &Json,
) -> Result<List<u32>, ModelFault>
    requires { length columns.now ≤ COLUMN_LIMIT }
    ensures { Gives (λ ks. ks) result (item.key_items columns.now (view value.now)) }
{
    let values = list_of(alloc, value)?;
    each_key_column(alloc, columns, values)
}

fn key(alloc: Global, columns: &List<ColumnDef>, value: &Json) -> Result<List<u32>, ModelFault>
    requires { length columns.now ≤ COLUMN_LIMIT }
    ensures { Gives (λ ks. ks) result (spec.key columns.now (spec.listed (view value.now))) }
{
    key_columns(alloc, columns, value)
}

/// The columns of the primary key of an operand, from 0; none where it has no key.
pub fn primary_key(
    alloc: Global,
    columns: &List<ColumnDef>,
    operand: &Json,
) -> Result<List<u32>, ModelFault>
    requires { length columns.now ≤ COLUMN_LIMIT }
    ensures { Gives (λ ks. ks) result (spec.primary_key columns.now (view operand.now)) }
{
    match operand.get("primaryKey") {
        Some(value) => at_member(alloc, "primaryKey", key(alloc, columns, value)),
        None => Ok(List::new(alloc)),
    }
}

// ---- a key that waits for the columns

/// The member `primaryKey` of an operand, kept for when the columns are known. Contracts see the texts that it lists.
#[derive(Debug, Drop)]
pub struct KeyMember {
    value: Option<Json>,
}

impl Model for KeyMember {
    ghost use Rattle.std.specs.Prelude.{List as ListOf, ℕ, Option, option_map};
    ghost use Rattle.serde_json.specs.View.{view as shown};
    ghost use Rattle.model_fields.specs.Rows.{listed};

    ghost Value = { Option (Option (ListOf (Option (ListOf ℕ)))) };

    ghost view = { λ k. option_map (λ v. listed (shown v)) k.value };
}

impl KeyMember {
    /// No member. Takes no memory.
    pub fn none() -> KeyMember
        ensures { result ≡ None }
    {
        KeyMember { value: None }
    }

    /// The member of an operand.
    pub fn of(operand: &Json) -> Result<KeyMember, NoMemory>
        ensures { IfOk result (λ k. k ≡ spec.key_member (view operand.now)) }
    {
        match operand.get("primaryKey") {
            Some(value) => {
                let value = value.clone()?;
                Ok(KeyMember { value: Some(value) })
            }
            None => Ok(KeyMember { value: None }),
        }
    }

    /// The columns of the key, from 0; none where there is no member.
    pub fn places(&self, alloc: Global, columns: &List<ColumnDef>) -> Result<List<u32>, ModelFault>
        requires { length columns.now ≤ COLUMN_LIMIT }
        ensures { Gives (λ ks. ks) result (spec.member_key columns.now self.now) }
    {
        match &self.value {
            Some(value) => at_member(alloc, "primaryKey", key(alloc, columns, value)),
            None => Ok(List::new(alloc)),
        }
    }
}

// ---- columns with a key

fn keyed_column(
    alloc: Global,
    key: &List<u32>,
    place: usize,
    column: &ColumnDef,
) -> Result<ColumnDef, NoMemory>
    ensures { IfOk result (λ c. c ≡ spec.keyed_column key.now place column.now) }
{
    let in_key = is_among(key.as_slice(), place);
    let name = column.name.copy(alloc)?;
    Ok(ColumnDef {
        name,
        kind: SqlType {
            kind: column.kind.kind,
            nullable: !in_key,
            interval: column.kind.interval,
        },
    })
}

/// The columns, of which those outside the key may be NULL.
pub fn keyed(
    alloc: Global,
    key: &List<u32>,
    columns: &List<ColumnDef>,
) -> Result<List<ColumnDef>, NoMemory>
    ensures { IfOk result (λ cs. cs ≡ spec.keyed key.now columns.now) }
{
    let columns = columns.as_slice();
    let mut all = List::new(alloc);
    for column in columns {
        let place = all.len();
        all.push(keyed_column(alloc, key, place, column)?)?;
    }
    Ok(all)
}
