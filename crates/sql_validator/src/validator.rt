//! The first cause of a refusal, or what the statement means with its names resolved.
ghost use Rattle.std.specs.Prelude.{◌≡◌, ◌≢◌, ◌<◌, ◌≤◌, ◌^◌, length, map, Some, None, IfOk, IfErr, OnOk};
ghost use Rattle.cal_schema.specs.declared.refusal.Refusal.TheVariants.{NoMemory as no_memory};
ghost use Rattle.cal_schema.specs.Valid.{IsValidSchema};
ghost use Rattle.sql_meaning.specs.Refused.{refusal_of};
ghost use Rattle.sql_meaning.specs.Scope.{number_of, types_in};
ghost use Rattle.sql_validator.specs.Checked.{IsChecked, IsCheckedStatement};
ghost use Rattle.sql_validator.specs.Refusal as spec;
ghost use Rattle.sql_validator.specs.Walks as walks;

use crate::causes::scope_cause;
use crate::checked::{Checked, CheckedSelect};
use crate::rows::bad_row;
use cal_schema::{AdapterKind, Refusal, Schema};
use cal_value::{FROM_LIMIT, List, Row, SqlText, SqlType};
use sql_meaning::Entry;
use sql_names::{
    column_places, entries, output_names, output_types, table_number, table_numbers, written_name,
};
use sql_tree::{Select, Statement, TableName};
use sql_types::row_bound;
use std::alloc::Global;

/// How many tokens stand before SELECT in EXPLAIN PLAN FOR and EXPLAIN MEMO FOR.
const EXPLAIN_TOKENS: u64 = 3;

// The places of the references of a SELECT, and the names and types of the columns of its answer.
#[derive(Debug, Drop)]
struct Outputs {
    columns: List<u32>,
    names: List<SqlText>,
    types: List<SqlType>,
}

fn resolved_over(
    alloc: Global,
    select: &Select,
    before: u64,
    scope: &[Entry<'_>],
) -> Result<Outputs, Refusal>
    requires numbered { length (types_in scope.now) < 2 ^ 32 }
    requires few { before < 2 ^ 32 }
    ensures accepted { OnOk result (walks.scope_cause scope.now before select.now ≡ None) }
    ensures made { IfOk result (walks.HasOutputs scope.now select.now) }
    ensures refused { IfErr result (λ refusal. refusal ≢ no_memory →
        walks.scope_cause scope.now before select.now ≡ Some refusal) }
{
    let rows = row_bound(alloc, scope)?;
    let names = output_names(alloc, &select.items, scope)?;
    if let Some(cause) = scope_cause(alloc, select, before, names.as_slice(), rows, scope)? {
        return Err(cause);
    }
    let columns = column_places(alloc, select, scope)?;
    let types = output_types(alloc, rows, &select.items, scope)?;
    Ok(Outputs {
        columns,
        names,
        types,
    })
}

fn resolved(
    alloc: Global,
    select: &Select,
    before: u64,
    schema: &Schema,
) -> Result<(List<u32>, Outputs), Refusal>
    requires valid { IsValidSchema schema.now }
    requires few { before < 2 ^ 32 }
    ensures made { IfOk result (λ made.
        walks.IsResolved schema.now before select.now made.0 made.1) }
    ensures refused { IfErr result (λ refusal. refusal ≢ no_memory →
        refusal_of schema.now before select.now ≡ Some refusal) }
{
    let from = select.from.as_slice();
    let tables = match table_numbers(alloc, from, schema) {
        Ok(tables) => tables,
        Err(refusal) => return Err(refusal),
    };
    if from.len() > FROM_LIMIT as usize {
        return Err(Refusal::TooManyTables { limit: FROM_LIMIT });
    }
    let scope = entries(alloc, from, &tables, schema)?;
    match resolved_over(alloc, select, before, scope.as_slice()) {
        Ok(made) => Ok((tables, made)),
        Err(refusal) => Err(refusal),
    }
}

fn checked_select(
    alloc: Global,
    select: Select,
    before: u64,
    schema: &Schema,
) -> Result<CheckedSelect, Refusal>
    requires valid { IsValidSchema schema.now }
    requires few { before < 2 ^ 32 }
    ensures checked { IfOk result (IsChecked schema.now before select) }
    ensures refused { IfErr result (λ refusal. refusal ≢ no_memory →
        refusal_of schema.now before select ≡ Some refusal) }
{
    match resolved(alloc, &select, before, schema) {
        Ok((tables, made)) => Ok(CheckedSelect {
            select,
            tables,
            columns: made.columns,
            names: made.names,
            types: made.types,
        }),
        Err(refusal) => Err(refusal),
    }
}

// The number of the table that takes the rows.
fn insert_table(
    alloc: Global,
    table: &TableName,
    rows: &[Row],
    schema: &Schema,
) -> Result<u32, Refusal>
    requires { IsValidSchema schema.now }
    ensures number { IfOk result (λ number. Some number ≡ number_of schema.now table.now) }
    ensures accepted { OnOk result (spec.insert_refusal schema.now table.now rows.now ≡ None) }
    ensures refused { IfErr result (λ refusal. refusal ≢ no_memory →
        spec.insert_refusal schema.now table.now rows.now ≡ Some refusal) }
{
    let number = match table_number(alloc, table, schema) {
        Ok(number) => number,
        Err(refusal) => return Err(refusal),
    };
    let columns = schema.tables.as_slice()[number as usize].columns.as_slice();
    match bad_row(columns, rows) {
        Some(refusal) => Err(refusal),
        None => Ok(number),
    }
}

// The number of the table that is read from a file.
fn refresh_table(alloc: Global, table: &TableName, schema: &Schema) -> Result<u32, Refusal>
    requires { IsValidSchema schema.now }
    ensures number { IfOk result (λ number. Some number ≡ number_of schema.now table.now) }
    ensures accepted { OnOk result (spec.refresh_refusal schema.now table.now ≡ None) }
    ensures refused { IfErr result (λ refusal. refusal ≢ no_memory →
        spec.refresh_refusal schema.now table.now ≡ Some refusal) }
{
    let number = match table_number(alloc, table, schema) {
        Ok(number) => number,
        Err(refusal) => return Err(refusal),
    };
    match schema.tables.as_slice()[number as usize].adapter {
        AdapterKind::Csv => Ok(number),
        AdapterKind::Mem => Err(Refusal::NotRefreshable),
    }
}

// A schema has no lattices yet.
fn unknown_lattice(alloc: Global, lattice: &TableName) -> Refusal
    ensures { result ≢ no_memory → Some result ≡ spec.unknown_lattice lattice.now }
{
    match written_name(alloc, lattice) {
        Ok(name) => Refusal::UnknownLattice { name },
        Err(_) => Refusal::NoMemory,
    }
}

/// What the statement means with its names resolved, or the first cause of a refusal, with its place. It asks for a valid
/// schema, which has no lattices yet, so that a statement on tiles is UnknownLattice.
pub fn validate(alloc: Global, statement: Statement, schema: &Schema) -> Result<Checked, Refusal>
    requires { IsValidSchema schema.now }
    ensures checked { IfOk result (IsCheckedStatement schema.now statement) }
    ensures refused { IfErr result (λ refusal. refusal ≢ no_memory →
        spec.refusal_in schema.now statement ≡ Some refusal) }
{
    match statement {
        Statement::Select(select) => match checked_select(alloc, select, 0, schema) {
            Ok(made) => Ok(Checked::Select(made)),
            Err(refusal) => Err(refusal),
        },
        Statement::ExplainPlan(select) => {
            match checked_select(alloc, select, EXPLAIN_TOKENS, schema) {
                Ok(made) => Ok(Checked::ExplainPlan(made)),
                Err(refusal) => Err(refusal),
            }
        }
        Statement::ExplainMemo(select) => {
            match checked_select(alloc, select, EXPLAIN_TOKENS, schema) {
                Ok(made) => Ok(Checked::ExplainMemo(made)),
                Err(refusal) => Err(refusal),
            }
        }
        Statement::Insert { table, rows } => {
            match insert_table(alloc, &table, rows.as_slice(), schema) {
                Ok(number) => Ok(Checked::Insert {
                    table: number,
                    rows,
                }),
                Err(refusal) => Err(refusal),
            }
        }
        Statement::Refresh { table } => match refresh_table(alloc, &table, schema) {
            Ok(number) => Ok(Checked::Refresh { table: number }),
            Err(refusal) => Err(refusal),
        },
        Statement::CreateTile(tile) => Err(unknown_lattice(alloc, &tile.lattice)),
        Statement::DropTile(tile) => Err(unknown_lattice(alloc, &tile.lattice)),
        Statement::ChooseTiles { lattice, .. } => Err(unknown_lattice(alloc, &lattice)),
    }
}
