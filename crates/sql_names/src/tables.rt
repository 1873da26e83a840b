//! The tables of FROM.
ghost use Rattle.std.specs.Prelude.{◌≡◌, ◌≢◌, ◌≤◌, length, map, take, Some, None, IfOk, IfErr, OnOk};
ghost use Rattle.cal_schema.specs.declared.refusal.Refusal.TheVariants.{NoMemory as no_memory};
ghost use Rattle.sql_meaning.specs.Refused as spec;
ghost use Rattle.sql_meaning.specs.Scope.{header_of, number_of};
ghost use Rattle.sql_names.specs.Tables.{first_unknown, AreNumbered};

use cal_schema::{Refusal, Schema, WrittenName};
use cal_value::{Duplicate, List, NoMemory, TABLE_LIMIT};
use sql_meaning::Entry;
use sql_tree::{FromEntry, TableName};
use std::alloc::Global;

/// The name as it is written.
pub fn written_name(alloc: Global, table: &TableName) -> Result<WrittenName, NoMemory>
    ensures { IfOk result (λ name. name ≡ spec.table_name table.now) }
{
    let qualifier = table.schema.copy(alloc)?;
    let name = table.name.copy(alloc)?;
    Ok(WrittenName { qualifier, name })
}

/// The number of the table, or that there is no such table.
pub fn table_number(alloc: Global, table: &TableName, schema: &Schema) -> Result<u32, Refusal>
    requires { length schema.now.tables ≤ TABLE_LIMIT }
    ensures known { IfOk result (λ number. Some number ≡ number_of schema.now table.now) }
    ensures refused { IfErr result (λ refusal. refusal ≢ no_memory →
        (number_of schema.now table.now ≡ None)
        × (refusal ≡ Refusal.UnknownTable (spec.table_name table.now))) }
{
    match schema.table_of(&table.schema, &table.name) {
        Some(number) => Ok(number),
        None => Err(Refusal::UnknownTable {
            name: written_name(alloc, table)?,
        }),
    }
}

/// The numbers of the tables, or the first entry without one.
pub fn table_numbers(
    alloc: Global,
    from: &[FromEntry],
    schema: &Schema,
) -> Result<List<u32>, Refusal>
    requires { length schema.now.tables ≤ TABLE_LIMIT }
    ensures numbers { IfOk result (λ numbers. AreNumbered schema.now from.now numbers) }
    ensures known { OnOk result (first_unknown schema.now from.now ≡ None) }
    ensures refused { IfErr result (λ refusal. refusal ≢ no_memory →
        first_unknown schema.now from.now ≡ Some refusal) }
{
    let mut numbers = List::new(alloc);
    for entry in from {
        match table_number(alloc, &entry.table, schema) {
            Ok(number) => numbers.push(number)?,
            Err(refusal) => return Err(refusal),
        }
    }
    Ok(numbers)
}

/// The entries with their tables, which have these numbers.
pub fn entries<'a>(
    alloc: Global,
    from: &'a [FromEntry],
    numbers: &List<u32>,
    schema: &'a Schema,
) -> Result<List<Entry<'a>>, NoMemory>
    requires { AreNumbered schema.now from.now numbers.now }
    ensures { IfOk result (λ scope. scope ≡ map (header_of schema.now) from.now) }
{
    let numbers = numbers.as_slice();
    let tables = schema.tables.as_slice();
    let mut scope = List::new(alloc);
    for (at, entry) in from.iter().enumerate() {
        scope.push(Entry::new(entry, &tables[numbers[at] as usize]))?;
    }
    Ok(scope)
}
