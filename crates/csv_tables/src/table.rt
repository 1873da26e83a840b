ghost use Rattle.std.specs.Prelude.{◌≡◌, ◌≤◌, ◌<◌, ◌+◌, true, [], ◌∷◌, ◌++◌, length, IfOk, OnOk};
ghost use Rattle.csv.specs.Records.{fields_of};
ghost use Rattle.cal_schema.specs.Fits.{key_of, IsFilledBy};
ghost use Rattle.csv_tables.specs.Header.{Answers, told};
ghost use Rattle.csv_tables.specs.Left.{IsPlain, left_of};
ghost use Rattle.csv_tables.specs.Table as spec;

use crate::columns::{columns_in, no_header};
use crate::fault::{CsvCause, CsvFault, FieldFault};
use crate::field::field_value;
use crate::reading::{field_at, next, open};
use cal_schema::{ColumnDef, TableDef};
use cal_value::{COLUMN_LIMIT, Interval, List, ROW_LIMIT, Row, values_at};
use csv::{ByteRecord, Reader};
use indexmap::IndexSet;
use std::alloc::Global;

/// The rows of the table's file, or the first fault that it has as such a file.
pub fn decode(alloc: Global, bytes: &[u8], table: &TableDef) -> Result<List<Row>, CsvFault>
    requires few_columns { length table.now.columns ≤ COLUMN_LIMIT }
    requires few_rows { table.now.max_rows ≤ ROW_LIMIT }
    ensures rows { Answers (spec.table_of bytes.now table.now) result }
    ensures filled { IfOk result (IsFilledBy table.now) }
{
    let mut reader = open(alloc, bytes);
    let mut raw = ByteRecord::new(alloc);
    let found = next(&mut reader, &mut raw)?;
    if found {
        check_header(alloc, &raw, table)?;
        rows_in(alloc, &mut reader, &mut raw, table)
    } else {
        Err(no_header())
    }
}

// Whether the record is a header of this table.
fn check_header(alloc: Global, raw: &ByteRecord, table: &TableDef) -> Result<(), CsvFault>
    ensures { let fields = fields_of raw.now in
        Answers (told (spec.table_header_faults table.now fields) tt) result }
{
    let columns = columns_in(alloc, raw)?;
    if is_header_of(&table.columns, &columns) {
        Ok(())
    } else {
        Err(CsvFault::CsvBad {
            at_record: 1,
            column: 0,
            cause: CsvCause::HeaderChanged,
        })
    }
}

fn is_header_of(columns: &List<ColumnDef>, named: &List<ColumnDef>) -> bool
    ensures { result ≡ spec.is_header_of columns.now named.now }
{
    if columns.len() != named.len() {
        return false;
    }
    for at in 0..columns.len() {
        if !is_same_column(&columns.as_slice()[at], &named.as_slice()[at]) {
            return false;
        }
    }
    true
}

fn is_same_column(a: &ColumnDef, b: &ColumnDef) -> bool
    ensures { result ≡ spec.is_same_column a.now b.now }
{
    a.name == b.name
        && a.kind.kind.is(b.kind.kind)
        && is_same_interval(a.kind.interval, b.kind.interval)
}

fn is_same_interval(a: Interval, b: Interval) -> bool
    ensures { result ≡ spec.is_same_interval a b }
{
    match (a, b) {
        (Interval::Never, Interval::Never) => true,
        (
            Interval::Range { lo, hi },
            Interval::Range {
                lo: other_lo,
                hi: other_hi,
            },
        ) => { lo == other_lo && hi == other_hi }
        _ => false,
    }
}

// The rows of the records that the reader has left.
fn rows_in(
    alloc: Global,
    reader: &mut Reader<&[u8]>,
    raw: &mut ByteRecord,
    table: &TableDef,
) -> Result<List<Row>, CsvFault>
    requires plain { IsPlain reader.old }
    requires few_columns { length table.now.columns ≤ COLUMN_LIMIT }
    requires few_rows { table.now.max_rows ≤ ROW_LIMIT }
    ensures { Answers (spec.rows_after_header table.now (left_of reader.old)) result }
{
    let mut rows = List::new(alloc);
    let mut keys = IndexSet::new(alloc);
    for _ in 0..table.max_rows {
        let found = next(reader, raw)?;
        if !found {
            return Ok(rows);
        }
        let number = rows.len() as u64 + 2;
        match record_row(alloc, table, number, raw, &mut keys) {
            Ok(row) => rows.push(row)?,
            Err(fault) => return Err(fault),
        }
    }
    let more = next(reader, raw)?;
    if more {
        Err(CsvFault::TableFull {
            limit: table.max_rows,
        })
    } else {
        Ok(rows)
    }
}

// The row of a record, whose key joins those of the earlier rows.
fn record_row(
    alloc: Global,
    table: &TableDef,
    number: u64,
    raw: &ByteRecord,
    keys: &mut IndexSet<Row>,
) -> Result<Row, CsvFault>
    requires { length table.now.columns ≤ COLUMN_LIMIT }
    ensures row { let fields = fields_of raw.now in
        let faults = spec.record_faults table.now number keys.old.keys fields in
        Answers (told faults (spec.row_of table.now fields)) result }
    ensures keys { let key = key_of table.now (spec.row_of table.now (fields_of raw.now)) in
        OnOk result (spec.has_key table.now ≡ true → keys.new.keys ≡ keys.old.keys ++ key ∷ []) }
{
    if raw.len() != table.columns.len() {
        return Err(CsvFault::CsvBad {
            at_record: number,
            column: 0,
            cause: CsvCause::WrongCount,
        });
    }
    let row = row_values(alloc, &table.columns, number, raw)?;
    if table.primary_key.is_empty() {
        return Ok(row);
    }
    let key = values_at(alloc, &row, table.primary_key.as_slice())?;
    match keys.insert_full(key)? {
        (_, true) => Ok(row),
        (_, false) => Err(CsvFault::CsvBad {
            at_record: number,
            column: 0,
            cause: CsvCause::KeyTaken,
        }),
    }
}

// The values of as many fields as columns.
fn row_values(
    alloc: Global,
    columns: &List<ColumnDef>,
    number: u64,
    raw: &ByteRecord,
) -> Result<Row, CsvFault>
    requires few { length columns.now ≤ COLUMN_LIMIT }
    requires count { length (fields_of raw.now) ≡ length columns.now }
    ensures { let fields = fields_of raw.now in
        let faults = spec.field_faults number 1 columns.now fields in
        Answers (told faults (spec.values_of columns.now fields)) result }
{
    let mut row = List::new(alloc);
    for at in 0..columns.len() {
        match field_value(alloc, columns.as_slice()[at].kind, field_at(raw, at)) {
            Ok(value) => row.push(value)?,
            Err(FieldFault::NoMemory) => return Err(CsvFault::NoMemory),
            Err(FieldFault::Bad(cause)) => {
                return Err(CsvFault::CsvBad {
                    at_record: number,
                    column: at as u32 + 1,
                    cause,
                });
            }
        }
    }
    Ok(row)
}
