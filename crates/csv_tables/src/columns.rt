ghost use Rattle.std.specs.Prelude.{◌≡◌, ◌≤◌, [], length, map, IfOk};
ghost use Rattle.std.specs.List.{list_any};
ghost use Rattle.cal_schema.specs.Lookup.{is_same_name};
ghost use Rattle.cal_schema.specs.Valid.{IsHeader};
ghost use Rattle.csv.specs.Records.{fields_of};
ghost use Rattle.csv_tables.specs.Header as spec;
ghost use Rattle.csv_tables.specs.Parts.{ColumnAnswers};
ghost use Rattle.csv_tables.specs.declared.fault.CsvCause.TheVariants.{NoHeader};
ghost use Rattle.csv_tables.specs.declared.fault.CsvFault.TheVariants.{CsvBad};

use crate::fault::{CsvCause, CsvFault, FieldFault};
use crate::field::as_text;
use crate::reading::{field_at, next, open};
use cal_schema::{ColumnDef, ColumnFault};
use cal_value::{COLUMN_LIMIT, List};
use csv::ByteRecord;
use std::alloc::Global;

/// The columns that the first record names. NULL may stand in each of them.
pub fn header(alloc: Global, bytes: &[u8]) -> Result<List<ColumnDef>, CsvFault>
    ensures answer { spec.Answers (spec.header_of bytes.now) result }
    ensures header { IfOk result IsHeader }
    ensures few { IfOk result (λ columns. length columns ≤ COLUMN_LIMIT) }
{
    let mut reader = open(alloc, bytes);
    let mut raw = ByteRecord::new(alloc);
    let found = next(&mut reader, &mut raw)?;
    if found {
        columns_in(alloc, &raw)
    } else {
        Err(no_header())
    }
}

pub(crate) fn no_header() -> CsvFault
    ensures { result ≡ CsvBad 1 0 NoHeader }
{
    CsvFault::CsvBad {
        at_record: 1,
        column: 0,
        cause: CsvCause::NoHeader,
    }
}

/// The columns that a record names.
pub(crate) fn columns_in(alloc: Global, raw: &ByteRecord) -> Result<List<ColumnDef>, CsvFault>
    ensures answer { let fields = fields_of raw.now in
        spec.Answers (spec.told (spec.header_faults [] fields) (map spec.column_in fields)) result }
    ensures few { IfOk result (λ columns. length columns ≤ COLUMN_LIMIT) }
{
    let mut columns = List::new(alloc);
    for at in 0..raw.len() {
        match next_column(alloc, &columns, field_at(raw, at)) {
            Ok(column) => columns.push(column)?,
            Err(FieldFault::NoMemory) => return Err(CsvFault::NoMemory),
            Err(FieldFault::Bad(cause)) => {
                return Err(CsvFault::CsvBad {
                    at_record: 1,
                    column: at as u32 + 1,
                    cause,
                });
            }
        }
    }
    Ok(columns)
}

// The column that a field names after these.
fn next_column(
    alloc: Global,
    earlier: &List<ColumnDef>,
    field: &[u8],
) -> Result<ColumnDef, FieldFault>
    ensures { ColumnAnswers earlier.now field.now result }
{
    if earlier.len() >= COLUMN_LIMIT as usize {
        return Err(FieldFault::Bad(CsvCause::TooManyColumns));
    }
    let Some(text) = as_text(field) else {
        return Err(FieldFault::Bad(CsvCause::NotUtf8));
    };
    match ColumnDef::parse(alloc, text) {
        Err(ColumnFault::NoMemory) => Err(FieldFault::NoMemory),
        Err(_) => Err(FieldFault::Bad(CsvCause::BadHeader)),
        Ok(column) => {
            if is_named(earlier, &column) {
                Err(FieldFault::Bad(CsvCause::Repeated))
            } else {
                Ok(column)
            }
        }
    }
}

fn is_named(earlier: &List<ColumnDef>, column: &ColumnDef) -> bool
    ensures { result ≡ list_any (λ e. is_same_name e.name column.now.name) earlier.now }
{
    earlier.as_slice().iter().any(|e| e.name == column.name)
}
