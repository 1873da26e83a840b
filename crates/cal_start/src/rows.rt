ghost use Rattle.std.specs.Prelude.{◌≡◌, [], All, IfOk};
ghost use Rattle.cal_schema.specs.Fits.{AreFilledBy, IsFilledBy};
ghost use Rattle.cal_schema.specs.Valid.{IsValidTable};
ghost use Rattle.csv_tables.specs.Table.{table_of};
ghost use Rattle.model_json.specs.ModelOf.{AreInlineFilled, IsInlineOf};
ghost use Rattle.cal_start.specs.Next as spec;
ghost use Rattle.cal_start.specs.Parts.{RowsSay};

use crate::fault::{StartFault, csv_fault};
use crate::files::FileRead;
use crate::name::table_name;
use cal_schema::TableDef;
use cal_value::{List, Row};
use csv_tables::decode;
use std::alloc::Global;

fn first_bytes(files: &[FileRead]) -> &[u8]
    ensures { result.now ≡ spec.first_bytes files.now }
{
    match files {
        [first, ..] => first.bytes.as_slice(),
        [] => &[],
    }
}

fn later_files(files: &[FileRead]) -> &[FileRead]
    ensures { result.now ≡ spec.later_files files.now }
{
    match files {
        [_, later @ ..] => later,
        [] => files,
    }
}

// The files that are left after a table with these rows of the model.
fn files_for<'a>(stored: &Option<List<Row>>, files: &'a [FileRead]) -> &'a [FileRead]
    ensures { result.now ≡ spec.files_for stored.now files.now }
{
    match stored {
        Some(_) => files,
        None => later_files(files),
    }
}

// The rows of a table's file.
fn file_rows(alloc: Global, table: &TableDef, bytes: &[u8]) -> Result<List<Row>, StartFault>
    requires { IsValidTable table.now }
    ensures rows { RowsSay (spec.told_rows (spec.table_name table.now) (table_of bytes.now table.now)) result }
    ensures filled { IfOk result (IsFilledBy table.now) }
{
    let name = table_name(alloc, &table.schema, &table.name)?;
    match decode(alloc, bytes, table) {
        Ok(rows) => Ok(rows),
        Err(fault) => Err(csv_fault(name, fault)),
    }
}

// The rows of a table that stand in the model, or in the first of these files.
fn table_rows(
    alloc: Global,
    table: &TableDef,
    stored: Option<List<Row>>,
    files: &[FileRead],
) -> Result<List<Row>, StartFault>
    requires valid { IsValidTable table.now }
    requires inline { IsInlineOf table.now stored }
    ensures rows { RowsSay (spec.rows_for table.now stored files.now) result }
    ensures filled { IfOk result (IsFilledBy table.now) }
{
    match stored {
        Some(rows) => Ok(rows),
        None => file_rows(alloc, table, first_bytes(files)),
    }
}

/// The rows of the tables in order: those that stand in the model, and those of the files of the other tables.
pub(crate) fn all_rows(
    alloc: Global,
    tables: &[TableDef],
    inline: List<Option<List<Row>>>,
    files: &[FileRead],
) -> Result<List<List<Row>>, StartFault>
    requires valid { All IsValidTable tables.now }
    requires inline { AreInlineFilled tables.now inline }
    ensures rows { RowsSay (spec.rows_after tables.now inline [] files.now) result }
    ensures filled { IfOk result (AreFilledBy tables.now) }
{
    let mut all = List::new(alloc);
    let mut left = files;
    let mut inline = inline.into_vec().into_iter();
    for table in tables {
        let Some(stored) = inline.next() else {
            return Ok(all);
        };
        let later = files_for(&stored, left);
        let rows = table_rows(alloc, table, stored, left)?;
        all.push(rows)?;
        left = later;
    }
    Ok(all)
}
