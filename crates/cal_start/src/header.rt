ghost use Rattle.std.specs.Prelude.{◌≡◌, ◌≤◌, IfOk, IfSome, Some, length};
ghost use Rattle.model_json.specs.ModelOf.{AreHeadersOf, AreShort, IsHeaderOf, IsWalked};
ghost use Rattle.serde_json.specs.View.{view};
ghost use Rattle.cal_outside.specs.Store.{IsLater};
ghost use Rattle.cal_start.specs.Ends.{KeepsEach};
ghost use Rattle.cal_start.specs.Next.{source_name};
ghost use Rattle.cal_start.specs.Parts.{FileSays, file_names, HeaderSays, HeadersSay};

use crate::fault::{StartFault, TableFault, TableName, csv_fault};
use crate::files::{FileRead, keep, make_room};
use crate::name::{file_word, table_name};
use cal_outside::{ReadAllFault, Store, read_all};
use cal_schema::ColumnDef;
use cal_value::{COLUMN_LIMIT, FILE_LIMIT, FILES_LIMIT, List, SqlText};
use csv_tables::header;
use model_json::{ModelDoc, TableSource, sources};
use std::alloc::Global;

/// The columns of a table that is read from a file, and how many bytes are left for the files of later tables.
#[derive(Debug, Drop)]
pub(crate) struct NextHeader {
    pub header: Option<List<ColumnDef>>,
    pub left: u64,
}

// Reads the file of a table, with its header.
fn read_file<S: Store>(
    alloc: Global,
    table: TableName,
    file: &SqlText,
    left: u64,
    store: &mut S,
    files: &mut Vec<FileRead>,
) -> Result<NextHeader, StartFault>
    ensures later { IsLater (S.state store.old) (S.state store.new) }
    ensures each { KeepsEach (S.state store.old) (S.state store.new) files.old.items files.new.items }
    ensures few { IfOk result (λ next. IfSome next.header (λ columns. length columns ≤ COLUMN_LIMIT)) }
    ensures header { IfOk result (λ next. IsHeaderOf (Some file.now) next.header) }
    ensures read { FileSays (S.state store.old) (S.state store.new)
        table file.now left files.old.items files.new.items result }
{
    let name = file_word(alloc, file)?;
    make_room(files)?;
    match read_all(alloc, store, name.as_str(), left.min(FILE_LIMIT)) {
        Ok(bytes) => {
            let left = left - bytes.len() as u64;
            let read = header(alloc, bytes.as_slice());
            keep(files, FileRead { name, bytes });
            match read {
                Ok(columns) => Ok(NextHeader {
                    header: Some(columns),
                    left,
                }),
                Err(fault) => Err(csv_fault(table, fault)),
            }
        }
        Err(ReadAllFault::TooBig { limit }) => Err(StartFault::Table {
            table,
            fault: TableFault::TooBig { limit },
        }),
        Err(ReadAllFault::ReadFault) => Err(StartFault::ReadFault),
        Err(ReadAllFault::NoMemory) => Err(StartFault::NoMemory),
    }
}

// The header of a table, where it has a file.
fn next_header<S: Store>(
    alloc: Global,
    source: &TableSource,
    left: u64,
    store: &mut S,
    files: &mut Vec<FileRead>,
) -> Result<NextHeader, StartFault>
    ensures later { IsLater (S.state store.old) (S.state store.new) }
    ensures each { KeepsEach (S.state store.old) (S.state store.new) files.old.items files.new.items }
    ensures few { IfOk result (λ next. IfSome next.header (λ columns. length columns ≤ COLUMN_LIMIT)) }
    ensures header { IfOk result (λ next. IsHeaderOf source.now.file next.header) }
    ensures read { HeaderSays (S.state store.old) (S.state store.new)
        (source_name source.now) source.now.file left files.old.items files.new.items result }
{
    match &source.file {
        None => Ok(NextHeader { header: None, left }),
        Some(file) => {
            let table = table_name(alloc, &source.schema, &source.name)?;
            read_file(alloc, table, file, left, store, files)
        }
    }
}

/// Reads the files of the tables in order, each with its header.
pub(crate) fn read_headers<S: Store>(
    alloc: Global,
    doc: &ModelDoc,
    store: &mut S,
    files: &mut Vec<FileRead>,
) -> Result<List<Option<List<ColumnDef>>>, StartFault>
    requires { IsWalked doc.now }
    ensures later { IsLater (S.state store.old) (S.state store.new) }
    ensures each { KeepsEach (S.state store.old) (S.state store.new) files.old.items files.new.items }
    ensures short { IfOk result AreShort }
    ensures headers { IfOk result (AreHeadersOf (file_names (view doc.now.json))) }
    ensures read { HeadersSay (S.state store.old) (S.state store.new)
        (view doc.now.json) files.old.items files.new.items result }
{
    let Ok(tables) = sources(alloc, doc) else {
        return Err(StartFault::NoMemory);
    };
    let mut headers = List::new(alloc);
    let mut left = FILES_LIMIT;
    for source in tables.as_slice() {
        match next_header(alloc, source, left, store, files) {
            Ok(next) => {
                left = next.left;
                let Ok(()) = headers.push(next.header) else {
                    return Err(StartFault::NoMemory);
                };
            }
            Err(fault) => return Err(fault),
        }
    }
    Ok(headers)
}
