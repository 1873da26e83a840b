ghost use Rattle.std.specs.Prelude.{◌≡◌, IfOk};
ghost use Rattle.cal_schema.specs.File as spec;

use crate::column::ColumnDef;
use cal_value::{Duplicate, List, NoMemory, SqlText};
use std::alloc::Global;

/// How the rows of a table are reached.
#[derive(Clone, Copy, Debug, PartialEq, Eq, Hash)]
pub enum AdapterKind {
    Csv,
    Mem,
}

/// A table. `file` is the name of its file where it is read from one, and empty otherwise; it has at most `max_rows`
/// rows, and its rows differ in the columns of `primary_key`, counted from 0, where there are any.
#[derive(Debug, Drop)]
pub struct TableDef {
    pub schema: SqlText,
    pub name: SqlText,
    pub columns: List<ColumnDef>,
    pub adapter: AdapterKind,
    pub file: SqlText,
    pub max_rows: u64,
    pub primary_key: List<u32>,
}

impl Duplicate for TableDef {
    fn copy(&self, alloc: Global) -> Result<TableDef, NoMemory> {
        let schema = self.schema.copy(alloc)?;
        let name = self.name.copy(alloc)?;
        let columns = self.columns.copy(alloc)?;
        let file = self.file.copy(alloc)?;
        let primary_key = self.primary_key.copy(alloc)?;
        Ok(TableDef {
            schema,
            name,
            columns,
            adapter: self.adapter,
            file,
            max_rows: self.max_rows,
            primary_key,
        })
    }
}

fn is_gz(end: &[char]) -> bool
    ensures { result ≡ spec.is_gz end.now }
{
    match end {
        [dot, g, z] => {
            *dot == '.' && g.to_ascii_lowercase() == 'g' && z.to_ascii_lowercase() == 'z'
        }
        _ => false,
    }
}

/// Whether the name of a file ends in `.gz`, in any case.
pub fn is_compressed(name: &[char]) -> bool
    ensures { result ≡ spec.is_compressed name.now }
{
    let (_, end) = name.split_at(name.len().saturating_sub(3));
    is_gz(end)
}
