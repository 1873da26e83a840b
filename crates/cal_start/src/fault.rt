ghost use Rattle.std.specs.Prelude.{◌≡◌};
ghost use Rattle.cal_start.specs.Next.{model_stop};
ghost use Rattle.cal_start.specs.Parts.{csv_stop};
ghost use Rattle.cal_start.specs.declared.fault.StartFault.TheVariants.{NoMemory};

use cal_value::{List, NoMemory, SqlText};
use csv_tables::CsvFault;
use model_json::{ModelCause, ModelFault};
use thiserror::Error;

/// A table by its schema and its own name.
#[derive(Debug, Drop)]
pub struct TableName {
    pub schema: SqlText,
    pub name: SqlText,
}

/// What is wrong with a table's file. `Csv` is never want of memory.
#[derive(Clone, Copy, Debug, PartialEq, Eq, Error)]
pub enum TableFault {
    #[error("{0}")]
    Csv(CsvFault),
    /// The file has more bytes than the limit.
    #[error("TooBig limit {limit}")]
    TooBig { limit: u64 },
}

/// Why a run stops before it has its tables.
#[derive(Debug, Drop, Error)]
pub enum StartFault {
    #[error("the model is no JSON")]
    NotJson,
    /// `path` is the place in the model's document.
    #[error("the model isn't taken: {cause}")]
    BadModel { path: List<u8>, cause: ModelCause },
    #[error("a table's file isn't taken: {fault}")]
    Table { table: TableName, fault: TableFault },
    /// The model has more bytes than the limit.
    #[error("the model has more than {limit} bytes")]
    TooBig { limit: u64 },
    #[error("a read failed")]
    ReadFault,
    #[error("out of memory")]
    NoMemory,
}

impl From<NoMemory> for StartFault {
    ghost from_gives = { λ _ fault. fault ≡ NoMemory };

    fn from(_fault: NoMemory) -> StartFault {
        StartFault::NoMemory
    }
}

/// The fault of a start at a fault of its model.
pub(crate) fn model_fault(fault: ModelFault) -> StartFault
    ensures { result ≡ model_stop fault }
{
    match fault {
        ModelFault::NotJson => StartFault::NotJson,
        ModelFault::BadModel { path, cause } => StartFault::BadModel { path, cause },
        ModelFault::NoMemory => StartFault::NoMemory,
    }
}

impl From<ModelFault> for StartFault {
    ghost from_gives = { λ model fault. fault ≡ model_stop model };

    fn from(model: ModelFault) -> StartFault {
        model_fault(model)
    }
}

fn bad_file(table: TableName, fault: CsvFault) -> StartFault
    ensures { result ≡ StartFault.Table table (TableFault.Csv fault) }
{
    StartFault::Table {
        table,
        fault: TableFault::Csv(fault),
    }
}

/// The fault of a start at a fault of what a table's file holds.
pub(crate) fn csv_fault(table: TableName, fault: CsvFault) -> StartFault
    ensures { result ≡ csv_stop table fault }
{
    match fault {
        CsvFault::CsvBad {
            at_record,
            column,
            cause,
        } => bad_file(
            table,
            CsvFault::CsvBad {
                at_record,
                column,
                cause,
            },
        ),
        CsvFault::TableFull { limit } => bad_file(table, CsvFault::TableFull { limit }),
        CsvFault::NoMemory => StartFault::NoMemory,
    }
}
