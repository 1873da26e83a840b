//! What a run answers.
ghost use Rattle.std.specs.Prelude.{◌≡◌};
ghost use Rattle.cal_top.specs.Texts.{top_fault};

use cal_schema::Db;
use cal_start::{FileRead, StartFault, TableFault, TableName};
use cal_value::List;
use model_json::ModelCause;
use session_lane::Reply;
use thiserror::Error;

/// Why a run has no answer. `path` names the place in the model's document, `limit` is in bytes, `of` is the
/// status whose text was being written.
#[derive(Debug, Drop, Error)]
pub enum TopFault {
    #[error("the words have no reading")]
    BadWords,
    #[error("the model is no JSON")]
    NotJson,
    #[error("the model isn't taken: {cause}")]
    BadModel { path: List<u8>, cause: ModelCause },
    #[error("a table's file isn't taken: {fault}")]
    Table { table: TableName, fault: TableFault },
    #[error("the model has more than {limit} bytes")]
    TooBig { limit: u64 },
    #[error("a read failed")]
    ReadFault,
    #[error("the output failed")]
    SinkFault { of: u8 },
    #[error("out of memory")]
    NoMemory,
}

/// What a run leaves. `status` is 0 with rows, a plan or a memo as reply, 1 with a refusal as reply, 2 to 7 with a fault; `files` holds
/// the files that were read to their ends, in the order of the run; `db` holds the rows of the tables.
#[derive(Debug, Drop)]
pub struct QueryRecord {
    pub status: u8,
    pub fault: Option<TopFault>,
    pub files: List<FileRead>,
    pub db: Option<Db>,
    pub reply: Option<Reply>,
}

/// The fault of a run at a fault of its start.
pub(crate) fn of_start(fault: StartFault) -> TopFault
    ensures { result ≡ top_fault fault }
{
    match fault {
        StartFault::NotJson => TopFault::NotJson,
        StartFault::BadModel { path, cause } => TopFault::BadModel { path, cause },
        StartFault::Table { table, fault } => TopFault::Table { table, fault },
        StartFault::TooBig { limit } => TopFault::TooBig { limit },
        StartFault::ReadFault => TopFault::ReadFault,
        StartFault::NoMemory => TopFault::NoMemory,
    }
}
