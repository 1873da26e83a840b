use cal_value::{NoMemory, SqlText};
use std::alloc::{AllocError, AllocFailed};
use thiserror::Error;

/// A name as a statement has it: the part before the point, where it is written, and the name.
#[derive(Debug, Drop)]
pub struct WrittenName {
    pub qualifier: Option<SqlText>,
    pub name: SqlText,
}

/// Why a statement is refused. `at` is a character of its text and `place` one of its tokens, both counted from 0; `lo` and
/// `hi` are the ends of an interval, cut at 10^38; rows and columns of VALUES are counted from 1, and column 0 is told of a
/// row with another number of values.
#[derive(Debug, Drop, Error)]
pub enum Refusal {
    #[error("no token begins at character {at}")]
    NotToken { at: u64 },
    #[error("more than {limit} brackets are open")]
    TooDeep { limit: u32 },
    #[error("more than {limit} operators")]
    TooManyOperators { limit: u32 },
    #[error("not a statement")]
    NotSql,
    #[error("not a query")]
    NotAQuery,
    #[error("a form that isn't built")]
    NotYet,
    #[error("no such table")]
    UnknownTable { name: WrittenName },
    #[error("no such lattice")]
    UnknownLattice { name: WrittenName },
    #[error("more than {limit} entries of FROM")]
    TooManyTables { limit: u32 },
    #[error("no such column")]
    UnknownColumn { name: WrittenName },
    #[error("a name that stands for two things")]
    Ambiguous { name: WrittenName },
    #[error("kinds that don't go together at token {place}")]
    TypeClash { place: u64 },
    #[error("an aggregate where none may stand at token {place}")]
    AggregateMisplaced { place: u64 },
    #[error("a column outside the groups at token {place}")]
    NotGrouped { place: u64 },
    #[error("a key of ORDER BY that is no column of the answer at token {place}")]
    OrderKey { place: u64 },
    #[error("values from {lo} to {hi} may not fit at token {place}")]
    MayNotFit { place: u64, lo: i128, hi: i128 },
    #[error("row {row} doesn't fit the table at column {column}")]
    BadRow { row: u64, column: u32 },
    #[error("a table that isn't read from a file")]
    NotRefreshable,
    #[error("out of memory")]
    NoMemory,
}

impl From<NoMemory> for Refusal {
    ghost use Rattle.std.specs.Prelude.{◌≡◌};
    ghost use Rattle.cal_schema.specs.declared.refusal.Refusal.TheVariants.{NoMemory as no_memory};

    ghost from_gives = { λ _ e. e ≡ no_memory };

    fn from(_e: NoMemory) -> Refusal {
        Refusal::NoMemory
    }
}

impl From<AllocError> for Refusal {
    ghost use Rattle.std.specs.Prelude.{◌≡◌};
    ghost use Rattle.cal_schema.specs.declared.refusal.Refusal.TheVariants.{NoMemory as no_memory};

    ghost from_gives = { λ _ e. e ≡ no_memory };

    fn from(_e: AllocError) -> Refusal {
        Refusal::NoMemory
    }
}
