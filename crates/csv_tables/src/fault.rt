ghost use Rattle.std.specs.Prelude.{◌≡◌};

use cal_value::NoMemory;
use std::alloc::AllocFailed;
use thiserror::Error;

/// Why a record or a field is refused.
#[derive(Clone, Copy, Debug, PartialEq, Eq)]
pub enum CsvCause {
    /// There is no record.
    NoHeader,
    /// The header has more than 32 fields.
    TooManyColumns,
    /// A field isn't UTF-8.
    NotUtf8,
    /// A field of the header isn't the name of a column with the word of a type.
    BadHeader,
    /// An earlier column has this name.
    Repeated,
    /// The header names other columns than the table has.
    HeaderChanged,
    /// A record has another number of fields than the table has columns.
    WrongCount,
    /// A field isn't `true` or `false`.
    BadBoolean,
    /// A field isn't a whole number of its column's range.
    BadInteger,
    /// A text has more than 4,000 characters.
    TextTooLong,
    /// A field of a key column is NULL.
    NullValue,
    /// An earlier row has this key.
    KeyTaken,
}

/// Why a file is refused. Records count from 1 with the header, columns from 1; column 0 stands for the whole record.
#[derive(Clone, Copy, Debug, PartialEq, Eq, Error)]
pub enum CsvFault {
    #[error("a record isn't taken")]
    CsvBad {
        at_record: u64,
        column: u32,
        cause: CsvCause,
    },
    /// There are more rows than the table may have.
    #[error("too many rows")]
    TableFull {
        limit: u64,
    },
    #[error("out of memory")]
    NoMemory,
}

/// Why a field gives no value or column.
#[derive(Clone, Copy, Debug, PartialEq, Eq)]
pub(crate) enum FieldFault {
    Bad(CsvCause),
    NoMemory,
}

impl From<NoMemory> for CsvFault {
    ghost use Rattle.csv_tables.specs.declared.fault.CsvFault.TheVariants as faults;

    ghost from_gives = { λ _ e. e ≡ faults.NoMemory };

    fn from(_e: NoMemory) -> CsvFault {
        CsvFault::NoMemory
    }
}

impl<T: Drop> From<AllocFailed<T>> for CsvFault {
    ghost use Rattle.csv_tables.specs.declared.fault.CsvFault.TheVariants as faults;

    ghost from_gives = { λ _ e. e ≡ faults.NoMemory };

    fn from(_e: AllocFailed<T>) -> CsvFault {
        CsvFault::NoMemory
    }
}
