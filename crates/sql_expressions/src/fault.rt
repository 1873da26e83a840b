//! Why tokens aren't read.
use cal_value::NoMemory;
use std::alloc::{AllocError, AllocFailed};
use thiserror::Error;

/// Why tokens aren't read as a statement.
#[derive(Clone, Copy, Debug, PartialEq, Eq, Error)]
pub enum ParseFault {
    #[error("more than {limit} brackets are open")]
    TooDeep { limit: u32 },
    #[error("more than {limit} operators")]
    TooManyOperators { limit: u32 },
    #[error("not a statement")]
    NotSql,
    #[error("out of memory")]
    NoMemory,
}

impl From<NoMemory> for ParseFault {
    ghost use Rattle.std.specs.Prelude.{◌≡◌};
    ghost use Rattle.sql_expressions.specs.declared.fault.ParseFault.TheVariants.{NoMemory as no_memory};

    ghost from_gives = { λ _ e. e ≡ no_memory };

    fn from(_e: NoMemory) -> ParseFault {
        ParseFault::NoMemory
    }
}

impl From<AllocError> for ParseFault {
    ghost use Rattle.std.specs.Prelude.{◌≡◌};
    ghost use Rattle.sql_expressions.specs.declared.fault.ParseFault.TheVariants.{NoMemory as no_memory};

    ghost from_gives = { λ _ e. e ≡ no_memory };

    fn from(_e: AllocError) -> ParseFault {
        ParseFault::NoMemory
    }
}
