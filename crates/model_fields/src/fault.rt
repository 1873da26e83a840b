ghost use Rattle.std.specs.Prelude.{◌≡◌, [], ◌∷◌, ◌++◌, OnOk, IfOk, Ok};
ghost use Rattle.std.specs.Fmt.{decimal};
ghost use Rattle.model_fields.specs.Reading.{Gives, IsFault, under, inside};

use cal_value::{List, NoMemory};
use itoa::Buffer;
use std::alloc::{AllocError, AllocFailed, Global};
use thiserror::Error;

/// Why a place of a model isn't taken.
#[derive(Clone, Copy, Debug, PartialEq, Eq, Error)]
pub enum ModelCause {
    /// A field that has to be there isn't.
    #[error("Missing")]
    Missing,
    /// A value of another JSON kind.
    #[error("WrongKind")]
    WrongKind,
    /// A value of the right kind that breaks its rule.
    #[error("BadValue")]
    BadValue,
    /// What has to differ from earlier ones doesn't.
    #[error("Repeated")]
    Repeated,
    /// A list is longer than may be.
    #[error("TooMany")]
    TooMany,
    /// There is no schema or column of this name.
    #[error("NoSuchName")]
    NoSuchName,
    /// A compressed file.
    #[error("Compressed")]
    Compressed,
    /// A text or a name has too many characters.
    #[error("TextTooLong")]
    TextTooLong,
    /// A row has NULL in a key column.
    #[error("NullValue")]
    NullValue,
    /// A row has the key of an earlier one.
    #[error("KeyTaken")]
    KeyTaken,
    /// A form that isn't built.
    #[error("NotYet")]
    NotYet,
}

/// Why bytes aren't taken as a model. `path` names the place in the document: `/` and a member's name or an item's number
/// from 0, again and again; the whole document is `/`.
#[derive(Debug, Drop, Error)]
pub enum ModelFault {
    #[error("the model is no JSON")]
    NotJson,
    #[error("the model isn't taken: {cause}")]
    BadModel { path: List<u8>, cause: ModelCause },
    #[error("out of memory")]
    NoMemory,
}

impl From<NoMemory> for ModelFault {
    ghost use Rattle.model_fields.specs.declared.fault.ModelFault.TheVariants as faults;

    ghost from_gives = { λ _ e. e ≡ faults.NoMemory };

    fn from(_e: NoMemory) -> ModelFault {
        ModelFault::NoMemory
    }
}

impl From<AllocError> for ModelFault {
    ghost use Rattle.model_fields.specs.declared.fault.ModelFault.TheVariants as faults;

    ghost from_gives = { λ _ e. e ≡ faults.NoMemory };

    fn from(_e: AllocError) -> ModelFault {
        ModelFault::NoMemory
    }
}

impl<T: Drop> From<AllocFailed<T>> for ModelFault {
    ghost use Rattle.model_fields.specs.declared.fault.ModelFault.TheVariants as faults;

    ghost from_gives = { λ _ e. e ≡ faults.NoMemory };

    fn from(_e: AllocFailed<T>) -> ModelFault {
        ModelFault::NoMemory
    }
}

/// The fault of a value itself. Takes no memory.
pub fn bad(alloc: Global, cause: ModelCause) -> ModelFault
    ensures { result ≡ ModelFault.BadModel [] cause }
{
    ModelFault::BadModel {
        path: List::new(alloc),
        cause,
    }
}

// The path of what stands at this path in a member.
fn extended(alloc: Global, step: &[u8], path: &List<u8>) -> Result<List<u8>, NoMemory>
    ensures { OnOk result (result ≡ Ok (47 ∷ step.now ++ path.now)) }
{
    let mut all = List::new(alloc);
    all.extend(b"/".as_slice())?;
    all.extend(step)?;
    all.extend(path.as_slice())?;
    Ok(all)
}

// The fault of a value, told of the list or object that has it.
fn in_member(alloc: Global, step: &[u8], fault: ModelFault) -> ModelFault
    ensures { IsFault result (inside step.now fault) }
{
    match fault {
        ModelFault::BadModel { path, cause } => match extended(alloc, step, &path) {
            Ok(path) => ModelFault::BadModel { path, cause },
            Err(_) => ModelFault::NoMemory,
        },
        fault => fault,
    }
}

/// What was read of a member, with its fault told of the object.
pub fn at_member<T: Drop>(
    alloc: Global,
    key: &str,
    read: Result<T, ModelFault>,
) -> Result<T, ModelFault>
    ensures told { Gives (λ x. x) result (under key.now read) }
    ensures same { IfOk result (λ x. read ≡ Ok x) }
{
    match read {
        Ok(value) => Ok(value),
        Err(fault) => Err(in_member(alloc, key.as_bytes(), fault)),
    }
}

/// What was read of an item, with its fault told of the list.
pub fn at_item<T: Drop>(
    alloc: Global,
    number: usize,
    read: Result<T, ModelFault>,
) -> Result<T, ModelFault>
    ensures { Gives (λ x. x) result (under (decimal number) read) }
{
    match read {
        Ok(value) => Ok(value),
        Err(fault) => {
            let mut buffer = Buffer::new();
            Err(in_member(alloc, buffer.format(number).as_bytes(), fault))
        }
    }
}
