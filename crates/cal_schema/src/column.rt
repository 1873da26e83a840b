ghost use Rattle.std.specs.Prelude.{◌≡◌, true, ◌-◌, ◌==◌, take, length, if◌then◌else◌};
ghost use Rattle.std.specs.Str.{chars};
ghost use Rattle.cal_value.specs.Types as types;
ghost use Rattle.cal_value.specs.declared.interval.Interval.TheVariants.{Range};
ghost use Rattle.cal_schema.specs.Column as spec;

use cal_value::{Duplicate, Interval, NAME_LIMIT, NoMemory, SqlText, SqlType, characters};
use std::alloc::Global;
use thiserror::Error;

/// A column: its name, and what may stand in it.
#[derive(Debug, Drop)]
pub struct ColumnDef {
    pub name: SqlText,
    pub kind: SqlType,
}

/// Why a text names no column.
#[derive(Clone, Copy, Debug, PartialEq, Eq, Error)]
pub enum ColumnFault {
    #[error("the name of a column has more than {limit} characters")]
    NameTooLong { limit: u32 },
    #[error("not the name and the type of a column")]
    BadColumn,
    #[error("out of memory")]
    NoMemory,
}

impl Duplicate for ColumnDef {
    fn copy(&self, alloc: Global) -> Result<ColumnDef, NoMemory> {
        let name = self.name.copy(alloc)?;
        Ok(ColumnDef {
            name,
            kind: self.kind,
        })
    }
}

impl ColumnDef {
    /// The column that a text `NAME:type` names. The last colon divides; a text without one names a column of texts.
    /// `NameTooLong` comes exactly where the name has more than 128 characters, `BadColumn` exactly where it has
    /// not, and is empty or the type is no word of a type.
    pub fn parse(alloc: Global, text: &str) -> Result<ColumnDef, ColumnFault>
        ensures { spec.ColumnSays (chars text.now) result }
    {
        match characters(alloc, text) {
            Ok(all) => column_of(all),
            Err(_) => Err(ColumnFault::NoMemory),
        }
    }
}

fn column_of(mut text: Vec<char>) -> Result<ColumnDef, ColumnFault>
    ensures { spec.ColumnSays text.items result }
{
    let at = divided_at(text.as_slice());
    let length = name_length(text.len(), at);
    if length > NAME_LIMIT as usize {
        return Err(ColumnFault::NameTooLong { limit: NAME_LIMIT });
    }
    if length == 0 {
        return Err(ColumnFault::BadColumn);
    }
    match type_after(text.as_slice(), at) {
        None => Err(ColumnFault::BadColumn),
        Some(kind) => {
            text.truncate(length);
            Ok(ColumnDef {
                name: SqlText::from_characters(text),
                kind,
            })
        }
    }
}

// How many characters stand up to the last colon, with it.
fn divided_at(text: &[char]) -> usize
    ensures { result ≡ spec.divided_at text.now }
{
    let mut at = text.len();
    while at > 0 && text[at - 1] != ':' {
        at -= 1;
    }
    at
}

fn name_length(length: usize, at: usize) -> usize
    ensures { result ≡ (if at == 0 then length else at - 1) }
{
    if at == 0 { length } else { at - 1 }
}

fn type_after(text: &[char], at: usize) -> Option<SqlType>
    requires { at ≡ spec.divided_at text.now }
    ensures { result ≡ spec.type_named (spec.word_part text.now) }
{
    if at == 0 {
        Some(SqlType::text(true))
    } else {
        type_named(&text[at..])
    }
}

fn integer_type(lo: i128, hi: i128) -> SqlType
    ensures { result ≡ types.integer_type true (Range lo hi) }
{
    SqlType::integer(true, Interval::Range { lo, hi })
}

const STRING: [char; 6] = ['s', 't', 'r', 'i', 'n', 'g'];

const BOOLEAN: [char; 7] = ['b', 'o', 'o', 'l', 'e', 'a', 'n'];

const SHORT: [char; 5] = ['s', 'h', 'o', 'r', 't'];

const INT: [char; 3] = ['i', 'n', 't'];

const LONG: [char; 4] = ['l', 'o', 'n', 'g'];

fn type_named(word: &[char]) -> Option<SqlType>
    ensures { result ≡ spec.type_named word.now }
{
    if word == STRING.as_slice() {
        Some(SqlType::text(true))
    } else if word == BOOLEAN.as_slice() {
        Some(SqlType::boolean(true))
    } else if word == SHORT.as_slice() {
        Some(integer_type(-32768, 32767))
    } else if word == INT.as_slice() {
        Some(integer_type(-2147483648, 2147483647))
    } else if word == LONG.as_slice() {
        Some(integer_type(-9223372036854775808, 9223372036854775807))
    } else {
        None
    }
}
