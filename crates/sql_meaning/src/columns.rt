//! The columns that names stand for.
ghost use Rattle.std.specs.Prelude.{◌≡◌, ◌<◌, ◌^◌, length, IfSome};
ghost use Rattle.sql_meaning.specs.Scope as spec;
ghost use Rattle.sql_meaning.specs.Scope.{place_of, type_in, types_in};

use crate::entry::Entry;
use cal_value::SqlType;
use sql_tree::ColumnName;

/// How many columns the entries have together. Takes no memory.
pub fn column_count(scope: &[Entry<'_>]) -> usize
    requires { length (types_in scope.now) < 2 ^ 32 }
    ensures { result ≡ length (types_in scope.now) }
{
    let mut count = 0;
    for entry in scope {
        count += entry.columns().len();
    }
    count
}

/// The place of the column, counted from 0, among those of all entries. None comes exactly where no entry has it. The
/// places fit 32 bits. Takes no memory.
pub fn column_place(scope: &[Entry<'_>], name: &ColumnName) -> Option<usize>
    requires { length (types_in scope.now) < 2 ^ 32 }
    ensures place { result ≡ place_of scope.now name.now }
    ensures within { IfSome result (λ at. at < length (types_in scope.now)) }
{
    let mut before = 0;
    for entry in scope {
        if let Some(at) = entry.place(name) {
            return Some(before + at);
        }
        before += entry.columns().len();
    }
    None
}

/// The place of the column among those of all entries, and the place past the end where none has it. The places fit 32 bits.
/// Takes no memory.
pub fn column_at(scope: &[Entry<'_>], name: &ColumnName) -> usize
    requires { length (types_in scope.now) < 2 ^ 32 }
    ensures place { result ≡ spec.column_at scope.now name.now }
    ensures small { result < 2 ^ 32 }
{
    match column_place(scope, name) {
        Some(at) => at,
        None => column_count(scope),
    }
}

/// The type of the column. None comes exactly where no entry has it. Takes no memory.
pub fn column_type(scope: &[Entry<'_>], name: &ColumnName) -> Option<SqlType>
    ensures { result ≡ type_in scope.now name.now }
{
    for entry in scope {
        if let Some(at) = entry.place(name) {
            return Some(entry.type_of(&entry.columns()[at]));
        }
    }
    None
}
