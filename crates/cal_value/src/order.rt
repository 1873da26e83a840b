ghost use Rattle.std.specs.Prelude.{◌≡◌};
ghost use Rattle.cal_value.specs.Order as spec;
ghost use Rattle.cal_value.specs.Order.{value_cmp, key_cmp, row_cmp, column_of};

use crate::list::List;
use crate::memory::{Duplicate, NoMemory};
use crate::value::{Row, Value};
use std::alloc::Global;
use std::cmp::Ordering;

/// How one column is sorted. `column` is its place from 0.
#[derive(Clone, Copy, Debug, PartialEq, Eq, Hash)]
pub struct KeyOrder {
    pub column: u32,
    pub descending: bool,
    pub nulls_first: bool,
}

/// How rows are sorted: by the first key, among equals by the second, and so on.
pub type Collation = List<KeyOrder>;

impl Duplicate for KeyOrder {
    fn copy(&self, _alloc: Global) -> Result<KeyOrder, NoMemory> {
        Ok(*self)
    }
}

fn class(value: &Value) -> u8
    ensures { result ≡ spec.class value.now }
{
    match value {
        Value::Null => 0,
        Value::Bool(_) => 1,
        Value::Int(_) => 2,
        Value::Text(_) => 3,
    }
}

/// The ascending order of values: FALSE before TRUE, numbers by size, texts by code point. NULL is less than every
/// value, and values of two kinds are ordered by their kinds. Takes no memory.
pub fn compare_values(a: &Value, b: &Value) -> Ordering
    ensures { result ≡ value_cmp a.now b.now }
{
    match (a, b) {
        (Value::Bool(x), Value::Bool(y)) => x.cmp(y),
        (Value::Int(x), Value::Int(y)) => x.cmp(y),
        (Value::Text(x), Value::Text(y)) => x.as_slice().cmp(&y.as_slice()),
        _ => class(a).cmp(&class(b)),
    }
}

/// The order of two values under a key: as `compare_values`, turned round where the key is descending, but NULL
/// stands where the key says. Takes no memory.
pub fn compare(a: &Value, b: &Value, key: &KeyOrder) -> Ordering
    ensures { result ≡ key_cmp key.now a.now b.now }
{
    let null_first = if key.nulls_first {
        Ordering::Less
    } else {
        Ordering::Greater
    };
    match (a, b) {
        (Value::Null, Value::Null) => Ordering::Equal,
        (Value::Null, _) => null_first,
        (_, Value::Null) => null_first.reverse(),
        _ => {
            if key.descending {
                compare_values(b, a)
            } else {
                compare_values(a, b)
            }
        }
    }
}

// Two rows in one column. A column past a row's end counts as NULL.
fn compare_in(a: &Row, b: &Row, key: &KeyOrder) -> Ordering
    ensures { result
        ≡ key_cmp key.now (column_of a.now key.now.column) (column_of b.now key.now.column) }
{
    let null = Value::Null;
    let a = a.get(key.column as usize).unwrap_or(&null);
    let b = b.get(key.column as usize).unwrap_or(&null);
    compare(a, b, key)
}

/// The order of two rows: by the first key, among equals by the second, and so on. A column past a row's end counts
/// as NULL. Takes no memory.
pub fn compare_rows(a: &Row, b: &Row, keys: &Collation) -> Ordering
    ensures { result ≡ row_cmp keys.now a.now b.now }
{
    for key in keys.as_slice() {
        let order = compare_in(a, b, key);
        if order.is_ne() {
            return order;
        }
    }
    Ordering::Equal
}
