ghost use Rattle.std.specs.Prelude.{◌≡◌, IfOk};
ghost use Rattle.cal_value.specs.Logic as logic;
ghost use Rattle.cal_value.specs.Order.{column_of, columns_of};

use crate::list::List;
use crate::memory::{Duplicate, NoMemory};
use crate::text::SqlText;
use std::alloc::Global;

/// A value of SQL. `Int` holds whole numbers of `-(10^38-1) .. 10^38-1`.
#[derive(Debug, Drop, Hash)]
pub enum Value {
    Null,
    Bool(bool),
    Int(i128),
    Text(SqlText),
}

/// The values of a row, column after column.
pub type Row = List<Value>;

impl Value {
    /// Whether it is NULL.
    pub fn is_null(&self) -> bool
        ensures { result ≡ logic.is_null self.now }
    {
        matches!(self, Value::Null)
    }

    /// Whether it is TRUE. NULL isn't, nor is a value of another kind.
    pub fn is_true(&self) -> bool
        ensures { result ≡ logic.is_true self.now }
    {
        match self {
            Value::Bool(b) => *b,
            _ => false,
        }
    }

    /// The truth value, and none for NULL and for another kind.
    pub fn truth(&self) -> Option<bool>
        ensures { result ≡ logic.truth_of self.now }
    {
        match self {
            Value::Bool(b) => Some(*b),
            _ => None,
        }
    }

    /// The truth value as a value: NULL where it is unknown. Takes no memory.
    pub fn of_truth(truth: Option<bool>) -> Value
        ensures { result ≡ logic.value_of truth }
    {
        match truth {
            Some(b) => Value::Bool(b),
            None => Value::Null,
        }
    }
}

impl PartialEq for Value {
    ghost use Rattle.std.specs.Cmp.{partial_equiv_from_equiv};
    ghost use Rattle.cal_value.specs.Equal.{value_eq};
    ghost use Rattle.cal_value.specs.EqualLaws.{value_eq_equiv};

    ghost eq = { value_eq };

    ghost laws = { partial_equiv_from_equiv value_eq_equiv };

    fn eq(&self, other: &Value) -> bool {
        match (self, other) {
            (Value::Null, Value::Null) => true,
            (Value::Bool(x), Value::Bool(y)) => *x == *y,
            (Value::Int(x), Value::Int(y)) => *x == *y,
            (Value::Text(x), Value::Text(y)) => *x == *y,
            _ => false,
        }
    }
}

impl Eq for Value {
    ghost use Rattle.cal_value.specs.EqualLaws.{value_eq_equiv};

    ghost laws = { value_eq_equiv };
}

impl Duplicate for Value {
    fn copy(&self, alloc: Global) -> Result<Value, NoMemory> {
        match self {
            Value::Null => Ok(Value::Null),
            Value::Bool(b) => Ok(Value::Bool(*b)),
            Value::Int(n) => Ok(Value::Int(*n)),
            Value::Text(text) => Ok(Value::Text(text.copy(alloc)?)),
        }
    }
}

/// An equal row.
pub fn copy_row(alloc: Global, row: &Row) -> Result<Row, NoMemory>
    ensures { IfOk result (λ copy. copy ≡ row.now) }
{
    row.copy(alloc)
}

/// The value in a column, counted from 0. A column past the row's end counts as NULL.
pub fn value_at(alloc: Global, row: &Row, column: usize) -> Result<Value, NoMemory>
    ensures { IfOk result (λ value. value ≡ column_of row.now column) }
{
    match row.get(column) {
        Some(value) => value.copy(alloc),
        None => Ok(Value::Null),
    }
}

/// The values in these columns, in this order.
pub fn values_at(alloc: Global, row: &Row, columns: &[u32]) -> Result<Row, NoMemory>
    ensures { IfOk result (λ values. values ≡ columns_of row.now columns.now) }
{
    let mut values = List::new(alloc);
    for column in columns {
        values.push(value_at(alloc, row, *column as usize)?)?;
    }
    Ok(values)
}
