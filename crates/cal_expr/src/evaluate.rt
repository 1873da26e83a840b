//! The values of expressions.
ghost use Rattle.std.specs.Prelude.{◌≡◌, IfOk};
ghost use Rattle.cal_value.specs.Held.{IsHeld};
ghost use Rattle.cal_expr.specs.Meaning as spec;
ghost use Rattle.cal_expr.specs.Meaning.{meaning_of};
ghost use Rattle.cal_expr.specs.Held.{CanApply};
ghost use Rattle.cal_expr.specs.WellFormed.{IsWellFormed, IsWellTyped};

use crate::expr::Expr;
use cal_value::{Duplicate, NoMemory, Op, Row, Value, and3, compare_values, not3, or3, value_at};
use std::alloc::Global;
use std::cmp::Ordering;

fn add(a: &Value, b: &Value) -> Value
    requires { CanApply Op.Add a.now b.now }
    ensures { result ≡ spec.applied Op.Add a.now b.now }
{
    match (a, b) {
        (Value::Int(x), Value::Int(y)) => Value::Int(*x + *y),
        _ => Value::Null,
    }
}

fn subtract(a: &Value, b: &Value) -> Value
    requires { CanApply Op.Subtract a.now b.now }
    ensures { result ≡ spec.applied Op.Subtract a.now b.now }
{
    match (a, b) {
        (Value::Int(x), Value::Int(y)) => Value::Int(*x - *y),
        _ => Value::Null,
    }
}

fn multiply(a: &Value, b: &Value) -> Value
    requires { CanApply Op.Multiply a.now b.now }
    ensures { result ≡ spec.applied Op.Multiply a.now b.now }
{
    match (a, b) {
        (Value::Int(x), Value::Int(y)) => Value::Int(*x * *y),
        _ => Value::Null,
    }
}

fn divide(a: &Value, b: &Value) -> Value
    requires { CanApply Op.Divide a.now b.now }
    ensures { result ≡ spec.applied Op.Divide a.now b.now }
{
    match (a, b) {
        (Value::Int(x), Value::Int(y)) => {
            if *y == 0 {
                Value::Null
            } else {
                Value::Int(*x / *y)
            }
        }
        _ => Value::Null,
    }
}

fn negate(a: &Value) -> Value
    requires { IsHeld (spec.negated a.now) }
    ensures { result ≡ spec.negated a.now }
{
    match a {
        Value::Int(x) => Value::Int(0 - *x),
        _ => Value::Null,
    }
}

/// Whether the comparison holds of two values in this order. An operator that compares nothing never does.
pub fn passes(op: Op, order: Ordering) -> bool
    ensures { result ≡ spec.passes op order }
{
    match op {
        Op::Equal => order.is_eq(),
        Op::NotEqual => order.is_ne(),
        Op::Less => order.is_lt(),
        Op::LessEqual => order.is_le(),
        Op::Greater => order.is_gt(),
        Op::GreaterEqual => order.is_ge(),
        _ => false,
    }
}

fn compared(op: Op, a: &Value, b: &Value) -> Value
    ensures { result ≡ spec.compared (spec.passes op) a.now b.now }
{
    match (a, b) {
        (Value::Null, _) | (_, Value::Null) => Value::Null,
        _ => Value::Bool(passes(op, compare_values(a, b))),
    }
}

fn apply(op: Op, a: &Value, b: &Value) -> Value
    requires { CanApply op a.now b.now }
    ensures { result ≡ spec.applied op a.now b.now }
{
    match op {
        Op::Add => add(a, b),
        Op::Subtract => subtract(a, b),
        Op::Multiply => multiply(a, b),
        Op::Divide => divide(a, b),
        Op::Equal | Op::NotEqual | Op::Less | Op::LessEqual | Op::Greater | Op::GreaterEqual => {
            compared(op, a, b)
        }
        Op::And => Value::of_truth(and3(a.truth(), b.truth())),
        Op::Or => Value::of_truth(or3(a.truth(), b.truth())),
    }
}

fn value_in(alloc: Global, expr: &Expr, row: &Row) -> Result<Value, NoMemory>
    requires { IsWellFormed expr.now row.now }
    ensures { IfOk result (λ v. v ≡ meaning_of expr.now row.now) }
{
    match expr {
        Expr::Column(at) => value_at(alloc, row, *at as usize),
        Expr::Literal(value) => value.copy(alloc),
        Expr::Negate(e) => {
            let a = value_in(alloc, e.get(), row)?;
            Ok(negate(&a))
        }
        Expr::Binary { op, left, right } => {
            let a = value_in(alloc, left.get(), row)?;
            let b = value_in(alloc, right.get(), row)?;
            Ok(apply(*op, &a, &b))
        }
        Expr::Not(e) => {
            let a = value_in(alloc, e.get(), row)?;
            Ok(Value::of_truth(not3(a.truth())))
        }
        Expr::IsNull(e) => {
            let a = value_in(alloc, e.get(), row)?;
            Ok(Value::Bool(a.is_null()))
        }
    }
}

/// The value that the expression means over the row, of the type that it has there. It is well formed over types that
/// the row has.
pub fn eval(alloc: Global, expr: &Expr, row: &Row) -> Result<Value, NoMemory>
    requires { IsWellFormed expr.now row.now }
    ensures value { IfOk result (λ v. v ≡ meaning_of expr.now row.now) }
    ensures typed { IfOk result (IsWellTyped expr.now row.now) }
{
    value_in(alloc, expr, row)
}
