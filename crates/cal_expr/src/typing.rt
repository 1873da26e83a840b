//! The types of expressions.
ghost use Rattle.std.specs.Prelude.{◌≡◌, ◌+ℤ◌, ◌-ℤ◌, ◌*ℤ◌};
ghost use Rattle.cal_expr.specs.Typing as spec;
ghost use Rattle.cal_expr.specs.Typing.{type_of};

use crate::expr::Expr;
use cal_value::{Interval, Kind, List, Op, SqlType, Value};

/// The type of a literal: none of NULL and of a number that is none of SQL. Takes no memory.
pub fn literal_type(value: &Value) -> Option<SqlType>
    ensures { result ≡ spec.literal_type value.now }
{
    match value {
        Value::Null => None,
        Value::Bool(_) => Some(SqlType::boolean(false)),
        Value::Int(n) => SqlType::number(false, Interval::Range { lo: *n, hi: *n }),
        Value::Text(_) => Some(SqlType::text(false)),
    }
}

/// The type of a column of this type: none where its numbers are none of SQL. Takes no memory.
pub fn column_type(t: SqlType) -> Option<SqlType>
    ensures { result ≡ spec.column_type t }
{
    if t.kind.is(Kind::Integer) {
        SqlType::number(t.nullable, t.interval)
    } else {
        Some(t)
    }
}

/// The type of the negation of what has this type, where it has one. Takes no memory.
#[tactic(auto, using(crate::proofs::TypingLemmas::typing_rules))]
pub fn negation_type(t: SqlType) -> Option<SqlType>
    ensures { result ≡ spec.negation_type t }
{
    if t.kind.is(Kind::Integer) {
        SqlType::number(t.nullable, t.interval.negation())
    } else {
        None
    }
}

/// The type of NOT of what has this type, where it has one. Takes no memory.
pub fn not_type(t: SqlType) -> Option<SqlType>
    ensures { result ≡ spec.not_type t }
{
    if t.kind.is(Kind::Boolean) {
        Some(SqlType::boolean(t.nullable))
    } else {
        None
    }
}

fn comparison_type(s: SqlType, t: SqlType) -> Option<SqlType>
    ensures { result ≡ spec.comparison_type s t }
{
    if s.kind.is(t.kind) {
        Some(SqlType::boolean(s.nullable || t.nullable))
    } else {
        None
    }
}

fn connective_type(s: SqlType, t: SqlType) -> Option<SqlType>
    ensures { result ≡ spec.connective_type s t }
{
    if s.kind.is(Kind::Boolean) && t.kind.is(Kind::Boolean) {
        Some(SqlType::boolean(s.nullable || t.nullable))
    } else {
        None
    }
}

#[tactic(auto, using(crate::proofs::TypingLemmas::typing_rules))]
fn sum_type(s: SqlType, t: SqlType) -> Option<SqlType>
    ensures { result ≡ spec.arithmetic_type ◌+ℤ◌ s t }
{
    if s.kind.is(Kind::Integer) && t.kind.is(Kind::Integer) {
        SqlType::number(s.nullable || t.nullable, s.interval.sum(t.interval))
    } else {
        None
    }
}

#[tactic(auto, using(crate::proofs::TypingLemmas::typing_rules))]
fn difference_type(s: SqlType, t: SqlType) -> Option<SqlType>
    ensures { result ≡ spec.arithmetic_type ◌-ℤ◌ s t }
{
    if s.kind.is(Kind::Integer) && t.kind.is(Kind::Integer) {
        SqlType::number(s.nullable || t.nullable, s.interval.difference(t.interval))
    } else {
        None
    }
}

#[tactic(auto, using(crate::proofs::TypingLemmas::typing_rules))]
fn product_type(s: SqlType, t: SqlType) -> Option<SqlType>
    ensures { result ≡ spec.arithmetic_type ◌*ℤ◌ s t }
{
    if s.kind.is(Kind::Integer) && t.kind.is(Kind::Integer) {
        SqlType::number(s.nullable || t.nullable, s.interval.product(t.interval))
    } else {
        None
    }
}

#[tactic(auto, using(crate::proofs::TypingLemmas::typing_rules))]
fn quotient_type(s: SqlType, t: SqlType) -> Option<SqlType>
    ensures { result ≡ spec.quotient_type s t }
{
    if s.kind.is(Kind::Integer) && t.kind.is(Kind::Integer) && t.interval.excludes_zero() {
        SqlType::number(s.nullable || t.nullable, s.interval.quotient(t.interval))
    } else {
        None
    }
}

/// The type of the operator over operands of these types, where it has one. Takes no memory.
pub fn op_type(op: Op, s: SqlType, t: SqlType) -> Option<SqlType>
    ensures { result ≡ spec.op_type op s t }
{
    match op {
        Op::Add => sum_type(s, t),
        Op::Subtract => difference_type(s, t),
        Op::Multiply => product_type(s, t),
        Op::Divide => quotient_type(s, t),
        Op::And | Op::Or => connective_type(s, t),
        Op::Equal | Op::NotEqual | Op::Less | Op::LessEqual | Op::Greater | Op::GreaterEqual => {
            comparison_type(s, t)
        }
    }
}

/// The type of the expression over columns of these types: none exactly where it isn't well formed. Takes no memory.
pub fn expr_type(expr: &Expr, columns: &List<SqlType>) -> Option<SqlType>
    ensures { result ≡ type_of expr.now columns.now }
{
    match expr {
        Expr::Column(at) => column_type(*columns.get(*at as usize)?),
        Expr::Literal(value) => literal_type(value),
        Expr::Negate(e) => negation_type(expr_type(e.get(), columns)?),
        Expr::Binary { op, left, right } => {
            let s = expr_type(left.get(), columns)?;
            let t = expr_type(right.get(), columns)?;
            op_type(*op, s, t)
        }
        Expr::Not(e) => not_type(expr_type(e.get(), columns)?),
        Expr::IsNull(e) => {
            expr_type(e.get(), columns)?;
            Some(SqlType::boolean(false))
        }
    }
}
