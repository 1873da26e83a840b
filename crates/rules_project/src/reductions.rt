//! Expressions with their constant parts replaced by their values.
ghost use Rattle.std.specs.Prelude.{◌≡◌, [], All, IfOk, IsSome, IsTrue, map};
ghost use Rattle.cal_expr.specs.Meaning.{meaning_of};
ghost use Rattle.cal_expr.specs.Typing.{type_of};
ghost use Rattle.expr_parts.specs.Columns as parts;
ghost use Rattle.project_images.specs.ReduceExpressions as spec;

use cal_expr::{Expr, eval};
use cal_value::{Duplicate, List, NoMemory, SqlType, Value};
use expr_parts::is_constant;
use std::alloc::Global;

fn literal_or(alloc: Global, e: &Expr, value: Value) -> Result<Expr, NoMemory>
    ensures { IfOk result (λ made. made ≡ spec.literal_or e.now value) }
{
    match value {
        Value::Null => e.copy(alloc),
        Value::Bool(b) => Ok(Expr::Literal(Value::Bool(b))),
        Value::Int(n) => Ok(Expr::Literal(Value::Int(n))),
        Value::Text(text) => Ok(Expr::Literal(Value::Text(text))),
    }
}

fn constant(alloc: Global, e: &Expr, _columns: &List<SqlType>) -> Result<Expr, NoMemory>
    requires constant { IsTrue (parts.is_constant e.now) }
    requires typed { IsSome (type_of e.now _columns.now) }
    ensures { IfOk result (λ made. made ≡ spec.literal_or e.now (meaning_of e.now [])) }
{
    let row = List::new(alloc);
    let value = eval(alloc, e, &row)?;
    literal_or(alloc, e, value)
}

/// The expression with the value of each constant part in its place, where that isn't NULL. It is well formed over columns of these
/// types.
#[tactic(auto, using(crate::proofs::ReducedSteps::reduced_steps))]
pub(crate) fn reduced(alloc: Global, e: &Expr, columns: &List<SqlType>) -> Result<Expr, NoMemory>
    requires { IsSome (type_of e.now columns.now) }
    ensures { IfOk result (λ made. made ≡ spec.reduced e.now) }
{
    if is_constant(e) {
        return constant(alloc, e, columns);
    }
    match e {
        Expr::Column(at) => Ok(Expr::Column(*at)),
        Expr::Literal(value) => Ok(Expr::Literal(value.copy(alloc)?)),
        Expr::Negate(a) => Expr::negate(alloc, reduced(alloc, a.get(), columns)?),
        Expr::Binary { op, left, right } => {
            let left = reduced(alloc, left.get(), columns)?;
            let right = reduced(alloc, right.get(), columns)?;
            Expr::binary(alloc, *op, left, right)
        }
        Expr::Not(a) => Expr::not(alloc, reduced(alloc, a.get(), columns)?),
        Expr::IsNull(a) => Expr::is_null(alloc, reduced(alloc, a.get(), columns)?),
    }
}

/// Each of them reduced.
pub(crate) fn all_reduced(
    alloc: Global,
    items: &List<Expr>,
    columns: &List<SqlType>,
) -> Result<List<Expr>, NoMemory>
    requires { All (λ item. IsSome (type_of item columns.now)) items.now }
    ensures { IfOk result (λ made. made ≡ map spec.reduced items.now) }
{
    let mut made = List::new(alloc);
    for item in items.as_slice() {
        made.push(reduced(alloc, item, columns)?)?;
    }
    Ok(made)
}
