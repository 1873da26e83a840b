//! The conjuncts of a condition, and the condition that conjuncts make.
ghost use Rattle.std.specs.Prelude.{◌≡◌, [], ◌∷◌, ◌++◌, IfOk};
ghost use Rattle.expr_parts.specs.Conjuncts as spec;

use cal_expr::{Expr, Op};
use cal_value::{List, NoMemory, Value};
use std::alloc::Global;

fn alone(alloc: Global, e: &Expr) -> Result<List<Expr>, NoMemory>
    ensures { IfOk result (λ conjuncts. conjuncts ≡ e.now ∷ []) }
{
    let mut conjuncts = List::new(alloc);
    conjuncts.push(e.copy(alloc)?)?;
    Ok(conjuncts)
}

fn joined(mut conjuncts: List<Expr>, more: List<Expr>) -> Result<List<Expr>, NoMemory>
    ensures { IfOk result (λ all. all ≡ conjuncts ++ more) }
{
    for condition in more.into_vec() {
        conjuncts.push(condition)?;
    }
    Ok(conjuncts)
}

fn of_literal(alloc: Global, e: &Expr, value: &Value) -> Result<List<Expr>, NoMemory>
    requires { e.now ≡ Expr.Literal value.now }
    ensures { IfOk result (λ conjuncts. conjuncts ≡ spec.of_literal value.now) }
{
    match value {
        Value::Bool(true) => Ok(List::new(alloc)),
        Value::Bool(false) => alone(alloc, e),
        Value::Null => alone(alloc, e),
        Value::Int(_) => alone(alloc, e),
        Value::Text(_) => alone(alloc, e),
    }
}

/// The parts of its ANDs from left to right, without the literal TRUE.
#[tactic(auto, using(crate::proofs::PartSteps::split_steps))]
pub fn conjuncts_of(alloc: Global, e: &Expr) -> Result<List<Expr>, NoMemory>
    ensures { IfOk result (λ conjuncts. conjuncts ≡ spec.conjuncts_of e.now) }
{
    match e {
        Expr::Column(_) => alone(alloc, e),
        Expr::Literal(value) => of_literal(alloc, e, value),
        Expr::Negate(_) => alone(alloc, e),
        Expr::Binary { op, left, right } => match op {
            Op::And => {
                let conjuncts = conjuncts_of(alloc, left.get())?;
                let more = conjuncts_of(alloc, right.get())?;
                joined(conjuncts, more)
            }
            Op::Add
            | Op::Subtract
            | Op::Multiply
            | Op::Divide
            | Op::Equal
            | Op::NotEqual
            | Op::Less
            | Op::LessEqual
            | Op::Greater
            | Op::GreaterEqual
            | Op::Or => alone(alloc, e),
        },
        Expr::Not(_) => alone(alloc, e),
        Expr::IsNull(_) => alone(alloc, e),
    }
}

/// Their AND, grouped to the left, and TRUE where there is none.
#[tactic(auto, using(crate::proofs::PartSteps::conjunction_steps))]
pub fn conjunction(alloc: Global, conjuncts: List<Expr>) -> Result<Expr, NoMemory>
    ensures { IfOk result (λ made. made ≡ spec.conjunction conjuncts) }
{
    let mut conjuncts = conjuncts.into_vec().into_iter();
    let Some(first) = conjuncts.next() else {
        return Ok(Expr::Literal(Value::Bool(true)));
    };
    let mut made = first;
    for condition in conjuncts {
        made = Expr::binary(alloc, Op::And, made, condition)?;
    }
    Ok(made)
}
