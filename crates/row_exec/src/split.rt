//! The condition of a join as pairs of columns and the rest.
ghost use Rattle.std.specs.Prelude.{◌≡◌, [], true, List as ListOf, IfOk, IfSome};
ghost use Rattle.cal_value.specs.declared.kind.SqlType.{SqlType as SqlTypeOf};
ghost use Rattle.cal_rel.specs.Typing as typing;
ghost use Rattle.cal_rel.specs.Typing.{is_condition};
ghost use Rattle.row_exec.specs.Split as spec;
ghost use Rattle.row_exec.specs.Split.{IsEquation, IsRest, Splits};

use cal_expr::{Expr, Op};
use cal_rel::pairs_of;
use cal_value::NoMemory;
use exec_ops::JoinOn;
use std::alloc::Global;

fn conjunction(
    alloc: Global,
    first: Option<Expr>,
    second: Option<Expr>,
) -> Result<Option<Expr>, NoMemory>
    ensures { IfOk result (λ both. both ≡ spec.conjunction first second) }
{
    match (first, second) {
        (Some(first), Some(second)) => Ok(Some(Expr::binary(alloc, Op::And, first, second)?)),
        (Some(only), None) => Ok(Some(only)),
        (None, other) => Ok(other),
    }
}

// All of a condition that has no pairs.
#[tactic(auto, using(crate::proofs::SplitLemmas::whole_rests))]
fn whole(alloc: Global, on: &Expr, _width: usize) -> Result<Option<Expr>, NoMemory>
    requires { typing.pairs_of _width on.now ≡ [] }
    ensures { IfOk result (IsRest _width on.now) }
{
    Ok(Some(on.copy(alloc)?))
}

// Nothing where the operands are a column of each side, else the equation.
fn rest_of_equation(alloc: Global, on: &Expr, width: usize) -> Result<Option<Expr>, NoMemory>
    requires { IsEquation on.now }
    ensures { IfOk result (IsRest width on.now) }
{
    let pairs = pairs_of(alloc, on, width)?;
    if pairs.is_empty() {
        whole(alloc, on, width)
    } else {
        Ok(None)
    }
}

// The conjunction of the conjuncts that don't equate a column of each side.
fn rest_of(alloc: Global, on: &Expr, width: usize) -> Result<Option<Expr>, NoMemory>
    ensures { IfOk result (IsRest width on.now) }
{
    match on {
        Expr::Binary { op, left, right } => match op {
            Op::And => {
                let first = rest_of(alloc, left.get(), width)?;
                let second = rest_of(alloc, right.get(), width)?;
                conjunction(alloc, first, second)
            }
            Op::Equal => rest_of_equation(alloc, on, width),
            Op::Add
            | Op::Subtract
            | Op::Multiply
            | Op::Divide
            | Op::NotEqual
            | Op::Less
            | Op::LessEqual
            | Op::Greater
            | Op::GreaterEqual
            | Op::Or => whole(alloc, on, width),
        },
        Expr::Column(_) => whole(alloc, on, width),
        Expr::Literal(_) => whole(alloc, on, width),
        Expr::Negate(_) => whole(alloc, on, width),
        Expr::Not(_) => whole(alloc, on, width),
        Expr::IsNull(_) => whole(alloc, on, width),
    }
}

/// The condition as pairs of columns of left rows, which have so many, and of right rows, and the conjunction of its other
/// conjuncts.
pub(crate) fn split(
    alloc: Global,
    on: &Expr,
    width: usize,
    right_width: u32,
) -> Result<JoinOn, NoMemory>
    ensures pairs { IfOk result (λ split. split.pairs ≡ typing.pairs_of width on.now) }
    ensures same { IfOk result (Splits on.now width) }
    ensures wide { IfOk result (λ split. split.right_width ≡ right_width) }
    ensures typed { IfOk result (λ split. (types : ListOf SqlTypeOf)
        → is_condition on.now types ≡ true
        → IfSome split.rest (λ e. is_condition e types ≡ true)) }
{
    let pairs = pairs_of(alloc, on, width)?;
    let rest = rest_of(alloc, on, width)?;
    Ok(JoinOn {
        pairs,
        rest,
        right_width,
    })
}
