ghost use Rattle.std.specs.Prelude.{◌≡◌, IfOk};
ghost use Rattle.cal_expr.specs.Equal.{op_eq};

use cal_value::{Duplicate, NoMemory, Op, Value};
use sqlite_items::Boxed;
use std::alloc::Global;

/// An expression over the columns of a row. A column is named by its place from 0. A literal is never NULL.
#[derive(Debug, Drop)]
pub enum Expr {
    Column(u32),
    Literal(Value),
    Negate(Boxed<Expr>),
    Binary {
        op: Op,
        left: Boxed<Expr>,
        right: Boxed<Expr>,
    },
    Not(Boxed<Expr>),
    IsNull(Boxed<Expr>),
}

impl Expr {
    /// The operator over two operands.
    pub fn binary(alloc: Global, op: Op, left: Expr, right: Expr) -> Result<Expr, NoMemory>
        ensures { IfOk result (λ e. e ≡ Expr.Binary op left right) }
    {
        Ok(Expr::Binary {
            op,
            left: Boxed::new(alloc, left)?,
            right: Boxed::new(alloc, right)?,
        })
    }

    /// The negated number.
    pub fn negate(alloc: Global, operand: Expr) -> Result<Expr, NoMemory>
        ensures { IfOk result (λ e. e ≡ Expr.Negate operand) }
    {
        Ok(Expr::Negate(Boxed::new(alloc, operand)?))
    }

    /// NOT of the operand.
    pub fn not(alloc: Global, operand: Expr) -> Result<Expr, NoMemory>
        ensures { IfOk result (λ e. e ≡ Expr.Not operand) }
    {
        Ok(Expr::Not(Boxed::new(alloc, operand)?))
    }

    /// Whether the operand is NULL.
    pub fn is_null(alloc: Global, operand: Expr) -> Result<Expr, NoMemory>
        ensures { IfOk result (λ e. e ≡ Expr.IsNull operand) }
    {
        Ok(Expr::IsNull(Boxed::new(alloc, operand)?))
    }

    /// An equal expression.
    pub fn copy(&self, alloc: Global) -> Result<Expr, NoMemory>
        ensures { IfOk result (λ copy. copy ≡ self.now) }
    {
        match self {
            Expr::Column(at) => Ok(Expr::Column(*at)),
            Expr::Literal(value) => Ok(Expr::Literal(value.copy(alloc)?)),
            Expr::Negate(e) => Ok(Expr::Negate(Boxed::new(alloc, e.get().copy(alloc)?)?)),
            Expr::Binary { op, left, right } => Ok(Expr::Binary {
                op: *op,
                left: Boxed::new(alloc, left.get().copy(alloc)?)?,
                right: Boxed::new(alloc, right.get().copy(alloc)?)?,
            }),
            Expr::Not(e) => Ok(Expr::Not(Boxed::new(alloc, e.get().copy(alloc)?)?)),
            Expr::IsNull(e) => Ok(Expr::IsNull(Boxed::new(alloc, e.get().copy(alloc)?)?)),
        }
    }
}

impl Duplicate for Expr {
    fn copy(&self, alloc: Global) -> Result<Expr, NoMemory> {
        Expr::copy(self, alloc)
    }
}

fn is_same_op(op: Op, other: Op) -> bool
    ensures { result ≡ op_eq op other }
{
    op as u8 == other as u8
}

impl PartialEq for Expr {
    ghost use Rattle.std.specs.Cmp.{partial_equiv_from_equiv};
    ghost use Rattle.cal_expr.specs.Equal.{expr_eq};
    ghost use Rattle.cal_expr.specs.EqualLaws.{expr_eq_equiv};

    ghost eq = { expr_eq };

    ghost laws = { partial_equiv_from_equiv expr_eq_equiv };

    fn eq(&self, other: &Expr) -> bool {
        match (self, other) {
            (Expr::Column(x), Expr::Column(y)) => *x == *y,
            (Expr::Literal(x), Expr::Literal(y)) => *x == *y,
            (Expr::Negate(x), Expr::Negate(y)) => *x.get() == *y.get(),
            (
                Expr::Binary { op, left, right },
                Expr::Binary {
                    op: other_op,
                    left: first,
                    right: second,
                },
            ) => is_same_op(*op, *other_op)
                && *left.get() == *first.get()
                && *right.get() == *second.get(),
            (Expr::Not(x), Expr::Not(y)) => *x.get() == *y.get(),
            (Expr::IsNull(x), Expr::IsNull(y)) => *x.get() == *y.get(),
            _ => false,
        }
    }
}

impl Eq for Expr {
    ghost use Rattle.cal_expr.specs.EqualLaws.{expr_eq_equiv};

    ghost laws = { expr_eq_equiv };
}
