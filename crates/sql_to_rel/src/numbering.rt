ghost use Rattle.std.specs.Prelude.{◌≡◌, ◌<◌, ◌^◌, length, IfOk};
ghost use Rattle.sql_meaning.specs.Scope.{types_in};
ghost use Rattle.sql_to_rel.specs.Numbered.{numbered};

use cal_expr::Expr;
use cal_value::{Duplicate, NoMemory, Value};
use sql_meaning::{Entry, column_at};
use sql_tree::Tree;
use std::alloc::Global;

/// The expression that the tree stands for, over the columns of all entries, whose places fit 32 bits. An aggregate stands for
/// nothing here.
pub fn expression(alloc: Global, tree: &Tree, scope: &[Entry<'_>]) -> Result<Expr, NoMemory>
    requires { length (types_in scope.now) < 2 ^ 32 }
    ensures { IfOk result (λ e. e ≡ numbered scope.now tree.now) }
{
    match tree {
        Tree::Column { name, .. } => Ok(Expr::Column(column_at(scope, name) as u32)),
        Tree::Literal { value, .. } => Ok(Expr::Literal(value.copy(alloc)?)),
        Tree::Negate { operand, .. } => {
            let operand = expression(alloc, operand.get(), scope)?;
            Expr::negate(alloc, operand)
        }
        Tree::Binary {
            op,
            left,
            right,
            ..
        } => {
            let left = expression(alloc, left.get(), scope)?;
            let right = expression(alloc, right.get(), scope)?;
            Expr::binary(alloc, *op, left, right)
        }
        Tree::Not { operand, .. } => {
            let operand = expression(alloc, operand.get(), scope)?;
            Expr::not(alloc, operand)
        }
        Tree::IsNull { operand, .. } => {
            let operand = expression(alloc, operand.get(), scope)?;
            Expr::is_null(alloc, operand)
        }
        Tree::Aggregate { .. } => Ok(Expr::Literal(Value::Null)),
    }
}
