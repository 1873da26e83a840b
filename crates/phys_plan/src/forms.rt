//! Forms of expressions that a table's adapter can take over.
ghost use Rattle.std.specs.Prelude.{◌≡◌};
ghost use Rattle.adapters.specs.Scan as scan;
ghost use Rattle.phys_plan.specs.Ways as spec;

use cal_expr::{Expr, Op};
use plan_nodes::{first_place, item_column};

fn is_comparison(op: Op) -> bool
    ensures { result ≡ scan.is_comparison op }
{
    match op {
        Op::Equal | Op::NotEqual => true,
        Op::Less | Op::LessEqual => true,
        Op::Greater | Op::GreaterEqual => true,
        Op::Add | Op::Subtract | Op::Multiply | Op::Divide | Op::And | Op::Or => false,
    }
}

fn is_column(e: &Expr) -> bool
    ensures { result ≡ (spec.form_of e.now).is_column }
{
    match e {
        Expr::Column(_) => true,
        Expr::Literal(_) => false,
        Expr::Negate(_) => false,
        Expr::Binary { .. } => false,
        Expr::Not(_) => false,
        Expr::IsNull(_) => false,
    }
}

fn is_literal(e: &Expr) -> bool
    ensures { result ≡ (spec.form_of e.now).is_literal }
{
    match e {
        Expr::Column(_) => false,
        Expr::Literal(_) => true,
        Expr::Negate(_) => false,
        Expr::Binary { .. } => false,
        Expr::Not(_) => false,
        Expr::IsNull(_) => false,
    }
}

/// Whether it is a column, a comparison and a literal, in this order, or an AND of such. Takes no memory.
pub fn is_tests(predicate: &Expr) -> bool
    ensures { result ≡ spec.is_tests predicate.now }
{
    match predicate {
        Expr::Column(_) => false,
        Expr::Literal(_) => false,
        Expr::Negate(_) => false,
        Expr::Not(_) => false,
        Expr::IsNull(_) => false,
        Expr::Binary { op, left, right } => match op {
            Op::And => is_tests(left.get()) && is_tests(right.get()),
            _ => is_comparison(*op) && is_column(left.get()) && is_literal(right.get()),
        },
    }
}

fn is_new(column: Option<u32>, items: &[Expr]) -> bool
    ensures { result ≡ spec.is_new column items.now }
{
    match column {
        Some(column) => first_place(column, items).is_none(),
        None => false,
    }
}

/// Whether each item is a column, and no two are the same one. Takes no memory.
pub fn are_different(items: &[Expr]) -> bool
    ensures { result ≡ spec.are_different items.now }
{
    match items {
        [] => true,
        [item, items @ ..] => is_new(item_column(item), items) && are_different(items),
    }
}
