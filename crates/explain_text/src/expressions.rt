//! The printed text of expressions.
ghost use Rattle.std.specs.Prelude.{◌≡◌, ◌++◌, OnOk, codes, string_bytes};
ghost use Rattle.explain_text.specs.Expressions as spec;

use cal_expr::Expr;
use cal_value::{NoMemory, Op};
use script_text::{push_counted, push_text, push_value};

pub(crate) fn push_column(out: &mut String, at: u32) -> Result<(), NoMemory>
    ensures { OnOk result (string_bytes out.new ≡ string_bytes out.old ++ spec.column_text at) }
{
    push_counted(out, "$", at as u128)
}

fn op_text(op: Op) -> &'static str
    ensures { result.now ≡ spec.op_text op }
{
    match op {
        Op::Add => "+",
        Op::Subtract => "-",
        Op::Multiply => "*",
        Op::Divide => "/",
        Op::Equal => "=",
        Op::NotEqual => "<>",
        Op::Less => "<",
        Op::LessEqual => "<=",
        Op::Greater => ">",
        Op::GreaterEqual => ">=",
        Op::And => "AND",
        Op::Or => "OR",
    }
}

// An operator with a space on each side.
fn push_op(out: &mut String, op: Op) -> Result<(), NoMemory>
    ensures { OnOk result (string_bytes out.new ≡ string_bytes out.old ++ (codes " " ++ spec.op_text op ++ codes " ")) }
{
    out.push_str(" ")?;
    out.push_str(op_text(op))?;
    push_text(out, " ")
}

fn is_simple(expr: &Expr) -> bool
    ensures { result ≡ (spec.printed expr.now).is_simple }
{
    match expr {
        Expr::Column(_) | Expr::Literal(_) => true,
        Expr::Negate(_) | Expr::Binary { .. } | Expr::Not(_) | Expr::IsNull(_) => false,
    }
}

// In brackets where it is neither a column nor a literal.
#[cycle(expressions)]
fn push_operand(out: &mut String, expr: &Expr) -> Result<(), NoMemory>
    ensures { OnOk result (string_bytes out.new ≡ string_bytes out.old ++ spec.operand_text (spec.printed expr.now)) }
{
    if is_simple(expr) {
        push_expression(out, expr)
    } else {
        out.push_str("(")?;
        push_expression(out, expr)?;
        push_text(out, ")")
    }
}

/// Adds an expression: columns as `$k`, and an operand in brackets where it is neither a column nor a literal.
#[cycle(expressions)]
pub(crate) fn push_expression(out: &mut String, expr: &Expr) -> Result<(), NoMemory>
    ensures { OnOk result (string_bytes out.new ≡ string_bytes out.old ++ spec.expression_text expr.now) }
{
    match expr {
        Expr::Column(at) => push_column(out, *at),
        Expr::Literal(value) => push_value(out, value),
        Expr::Negate(operand) => {
            out.push_str("- ")?;
            push_operand(out, operand.get())
        }
        Expr::Binary { op, left, right } => {
            push_operand(out, left.get())?;
            push_op(out, *op)?;
            push_operand(out, right.get())
        }
        Expr::Not(operand) => {
            out.push_str("NOT ")?;
            push_operand(out, operand.get())
        }
        Expr::IsNull(operand) => {
            push_operand(out, operand.get())?;
            push_text(out, " IS NULL")
        }
    }
}
