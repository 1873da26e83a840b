//! Expressions and plans, from short texts.
//!
//! A tree stands with its inputs before its nodes, each as one sign. Signs of expressions: a digit is a column, `i` the number 7, `m` the
//! number -3, `q` a text with a quote in it, `n` NULL, `t` TRUE, `f` FALSE, `~` a negation, `^` NOT, `?` IS NULL, and all others are
//! operators.
use cal_expr::Expr;
use cal_schema::{AdapterKind, Schema, TableDef};
use cal_value::{List, NoMemory, Op, SqlText, Value};
use std::alloc::Global;
use std::test::Fail;

fn operand(parts: &mut List<Expr>) -> Expr {
    match parts.pop() {
        Some(part) => part,
        None => Expr::Literal(Value::Null),
    }
}

fn op_of(sign: u8) -> Op {
    match sign {
        b'+' => Op::Add,
        b'-' => Op::Subtract,
        b'*' => Op::Multiply,
        b'/' => Op::Divide,
        b'=' => Op::Equal,
        b'!' => Op::NotEqual,
        b'<' => Op::Less,
        b'l' => Op::LessEqual,
        b'>' => Op::Greater,
        b'g' => Op::GreaterEqual,
        b'&' => Op::And,
        _ => Op::Or,
    }
}

fn binary(alloc: Global, parts: &mut List<Expr>, sign: u8) -> Result<Expr, NoMemory> {
    let right = operand(parts);
    let left = operand(parts);
    Expr::binary(alloc, op_of(sign), left, right)
}

fn with_quote(alloc: Global) -> Result<Expr, NoMemory> {
    match SqlText::of(alloc, "it's") {
        Ok(text) => Ok(Expr::Literal(Value::Text(text))),
        Err(_) => Err(NoMemory),
    }
}

fn part(alloc: Global, parts: &mut List<Expr>, sign: u8) -> Result<Expr, NoMemory> {
    match sign {
        b'0'..=b'9' => Ok(Expr::Column(sign.saturating_sub(b'0') as u32)),
        b'i' => Ok(Expr::Literal(Value::Int(7))),
        b'm' => Ok(Expr::Literal(Value::Int(-3))),
        b'q' => with_quote(alloc),
        b'n' => Ok(Expr::Literal(Value::Null)),
        b't' => Ok(Expr::Literal(Value::Bool(true))),
        b'f' => Ok(Expr::Literal(Value::Bool(false))),
        b'~' => Expr::negate(alloc, operand(parts)),
        b'^' => Expr::not(alloc, operand(parts)),
        b'?' => Expr::is_null(alloc, operand(parts)),
        _ => binary(alloc, parts, sign),
    }
}

pub(crate) fn expression(alloc: Global, text: &str) -> Result<Expr, NoMemory> {
    let mut parts = List::new(alloc);
    for sign in text.as_bytes() {
        let part = part(alloc, &mut parts, *sign)?;
        parts.push(part)?;
    }
    Ok(operand(&mut parts))
}

/// The expressions, with a blank between two texts.
pub(crate) fn expressions(alloc: Global, texts: &[&str]) -> Result<List<Expr>, NoMemory> {
    let mut items = List::new(alloc);
    for text in texts {
        items.push(expression(alloc, *text)?)?;
    }
    Ok(items)
}

// ---- tables

fn table(alloc: Global, schema: &str, name: &str) -> Result<TableDef, Fail> {
    Ok(TableDef {
        schema: SqlText::of(alloc, schema)?,
        name: SqlText::of(alloc, name)?,
        columns: List::new(alloc),
        adapter: AdapterKind::Mem,
        file: SqlText::of(alloc, "")?,
        max_rows: 10,
        primary_key: List::new(alloc),
    })
}

/// The tables T of the schema S, and `a"b` of the schema `sales`.
pub(crate) fn schema(alloc: Global) -> Result<Schema, Fail> {
    let mut tables = List::new(alloc);
    tables.push(table(alloc, "S", "T")?)?;
    tables.push(table(alloc, "sales", "a\"b")?)?;
    Ok(Schema {
        default_schema: None,
        tables,
    })
}
