//! Prints the parts of a statement.
ghost use Rattle.std.specs.Prelude.{◌≡◌, option_map, List as ListOf, OnOk};
ghost use Rattle.sql_printer.specs.Printing as spec;
ghost use Rattle.sql_printer.specs.Writing.{write, write_all};
ghost use Rattle.sql_printer.specs.Writer.{state};

use crate::writer::Writer;
use cal_value::{Agg, NoMemory, Op, SqlText, Value};
use sql_text::{Reserved, Symbol};
use sql_tree::{ColumnName, TableName, Tree, UsingName};
use sqlite_items::Boxed;

/// What can be printed.
pub(crate) trait Print {
    ghost use Rattle.sql_text.specs.declared.token.Token.{Token};

    ghost tokens: { Self → ListOf Token };

    fn print(&self, writer: &mut Writer) -> Result<(), NoMemory>
        ensures { OnOk result (state writer.new ≡ write_all (state writer.old) (tokens self.now)) };
}

fn dotted(writer: &mut Writer, front: &Option<SqlText>, name: &SqlText) -> Result<(), NoMemory>
    ensures { OnOk result (state writer.new ≡ write_all (state writer.old) (spec.dotted front.now name.now)) }
{
    if let Some(front) = front {
        writer.name(front)?;
        writer.symbol(Symbol::Dot)?;
    }
    writer.name(name)
}

impl Print for ColumnName {
    ghost tokens = { spec.column_tokens };

    fn print(&self, writer: &mut Writer) -> Result<(), NoMemory> {
        dotted(writer, &self.alias, &self.name)
    }
}

impl Print for TableName {
    ghost tokens = { spec.table_tokens };

    fn print(&self, writer: &mut Writer) -> Result<(), NoMemory> {
        dotted(writer, &self.schema, &self.name)
    }
}

impl Print for UsingName {
    ghost tokens = { spec.using_tokens };

    fn print(&self, writer: &mut Writer) -> Result<(), NoMemory> {
        writer.name(&self.name)
    }
}

/// A whole number, with its sign.
pub(crate) fn integer(writer: &mut Writer, number: i128) -> Result<(), NoMemory>
    ensures { OnOk result (state writer.new ≡ write_all (state writer.old) (spec.integer_tokens number)) }
{
    if number < 0 {
        writer.symbol(Symbol::Minus)?;
    }
    writer.number(number.unsigned_abs())
}

impl Print for Value {
    ghost tokens = { spec.value_tokens };

    fn print(&self, writer: &mut Writer) -> Result<(), NoMemory> {
        match self {
            Value::Null => writer.word(Reserved::Null),
            Value::Bool(true) => writer.word(Reserved::True),
            Value::Bool(false) => writer.word(Reserved::False),
            Value::Int(number) => integer(writer, *number),
            Value::Text(text) => writer.text(text),
        }
    }
}

/// The items with a comma between.
pub(crate) fn listed<T: Print>(writer: &mut Writer, items: &[T]) -> Result<(), NoMemory>
    ensures { OnOk result (state writer.new ≡ write_all (state writer.old) (spec.listed T.tokens items.now)) }
{
    if let [first, rest @ ..] = items {
        first.print(writer)?;
        for item in rest {
            writer.symbol(Symbol::Comma)?;
            item.print(writer)?;
        }
    }
    Ok(())
}

/// The items in brackets, with a comma between.
pub(crate) fn in_brackets<T: Print>(writer: &mut Writer, items: &[T]) -> Result<(), NoMemory>
    ensures { OnOk result (state writer.new ≡ write_all (state writer.old) (spec.in_brackets (spec.listed T.tokens items.now))) }
{
    writer.symbol(Symbol::Open)?;
    listed(writer, items)?;
    writer.symbol(Symbol::Close)
}

// ---- expressions

fn op_level(op: Op) -> u8
    ensures { result ≡ spec.op_level op }
{
    match op {
        Op::Or => 0,
        Op::And => 1,
        Op::Equal | Op::NotEqual | Op::Less | Op::LessEqual | Op::Greater | Op::GreaterEqual => 3,
        Op::Add | Op::Subtract => 4,
        Op::Multiply | Op::Divide => 5,
    }
}

/// The level that a left operand needs: chains group to the left, and a comparison has no chain.
fn left_level(op: Op) -> u8
    ensures { result ≡ spec.left_level op }
{
    let level = op_level(op);
    if level == 3 { 4 } else { level }
}

/// How tightly a node binds: OR 0, AND 1, NOT 2, comparison and IS NULL 3, sum 4, product 5, negation 6, all else 7.
fn level(tree: &Tree) -> u8
    ensures { result ≡ (spec.printed_tree tree.now).0 }
{
    match tree {
        Tree::Binary { op, .. } => op_level(*op),
        Tree::Not { .. } => 2,
        Tree::IsNull { .. } => 3,
        Tree::Negate { .. } => 6,
        Tree::Literal { value, .. } => match value {
            Value::Int(number) if *number < 0 => 6,
            _ => 7,
        },
        Tree::Column { .. } | Tree::Aggregate { .. } => 7,
    }
}

fn operator(writer: &mut Writer, op: Op) -> Result<(), NoMemory>
    ensures { OnOk result (state writer.new ≡ write (state writer.old) (spec.op_token op)) }
{
    match op {
        Op::Or => writer.word(Reserved::Or),
        Op::And => writer.word(Reserved::And),
        Op::Equal => writer.symbol(Symbol::Equal),
        Op::NotEqual => writer.symbol(Symbol::NotEqual),
        Op::Less => writer.symbol(Symbol::Less),
        Op::LessEqual => writer.symbol(Symbol::LessEqual),
        Op::Greater => writer.symbol(Symbol::Greater),
        Op::GreaterEqual => writer.symbol(Symbol::GreaterEqual),
        Op::Add => writer.symbol(Symbol::Plus),
        Op::Subtract => writer.symbol(Symbol::Minus),
        Op::Multiply => writer.symbol(Symbol::Star),
        Op::Divide => writer.symbol(Symbol::Slash),
    }
}

fn aggregate(writer: &mut Writer, agg: Agg) -> Result<(), NoMemory>
    ensures { OnOk result (state writer.new ≡ write (state writer.old) (spec.agg_token agg)) }
{
    match agg {
        Agg::Count => writer.word(Reserved::Count),
        Agg::Sum | Agg::Sum0 => writer.word(Reserved::Sum),
        Agg::Min => writer.word(Reserved::Min),
        Agg::Max => writer.word(Reserved::Max),
    }
}

/// A part of an expression, in brackets where it binds less tightly than `least`.
#[cycle(trees)]
fn operand(writer: &mut Writer, least: u8, tree: &Tree) -> Result<(), NoMemory>
    ensures { OnOk result (state writer.new ≡ write_all (state writer.old) (spec.at_least least (spec.printed_tree tree.now))) }
{
    if level(tree) < least {
        writer.symbol(Symbol::Open)?;
        expression(writer, tree)?;
        writer.symbol(Symbol::Close)
    } else {
        expression(writer, tree)
    }
}

/// `*` where there is no argument.
#[cycle(trees)]
fn argument(writer: &mut Writer, argument: &Option<Boxed<Tree>>) -> Result<(), NoMemory>
    ensures { OnOk result (state writer.new ≡ write_all (state writer.old) (spec.argument_tokens (option_map spec.printed_tree argument.now))) }
{
    match argument {
        Some(tree) => expression(writer, tree.get()),
        None => writer.symbol(Symbol::Star),
    }
}

/// A test for NULL.
#[cycle(trees)]
#[tactic(auto, using(crate::proofs::Writes::write_append))]
fn null_test(writer: &mut Writer, tree: &Tree) -> Result<(), NoMemory>
    ensures { OnOk result (state writer.new ≡ write_all (state writer.old) (spec.null_test_tokens (spec.printed_tree tree.now))) }
{
    operand(writer, 4, tree)?;
    writer.word(Reserved::Is)?;
    writer.word(Reserved::Null)
}

/// An aggregate with its argument.
#[cycle(trees)]
#[tactic(auto, using(crate::proofs::Writes::write_append))]
fn call(writer: &mut Writer, agg: Agg, part: &Option<Boxed<Tree>>) -> Result<(), NoMemory>
    ensures { OnOk result (state writer.new ≡ write_all (state writer.old) (spec.call_tokens agg (option_map spec.printed_tree part.now))) }
{
    aggregate(writer, agg)?;
    writer.symbol(Symbol::Open)?;
    argument(writer, part)?;
    writer.symbol(Symbol::Close)
}

#[cycle(trees)]
pub(crate) fn expression(writer: &mut Writer, tree: &Tree) -> Result<(), NoMemory>
    ensures { OnOk result (state writer.new ≡ write_all (state writer.old) (spec.tree_tokens tree.now)) }
{
    match tree {
        Tree::Column { name, .. } => name.print(writer),
        Tree::Literal { value, .. } => value.print(writer),
        Tree::Negate { operand: part, .. } => {
            writer.symbol(Symbol::Minus)?;
            operand(writer, 6, part.get())
        }
        Tree::Binary {
            op,
            left,
            right,
            ..
        } => {
            operand(writer, left_level(*op), left.get())?;
            operator(writer, *op)?;
            operand(writer, op_level(*op) + 1, right.get())
        }
        Tree::Not { operand: part, .. } => {
            writer.word(Reserved::Not)?;
            operand(writer, 2, part.get())
        }
        Tree::IsNull { operand: part, .. } => null_test(writer, part.get()),
        Tree::Aggregate {
            agg,
            argument: part,
            ..
        } => call(writer, *agg, part),
    }
}

impl Print for Tree {
    ghost tokens = { spec.tree_tokens };

    fn print(&self, writer: &mut Writer) -> Result<(), NoMemory> {
        expression(writer, self)
    }
}
