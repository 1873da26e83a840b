//! Statements.
ghost use Rattle.std.specs.Prelude.{◌≡◌, ◌<◌, length};
ghost use Rattle.sql_expressions.specs.declared.limits.TheConstants.{NESTING_LIMIT};
ghost use Rattle.sql_expressions.specs.Input.{Reads};
ghost use Rattle.sql_parser.specs.Grammar as grammar;
ghost use Rattle.sql_parser.specs.ReadingStatement as spec;

use crate::list::{Parse, separated, table};
use crate::select::select;
use cal_value::{Duplicate, List, Value};
use sql_expressions::expression::aggregation;
use sql_expressions::{Cursor, ParseFault};
use sql_text::{Reserved, Symbol, Token};
use sql_tree::{ColumnName, Statement, TileText, Tree};
use std::alloc::Global;

fn literal_word(cursor: &mut Cursor<'_>, word: Reserved) -> Result<Value, ParseFault>
    requires { 0 < length cursor.old.left }
    ensures { Reads (spec.literal_word word cursor.old) result cursor.new }
{
    let value = match word {
        Reserved::True => Value::Bool(true),
        Reserved::False => Value::Bool(false),
        Reserved::Null => Value::Null,
        _ => return Err(ParseFault::NotSql),
    };
    cursor.skip();
    Ok(value)
}

#[tactic(auto, unfolding(crate::specs::ReadingStatement::plain_literal, sql_expressions::specs::Input::by_token))]
fn plain_literal(alloc: Global, cursor: &mut Cursor<'_>) -> Result<Value, ParseFault>
    ensures { Reads (spec.plain_literal cursor.old) result cursor.new }
{
    let [first, ..] = cursor.left() else {
        return Err(ParseFault::NotSql);
    };
    match first {
        Token::Word(word) => literal_word(cursor, *word),
        Token::Number(_) => Ok(Value::Int(cursor.number()?)),
        Token::Text(text) => {
            let value = Value::Text(text.copy(alloc)?);
            cursor.skip();
            Ok(value)
        }
        _ => Err(ParseFault::NotSql),
    }
}

/// A literal of VALUES.
impl Parse for Value {
    ghost reads = { spec.literal };

    #[tactic(auto, unfolding(crate::specs::ReadingStatement::literal))]
    fn parse(alloc: Global, cursor: &mut Cursor<'_>) -> Result<Value, ParseFault> {
        if !cursor.eat_symbol(Symbol::Minus) {
            return plain_literal(alloc, cursor);
        }
        let number = cursor.number()?;
        Ok(Value::Int(-number))
    }
}

/// A row of VALUES.
impl Parse for List<Value> {
    ghost reads = { spec.row };

    #[tactic(auto, unfolding(crate::specs::ReadingStatement::row))]
    fn parse(alloc: Global, cursor: &mut Cursor<'_>) -> Result<List<Value>, ParseFault> {
        cursor.expect_symbol(Symbol::Open)?;
        let values = separated(alloc, cursor)?;
        cursor.expect_symbol(Symbol::Close)?;
        Ok(values)
    }
}

/// From behind INSERT.
#[tactic(auto, unfolding(crate::specs::ReadingStatement::insert))]
fn insert(alloc: Global, cursor: &mut Cursor<'_>) -> Result<Statement, ParseFault>
    ensures { Reads (spec.insert cursor.old) result cursor.new }
{
    cursor.expect_word(Reserved::Into)?;
    let table = table(alloc, cursor)?;
    cursor.expect_word(Reserved::Values)?;
    let rows = separated(alloc, cursor)?;
    Ok(Statement::Insert { table, rows })
}

/// From behind EXPLAIN PLAN.
#[tactic(auto, unfolding(crate::specs::ReadingStatement::explain_plan))]
fn explain_plan(alloc: Global, cursor: &mut Cursor<'_>) -> Result<Statement, ParseFault>
    ensures { Reads (spec.explain_plan NESTING_LIMIT cursor.old) result cursor.new }
{
    cursor.expect_word(Reserved::For)?;
    cursor.expect_word(Reserved::Select)?;
    let query = select(alloc, cursor)?;
    Ok(Statement::ExplainPlan(query))
}

/// From behind EXPLAIN.
#[tactic(auto, unfolding(crate::specs::ReadingStatement::explain_memo))]
fn explain_memo(alloc: Global, cursor: &mut Cursor<'_>) -> Result<Statement, ParseFault>
    ensures { Reads (spec.explain_memo NESTING_LIMIT cursor.old) result cursor.new }
{
    cursor.expect_word(Reserved::Memo)?;
    cursor.expect_word(Reserved::For)?;
    cursor.expect_word(Reserved::Select)?;
    let query = select(alloc, cursor)?;
    Ok(Statement::ExplainMemo(query))
}

#[tactic(auto, unfolding(crate::specs::ReadingStatement::explain))]
fn explain(alloc: Global, cursor: &mut Cursor<'_>) -> Result<Statement, ParseFault>
    ensures { Reads (spec.explain NESTING_LIMIT cursor.old) result cursor.new }
{
    if cursor.eat_word(Reserved::Plan) {
        explain_plan(alloc, cursor)
    } else {
        explain_memo(alloc, cursor)
    }
}

/// From behind REFRESH.
#[tactic(auto, unfolding(crate::specs::ReadingStatement::refresh))]
fn refresh(alloc: Global, cursor: &mut Cursor<'_>) -> Result<Statement, ParseFault>
    ensures { Reads (spec.refresh cursor.old) result cursor.new }
{
    cursor.expect_word(Reserved::Table)?;
    let table = table(alloc, cursor)?;
    Ok(Statement::Refresh { table })
}

/// The dimensions of a tile, from behind the opening bracket.
#[tactic(auto, unfolding(crate::specs::ReadingStatement::dims))]
fn dims(alloc: Global, cursor: &mut Cursor<'_>) -> Result<List<ColumnName>, ParseFault>
    ensures { Reads (spec.dims cursor.old) result cursor.new }
{
    if cursor.eat_symbol(Symbol::Close) {
        return Ok(List::new(alloc));
    }
    let found = separated(alloc, cursor)?;
    cursor.expect_symbol(Symbol::Close)?;
    Ok(found)
}

#[tactic(auto, unfolding(crate::specs::Grammar::is_column))]
fn is_column(tree: &Tree) -> bool
    ensures { result ≡ grammar.is_column tree.now }
{
    match tree {
        Tree::Column { .. } => true,
        _ => false,
    }
}

/// Whether a tree is an aggregate of a column or of all rows.
#[tactic(auto, unfolding(crate::specs::Grammar::of_column))]
fn of_column(tree: &Tree) -> bool
    ensures { result ≡ grammar.of_column tree.now }
{
    match tree {
        Tree::Aggregate { argument, .. } => match argument {
            Some(argument) => is_column(argument.get()),
            None => true,
        },
        _ => false,
    }
}

/// A measure of a tile, which alone stands in lists of trees.
impl Parse for Tree {
    ghost reads = { spec.measure NESTING_LIMIT };

    #[tactic(auto, unfolding(crate::specs::ReadingStatement::measure))]
    fn parse(alloc: Global, cursor: &mut Cursor<'_>) -> Result<Tree, ParseFault> {
        let tree = aggregation(alloc, cursor)?;
        if of_column(&tree) {
            Ok(tree)
        } else {
            Err(ParseFault::NotSql)
        }
    }
}

#[tactic(auto, unfolding(crate::specs::ReadingStatement::measures))]
fn measures(alloc: Global, cursor: &mut Cursor<'_>) -> Result<Option<List<Tree>>, ParseFault>
    ensures { Reads (spec.measures NESTING_LIMIT cursor.old) result cursor.new }
{
    if !cursor.eat_word(Reserved::Measures) {
        return Ok(None);
    }
    cursor.expect_symbol(Symbol::Open)?;
    let listed = separated(alloc, cursor)?;
    cursor.expect_symbol(Symbol::Close)?;
    Ok(Some(listed))
}

/// From behind CREATE or DROP.
#[tactic(auto, unfolding(crate::specs::ReadingStatement::tile))]
fn tile(alloc: Global, cursor: &mut Cursor<'_>) -> Result<TileText, ParseFault>
    ensures { Reads (spec.tile NESTING_LIMIT cursor.old) result cursor.new }
{
    cursor.expect_word(Reserved::Tile)?;
    cursor.expect_word(Reserved::On)?;
    let lattice = table(alloc, cursor)?;
    cursor.expect_symbol(Symbol::Open)?;
    let dims = dims(alloc, cursor)?;
    let measures = measures(alloc, cursor)?;
    Ok(TileText {
        lattice,
        dims,
        measures,
    })
}

/// How many tiles are chosen: 1 to 16.
#[tactic(auto, unfolding(crate::specs::ReadingStatement::limit))]
fn limit(cursor: &mut Cursor<'_>) -> Result<u32, ParseFault>
    ensures { Reads (spec.limit cursor.old) result cursor.new }
{
    let number = cursor.number()?;
    if 1 <= number && number <= 16 {
        Ok(number as u32)
    } else {
        Err(ParseFault::NotSql)
    }
}

/// From behind CHOOSE.
#[tactic(auto, unfolding(crate::specs::ReadingStatement::choose))]
fn choose(alloc: Global, cursor: &mut Cursor<'_>) -> Result<Statement, ParseFault>
    ensures { Reads (spec.choose cursor.old) result cursor.new }
{
    cursor.expect_word(Reserved::Tiles)?;
    cursor.expect_word(Reserved::On)?;
    let lattice = table(alloc, cursor)?;
    cursor.expect_word(Reserved::Limit)?;
    let limit = limit(cursor)?;
    Ok(Statement::ChooseTiles { lattice, limit })
}

fn body_word(
    alloc: Global,
    cursor: &mut Cursor<'_>,
    word: Reserved,
) -> Result<Statement, ParseFault>
    requires { 0 < length cursor.old.left }
    ensures { Reads (spec.body_word NESTING_LIMIT word cursor.old) result cursor.new }
{
    cursor.skip();
    match word {
        Reserved::Select => Ok(Statement::Select(select(alloc, cursor)?)),
        Reserved::Explain => explain(alloc, cursor),
        Reserved::Insert => insert(alloc, cursor),
        Reserved::Refresh => refresh(alloc, cursor),
        Reserved::Create => Ok(Statement::CreateTile(tile(alloc, cursor)?)),
        Reserved::Drop => Ok(Statement::DropTile(tile(alloc, cursor)?)),
        Reserved::Choose => choose(alloc, cursor),
        _ => Err(ParseFault::NotSql),
    }
}

#[tactic(auto, unfolding(crate::specs::ReadingStatement::body, sql_expressions::specs::Input::by_token))]
fn body(alloc: Global, cursor: &mut Cursor<'_>) -> Result<Statement, ParseFault>
    ensures { Reads (spec.body NESTING_LIMIT cursor.old) result cursor.new }
{
    match cursor.left() {
        [Token::Word(word), ..] => body_word(alloc, cursor, *word),
        _ => Err(ParseFault::NotSql),
    }
}

#[tactic(auto, unfolding(crate::specs::ReadingStatement::end))]
fn end(cursor: &mut Cursor<'_>) -> Result<(), ParseFault>
    ensures { Reads (spec.end cursor.old) result cursor.new }
{
    match cursor.left() {
        [] => Ok(()),
        [_, ..] => Err(ParseFault::NotSql),
    }
}

/// The statement that all tokens are, with or without a `;` behind it.
#[tactic(auto, unfolding(crate::specs::ReadingStatement::statement_reader))]
pub fn statement(alloc: Global, cursor: &mut Cursor<'_>) -> Result<Statement, ParseFault>
    ensures { Reads (spec.statement_reader NESTING_LIMIT cursor.old) result cursor.new }
{
    let read = body(alloc, cursor)?;
    cursor.eat_symbol(Symbol::Semicolon);
    end(cursor)?;
    Ok(read)
}
