//! SELECT.
ghost use Rattle.std.specs.Prelude.{◌≡◌, ◌<◌, length, IfOk, unwrap_or};
ghost use Rattle.sql_expressions.specs.declared.limits.TheConstants.{NESTING_LIMIT};
ghost use Rattle.sql_expressions.specs.Input.{Reads};
ghost use Rattle.sql_expressions.specs.Reading as reading;
ghost use Rattle.sql_parser.specs.ReadingSelect as spec;

use crate::list::{Parse, alias, separated, table};
use cal_value::{Duplicate, List, NoMemory, SqlText};
use sql_expressions::expression::{column, expression};
use sql_expressions::{Cursor, ParseFault};
use sql_text::{Reserved, Symbol, Token};
use sql_tree::{
    ColumnName, Cond, FromEntry, How, Item, Items, KeyBy, OrderKey, Select, TableName, Tree,
};
use std::alloc::Global;

/// How a further entry of FROM is joined.
#[derive(Clone, Copy)]
pub enum JoinKind {
    Cross,
    Inner,
    Left,
}

impl Parse for Item {
    ghost reads = { spec.item NESTING_LIMIT };

    #[tactic(auto, unfolding(crate::specs::ReadingSelect::item))]
    fn parse(alloc: Global, cursor: &mut Cursor<'_>) -> Result<Item, ParseFault> {
        let tree = expression(alloc, cursor)?;
        let alias = alias(alloc, cursor)?;
        Ok(Item { tree, alias })
    }
}

impl Parse for ColumnName {
    ghost reads = { reading.column };

    fn parse(alloc: Global, cursor: &mut Cursor<'_>) -> Result<ColumnName, ParseFault> {
        column(alloc, cursor)
    }
}

#[tactic(auto, unfolding(crate::specs::ReadingSelect::items))]
fn items(alloc: Global, cursor: &mut Cursor<'_>) -> Result<Items, ParseFault>
    ensures { Reads (spec.items NESTING_LIMIT cursor.old) result cursor.new }
{
    if cursor.eat_symbol(Symbol::Star) {
        return Ok(Items::Star);
    }
    Ok(Items::Listed(separated(alloc, cursor)?))
}

#[tactic(auto, unfolding(crate::specs::ReadingSelect::using))]
fn using(alloc: Global, cursor: &mut Cursor<'_>) -> Result<Cond, ParseFault>
    ensures { Reads (spec.using cursor.old) result cursor.new }
{
    cursor.expect_word(Reserved::Using)?;
    cursor.expect_symbol(Symbol::Open)?;
    let names = separated(alloc, cursor)?;
    cursor.expect_symbol(Symbol::Close)?;
    Ok(Cond::Using(names))
}

#[tactic(auto, unfolding(crate::specs::ReadingSelect::cond))]
fn cond(alloc: Global, cursor: &mut Cursor<'_>) -> Result<Cond, ParseFault>
    ensures { Reads (spec.cond NESTING_LIMIT cursor.old) result cursor.new }
{
    if cursor.eat_word(Reserved::On) {
        Ok(Cond::On(expression(alloc, cursor)?))
    } else {
        using(alloc, cursor)
    }
}

#[tactic(auto, unfolding(crate::specs::ReadingSelect::join_as))]
fn join_as(cursor: &mut Cursor<'_>, kind: JoinKind) -> Result<Option<JoinKind>, ParseFault>
    ensures { Reads (spec.join_as kind cursor.old) result cursor.new }
{
    cursor.expect_word(Reserved::Join)?;
    Ok(Some(kind))
}

#[tactic(auto, unfolding(crate::specs::ReadingSelect::left_join))]
fn left_join(cursor: &mut Cursor<'_>) -> Result<Option<JoinKind>, ParseFault>
    ensures { Reads (spec.left_join cursor.old) result cursor.new }
{
    cursor.eat_word(Reserved::Outer);
    join_as(cursor, JoinKind::Left)
}

fn join_word(cursor: &mut Cursor<'_>, word: Reserved) -> Result<Option<JoinKind>, ParseFault>
    requires { 0 < length cursor.old.left }
    ensures { Reads (spec.join_word word cursor.old) result cursor.new }
{
    match word {
        Reserved::Cross => {
            cursor.skip();
            join_as(cursor, JoinKind::Cross)
        }
        Reserved::Join => join_as(cursor, JoinKind::Inner),
        Reserved::Inner => {
            cursor.skip();
            join_as(cursor, JoinKind::Inner)
        }
        Reserved::Left => {
            cursor.skip();
            left_join(cursor)
        }
        _ => Ok(None),
    }
}

fn join_symbol(cursor: &mut Cursor<'_>, symbol: Symbol) -> Result<Option<JoinKind>, ParseFault>
    requires { 0 < length cursor.old.left }
    ensures { Reads (spec.join_symbol symbol cursor.old) result cursor.new }
{
    match symbol {
        Symbol::Comma => {
            cursor.skip();
            Ok(Some(JoinKind::Cross))
        }
        _ => Ok(None),
    }
}

/// What joins a further entry, if one comes next.
#[tactic(auto, unfolding(crate::specs::ReadingSelect::join_kind))]
fn join_kind(cursor: &mut Cursor<'_>) -> Result<Option<JoinKind>, ParseFault>
    ensures { Reads (spec.join_kind cursor.old) result cursor.new }
{
    let [first, ..] = cursor.left() else {
        return Ok(None);
    };
    match first {
        Token::Word(word) => join_word(cursor, *word),
        Token::Symbol(symbol) => join_symbol(cursor, *symbol),
        _ => Ok(None),
    }
}

fn alias_or_name(
    alloc: Global,
    table: &TableName,
    alias: Option<SqlText>,
) -> Result<SqlText, NoMemory>
    ensures { IfOk result (λ name. name ≡ unwrap_or alias table.now.name) }
{
    match alias {
        Some(alias) => Ok(alias),
        None => table.name.copy(alloc),
    }
}

fn entry_of(
    alloc: Global,
    table: TableName,
    alias: Option<SqlText>,
    how: How,
) -> Result<FromEntry, NoMemory>
    ensures { IfOk result (λ entry. entry ≡ spec.entry_of table alias how) }
{
    let alias = alias_or_name(alloc, &table, alias)?;
    Ok(FromEntry { table, alias, how })
}

#[tactic(auto, unfolding(crate::specs::ReadingSelect::how_by))]
fn how_by(alloc: Global, cursor: &mut Cursor<'_>, kind: JoinKind) -> Result<How, ParseFault>
    ensures { Reads (spec.how_by NESTING_LIMIT kind cursor.old) result cursor.new }
{
    match kind {
        JoinKind::Cross => Ok(How::Cross),
        JoinKind::Inner => Ok(How::Inner(cond(alloc, cursor)?)),
        JoinKind::Left => Ok(How::Left(cond(alloc, cursor)?)),
    }
}

#[tactic(auto, unfolding(crate::specs::ReadingSelect::joined))]
fn joined(alloc: Global, cursor: &mut Cursor<'_>, kind: JoinKind) -> Result<FromEntry, ParseFault>
    ensures { Reads (spec.joined NESTING_LIMIT kind cursor.old) result cursor.new }
{
    let table = table(alloc, cursor)?;
    let alias = alias(alloc, cursor)?;
    let how = how_by(alloc, cursor, kind)?;
    Ok(entry_of(alloc, table, alias, how)?)
}

#[tactic(auto, unfolding(crate::specs::ReadingSelect::first_entry))]
fn first_entry(alloc: Global, cursor: &mut Cursor<'_>) -> Result<FromEntry, ParseFault>
    ensures { Reads (spec.first_entry cursor.old) result cursor.new }
{
    let table = table(alloc, cursor)?;
    let alias = alias(alloc, cursor)?;
    Ok(entry_of(alloc, table, alias, How::First)?)
}

#[tactic(auto, unfolding(crate::specs::ReadingSelect::from, crate::specs::ReadingSelect::joins_from))]
fn from(alloc: Global, cursor: &mut Cursor<'_>) -> Result<List<FromEntry>, ParseFault>
    ensures { Reads (spec.from NESTING_LIMIT cursor.old) result cursor.new }
{
    let mut found = List::new(alloc);
    found.push(first_entry(alloc, cursor)?)?;
    for _turn in 0..cursor.count() {
        let Some(kind) = join_kind(cursor)? else {
            return Ok(found);
        };
        found.push(joined(alloc, cursor, kind)?)?;
    }
    Ok(found)
}

/// The expression behind this word, if it comes next.
#[tactic(auto, unfolding(crate::specs::ReadingSelect::clause))]
fn clause(
    alloc: Global,
    cursor: &mut Cursor<'_>,
    word: Reserved,
) -> Result<Option<Tree>, ParseFault>
    ensures { Reads (spec.clause NESTING_LIMIT word cursor.old) result cursor.new }
{
    if !cursor.eat_word(word) {
        return Ok(None);
    }
    Ok(Some(expression(alloc, cursor)?))
}

#[tactic(auto, unfolding(crate::specs::ReadingSelect::groups))]
fn groups(alloc: Global, cursor: &mut Cursor<'_>) -> Result<List<ColumnName>, ParseFault>
    ensures { Reads (spec.groups cursor.old) result cursor.new }
{
    if !cursor.eat_word(Reserved::Group) {
        return Ok(List::new(alloc));
    }
    cursor.expect_word(Reserved::By)?;
    separated(alloc, cursor)
}

#[tactic(auto, unfolding(crate::specs::ReadingSelect::key_by))]
fn key_by(alloc: Global, cursor: &mut Cursor<'_>) -> Result<KeyBy, ParseFault>
    ensures { Reads (spec.key_by cursor.old) result cursor.new }
{
    if cursor.sees_number() {
        Ok(KeyBy::Place(cursor.number()?))
    } else {
        Ok(KeyBy::Column(column(alloc, cursor)?))
    }
}

/// Whether the order is descending.
#[tactic(auto, unfolding(crate::specs::ReadingSelect::direction))]
fn direction(cursor: &mut Cursor<'_>) -> Result<bool, ParseFault>
    ensures { Reads (spec.direction cursor.old) result cursor.new }
{
    if cursor.eat_word(Reserved::Desc) {
        return Ok(true);
    }
    cursor.eat_word(Reserved::Asc);
    Ok(false)
}

#[tactic(auto, unfolding(crate::specs::ReadingSelect::first_or_last))]
fn first_or_last(cursor: &mut Cursor<'_>) -> Result<bool, ParseFault>
    ensures { Reads (spec.first_or_last cursor.old) result cursor.new }
{
    if cursor.eat_word(Reserved::First) {
        return Ok(true);
    }
    cursor.expect_word(Reserved::Last)?;
    Ok(false)
}

/// Whether NULL comes first. Where nothing is said, it does in descending order.
#[tactic(auto, unfolding(crate::specs::ReadingSelect::nulls))]
fn nulls(cursor: &mut Cursor<'_>, descending: bool) -> Result<bool, ParseFault>
    ensures { Reads (spec.nulls descending cursor.old) result cursor.new }
{
    if cursor.eat_word(Reserved::Nulls) {
        first_or_last(cursor)
    } else {
        Ok(descending)
    }
}

impl Parse for OrderKey {
    ghost reads = { spec.key };

    #[tactic(auto, unfolding(crate::specs::ReadingSelect::key))]
    fn parse(alloc: Global, cursor: &mut Cursor<'_>) -> Result<OrderKey, ParseFault> {
        let place = cursor.place();
        let by = key_by(alloc, cursor)?;
        let descending = direction(cursor)?;
        let nulls_first = nulls(cursor, descending)?;
        Ok(OrderKey {
            place,
            by,
            descending,
            nulls_first,
        })
    }
}

#[tactic(auto, unfolding(crate::specs::ReadingSelect::order))]
fn order(alloc: Global, cursor: &mut Cursor<'_>) -> Result<List<OrderKey>, ParseFault>
    ensures { Reads (spec.order cursor.old) result cursor.new }
{
    if !cursor.eat_word(Reserved::Order) {
        return Ok(List::new(alloc));
    }
    cursor.expect_word(Reserved::By)?;
    separated(alloc, cursor)
}

/// A SELECT, from behind its first word.
#[tactic(auto, unfolding(crate::specs::ReadingSelect::select))]
pub fn select(alloc: Global, cursor: &mut Cursor<'_>) -> Result<Select, ParseFault>
    ensures { Reads (spec.select NESTING_LIMIT cursor.old) result cursor.new }
{
    let distinct = cursor.eat_word(Reserved::Distinct);
    let items = items(alloc, cursor)?;
    cursor.expect_word(Reserved::From)?;
    let from = from(alloc, cursor)?;
    let filter = clause(alloc, cursor, Reserved::Where)?;
    let groups = groups(alloc, cursor)?;
    let having = clause(alloc, cursor, Reserved::Having)?;
    let order = order(alloc, cursor)?;
    Ok(Select {
        distinct,
        items,
        from,
        filter,
        groups,
        having,
        order,
    })
}
