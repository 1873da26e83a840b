//! Names, and lists with commas.
ghost use Rattle.std.specs.Prelude.{◌≡◌};
ghost use Rattle.sql_expressions.specs.Input.{Reader, Reads};
ghost use Rattle.sql_parser.specs.ReadingList as spec;

use cal_value::{List, SqlText};
use sql_expressions::{Cursor, ParseFault};
use sql_text::{Reserved, Symbol};
use sql_tree::{TableName, UsingName};
use std::alloc::Global;

/// A part of a statement that stands in lists.
pub trait Parse: Drop {
    ghost reads: { Reader Self };

    /// The part that begins with the next token.
    fn parse(alloc: Global, cursor: &mut Cursor<'_>) -> Result<Self, ParseFault>
        ensures { Reads (reads cursor.old) result cursor.new };
}

/// A name of USING.
impl Parse for UsingName {
    ghost reads = { spec.using_name };

    #[tactic(auto, unfolding(crate::specs::ReadingList::using_name))]
    fn parse(alloc: Global, cursor: &mut Cursor<'_>) -> Result<UsingName, ParseFault> {
        let place = cursor.place();
        let name = cursor.name(alloc)?;
        Ok(UsingName { place, name })
    }
}

/// One part, or several with commas between.
#[tactic(auto, unfolding(crate::specs::ReadingList::separated, crate::specs::ReadingList::separated_from))]
pub fn separated<P: Parse>(alloc: Global, cursor: &mut Cursor<'_>) -> Result<List<P>, ParseFault>
    ensures { Reads (spec.separated P.reads cursor.old) result cursor.new }
{
    let mut found = List::new(alloc);
    found.push(P::parse(alloc, cursor)?)?;
    for _turn in 0..cursor.count() {
        if !cursor.eat_symbol(Symbol::Comma) {
            return Ok(found);
        }
        found.push(P::parse(alloc, cursor)?)?;
    }
    Ok(found)
}

/// A table or a lattice, with its schema where that is written.
#[tactic(auto, unfolding(crate::specs::ReadingList::table))]
pub fn table(alloc: Global, cursor: &mut Cursor<'_>) -> Result<TableName, ParseFault>
    ensures { Reads (spec.table cursor.old) result cursor.new }
{
    let first = cursor.name(alloc)?;
    if !cursor.eat_symbol(Symbol::Dot) {
        return Ok(TableName {
            schema: None,
            name: first,
        });
    }
    let name = cursor.name(alloc)?;
    Ok(TableName {
        schema: Some(first),
        name,
    })
}

/// An alias, if one is written.
#[tactic(auto, unfolding(crate::specs::ReadingList::alias))]
pub fn alias(alloc: Global, cursor: &mut Cursor<'_>) -> Result<Option<SqlText>, ParseFault>
    ensures { Reads (spec.alias cursor.old) result cursor.new }
{
    let is_as = cursor.eat_word(Reserved::As);
    if is_as || cursor.sees_name() {
        Ok(Some(cursor.name(alloc)?))
    } else {
        Ok(None)
    }
}
