//! The reserved words and their letters.
ghost use Rattle.std.specs.Prelude.{◌≡◌};
ghost use Rattle.std.specs.Str.{bytes_eq};
ghost use Rattle.sql_text.specs.Spelling as spelling;
ghost use Rattle.sql_text.specs.Spelling.{reserved_of};

use crate::token::{Reserved, Symbol};

const RESERVED: [Reserved; 55] = [
    Reserved::Select,
    Reserved::Distinct,
    Reserved::From,
    Reserved::Where,
    Reserved::Group,
    Reserved::By,
    Reserved::Having,
    Reserved::Order,
    Reserved::Asc,
    Reserved::Desc,
    Reserved::Nulls,
    Reserved::First,
    Reserved::Last,
    Reserved::As,
    Reserved::On,
    Reserved::Using,
    Reserved::Join,
    Reserved::Inner,
    Reserved::Left,
    Reserved::Outer,
    Reserved::Cross,
    Reserved::And,
    Reserved::Or,
    Reserved::Not,
    Reserved::Is,
    Reserved::Null,
    Reserved::True,
    Reserved::False,
    Reserved::Count,
    Reserved::Sum,
    Reserved::Min,
    Reserved::Max,
    Reserved::Insert,
    Reserved::Into,
    Reserved::Values,
    Reserved::Explain,
    Reserved::Plan,
    Reserved::Memo,
    Reserved::For,
    Reserved::Refresh,
    Reserved::Table,
    Reserved::Create,
    Reserved::Drop,
    Reserved::Choose,
    Reserved::Tile,
    Reserved::Tiles,
    Reserved::Measures,
    Reserved::Limit,
    Reserved::Offset,
    Reserved::Row,
    Reserved::Rows,
    Reserved::Fetch,
    Reserved::Next,
    Reserved::Only,
    Reserved::Delete,
];

/// The letters of a reserved word.
pub fn letters(word: Reserved) -> &'static [u8]
    ensures { result.now ≡ spelling.letters word }
{
    match word {
        Reserved::Select => b"SELECT",
        Reserved::Distinct => b"DISTINCT",
        Reserved::From => b"FROM",
        Reserved::Where => b"WHERE",
        Reserved::Group => b"GROUP",
        Reserved::By => b"BY",
        Reserved::Having => b"HAVING",
        Reserved::Order => b"ORDER",
        Reserved::Asc => b"ASC",
        Reserved::Desc => b"DESC",
        Reserved::Nulls => b"NULLS",
        Reserved::First => b"FIRST",
        Reserved::Last => b"LAST",
        Reserved::As => b"AS",
        Reserved::On => b"ON",
        Reserved::Using => b"USING",
        Reserved::Join => b"JOIN",
        Reserved::Inner => b"INNER",
        Reserved::Left => b"LEFT",
        Reserved::Outer => b"OUTER",
        Reserved::Cross => b"CROSS",
        Reserved::And => b"AND",
        Reserved::Or => b"OR",
        Reserved::Not => b"NOT",
        Reserved::Is => b"IS",
        Reserved::Null => b"NULL",
        Reserved::True => b"TRUE",
        Reserved::False => b"FALSE",
        Reserved::Count => b"COUNT",
        Reserved::Sum => b"SUM",
        Reserved::Min => b"MIN",
        Reserved::Max => b"MAX",
        Reserved::Insert => b"INSERT",
        Reserved::Into => b"INTO",
        Reserved::Values => b"VALUES",
        Reserved::Explain => b"EXPLAIN",
        Reserved::Plan => b"PLAN",
        Reserved::Memo => b"MEMO",
        Reserved::For => b"FOR",
        Reserved::Refresh => b"REFRESH",
        Reserved::Table => b"TABLE",
        Reserved::Create => b"CREATE",
        Reserved::Drop => b"DROP",
        Reserved::Choose => b"CHOOSE",
        Reserved::Tile => b"TILE",
        Reserved::Tiles => b"TILES",
        Reserved::Measures => b"MEASURES",
        Reserved::Limit => b"LIMIT",
        Reserved::Offset => b"OFFSET",
        Reserved::Row => b"ROW",
        Reserved::Rows => b"ROWS",
        Reserved::Fetch => b"FETCH",
        Reserved::Next => b"NEXT",
        Reserved::Only => b"ONLY",
        Reserved::Delete => b"DELETE",
    }
}

/// The characters of a symbol.
pub fn symbol_text(symbol: Symbol) -> &'static [u8]
    ensures { result.now ≡ spelling.symbol_text symbol }
{
    match symbol {
        Symbol::Comma => b",",
        Symbol::Dot => b".",
        Symbol::Open => b"(",
        Symbol::Close => b")",
        Symbol::Star => b"*",
        Symbol::Plus => b"+",
        Symbol::Minus => b"-",
        Symbol::Slash => b"/",
        Symbol::Equal => b"=",
        Symbol::NotEqual => b"<>",
        Symbol::Less => b"<",
        Symbol::LessEqual => b"<=",
        Symbol::Greater => b">",
        Symbol::GreaterEqual => b">=",
        Symbol::Semicolon => b";",
    }
}

fn is_spelled(mut letters: &[u8], mut word: &[char]) -> bool
    ensures { result ≡ bytes_eq letters.entry.now word.entry.now }
{
    while let ([a, more_letters @ ..], [b, more @ ..]) = (letters, word) {
        if char::from(*a) != *b {
            return false;
        }
        letters = more_letters;
        word = more;
    }
    letters.is_empty() && word.is_empty()
}

/// The reserved word of these letters in upper case.
#[tactic(auto, unfolding(crate::specs::Spelling::reserved_of))]
pub fn reserved_word(upper: &[char]) -> Option<Reserved>
    ensures { result ≡ reserved_of upper.now }
{
    RESERVED
        .iter()
        .copied()
        .find(|word| is_spelled(letters(*word), upper))
}
