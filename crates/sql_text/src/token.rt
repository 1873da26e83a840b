//! The tokens of a text.
ghost use Rattle.std.specs.Prelude.{◌≡◌, IfOk};

use cal_value::{Duplicate, NoMemory, SqlText};
use std::alloc::Global;

/// The reserved words.
#[derive(Clone, Copy, Debug, PartialEq, Eq, Hash)]
pub enum Reserved {
    Select,
    Distinct,
    From,
    Where,
    Group,
    By,
    Having,
    Order,
    Asc,
    Desc,
    Nulls,
    First,
    Last,
    As,
    On,
    Using,
    Join,
    Inner,
    Left,
    Outer,
    Cross,
    And,
    Or,
    Not,
    Is,
    Null,
    True,
    False,
    Count,
    Sum,
    Min,
    Max,
    Insert,
    Into,
    Values,
    Explain,
    Plan,
    Memo,
    For,
    Refresh,
    Table,
    Create,
    Drop,
    Choose,
    Tile,
    Tiles,
    Measures,
    Limit,
    Offset,
    Row,
    Rows,
    Fetch,
    Next,
    Only,
    Delete,
}

/// The symbols `, . ( ) * + - / = <> < <= > >= ;`.
#[derive(Clone, Copy, Debug, PartialEq, Eq, Hash)]
pub enum Symbol {
    Comma,
    Dot,
    Open,
    Close,
    Star,
    Plus,
    Minus,
    Slash,
    Equal,
    NotEqual,
    Less,
    LessEqual,
    Greater,
    GreaterEqual,
    Semicolon,
}

/// A token. An unquoted name is in upper case, a quoted one as written, both without quotes; a name has 1 to 128
/// characters. A number is at most 10^38-1. A text is without its quotes.
#[derive(Debug, Drop)]
pub enum Token {
    Name(SqlText),
    Word(Reserved),
    Number(i128),
    Text(SqlText),
    Symbol(Symbol),
}

impl Duplicate for Token {
    fn copy(&self, alloc: Global) -> Result<Token, NoMemory> {
        match self {
            Token::Name(name) => Ok(Token::Name(name.copy(alloc)?)),
            Token::Word(word) => Ok(Token::Word(*word)),
            Token::Number(number) => Ok(Token::Number(*number)),
            Token::Text(text) => Ok(Token::Text(text.copy(alloc)?)),
            Token::Symbol(symbol) => Ok(Token::Symbol(*symbol)),
        }
    }
}
