//! What the two limits count, and how deep that lets expressions nest.
ghost use Rattle.std.specs.Prelude.{◌≡◌, ◌+◌, ◌<◌, ◌^◌};
ghost use Rattle.sql_expressions.specs.Limits as spec;

use cal_value::{BRACKET_LIMIT, OPERATOR_LIMIT};
use sql_text::{Reserved, Symbol, Token};

/// How deep expressions nest: as many brackets, NOTs and signs as the limits allow, and the expression itself.
pub const NESTING_LIMIT: u32 = BRACKET_LIMIT + OPERATOR_LIMIT + 1;

/// How many brackets are open behind a token, of those before it.
fn opened(before: usize, token: &Token) -> usize
    requires { before + 1 < 2 ^ 64 }
    ensures { result ≡ spec.opened before token.now }
{
    match token {
        Token::Symbol(symbol) => match symbol {
            Symbol::Open => before + 1,
            Symbol::Close => before.saturating_sub(1),
            _ => before,
        },
        _ => before,
    }
}

/// The most brackets that are open at some token.
pub fn most_open(tokens: &[Token]) -> usize
    ensures { result ≡ spec.most_open 0 tokens.now }
{
    let mut open = 0;
    let mut most = 0;
    for token in tokens {
        open = opened(open, token);
        most = open.max(most);
    }
    most
}

fn is_operator_word(word: Reserved) -> bool
    ensures { result ≡ spec.is_operator_word word }
{
    match word {
        Reserved::And | Reserved::Or | Reserved::Not | Reserved::Is => true,
        _ => false,
    }
}

fn is_operator_symbol(symbol: Symbol) -> bool
    ensures { result ≡ spec.is_operator_symbol symbol }
{
    match symbol {
        Symbol::Star
        | Symbol::Plus
        | Symbol::Minus
        | Symbol::Slash
        | Symbol::Equal
        | Symbol::NotEqual
        | Symbol::Less
        | Symbol::LessEqual
        | Symbol::Greater
        | Symbol::GreaterEqual => true,
        _ => false,
    }
}

fn is_operator(token: &Token) -> bool
    ensures { result ≡ spec.is_operator token.now }
{
    match token {
        Token::Word(word) => is_operator_word(*word),
        Token::Symbol(symbol) => is_operator_symbol(*symbol),
        _ => false,
    }
}

/// How many operators there are.
pub fn operators(tokens: &[Token]) -> usize
    ensures { result ≡ spec.operators tokens.now }
{
    tokens.iter().filter(|token| is_operator(token)).count()
}

/// Whether the first token is INSERT.
pub fn is_insert(tokens: &[Token]) -> bool
    ensures { result ≡ spec.is_insert tokens.now }
{
    match tokens {
        [Token::Word(Reserved::Insert), ..] => true,
        _ => false,
    }
}
