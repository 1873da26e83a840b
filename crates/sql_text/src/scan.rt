//! Reads the tokens of a text.
ghost use Rattle.std.specs.Prelude.{◌≡◌, ◌≢◌, ◌≤◌, min, true, false, length, slice_index, map, All, List as ListOf, IfOk, IfErr};
ghost use Rattle.std.specs.Char.{is_ascii_digit, to_ascii_uppercase};
ghost use Rattle.std.specs.List.{list_all, prefix_len};
ghost use Rattle.std.specs.Str.{chars};
ghost use Rattle.std.specs.Str.Parse.{digits_value};
ghost use Rattle.cal_value.specs.Interval.{limit};
ghost use Rattle.sql_text.specs.declared.token.Token.{Token as TokenOf};
ghost use Rattle.sql_text.specs.Scan.{seen, skipped, word_at, number_at, unquoted, within, name_from, text_from, symbol_of, symbol_from, token_of};
ghost use Rattle.sql_text.specs.Tokens as spec;
ghost use Rattle.sql_text.specs.Tokens.{HasTokens, IsTokenFaultOf, IsToken};

use crate::token::{Symbol, Token};
use crate::words::reserved_word;
use cal_value::{List, NAME_LIMIT, NUMBER_LIMIT, NoMemory, SqlText, TEXT_LIMIT, characters};
use std::alloc::{AllocError, Global};
use thiserror::Error;

/// Why a text has no tokens: at the character `at`, counted from 0, no token begins; or there was no memory.
#[derive(Clone, Copy, Debug, PartialEq, Eq, Error)]
pub enum TokenFault {
    #[error("no token begins at character {at}")]
    NotToken { at: u64 },
    #[error("out of memory")]
    NoMemory,
}

impl From<NoMemory> for TokenFault {
    ghost use Rattle.sql_text.specs.declared.scan.TokenFault.TheVariants.{NoMemory as WantOfMemory};

    ghost from_gives = { λ _ e. e ≡ WantOfMemory };

    fn from(_e: NoMemory) -> TokenFault {
        TokenFault::NoMemory
    }
}

/// A token, and the characters behind it.
type Found<'a> = Option<(Token, &'a [char])>;

fn is_blank(c: char) -> bool
    ensures { result ≡ spec.is_blank c }
{
    matches!(c, ' ' | '\t' | '\r' | '\n')
}

/// Whether a word may begin with this character.
pub fn begins_word(c: char) -> bool
    ensures { result ≡ spec.begins_word c }
{
    c.is_ascii_alphabetic() || c == '_'
}

/// Whether this character may stand in a word behind its first.
pub fn continues_word(c: char) -> bool
    ensures { result ≡ spec.continues_word c }
{
    c.is_ascii_alphanumeric() || c == '_'
}

/// The first character, or NUL at the end.
fn first(rest: &[char]) -> char
    ensures { result ≡ slice_index rest.now 0 }
{
    rest.first().copied().unwrap_or('\0')
}

/// What is left behind white space and comments.
fn skip_space(mut rest: &[char]) -> &[char]
    ensures { result.now ≡ skipped false rest.entry.now }
{
    let mut in_comment = false;
    while let [c, more @ ..] = rest {
        if in_comment {
            in_comment = *c != '\n';
        } else if *c == '-' && first(more) == '-' {
            in_comment = true;
        } else if !is_blank(*c) {
            return rest;
        }
        rest = more;
    }
    rest
}

/// How many characters of a word stand at the front.
fn word_len(rest: &[char]) -> usize
    ensures value { result ≡ prefix_len spec.continues_word rest.now }
    ensures within { result ≤ length rest.now }
{
    rest.iter().take_while(|c| continues_word(**c)).count()
}

/// How many digits stand at the front.
fn digits_len(rest: &[char]) -> usize
    ensures value { result ≡ prefix_len is_ascii_digit rest.now }
    ensures within { result ≤ length rest.now }
{
    rest.iter().take_while(|c| c.is_ascii_digit()).count()
}

fn uppercase(alloc: Global, word: &[char]) -> Result<Vec<char>, AllocError>
    ensures { IfOk result (λ upper. upper.items ≡ map to_ascii_uppercase word.now) }
{
    word.iter().map(|c| c.to_ascii_uppercase()).collect(alloc)
}

/// A word, where one begins here.
#[tactic(auto, unfolding(crate::specs::Scan::word_at))]
fn word(alloc: Global, rest: &[char]) -> Result<Found<'_>, NoMemory>
    ensures { IfOk result (λ found. seen found ≡ word_at rest.now) }
{
    let (word, more) = rest.split_at(word_len(rest));
    if word.len() > NAME_LIMIT as usize {
        return Ok(None);
    }
    let upper = uppercase(alloc, word)?;
    let token = match reserved_word(upper.as_slice()) {
        Some(word) => Token::Word(word),
        None => Token::Name(SqlText::from_characters(upper)),
    };
    Ok(Some((token, more)))
}

/// The value of the digits, or 10^38 where it is greater.
fn value(digits: &[char]) -> u128
    requires { list_all is_ascii_digit digits.now ≡ true }
    ensures { result ≡ min (digits_value 10 digits.now) limit }
{
    let mut value: u128 = 0;
    for c in digits {
        let digit = u128::from(c.to_digit(10).unwrap_or(0));
        value = value
            .saturating_mul(10)
            .saturating_add(digit)
            .min(NUMBER_LIMIT as u128);
    }
    value
}

/// A number, where a digit comes first.
#[tactic(auto, using(crate::proofs::Digits::prefix_passes), unfolding(crate::specs::Scan::number_at))]
fn number(rest: &[char]) -> Found<'_>
    ensures { seen result ≡ number_at rest.now }
{
    let (digits, more) = rest.split_at(digits_len(rest));
    let value = value(digits);
    if value < NUMBER_LIMIT as u128 && !continues_word(first(more)) {
        Some((Token::Number(value as i128), more))
    } else {
        None
    }
}

/// What is inside a quote that was opened, where it has at most `limit` characters, and what follows it.
fn unquoted(
    alloc: Global,
    quote: char,
    limit: u32,
    mut rest: &[char],
) -> Result<Option<(SqlText, &[char])>, NoMemory>
    requires { limit ≤ TEXT_LIMIT }
    ensures { IfOk result (λ found. seen found ≡ within limit (unquoted quote false rest.entry.now)) }
{
    let mut inside = Vec::new(alloc);
    let mut is_second = false;
    while let [c, more @ ..] = rest {
        if *c == quote && !is_second {
            if first(more) != quote {
                return Ok(Some((SqlText::from_characters(inside), more)));
            }
            is_second = true;
        } else {
            if inside.len() == limit as usize {
                return Ok(None);
            }
            inside.push(*c)?;
            is_second = false;
        }
        rest = more;
    }
    Ok(None)
}

fn quoted_name(alloc: Global, rest: &[char]) -> Result<Found<'_>, NoMemory>
    ensures { IfOk result (λ found. seen found ≡ name_from (within NAME_LIMIT (unquoted 34 false rest.now))) }
{
    let Some((name, more)) = unquoted(alloc, '"', NAME_LIMIT, rest)? else {
        return Ok(None);
    };
    if name.as_slice().is_empty() {
        return Ok(None);
    }
    Ok(Some((Token::Name(name), more)))
}

fn quoted_text(alloc: Global, rest: &[char]) -> Result<Found<'_>, NoMemory>
    ensures { IfOk result (λ found. seen found ≡ text_from (within TEXT_LIMIT (unquoted 39 false rest.now))) }
{
    let Some((text, more)) = unquoted(alloc, '\'', TEXT_LIMIT, rest)? else {
        return Ok(None);
    };
    Ok(Some((Token::Text(text), more)))
}

/// The longest symbol of these two characters, and whether it takes both.
#[tactic(auto, unfolding(crate::specs::Scan::symbol_of))]
fn symbol_at(first: char, second: char) -> Option<(Symbol, bool)>
    ensures { result ≡ symbol_of first second }
{
    let symbol = match (first, second) {
        ('<', '>') => (Symbol::NotEqual, true),
        ('<', '=') => (Symbol::LessEqual, true),
        ('>', '=') => (Symbol::GreaterEqual, true),
        ('<', _) => (Symbol::Less, false),
        ('>', _) => (Symbol::Greater, false),
        (',', _) => (Symbol::Comma, false),
        ('.', _) => (Symbol::Dot, false),
        ('(', _) => (Symbol::Open, false),
        (')', _) => (Symbol::Close, false),
        ('*', _) => (Symbol::Star, false),
        ('+', _) => (Symbol::Plus, false),
        ('-', _) => (Symbol::Minus, false),
        ('/', _) => (Symbol::Slash, false),
        ('=', _) => (Symbol::Equal, false),
        (';', _) => (Symbol::Semicolon, false),
        _ => return None,
    };
    Some(symbol)
}

/// The symbol that begins with this character, where one does.
fn symbol(c: char, more: &[char]) -> Found<'_>
    ensures { seen result ≡ symbol_from more.now (symbol_of c (slice_index more.now 0)) }
{
    let (symbol, is_double) = symbol_at(c, first(more))?;
    let behind = match more {
        [_, behind @ ..] if is_double => behind,
        _ => more,
    };
    Some((Token::Symbol(symbol), behind))
}

/// The token at the front, where no white space comes first.
#[tactic(auto, unfolding(crate::specs::Scan::token_of))]
fn token(alloc: Global, rest: &[char]) -> Result<Found<'_>, NoMemory>
    ensures { IfOk result (λ found. seen found ≡ token_of rest.now) }
{
    match rest {
        [] => Ok(None),
        [c, ..] if begins_word(*c) => word(alloc, rest),
        [c, ..] if c.is_ascii_digit() => Ok(number(rest)),
        ['"', inside @ ..] => quoted_name(alloc, inside),
        ['\'', inside @ ..] => quoted_text(alloc, inside),
        [c, more @ ..] => Ok(symbol(*c, more)),
    }
}

fn scan(alloc: Global, all: &[char]) -> Result<List<Token>, TokenFault>
    ensures tokens { IfOk result (HasTokens all.now) }
    ensures fault { IfErr result (IsTokenFaultOf all.now) }
{
    let mut found = List::new(alloc);
    let mut rest = skip_space(all);
    while !rest.is_empty() {
        match token(alloc, rest)? {
            Some((token, more)) => {
                found.push(token)?;
                rest = skip_space(more);
            }
            None => {
                return Err(TokenFault::NotToken {
                    at: (all.len() - rest.len()) as u64,
                });
            }
        }
    }
    Ok(found)
}

/// The tokens of a text.
pub fn tokens(alloc: Global, text: &str) -> Result<List<Token>, TokenFault>
    ensures tokens { IfOk result (HasTokens (chars text.now)) }
    ensures only { IfOk result (λ ts. (us : ListOf TokenOf) → HasTokens (chars text.now) us → us ≡ ts) }
    ensures fault { IfErr result (IsTokenFaultOf (chars text.now)) }
    ensures each { IfOk result (All IsToken) }
    ensures none { IfErr result (λ fault. fault ≢ TokenFault.NoMemory → (ts : ListOf TokenOf) → HasTokens (chars text.now) ts → ⊥) }
{
    let all = characters(alloc, text)?;
    scan(alloc, all.as_slice())
}
