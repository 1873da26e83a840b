//! A cursor over tokens.
ghost use Rattle.std.specs.Prelude.{◌≡◌, length, ◌<◌, ◌^◌, IsTrue, IfOk, pos, ◌≤ℤ◌};
ghost use Rattle.sql_expressions.specs.Input as spec;
ghost use Rattle.sql_expressions.specs.Input.{Reads};

use crate::fault::ParseFault;
use cal_value::{Duplicate, SqlText};
use sql_text::{Reserved, Symbol, Token};
use std::alloc::Global;
use std::marker::Model;

/// The tokens that are left.
#[derive(Drop)]
pub struct Cursor<'a> {
    place: u64,
    left: &'a [Token],
}

impl<'a> Model for Cursor<'a> {
    ghost use Rattle.sql_expressions.specs.Input.{Input};

    ghost Value = { Input };

    ghost use Rattle.std.specs.Prelude.{◌+◌, ◌<◌, ◌^◌, length};

    ghost view = { λ c. record { place = c.place; left = c.left.now } };

    ghost invariant = { λ c. c.place + length c.left.now < 2 ^ 64 };
}

impl<'a> Cursor<'a> {
    /// At the first of these tokens.
    pub fn new(tokens: &'a [Token]) -> Cursor<'a>
        ensures { result ≡ record { place = 0; left = tokens.now } }
    {
        Cursor {
            place: 0,
            left: tokens,
        }
    }

    /// The place of the next token.
    pub fn place(&self) -> u64
        ensures { result ≡ self.now.place }
    {
        self.place
    }

    /// How many tokens are left.
    pub fn count(&self) -> usize
        ensures { result ≡ length self.now.left }
    {
        self.left.len()
    }

    /// The tokens that are left.
    pub fn left(&self) -> &'a [Token]
        ensures { result.now ≡ self.now.left }
    {
        self.left
    }

    /// Whether the next token is a name.
    #[tactic(auto, unfolding(crate::specs::Input::sees_name))]
    pub fn sees_name(&self) -> bool
        ensures { result ≡ spec.sees_name self.now }
    {
        matches!(self.left, [Token::Name(_), ..])
    }

    /// Whether the next token is a number.
    #[tactic(auto, unfolding(crate::specs::Input::sees_number))]
    pub fn sees_number(&self) -> bool
        ensures { result ≡ spec.sees_number self.now }
    {
        matches!(self.left, [Token::Number(_), ..])
    }

    /// Whether the next token is this word.
    #[tactic(auto, unfolding(crate::specs::Input::sees_word))]
    pub fn sees_word(&self, word: Reserved) -> bool
        ensures sees { result ≡ spec.sees_word word self.now }
        ensures some { IsTrue result → 0 < length self.now.left }
    {
        match self.left {
            [first, ..] => is_word(first, word),
            [] => false,
        }
    }

    /// Whether the next token is this symbol.
    #[tactic(auto, unfolding(crate::specs::Input::sees_symbol))]
    pub fn sees_symbol(&self, symbol: Symbol) -> bool
        ensures sees { result ≡ spec.sees_symbol symbol self.now }
        ensures some { IsTrue result → 0 < length self.now.left }
    {
        match self.left {
            [first, ..] => is_symbol(first, symbol),
            [] => false,
        }
    }

    /// Goes past the next token.
    #[tactic(auto, unfolding(crate::specs::Input::next))]
    pub fn skip(&mut self)
        requires { 0 < length self.old.left }
        ensures { self.new ≡ spec.next self.old }
    {
        self.place += 1;
        self.left = &self.left[1..];
    }

    /// Goes past the next token, if it is this word.
    #[tactic(auto, unfolding(crate::specs::Input::after_word))]
    pub fn eat_word(&mut self, word: Reserved) -> bool
        ensures found { result ≡ spec.sees_word word self.old }
        ensures after { self.new ≡ spec.after_word word self.old }
    {
        let found = self.sees_word(word);
        if found {
            self.skip();
        }
        found
    }

    /// Goes past the next token, if it is this symbol.
    #[tactic(auto, unfolding(crate::specs::Input::after_symbol))]
    pub fn eat_symbol(&mut self, symbol: Symbol) -> bool
        ensures found { result ≡ spec.sees_symbol symbol self.old }
        ensures after { self.new ≡ spec.after_symbol symbol self.old }
    {
        let found = self.sees_symbol(symbol);
        if found {
            self.skip();
        }
        found
    }

    /// Goes past this word, which has to come next.
    #[tactic(auto, unfolding(crate::specs::Input::expect_word))]
    pub fn expect_word(&mut self, word: Reserved) -> Result<(), ParseFault>
        ensures { Reads (spec.expect_word word self.old) result self.new }
    {
        if !self.sees_word(word) {
            return Err(ParseFault::NotSql);
        }
        self.skip();
        Ok(())
    }

    /// Goes past this symbol, which has to come next.
    #[tactic(auto, unfolding(crate::specs::Input::expect_symbol))]
    pub fn expect_symbol(&mut self, symbol: Symbol) -> Result<(), ParseFault>
        ensures { Reads (spec.expect_symbol symbol self.old) result self.new }
    {
        if !self.sees_symbol(symbol) {
            return Err(ParseFault::NotSql);
        }
        self.skip();
        Ok(())
    }

    /// A name.
    #[tactic(auto, unfolding(crate::specs::Input::name, crate::specs::Input::by_token))]
    pub fn name(&mut self, alloc: Global) -> Result<SqlText, ParseFault>
        ensures { Reads (spec.name self.old) result self.new }
    {
        match self.left {
            [Token::Name(name), ..] => {
                let name = name.copy(alloc)?;
                self.skip();
                Ok(name)
            }
            _ => Err(ParseFault::NotSql),
        }
    }

    /// A number, which is at least 0.
    #[tactic(auto, unfolding(crate::specs::Input::number, crate::specs::Input::by_token))]
    pub fn number(&mut self) -> Result<i128, ParseFault>
        ensures number { Reads (spec.number self.old) result self.new }
        ensures natural { IfOk result (λ n. pos 0 ≤ℤ n) }
    {
        match self.left {
            [Token::Number(number), ..] if *number >= 0 => {
                let number = *number;
                self.skip();
                Ok(number)
            }
            _ => Err(ParseFault::NotSql),
        }
    }
}

#[tactic(auto, unfolding(crate::specs::Input::same_word))]
fn is_word(token: &Token, word: Reserved) -> bool
    ensures { result ≡ spec.is_word word token.now }
{
    match token {
        Token::Word(found) => *found == word,
        _ => false,
    }
}

#[tactic(auto, unfolding(crate::specs::Input::same_symbol))]
fn is_symbol(token: &Token, symbol: Symbol) -> bool
    ensures { result ≡ spec.is_symbol symbol token.now }
{
    match token {
        Token::Symbol(found) => *found == symbol,
        _ => false,
    }
}
