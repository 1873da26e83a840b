//! Writes tokens one after another, with a blank where one is needed.
ghost use Rattle.std.specs.Prelude.{◌≡◌, ◌++◌, [], pos, not, OnOk};
ghost use Rattle.std.specs.Char.{is_ascii_lowercase};
ghost use Rattle.std.specs.List.{list_all};
ghost use Rattle.sql_text.specs.declared.token.Token.TheVariants as token;
ghost use Rattle.sql_text.specs.Tokens as spec;
ghost use Rattle.sql_printer.specs.Writing.{is_plain, is_aggregate, symbol_edge, symbol_touches, is_tight, gap, write};
ghost use Rattle.sql_printer.specs.Writer.{state};

use cal_value::{NoMemory, SqlText};
use itoa::Buffer;
use sql_text::{
    Reserved, Symbol, begins_word, continues_word, letters, reserved_word, symbol_text,
};
use std::alloc::Global;

/// What the text ends with, as far as it decides whether a blank comes next.
#[derive(Clone, Copy, Debug, PartialEq, Eq)]
pub enum Edge {
    /// The start of the text, `(` or `.`.
    Tight,
    /// A name.
    Named,
    /// The word of an aggregate.
    Called,
    /// Anything else.
    Loose,
}

/// A text that is written, and what it ends with.
#[derive(Drop)]
pub struct Writer {
    text: Vec<char>,
    edge: Edge,
}

fn all_continue(rest: &[char]) -> bool
    ensures { result ≡ list_all spec.continues_word rest.now }
{
    rest.iter().all(|c| continues_word(*c))
}

fn is_word(name: &[char]) -> bool
    ensures { result ≡ spec.is_word name.now }
{
    match name {
        [] => false,
        [first, rest @ ..] => begins_word(*first) && all_continue(rest),
    }
}

fn has_no_lowercase(name: &[char]) -> bool
    ensures { result ≡ list_all (λ c. not (is_ascii_lowercase c)) name.now }
{
    name.iter().all(|c| !c.is_ascii_lowercase())
}

/// Whether the name stands without quotes.
fn is_plain(name: &[char]) -> bool
    ensures { result ≡ is_plain name.now }
{
    is_word(name) && has_no_lowercase(name) && reserved_word(name).is_none()
}

fn is_aggregate(word: Reserved) -> bool
    ensures { result ≡ is_aggregate word }
{
    matches!(
        word,
        Reserved::Count | Reserved::Sum | Reserved::Min | Reserved::Max
    )
}

fn is_tight(edge: Edge) -> bool
    ensures { result ≡ is_tight edge }
{
    matches!(edge, Edge::Tight)
}

fn symbol_edge(symbol: Symbol) -> Edge
    ensures { result ≡ symbol_edge symbol }
{
    match symbol {
        Symbol::Open | Symbol::Dot => Edge::Tight,
        _ => Edge::Loose,
    }
}

/// Whether no blank comes before the symbol.
fn symbol_touches(edge: Edge, symbol: Symbol) -> bool
    ensures { result ≡ symbol_touches edge symbol }
{
    match (edge, symbol) {
        (Edge::Tight, _) => true,
        (_, Symbol::Comma | Symbol::Close) => true,
        (Edge::Named, Symbol::Dot) => true,
        (Edge::Called, Symbol::Open) => true,
        _ => false,
    }
}

impl Writer {
    /// The empty text.
    pub fn new(alloc: Global) -> Writer
        ensures { state result ≡ ([], Edge.Tight) }
    {
        Writer {
            text: Vec::new(alloc),
            edge: Edge::Tight,
        }
    }

    fn blank(&mut self, touches: bool) -> Result<(), NoMemory>
        ensures ok { OnOk result (self.new.text.items ≡ self.old.text.items ++ gap touches) }
        ensures edge { self.new.edge ≡ self.old.edge }
    {
        if !touches {
            self.text.push(' ')?;
        }
        Ok(())
    }

    fn plain(&mut self, characters: &[char]) -> Result<(), NoMemory>
        ensures ok { OnOk result (self.new.text.items ≡ self.old.text.items ++ characters.now) }
        ensures edge { self.new.edge ≡ self.old.edge }
    {
        self.text.extend_from_slice(characters)?;
        Ok(())
    }

    fn ascii(&mut self, bytes: &[u8]) -> Result<(), NoMemory>
        ensures ok { OnOk result (self.new.text.items ≡ self.old.text.items ++ bytes.now) }
        ensures edge { self.new.edge ≡ self.old.edge }
    {
        for b in bytes {
            self.text.push(char::from(*b))?;
        }
        Ok(())
    }

    fn quoted(&mut self, quote: char, inside: &[char]) -> Result<(), NoMemory>
        ensures ok { OnOk result (self.new.text.items ≡ self.old.text.items ++ spec.quoted quote inside.now) }
        ensures edge { self.new.edge ≡ self.old.edge }
    {
        self.text.push(quote)?;
        for c in inside {
            if *c == quote {
                self.text.push(quote)?;
            }
            self.text.push(*c)?;
        }
        self.text.push(quote)?;
        Ok(())
    }

    /// A name, in quotes where it needs them.
    pub fn name(&mut self, name: &SqlText) -> Result<(), NoMemory>
        ensures { OnOk result (state self.new ≡ write (state self.old) (token.Name name.now)) }
    {
        self.blank(is_tight(self.edge))?;
        if is_plain(name.as_slice()) {
            self.plain(name.as_slice())?;
        } else {
            self.quoted('"', name.as_slice())?;
        }
        self.edge = Edge::Named;
        Ok(())
    }

    /// A reserved word.
    pub fn word(&mut self, word: Reserved) -> Result<(), NoMemory>
        ensures { OnOk result (state self.new ≡ write (state self.old) (token.Word word)) }
    {
        self.blank(is_tight(self.edge))?;
        self.ascii(letters(word))?;
        self.edge = if is_aggregate(word) {
            Edge::Called
        } else {
            Edge::Loose
        };
        Ok(())
    }

    /// A number.
    pub fn number(&mut self, number: u128) -> Result<(), NoMemory>
        ensures { OnOk result (state self.new ≡ write (state self.old) (token.Number (pos number))) }
    {
        self.blank(is_tight(self.edge))?;
        self.ascii(Buffer::new().format(number).as_bytes())?;
        self.edge = Edge::Loose;
        Ok(())
    }

    /// A text, in quotes.
    pub fn text(&mut self, text: &SqlText) -> Result<(), NoMemory>
        ensures { OnOk result (state self.new ≡ write (state self.old) (token.Text text.now)) }
    {
        self.blank(is_tight(self.edge))?;
        self.quoted('\'', text.as_slice())?;
        self.edge = Edge::Loose;
        Ok(())
    }

    /// A symbol.
    pub fn symbol(&mut self, symbol: Symbol) -> Result<(), NoMemory>
        ensures { OnOk result (state self.new ≡ write (state self.old) (token.Symbol symbol)) }
    {
        self.blank(symbol_touches(self.edge, symbol))?;
        self.ascii(symbol_text(symbol))?;
        self.edge = symbol_edge(symbol);
        Ok(())
    }

    /// The text.
    pub fn as_slice(&self) -> &[char]
        ensures { result.now ≡ (state self.now).0 }
    {
        self.text.as_slice()
    }
}
