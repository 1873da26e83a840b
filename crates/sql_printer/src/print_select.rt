//! Prints the parts of a SELECT.
ghost use Rattle.std.specs.Prelude.{◌≡◌, ◌∷◌, [], OnOk};
ghost use Rattle.std.specs.List.{flat_map};
ghost use Rattle.std.specs.Str.{bytes_eq};
ghost use Rattle.sql_text.specs.declared.token.Token.TheVariants as token;
ghost use Rattle.sql_printer.specs.Printing as spec;
ghost use Rattle.sql_printer.specs.Writing.{write_all};
ghost use Rattle.sql_printer.specs.Writer.{state};

use crate::print::{Print, expression, in_brackets, integer, listed};
use crate::writer::Writer;
use cal_value::{NoMemory, SqlText};
use sql_text::{Reserved, Symbol};
use sql_tree::{Cond, FromEntry, How, Item, Items, KeyBy, OrderKey, Select, Tree};

/// A word and an expression, where there is one.
fn optional(writer: &mut Writer, word: Reserved, tree: &Option<Tree>) -> Result<(), NoMemory>
    ensures { OnOk result (state writer.new ≡ write_all (state writer.old) (spec.optional (λ t. token.Word word ∷ spec.tree_tokens t) tree.now)) }
{
    match tree {
        Some(tree) => {
            writer.word(word)?;
            expression(writer, tree)
        }
        None => Ok(()),
    }
}

/// Two words and a list, where it isn't empty.
fn clause<T: Print>(
    writer: &mut Writer,
    first: Reserved,
    second: Reserved,
    items: &[T],
) -> Result<(), NoMemory>
    ensures { OnOk result (state writer.new ≡ write_all (state writer.old) (spec.clause (token.Word first ∷ token.Word second ∷ []) T.tokens items.now)) }
{
    if items.is_empty() {
        return Ok(());
    }
    writer.word(first)?;
    writer.word(second)?;
    listed(writer, items)
}

impl Print for Item {
    ghost tokens = { spec.item_tokens };

    fn print(&self, writer: &mut Writer) -> Result<(), NoMemory> {
        expression(writer, &self.tree)?;
        match &self.alias {
            Some(alias) => {
                writer.word(Reserved::As)?;
                writer.name(alias)
            }
            None => Ok(()),
        }
    }
}

impl Print for Items {
    ghost tokens = { spec.items_tokens };

    fn print(&self, writer: &mut Writer) -> Result<(), NoMemory> {
        match self {
            Items::Star => writer.symbol(Symbol::Star),
            Items::Listed(items) => listed(writer, items.as_slice()),
        }
    }
}

impl Print for Cond {
    ghost tokens = { spec.cond_tokens };

    fn print(&self, writer: &mut Writer) -> Result<(), NoMemory> {
        match self {
            Cond::On(tree) => {
                writer.word(Reserved::On)?;
                expression(writer, tree)
            }
            Cond::Using(names) => {
                writer.word(Reserved::Using)?;
                in_brackets(writer, names.as_slice())
            }
        }
    }
}

/// What comes before a table.
fn join(writer: &mut Writer, how: &How) -> Result<(), NoMemory>
    ensures { OnOk result (state writer.new ≡ write_all (state writer.old) (spec.join_tokens how.now)) }
{
    match how {
        How::First => Ok(()),
        How::Cross => {
            writer.word(Reserved::Cross)?;
            writer.word(Reserved::Join)
        }
        How::Inner(_) => writer.word(Reserved::Join),
        How::Left(_) => {
            writer.word(Reserved::Left)?;
            writer.word(Reserved::Join)
        }
    }
}

/// What comes behind a table.
fn condition(writer: &mut Writer, how: &How) -> Result<(), NoMemory>
    ensures { OnOk result (state writer.new ≡ write_all (state writer.old) (spec.how_tokens how.now)) }
{
    match how {
        How::First | How::Cross => Ok(()),
        How::Inner(cond) | How::Left(cond) => cond.print(writer),
    }
}

fn same_text(a: &SqlText, b: &SqlText) -> bool
    ensures { result ≡ bytes_eq a.now b.now }
{
    a == b
}

/// The alias, where it isn't the table's name.
fn alias(writer: &mut Writer, name: &SqlText, alias: &SqlText) -> Result<(), NoMemory>
    ensures { OnOk result (state writer.new ≡ write_all (state writer.old) (spec.alias_tokens name.now alias.now)) }
{
    if same_text(alias, name) {
        return Ok(());
    }
    writer.word(Reserved::As)?;
    writer.name(alias)
}

impl Print for FromEntry {
    ghost tokens = { spec.entry_tokens };

    fn print(&self, writer: &mut Writer) -> Result<(), NoMemory> {
        join(writer, &self.how)?;
        self.table.print(writer)?;
        alias(writer, &self.table.name, &self.alias)?;
        condition(writer, &self.how)
    }
}

fn entries(writer: &mut Writer, from: &[FromEntry]) -> Result<(), NoMemory>
    ensures { OnOk result (state writer.new ≡ write_all (state writer.old) (flat_map spec.entry_tokens from.now)) }
{
    for entry in from {
        entry.print(writer)?;
    }
    Ok(())
}

impl Print for KeyBy {
    ghost tokens = { spec.by_tokens };

    fn print(&self, writer: &mut Writer) -> Result<(), NoMemory> {
        match self {
            KeyBy::Place(number) => integer(writer, *number),
            KeyBy::Column(column) => column.print(writer),
        }
    }
}

/// A word, where it is wanted.
fn word_if(writer: &mut Writer, word: Reserved, wanted: bool) -> Result<(), NoMemory>
    ensures { OnOk result (state writer.new ≡ write_all (state writer.old) (spec.word_if word wanted)) }
{
    if wanted { writer.word(word) } else { Ok(()) }
}

/// Where NULL comes, where it isn't the direction's own place.
fn nulls(writer: &mut Writer, descending: bool, first: bool) -> Result<(), NoMemory>
    ensures { OnOk result (state writer.new ≡ write_all (state writer.old) (spec.nulls_tokens descending first)) }
{
    if descending == first {
        return Ok(());
    }
    writer.word(Reserved::Nulls)?;
    if first {
        writer.word(Reserved::First)
    } else {
        writer.word(Reserved::Last)
    }
}

impl Print for OrderKey {
    ghost tokens = { spec.key_tokens };

    fn print(&self, writer: &mut Writer) -> Result<(), NoMemory> {
        self.by.print(writer)?;
        word_if(writer, Reserved::Desc, self.descending)?;
        nulls(writer, self.descending, self.nulls_first)
    }
}

/// WHERE and what follows it.
fn tail(writer: &mut Writer, select: &Select) -> Result<(), NoMemory>
    ensures { OnOk result (state writer.new ≡ write_all (state writer.old) (spec.tail_tokens select.now)) }
{
    optional(writer, Reserved::Where, &select.filter)?;
    clause(
        writer,
        Reserved::Group,
        Reserved::By,
        select.groups.as_slice(),
    )?;
    optional(writer, Reserved::Having, &select.having)?;
    clause(
        writer,
        Reserved::Order,
        Reserved::By,
        select.order.as_slice(),
    )
}

impl Print for Select {
    ghost tokens = { spec.select_tokens };

    fn print(&self, writer: &mut Writer) -> Result<(), NoMemory> {
        writer.word(Reserved::Select)?;
        word_if(writer, Reserved::Distinct, self.distinct)?;
        self.items.print(writer)?;
        writer.word(Reserved::From)?;
        entries(writer, self.from.as_slice())?;
        tail(writer, self)
    }
}
