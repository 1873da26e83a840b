//! Prints statements.
ghost use Rattle.std.specs.Prelude.{◌≡◌, encode_utf8_all, All, IfOk, OnOk};
ghost use Rattle.std.specs.Str.{chars, IsUtf8};
ghost use Rattle.std.specs.String.{string_bytes};
ghost use Rattle.sql_printer.specs.Printing as spec;
ghost use Rattle.sql_text.specs.Tokens.{IsToken, HasTokens};
ghost use Rattle.sql_printer.specs.Writing.{write_all};
ghost use Rattle.sql_printer.specs.Writer.{state};

use crate::print::{Print, in_brackets, listed};
use crate::writer::Writer;
use cal_value::{List, NoMemory, Row, Value, push_characters};
use sql_text::Reserved;
use sql_tree::{Statement, TableName, TileText, Tree};
use std::alloc::Global;

impl Print for List<Value> {
    ghost tokens = { spec.row_tokens };

    fn print(&self, writer: &mut Writer) -> Result<(), NoMemory> {
        in_brackets(writer, self.as_slice())
    }
}

fn measures(writer: &mut Writer, measures: &Option<List<Tree>>) -> Result<(), NoMemory>
    ensures { OnOk result (state writer.new ≡ write_all (state writer.old) (spec.optional spec.measures_tokens measures.now)) }
{
    match measures {
        Some(measures) => {
            writer.word(Reserved::Measures)?;
            in_brackets(writer, measures.as_slice())
        }
        None => Ok(()),
    }
}

impl Print for TileText {
    ghost tokens = { spec.tile_tokens };

    fn print(&self, writer: &mut Writer) -> Result<(), NoMemory> {
        writer.word(Reserved::Tile)?;
        writer.word(Reserved::On)?;
        self.lattice.print(writer)?;
        in_brackets(writer, self.dims.as_slice())?;
        measures(writer, &self.measures)
    }
}

/// EXPLAIN, what is explained, and FOR.
fn explain(writer: &mut Writer, what: Reserved) -> Result<(), NoMemory>
    ensures { OnOk result (state writer.new ≡ write_all (state writer.old) (spec.explain_tokens what)) }
{
    writer.word(Reserved::Explain)?;
    writer.word(what)?;
    writer.word(Reserved::For)
}

fn insert(writer: &mut Writer, table: &TableName, rows: &[Row]) -> Result<(), NoMemory>
    ensures { OnOk result (state writer.new ≡ write_all (state writer.old) (spec.insert_tokens table.now rows.now)) }
{
    writer.word(Reserved::Insert)?;
    writer.word(Reserved::Into)?;
    table.print(writer)?;
    writer.word(Reserved::Values)?;
    listed(writer, rows)
}

fn choose_tiles(writer: &mut Writer, lattice: &TableName, most: u32) -> Result<(), NoMemory>
    ensures { OnOk result (state writer.new ≡ write_all (state writer.old) (spec.choose_tokens lattice.now most)) }
{
    writer.word(Reserved::Choose)?;
    writer.word(Reserved::Tiles)?;
    writer.word(Reserved::On)?;
    lattice.print(writer)?;
    writer.word(Reserved::Limit)?;
    writer.number(u128::from(most))
}

impl Print for Statement {
    ghost tokens = { spec.printed_tokens };

    fn print(&self, writer: &mut Writer) -> Result<(), NoMemory> {
        match self {
            Statement::Select(select) => select.print(writer),
            Statement::ExplainPlan(select) => {
                explain(writer, Reserved::Plan)?;
                select.print(writer)
            }
            Statement::ExplainMemo(select) => {
                explain(writer, Reserved::Memo)?;
                select.print(writer)
            }
            Statement::Insert { table, rows } => insert(writer, table, rows.as_slice()),
            Statement::Refresh { table } => {
                writer.word(Reserved::Refresh)?;
                writer.word(Reserved::Table)?;
                table.print(writer)
            }
            Statement::CreateTile(tile) => {
                writer.word(Reserved::Create)?;
                tile.print(writer)
            }
            Statement::DropTile(tile) => {
                writer.word(Reserved::Drop)?;
                tile.print(writer)
            }
            Statement::ChooseTiles { lattice, limit } => choose_tiles(writer, lattice, *limit),
        }
    }
}

/// The characters in UTF-8.
fn encoded(alloc: Global, characters: &[char]) -> Result<String, NoMemory>
    ensures { IfOk result (λ text. string_bytes text ≡ encode_utf8_all characters.now) }
{
    let mut text = String::new(alloc);
    push_characters(&mut text, characters)?;
    Ok(text)
}

/// A text of the statement in UTF-8, with single blanks.
pub fn print_statement(alloc: Global, statement: &Statement) -> Result<List<u8>, NoMemory>
    ensures utf8 { IfOk result IsUtf8 }
    ensures text { IfOk result (λ bytes. chars bytes ≡ spec.printed statement.now) }

    // Where each name, number and text is one that a token can have, these are the text's tokens.
    ensures tokens { All IsToken (spec.printed_tokens statement.now) → IfOk result (λ bytes. HasTokens (chars bytes) (spec.printed_tokens statement.now)) }
{
    let mut writer = Writer::new(alloc);
    statement.print(&mut writer)?;
    let text = encoded(alloc, writer.as_slice())?;
    Ok(List::from_vec(text.into_bytes()))
}
