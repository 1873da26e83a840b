//! The printed text of names, values and answers.
ghost use Rattle.std.specs.Prelude.{◌≡◌, [], ◌∷◌, ◌++◌, IfOk, OnOk, string_bytes, encode_utf8_all};
ghost use Rattle.std.specs.List.{list_all};
ghost use Rattle.sql_text.specs.Tokens.{doubled, quoted};
ghost use Rattle.script_text.specs.Values as spec;

use cal_value::{NoMemory, Row, SqlText, Value, push_characters};
use itoa::Buffer;
use std::alloc::Global;

fn is_name_start(character: char) -> bool
    ensures { result ≡ spec.is_name_start character }
{
    ('A' <= character && character <= 'Z') || character == '_'
}

fn is_name_part(character: char) -> bool
    ensures { result ≡ spec.is_name_part character }
{
    is_name_start(character) || ('0' <= character && character <= '9') || character == '$'
}

fn are_name_parts(characters: &[char]) -> bool
    ensures { result ≡ list_all spec.is_name_part characters.now }
{
    characters.iter().all(|character| is_name_part(*character))
}

fn prints_plainly(name: &[char]) -> bool
    ensures { result ≡ spec.prints_plainly name.now }
{
    match name {
        [first, rest @ ..] => is_name_start(*first) && are_name_parts(rest),
        [] => false,
    }
}

// A character of a quoted text, twice where it is the quote.
#[tactic(auto, using(crate::proofs::PrintLemmas::encoded_doubled))]
fn push_inside(out: &mut String, quote: char, character: char) -> Result<(), NoMemory>
    ensures { OnOk result (string_bytes out.new ≡ string_bytes out.old ++ encode_utf8_all (doubled quote (character ∷ []))) }
{
    if character == quote {
        out.push(quote)?;
        out.push(quote)?;
    } else {
        out.push(character)?;
    }
    Ok(())
}

#[tactic(auto, using(crate::proofs::PrintLemmas::doubled_more))]
fn push_doubled(out: &mut String, quote: char, text: &[char]) -> Result<(), NoMemory>
    ensures { OnOk result (string_bytes out.new ≡ string_bytes out.old ++ encode_utf8_all (doubled quote text.now)) }
{
    for character in text {
        push_inside(out, quote, *character)?;
    }
    Ok(())
}

#[tactic(auto, using(crate::proofs::PrintLemmas::encoded_quoted))]
fn push_quoted(out: &mut String, quote: char, text: &[char]) -> Result<(), NoMemory>
    ensures { OnOk result (string_bytes out.new ≡ string_bytes out.old ++ encode_utf8_all (quoted quote text.now)) }
{
    out.push(quote)?;
    push_doubled(out, quote, text)?;
    out.push(quote)?;
    Ok(())
}

/// Adds a name: plainly where it is an upper-case letter or `_` and then upper-case letters, digits, `_` and `$`, else in quotes.
pub fn push_name(out: &mut String, name: &SqlText) -> Result<(), NoMemory>
    ensures { OnOk result (string_bytes out.new ≡ string_bytes out.old ++ spec.name_text name.now) }
{
    if prints_plainly(name.as_slice()) {
        push_characters(out, name.as_slice())
    } else {
        push_quoted(out, '"', name.as_slice())
    }
}

pub(crate) fn push_number(out: &mut String, number: i128) -> Result<(), NoMemory>
    ensures { OnOk result (string_bytes out.new ≡ string_bytes out.old ++ spec.number_text number) }
{
    let mut buffer = Buffer::new();
    out.push_str(buffer.format(number))?;
    Ok(())
}

/// Adds a value: NULL, TRUE, FALSE, decimal digits behind `-` where it is negative, or a text in quotes.
pub fn push_value(out: &mut String, value: &Value) -> Result<(), NoMemory>
    ensures { OnOk result (string_bytes out.new ≡ string_bytes out.old ++ spec.value_text value.now) }
{
    match value {
        Value::Null => {
            out.push_str("NULL")?;
            Ok(())
        }
        Value::Bool(true) => {
            out.push_str("TRUE")?;
            Ok(())
        }
        Value::Bool(false) => {
            out.push_str("FALSE")?;
            Ok(())
        }
        Value::Int(number) => push_number(out, *number),
        Value::Text(text) => push_quoted(out, '\'', text.as_slice()),
    }
}

fn push_more_names(out: &mut String, names: &[SqlText]) -> Result<(), NoMemory>
    ensures { OnOk result (string_bytes out.new ≡ string_bytes out.old ++ spec.more spec.name_text names.now) }
{
    for name in names {
        out.push_str(", ")?;
        push_name(out, name)?;
    }
    Ok(())
}

fn push_header(out: &mut String, names: &[SqlText]) -> Result<(), NoMemory>
    ensures { OnOk result (string_bytes out.new ≡ string_bytes out.old ++ spec.line spec.name_text names.now) }
{
    if let [first, rest @ ..] = names {
        push_name(out, first)?;
        push_more_names(out, rest)?;
    }
    out.push_str("\n")?;
    Ok(())
}

fn push_more_values(out: &mut String, values: &[Value]) -> Result<(), NoMemory>
    ensures { OnOk result (string_bytes out.new ≡ string_bytes out.old ++ spec.more spec.value_text values.now) }
{
    for value in values {
        out.push_str(", ")?;
        push_value(out, value)?;
    }
    Ok(())
}

fn push_row(out: &mut String, values: &[Value]) -> Result<(), NoMemory>
    ensures { OnOk result (string_bytes out.new ≡ string_bytes out.old ++ spec.line spec.value_text values.now) }
{
    if let [first, rest @ ..] = values {
        push_value(out, first)?;
        push_more_values(out, rest)?;
    }
    out.push_str("\n")?;
    Ok(())
}

fn push_rows(out: &mut String, rows: &[Row]) -> Result<(), NoMemory>
    ensures { OnOk result (string_bytes out.new ≡ string_bytes out.old ++ spec.rows_text rows.now) }
{
    for row in rows {
        push_row(out, row.as_slice())?;
    }
    Ok(())
}

/// The header and the rows, a line each.
pub fn answer_text(alloc: Global, names: &[SqlText], rows: &[Row]) -> Result<Vec<u8>, NoMemory>
    ensures { IfOk result (λ text. text.items ≡ spec.answer_text names.now rows.now) }
{
    let mut out = String::new(alloc);
    push_header(&mut out, names)?;
    push_rows(&mut out, rows)?;
    Ok(out.into_bytes())
}

/// Adds the name of a table, with its schema before it.
pub fn push_table_name(out: &mut String, schema: &SqlText, name: &SqlText) -> Result<(), NoMemory>
    ensures { OnOk result (string_bytes out.new ≡ string_bytes out.old ++ spec.table_text schema.now name.now) }
{
    push_name(out, schema)?;
    out.push_str(".")?;
    push_name(out, name)
}
