ghost use Rattle.std.specs.Prelude.{◌≡◌, true, false, map, if◌then◌else◌, codes, MatchOption};
ghost use Rattle.std.specs.Char.{to_ascii_lowercase};
ghost use Rattle.std.specs.Str.{is_utf8};
ghost use Rattle.cal_value.specs.declared.interval.Interval.TheVariants.{Range};
ghost use Rattle.cal_value.specs.declared.value.Value.TheVariants.{Null, Bool as BoolValue};
ghost use Rattle.csv_tables.specs.declared.fault.CsvCause.TheVariants.{BadBoolean, NullValue};
ghost use Rattle.csv_tables.specs.declared.fault.FieldFault.TheVariants.{Bad};
ghost use Rattle.csv_tables.specs.Field as spec;
ghost use Rattle.csv_tables.specs.Parts as parts;

use crate::fault::{CsvCause, FieldFault};
use cal_value::{Interval, Kind, SqlText, SqlType, TextFault, Value};
use std::alloc::Global;

/// The value of a field in a column of this type.
pub(crate) fn field_value(alloc: Global, kind: SqlType, field: &[u8]) -> Result<Value, FieldFault>
    ensures { parts.FieldSays kind field.now result }
{
    let Some(text) = as_text(field) else {
        return Err(FieldFault::Bad(CsvCause::NotUtf8));
    };
    match kind.kind {
        Kind::Text => text_value(alloc, text),
        Kind::Boolean => {
            if text.is_empty() {
                null_value(kind.nullable)
            } else {
                boolean_value(text)
            }
        }
        Kind::Integer => {
            if text.is_empty() {
                null_value(kind.nullable)
            } else {
                integer_value(text, kind.interval)
            }
        }
    }
}

#[tactic(auto, using(crate::proofs::FieldLemmas::is_text, crate::proofs::FieldLemmas::is_no_text))]
pub(crate) fn as_text(field: &[u8]) -> Option<&str>
    ensures { MatchOption result (is_utf8 field.now ≡ false)
        (λ text. (is_utf8 field.now ≡ true) × (text.now ≡ field.now)) }
{
    match str::from_utf8(field) {
        Ok(text) => Some(text),
        Err(_) => None,
    }
}

fn text_value(alloc: Global, text: &str) -> Result<Value, FieldFault>
    ensures { parts.TextSays text.now result }
{
    match SqlText::of(alloc, text) {
        Ok(text) => Ok(Value::Text(text)),
        Err(TextFault::TooLong { .. }) => Err(FieldFault::Bad(CsvCause::TextTooLong)),
        Err(TextFault::NoMemory) => Err(FieldFault::NoMemory),
    }
}

fn null_value(nullable: bool) -> Result<Value, FieldFault>
    ensures { result ≡ (if nullable then Ok Null else Err (Bad NullValue)) }
{
    if nullable {
        Ok(Value::Null)
    } else {
        Err(FieldFault::Bad(CsvCause::NullValue))
    }
}

fn is_word(text: &str, word: &str) -> bool
    requires { map to_ascii_lowercase word.now ≡ word.now }
    ensures { result ≡ spec.is_word text.now word.now }
{
    text.eq_ignore_ascii_case(word)
}

fn boolean_value(text: &str) -> Result<Value, FieldFault>
    ensures { let is_true = spec.is_word text.now (codes "true") in
        result ≡ (if spec.is_boolean text.now then Ok (BoolValue is_true) else Err (Bad BadBoolean)) }
{
    if is_word(text, "true") {
        Ok(Value::Bool(true))
    } else if is_word(text, "false") {
        Ok(Value::Bool(false))
    } else {
        Err(FieldFault::Bad(CsvCause::BadBoolean))
    }
}

fn integer_value(text: &str, interval: Interval) -> Result<Value, FieldFault>
    ensures { result ≡ parts.number_in interval text.now }
{
    match interval {
        Interval::Never => Err(FieldFault::Bad(CsvCause::BadInteger)),
        Interval::Range { lo, hi } => number_between(text, lo, hi),
    }
}

fn number_between(text: &str, lo: i128, hi: i128) -> Result<Value, FieldFault>
    ensures { result ≡ parts.number_in (Range lo hi) text.now }
{
    match text.parse::<i128>() {
        Ok(number) if lo <= number && number <= hi => Ok(Value::Int(number)),
        _ => Err(FieldFault::Bad(CsvCause::BadInteger)),
    }
}
