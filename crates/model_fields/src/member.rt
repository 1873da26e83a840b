//! Members of an object, kinds and texts.
ghost use Rattle.std.specs.Prelude.{◌≡◌, ◌≤◌, [], ◌∷◌, length, Ok, IfOk, OnOk};
ghost use Rattle.std.specs.Str.{chars};
ghost use Rattle.serde_json.specs.View.{view, items_view};
ghost use Rattle.model_fields.specs.Reading.{Gives, field, optional};
ghost use Rattle.model_fields.specs.Kinds as spec;

use crate::fault::{ModelCause, ModelFault, at_member, bad};
use cal_value::{NAME_LIMIT, NoMemory, SqlText, TEXT_LIMIT, characters};
use serde_json::Value as Json;
use std::alloc::Global;

/// The value of a member that has to be there.
pub fn required<'a>(alloc: Global, object: &'a Json, key: &str) -> Result<&'a Json, ModelFault>
    ensures { Gives (λ value. view value.now) result (field key.now (λ d. Ok d) (view object.now)) }
{
    match object.get(key) {
        Some(value) => Ok(value),
        None => at_member(alloc, key, Err(bad(alloc, ModelCause::Missing))),
    }
}

/// The items of a list.
pub fn list_of(alloc: Global, value: &Json) -> Result<&[Json], ModelFault>
    ensures { Gives (λ items. items_view items.now) result (spec.a_list (view value.now)) }
{
    match value.as_array() {
        Some(items) => Ok(items.as_slice()),
        None => Err(bad(alloc, ModelCause::WrongKind)),
    }
}

/// The object itself, where it is one.
pub fn object_of(alloc: Global, value: &Json) -> Result<&Json, ModelFault>
    ensures { Gives (λ object. view object.now) result (spec.an_object (view value.now)) }
{
    match value.as_object() {
        Some(_) => Ok(value),
        None => Err(bad(alloc, ModelCause::WrongKind)),
    }
}

/// How many characters a text has.
#[tactic(auto, using(std::proofs::lemmas::Str::chars_from_encodes))]
pub fn character_count(text: &str) -> usize
    ensures { result ≡ length (chars text.now) }
{
    text.chars().count()
}

/// A text of at most so many characters.
pub fn short(alloc: Global, text: &str, limit: usize) -> Result<&str, ModelFault>
    ensures text { Gives (λ text. text.now) result (spec.short limit text.now) }
    ensures short { IfOk result (λ text. length (chars text.now) ≤ limit) }
{
    if limit < character_count(text) {
        Err(bad(alloc, ModelCause::TextTooLong))
    } else {
        Ok(text)
    }
}

fn short_text(alloc: Global, value: &Json, limit: usize) -> Result<&str, ModelFault>
    ensures text { Gives (λ text. text.now) result (spec.short_text limit (view value.now)) }
    ensures short { IfOk result (λ text. length (chars text.now) ≤ limit) }
{
    match value.as_str() {
        Some(text) => short(alloc, text, limit),
        None => Err(bad(alloc, ModelCause::WrongKind)),
    }
}

/// A text of at most 4,000 characters.
pub fn text_of(alloc: Global, value: &Json) -> Result<&str, ModelFault>
    ensures text { Gives (λ text. text.now) result (spec.text (view value.now)) }
    ensures short { IfOk result (λ text. length (chars text.now) ≤ TEXT_LIMIT) }
{
    short_text(alloc, value, TEXT_LIMIT as usize)
}

/// A name of at most 128 characters.
pub fn name_of(alloc: Global, value: &Json) -> Result<&str, ModelFault>
    ensures name { Gives (λ text. text.now) result (spec.name (view value.now)) }
    ensures short { IfOk result (λ text. length (chars text.now) ≤ NAME_LIMIT) }
{
    short_text(alloc, value, NAME_LIMIT as usize)
}

/// That a text is this word.
pub fn word_of(alloc: Global, value: &Json, word: &str) -> Result<(), ModelFault>
    ensures { Gives (λ nothing. nothing) result (spec.word word.now (view value.now)) }
{
    let text = text_of(alloc, value)?;
    if text == word {
        Ok(())
    } else {
        Err(bad(alloc, ModelCause::BadValue))
    }
}

/// That a member is absent or this word.
pub fn word_at(alloc: Global, object: &Json, key: &str, word: &str) -> Result<(), ModelFault>
    ensures { Gives (λ nothing. nothing) result (optional key.now tt (spec.word word.now) (view object.now)) }
{
    match object.get(key) {
        Some(value) => at_member(alloc, key, word_of(alloc, value, word)),
        None => Ok(()),
    }
}

/// A text of at most 4,000 characters.
pub fn sql_text(alloc: Global, text: &str) -> Result<SqlText, NoMemory>
    requires { length (chars text.now) ≤ TEXT_LIMIT }
    ensures { IfOk result (λ t. t ≡ chars text.now) }
{
    let characters = characters(alloc, text)?;
    Ok(SqlText::from_characters(characters))
}
