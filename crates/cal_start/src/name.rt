ghost use Rattle.std.specs.Prelude.{◌≡◌, IfOk, encode_utf8_all};

use crate::fault::TableName;
use cal_outside::Word;
use cal_value::{Duplicate, NoMemory, SqlText, push_characters};
use std::alloc::Global;

/// The name of a file as a word.
pub(crate) fn file_word(alloc: Global, name: &SqlText) -> Result<Word, NoMemory>
    ensures { IfOk result (λ word. encode_utf8_all word ≡ encode_utf8_all name.now) }
{
    let mut text = String::new(alloc);
    push_characters(&mut text, name.as_slice())?;
    Word::of(alloc, text.as_str())
}

/// The name of a table.
pub(crate) fn table_name(
    alloc: Global,
    schema: &SqlText,
    name: &SqlText,
) -> Result<TableName, NoMemory>
    ensures { IfOk result (λ table. table ≡ record { schema = schema.now; name = name.now }) }
{
    let schema = schema.copy(alloc)?;
    let name = name.copy(alloc)?;
    Ok(TableName { schema, name })
}
