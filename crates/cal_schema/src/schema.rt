ghost use Rattle.std.specs.Prelude.{◌≡◌, ◌<◌, ◌≤◌, ◌==◌, length, IfSome, option_map};
ghost use Rattle.std.specs.Str.{chars};
ghost use Rattle.std.specs.Cmp.Lexicographic.{pointwise};

use crate::table::TableDef;
use cal_value::{Duplicate, List, NoMemory, SqlText, TABLE_LIMIT};
use std::alloc::Global;

/// Tables, and the schema of the names that are written without one.
#[derive(Debug, Drop)]
pub struct Schema {
    pub default_schema: Option<SqlText>,
    pub tables: List<TableDef>,
}

impl Duplicate for Schema {
    fn copy(&self, alloc: Global) -> Result<Schema, NoMemory> {
        let default_schema = self.default_schema.copy(alloc)?;
        let tables = self.tables.copy(alloc)?;
        Ok(Schema {
            default_schema,
            tables,
        })
    }
}

// Whether the text has exactly these characters.
fn is_spelled(text: &SqlText, name: &str) -> bool
    ensures { result ≡ pointwise ◌==◌ text.now (chars name.now) }
{
    let text = text.as_slice();
    let mut at = 0;
    for c in name.chars() {
        if at >= text.len() {
            return false;
        }
        if text[at] != c {
            return false;
        }
        at += 1;
    }
    at == text.len()
}

impl Schema {
    ghost use Rattle.cal_schema.specs.Lookup.{is_in, is_named, table_named};

    fn is_in(&self, schema: Option<&str>, table: &TableDef) -> bool
        ensures { result ≡ is_in self.now (option_map (λ s. chars s.now) schema.entry) table.now }
    {
        match schema {
            Some(written) => is_spelled(&table.schema, written),
            None => match &self.default_schema {
                Some(default) => table.schema == *default,
                None => false,
            },
        }
    }

    /// The number of the table of this name, in the schema that is written or else in the default schema. Names are
    /// compared as written. None comes exactly where there is no such table. Takes no memory. A valid schema has at most
    /// 64 tables.
    pub fn table(&self, schema: Option<&str>, name: &str) -> Option<u32>
        requires { length self.now.tables ≤ TABLE_LIMIT }
        ensures found { result ≡ table_named self.now
            (option_map (λ s. chars s.now) schema.entry) (chars name.now) }
        ensures within { IfSome result (λ at. at < length self.now.tables) }
    {
        for (at, table) in self.tables.as_slice().iter().enumerate() {
            if is_spelled(&table.name, name) && self.is_in(schema, table) {
                return Some(at as u32);
            }
        }
        None
    }

    fn is_of(&self, schema: &Option<SqlText>, table: &TableDef) -> bool
        ensures { result ≡ is_in self.now schema.now table.now }
    {
        match schema {
            Some(written) => table.schema == *written,
            None => self.is_in(None, table),
        }
    }

    fn place_of(&self, schema: &Option<SqlText>, name: &SqlText) -> Option<usize>
        ensures { result ≡ table_named self.now schema.now name.now }
    {
        self.tables
            .as_slice()
            .iter()
            .position(|table| table.name == *name && self.is_of(schema, table))
    }

    /// The same of names that are texts.
    #[tactic(auto, using(crate::proofs::NameLemmas::place_rules))]
    pub fn table_of(&self, schema: &Option<SqlText>, name: &SqlText) -> Option<u32>
        requires { length self.now.tables ≤ TABLE_LIMIT }
        ensures found { result ≡ table_named self.now schema.now name.now }
        ensures within { IfSome result (λ at. at < length self.now.tables) }
    {
        match self.place_of(schema, name) {
            Some(at) => Some(at as u32),
            None => None,
        }
    }
}
