//! The entries of FROM as names see them.
ghost use Rattle.std.specs.Prelude.{◌≡◌, ◌<◌, length, position, IfSome};
ghost use Rattle.std.specs.List.{list_any};
ghost use Rattle.cal_schema.specs.Lookup.{is_same_name};
ghost use Rattle.sql_meaning.specs.Mentions.{has_column};
ghost use Rattle.sql_meaning.specs.Scope as spec;

use cal_schema::{ColumnDef, TableDef};
use cal_value::{SqlText, SqlType};
use sql_tree::{ColumnName, Cond, FromEntry, How, UsingName};
use std::marker::Model;

/// An entry of FROM with its table.
#[derive(Debug, Drop)]
pub struct Entry<'a> {
    from: &'a FromEntry,
    table: &'a TableDef,
}

impl<'a> Model for Entry<'a> {
    ghost use Rattle.std.specs.Coded.{codes};
    ghost use Rattle.sql_meaning.specs.Scope.{Header, header};
    ghost use Rattle.sql_tree.specs.contracts.tree.Tree as tree;

    ghost Value = { Header };

    ghost coded = { Prim.hlevel (codes, tree.the_row.coded) };

    ghost view = { λ e. header e.from.now e.table.now };
}

fn is_named(names: &[UsingName], name: &SqlText) -> bool
    ensures { result ≡ list_any (λ used. is_same_name name.now used.name) names.now }
{
    names.iter().any(|used| *name == used.name)
}

#[tactic(auto, using(crate::proofs::Used::among_names))]
fn is_used(cond: &Cond, name: &SqlText) -> bool
    ensures { result ≡ spec.is_among name.now (spec.names_used cond.now) }
{
    match cond {
        Cond::On(_) => false,
        Cond::Using(names) => is_named(names.as_slice(), name),
    }
}

fn place_named(columns: &[ColumnDef], name: &SqlText) -> Option<usize>
    ensures { result ≡ position (λ column. is_same_name column.name name.now) columns.now }
{
    columns.iter().position(|column| column.name == *name)
}

impl<'a> Entry<'a> {
    /// The entry of FROM over its table.
    pub fn new(from: &'a FromEntry, table: &'a TableDef) -> Entry<'a>
        ensures { result ≡ spec.header from.now table.now }
    {
        Entry { from, table }
    }

    /// The entry of FROM.
    pub fn from(&self) -> &'a FromEntry
        ensures { result.now ≡ self.now.entry }
    {
        self.from
    }

    /// Its table.
    pub fn table(&self) -> &'a TableDef
        ensures { result.now ≡ self.now.table }
    {
        self.table
    }

    /// The columns of its table.
    pub fn columns(&self) -> &'a [ColumnDef]
        ensures { result.now ≡ self.now.table.columns }
    {
        self.table.columns.as_slice()
    }

    /// The type of one of its columns. Takes no memory.
    pub fn type_of(&self, column: &ColumnDef) -> SqlType
        ensures { result ≡ spec.type_of_column self.now column.now }
    {
        let mut kind = column.kind;
        if self.is_padded() {
            kind.nullable = true;
        }
        kind
    }

    /// Whether its own USING names the column. Takes no memory.
    pub fn hides(&self, name: &SqlText) -> bool
        ensures { result ≡ spec.is_among name.now (spec.hidden_by self.now.entry.how) }
    {
        match &self.from.how {
            How::First => false,
            How::Cross => false,
            How::Inner(cond) => is_used(cond, name),
            How::Left(cond) => is_used(cond, name),
        }
    }

    /// Whether each of its columns may be NULL, as behind a LEFT JOIN. Takes no memory.
    pub fn is_padded(&self) -> bool
        ensures { result ≡ spec.is_padded self.now.entry.how }
    {
        matches!(self.from.how, How::Left(_))
    }

    /// Whether its table has a column of this name. Takes no memory.
    pub fn has(&self, name: &SqlText) -> bool
        ensures { result ≡ has_column self.now name.now }
    {
        place_named(self.columns(), name).is_some()
    }

    fn is_searched(&self, name: &ColumnName) -> bool
        ensures { result ≡ spec.is_searched self.now name.now }
    {
        match &name.alias {
            Some(written) => self.from.alias == *written,
            None => !self.hides(&name.name),
        }
    }

    /// The place of the column, counted from 0, among those of the entry. None comes exactly where the name isn't that
    /// of one of them. Takes no memory.
    #[tactic(auto, using(crate::proofs::Places::place_rules))]
    pub fn place(&self, name: &ColumnName) -> Option<usize>
        ensures place { result ≡ spec.place_in self.now name.now }
        ensures within { IfSome result (λ at. at < length self.now.table.columns) }
    {
        if self.is_searched(name) {
            place_named(self.columns(), &name.name)
        } else {
            None
        }
    }
}
