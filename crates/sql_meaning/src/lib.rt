//! The meaning of a SELECT over its syntax tree: what its names stand for, the value and the type of an expression, the rows
//! that it means, the names of its columns, and why it is refused. All of it is definitions, in `specs/`; here stand its
//! entries of FROM and its expressions as calls give them, and laws.
#![tactic(auto)]

mod columns;
mod entry;
mod mention;
mod misfit;
mod parts;

ghost use Rattle.std.specs.Prelude.{◌≡◌, [], ◌∷◌, true, map, filter};
ghost use Rattle.cal_schema.specs.declared.database.Db.{Db};
ghost use Rattle.cal_schema.specs.declared.schema.Schema.{Schema};
ghost use Rattle.sql_tree.specs.declared.select.FromEntry.{FromEntry};
ghost use Rattle.sql_tree.specs.declared.select.Select.{Select};
ghost use Rattle.sql_meaning.specs.Direct.{direct, rows_of, entry_row, keeps, item_values};
ghost use Rattle.sql_meaning.specs.Refused.{is_plain};

pub use columns::{column_at, column_count, column_place, column_type};
pub use entry::Entry;
pub use mention::Mention;
pub use misfit::Misfit;
pub use parts::{Role, SelectPart, conditions, parts_of};

/// A plain SELECT means the items of each row of its table of which WHERE is TRUE, in the table's order.
#[tactic(auto, using(crate::proofs::OneEntry::direct_of_one))]
pub fn one_entry_is_one_walk()
    ensures { (select : Select) (schema : Schema) (db : Db) (entry : FromEntry) →
        is_plain select ≡ true → select.from ≡ entry ∷ [] →
        direct select schema db
        ≡ map (λ row. item_values select.items (entry_row schema entry row ∷ []))
        (filter (λ row. keeps select.filter (entry_row schema entry row ∷ []))
        (rows_of schema db entry)) }
{}
