//! What the names of a SELECT stand for: tables, columns, the columns of the answer, the keys of ORDER BY.
#![tactic(auto)]

mod keys;
mod mentions;
mod names;
mod outputs;
mod references;
mod tables;

pub use keys::key_column;
pub use mentions::mentions_of;
pub use names::output_names;
pub use outputs::{output_places, output_types, star_places};
pub use references::column_places;
pub use tables::{entries, table_number, table_numbers, written_name};
