//! The printed texts of names, values, answers and causes.
#![tactic(auto)]

mod causes;
mod values;

pub use causes::{push_counted, push_csv_fault, push_refusal, push_text};
pub use values::{answer_text, push_name, push_table_name, push_value};
