//! A query from the words, the files and the statement's text to the printed answer.
#![tactic(auto)]

mod finish;
mod laws;
mod look;
mod query;
mod record;
mod tables;
mod texts;

pub use cal_schema::{Db, Refusal, WrittenName};
pub use cal_start::{FileRead, TableFault, TableName};
pub use csv_tables::{CsvCause, CsvFault};
pub use laws::one_end_is_right;
pub use model_json::ModelCause;
pub use query::run_query;
pub use record::{QueryRecord, TopFault};
pub use session_lane::{Answer, Cause, Reply, one_reply_is_right};
