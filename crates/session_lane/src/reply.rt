use crate::answer::Answer;
use cal_schema::Refusal;
use cal_value::{List, SqlText};
use select_planning::Planning;

/// The cause of a refusal: here always one of the text.
#[derive(Debug, Drop)]
pub enum Cause {
    Text(Refusal),
}

/// The reply to a statement. `at` is the place in the history, which is 0 where there is none.
#[derive(Debug, Drop)]
pub enum Reply {
    Rows {
        at: u64,
        names: List<SqlText>,
        answer: Answer,
    },
    Plan {
        at: u64,
        planning: Planning,
    },
    Memo {
        at: u64,
        planning: Planning,
    },
    Refused {
        at: Option<u64>,
        cause: Cause,
    },
}
