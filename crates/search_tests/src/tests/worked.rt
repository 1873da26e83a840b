//! Statements over small tables, answered after a search of one firing.
use crate::tests::run::is_answered;
use cal_value::NoMemory;
use rule_hep::Rule;
use std::alloc::Global;

const MODEL: &str =
    r#"{"defaultSchema":"S","schemas":[{"name":"S","tables":[{"name":"T1","factory":"cal.MemTableFactory","operand":{"columns":["A:int"],"rows":[[1],[2]]}},{"name":"T2","factory":"cal.MemTableFactory","operand":{"columns":["A:int"],"rows":[]}},{"name":"T4","factory":"cal.MemTableFactory","operand":{"columns":["A:int"],"rows":[[null],[1],[2]]}},{"name":"T5","factory":"cal.MemTableFactory","operand":{"columns":["A:int"],"rows":[[null],[null],[1]]}},{"name":"U6","factory":"cal.MemTableFactory","operand":{"columns":["B:int"],"rows":[[3]]}},{"name":"WIDE","factory":"cal.MemTableFactory","operand":{"columns":["H:short","X:long","Y:long","Z:long"],"rows":[]}},{"name":"T8","factory":"cal.MemTableFactory","operand":{"columns":["A:int","B:int"],"rows":[[-3,2]]}},{"name":"T9","factory":"cal.MemTableFactory","operand":{"columns":["A:int","B:int"],"rows":[[1,null],[1,2],[null,5],[2,7],[1,2]]}}]}]}"#;

// The statement and its rows.
const ANSWERS: &[(&str, &str)] = &[
    ("SELECT A FROM T1 WHERE A > 1", "A\n2\n"),
    ("SELECT A FROM T2 WHERE A > 1", "A\n"),
    (
        "SELECT COUNT(*), SUM(A) FROM T2",
        "EXPR$0, EXPR$1\n0, NULL\n",
    ),
    ("SELECT A FROM T4 WHERE A <> 1", "A\n2\n"),
    (
        "SELECT A, COUNT(*) FROM T5 GROUP BY A ORDER BY A",
        "A, EXPR$1\n1, 1\nNULL, 2\n",
    ),
    (
        "SELECT COUNT(*) FROM T5 AS X JOIN T5 AS Y ON X.A = Y.A",
        "EXPR$0\n1\n",
    ),
    (
        "SELECT A, B FROM T1 LEFT JOIN U6 ON A = B WHERE B IS NULL ORDER BY A",
        "A, B\n1, NULL\n2, NULL\n",
    ),
    ("SELECT H * X FROM WIDE", "EXPR$0\n"),
    (
        "SELECT 99999999999999999999999999999999999999 FROM WIDE",
        "EXPR$0\n",
    ),
    ("SELECT A / 2 FROM T8", "EXPR$0\n-1\n"),
    (
        "SELECT A, B FROM T9 ORDER BY A DESC, B NULLS FIRST",
        "A, B\nNULL, 5\n2, 7\n1, NULL\n1, 2\n1, 2\n",
    ),
];

// The first statement that a search of one firing answers by other rows; empty where there is none.
pub(crate) fn first_wrong_of_one_firing(
    alloc: Global,
    rules: &[Box<dyn Rule>],
) -> Result<&'static str, NoMemory> {
    for (sql, text) in ANSWERS {
        let is_right = is_answered(alloc, MODEL, *sql, "1", *text, rules)?;
        if !is_right {
            return Ok(*sql);
        }
    }
    Ok("")
}
