//! Statements over one inline table.
use crate::tests::run::{ask, has_written, joined};
use cal_value::NoMemory;
use std::alloc::Global;
use std::test::Fail;

// A model of one table with one number.
const ONE: &str =
    r#"{"defaultSchema":"S","schemas":[{"name":"S","tables":[{"name":"T","factory":"cal.MemTableFactory","operand":{"columns":["A:int"],"rows":[[1]]}}]}]}"#;

const NUMBERS: &str =
    r#"{"defaultSchema":"S","schemas":[{"name":"S","tables":[{"name":"T","factory":"cal.MemTableFactory","operand":{"columns":["A:int","B:int"],"rows":[[-3,2],[null,5],[7,null]]}}]}]}"#;

const KINDS: &str =
    r#"{"defaultSchema":"S","schemas":[{"name":"S","tables":[{"name":"T","factory":"cal.MemTableFactory","operand":{"columns":["a:string","A:boolean","H:short","N:int","L:long"],"rows":[["it's",true,-32768,null,9223372036854775807],["",null,1,2,3]]}}]}]}"#;

const NO_ROWS: &str =
    r#"{"defaultSchema":"S","schemas":[{"name":"S","tables":[{"name":"W","factory":"cal.MemTableFactory","operand":{"columns":["H:short","X:long","Y:long","Z:long"],"rows":[]}}]}]}"#;

// Whether a run that gets as far as its statement ends with this status and writes this text.
fn replies(
    alloc: Global,
    model: &str,
    sql: &str,
    status: u8,
    text: &str,
) -> Result<bool, NoMemory> {
    let told = ask(alloc, model, sql)?;
    let is_whole = told.has_tables && told.has_reply && told.is_sound;
    Ok(has_written(&told, status, text) && is_whole)
}

// The first statement whose run ends with another status or writes another text; empty where there is none.
fn first_wrong(
    alloc: Global,
    model: &str,
    rows: &[(&'static str, u8, &str)],
) -> Result<&'static str, NoMemory> {
    for (sql, status, text) in rows {
        let is_right = replies(alloc, model, *sql, *status, *text)?;
        if !is_right {
            return Ok(*sql);
        }
    }
    Ok("")
}

const OVER_NUMBERS: &[(&str, u8, &str)] = &[
    ("select a from t;", 0, "A\n-3\nNULL\n7\n"),
    ("SELECT B, A FROM S.T WHERE A > 1", 0, "B, A\nNULL, 7\n"),
    ("SELECT A FROM T WHERE A <> -3", 0, "A\n7\n"),
    (
        "SELECT * FROM T WHERE B IS NOT NULL",
        0,
        "A, B\n-3, 2\nNULL, 5\n",
    ),
    (
        "SELECT A / 2, A * B AS X, - A FROM T WHERE A IS NOT NULL AND B < 9",
        0,
        "EXPR$0, X, EXPR$2\n-1, -6, 3\n",
    ),
    ("SELECT A + B - 1 y FROM T", 0, "Y\n-2\nNULL\nNULL\n"),
    (
        "SELECT A = 7, NOT B = 2, A IS NULL FROM T",
        0,
        "EXPR$0, EXPR$1, EXPR$2\nFALSE, FALSE, FALSE\nNULL, TRUE, TRUE\nTRUE, NULL, FALSE\n",
    ),
    (
        "SELECT X.B FROM T AS X WHERE X.A <= 7 OR B = 5",
        0,
        "B\n2\n5\nNULL\n",
    ),
];

const REFUSED: &[(&str, u8, &str)] = &[
    (
        "SELECT A / B FROM T",
        1,
        "refused MayNotFit place 2 lo -2147483648 hi 2147483647\n",
    ),
    ("SELECT FROM T", 1, "refused NotSql\n"),
    (
        "SELECT A FROM T -- no more\n?",
        1,
        "refused NotToken at 27\n",
    ),
    (
        "SELECT C FROM T WHERE A AND D = 1",
        1,
        "refused UnknownColumn name C\n",
    ),
    (
        "SELECT T.A FROM T AS X",
        1,
        "refused UnknownColumn name T.A\n",
    ),
    (
        "SELECT \"a\" FROM T",
        1,
        "refused UnknownColumn name \"a\"\n",
    ),
    ("SELECT C FROM U", 1, "refused UnknownTable name U\n"),
    ("SELECT A FROM R.T", 1, "refused UnknownTable name R.T\n"),
    (
        "SELECT A FROM T WHERE A + 1",
        1,
        "refused TypeClash place 6\n",
    ),
    (
        "SELECT A + 'x', A = TRUE FROM T",
        1,
        "refused TypeClash place 2\n",
    ),
    (
        "SELECT A FROM T WHERE TRUE AND A * 2",
        1,
        "refused TypeClash place 8\n",
    ),
    (
        "SELECT 'x' < 'y', A = 'x' FROM T",
        1,
        "refused TypeClash place 6\n",
    ),
    (
        "SELECT A FROM T, T AS B, T AS C, T AS D, T AS E, T AS F, T AS G, T AS H, T AS I",
        1,
        "refused TooManyTables limit 8\n",
    ),
    ("SELECT A FROM T, T AS X", 1, "refused Ambiguous name A\n"),
    (
        "SELECT X.A FROM T JOIN T AS X USING (C)",
        1,
        "refused UnknownColumn name C\n",
    ),
    (
        "SELECT A FROM T WHERE COUNT(*) = 1",
        1,
        "refused AggregateMisplaced place 5\n",
    ),
    (
        "SELECT SUM(MAX(A)) FROM T",
        1,
        "refused AggregateMisplaced place 3\n",
    ),
    (
        "SELECT A FROM T HAVING COUNT(*) > 0",
        1,
        "refused NotGrouped place 1\n",
    ),
    (
        "SELECT * FROM T GROUP BY A",
        1,
        "refused NotGrouped place 1\n",
    ),
    (
        "SELECT A FROM T ORDER BY 0",
        1,
        "refused OrderKey place 6\n",
    ),
    (
        "SELECT A, B AS A FROM T ORDER BY A",
        1,
        "refused OrderKey place 10\n",
    ),
    (
        "SELECT 1 / COUNT(*) FROM T",
        1,
        "refused MayNotFit place 2 lo 0 hi 1048576\n",
    ),
    ("INSERT INTO T VALUES (1, 2)", 1, "refused NotAQuery\n"),
    ("REFRESH TABLE U", 1, "refused NotAQuery\n"),
];

// Joins, groups and order.
const OVER_ALL_FORMS: &[(&str, u8, &str)] = &[
    ("SELECT DISTINCT A FROM T", 0, "A\n-3\nNULL\n7\n"),
    ("SELECT COUNT(*) FROM T", 0, "EXPR$0\n3\n"),
    (
        "SELECT COUNT(A), SUM(B), MIN(A) FROM T",
        0,
        "EXPR$0, EXPR$1, EXPR$2\n2, 7, -3\n",
    ),
    ("SELECT A FROM T ORDER BY A", 0, "A\n-3\n7\nNULL\n"),
    (
        "SELECT A, COUNT(*) AS N FROM T GROUP BY A HAVING COUNT(*) > 0 ORDER BY A DESC",
        0,
        "A, N\nNULL, 1\n7, 1\n-3, 1\n",
    ),
    (
        "SELECT X.A FROM T, T AS X",
        0,
        "A\n-3\nNULL\n7\n-3\nNULL\n7\n-3\nNULL\n7\n",
    ),
    (
        "SELECT T.A, X.B FROM T LEFT JOIN T AS X ON T.B = X.B",
        0,
        "A, B\n-3, 2\nNULL, 5\n7, NULL\n",
    ),
];

// What is explained is judged as what is asked.
const EXPLAINED: &[(&str, u8, &str)] = &[(
    "EXPLAIN MEMO FOR SELECT X FROM T",
    1,
    "refused UnknownColumn name X\n",
)];

#[test]
fn statements_over_numbers(rt: HostRuntime) -> Result<(), Fail> {
    let alloc = rt.alloc();
    for rows in [OVER_NUMBERS, OVER_ALL_FORMS, REFUSED, EXPLAINED] {
        let wrong = first_wrong(alloc, NUMBERS, rows)?;
        assert_eq!(rt; wrong, "");
    }
    Ok(())
}

const OVER_KINDS: &[(&str, u8, &str)] = &[
    (
        "SELECT * FROM T",
        0,
        "\"a\", A, H, N, L\n'it''s', TRUE, -32768, NULL, 9223372036854775807\n'', NULL, 1, 2, 3\n",
    ),
    (
        "SELECT \"a\" AS \"b\", 'x' FROM T WHERE A",
        0,
        "\"b\", EXPR$1\n'it''s', 'x'\n",
    ),
    (
        "SELECT L * L - H FROM T WHERE \"a\" > ''",
        0,
        "EXPR$0\n85070591730234615847396907784232534017\n",
    ),
    (
        "SELECT L * L * L FROM T",
        1,
        "refused MayNotFit place 4 lo -100000000000000000000000000000000000000 hi 100000000000000000000000000000000000000\n",
    ),
    (
        "SELECT L FROM T WHERE N / (H + 40000) = 0 AND NOT A IS NULL",
        0,
        "L\n",
    ),
    (
        "SELECT a FROM T WHERE \"A\" = FALSE OR \"A\" IS NULL",
        0,
        "A\nNULL\n",
    ),
    (
        "SELECT 99999999999999999999999999999999999999 FROM T WHERE L = 3",
        0,
        "EXPR$0\n99999999999999999999999999999999999999\n",
    ),
    (
        "SELECT 100000000000000000000000000000000000000 FROM T",
        1,
        "refused NotToken at 7\n",
    ),
];

#[test]
fn values_of_all_kinds(rt: HostRuntime) -> Result<(), Fail> {
    let alloc = rt.alloc();
    let wrong = first_wrong(alloc, KINDS, OVER_KINDS)?;
    assert_eq!(rt; wrong, "");
    Ok(())
}

const OVER_NO_ROWS: &[(&str, u8, &str)] = &[
    ("SELECT H * X FROM W", 0, "EXPR$0\n"),
    (
        "SELECT X * Y * Z FROM W",
        1,
        "refused MayNotFit place 4 lo -100000000000000000000000000000000000000 hi 100000000000000000000000000000000000000\n",
    ),
];

#[test]
fn intervals_of_a_table_without_rows(rt: HostRuntime) -> Result<(), Fail> {
    let alloc = rt.alloc();
    let wrong = first_wrong(alloc, NO_ROWS, OVER_NO_ROWS)?;
    assert_eq!(rt; wrong, "");
    Ok(())
}

// 64 brackets, and 32 signs.
const OPEN: &str = "((((((((((((((((((((((((((((((((((((((((((((((((((((((((((((((((";

const CLOSE: &str = "))))))))))))))))))))))))))))))))))))))))))))))))))))))))))))))))";

const SIGNS: &str = "- - - - - - - - - - - - - - - - - - - - - - - - - - - - - - - - ";

// The parts of a statement, and what is told of it, on both sides of each limit.
const LIMITS: &[(&[&str], u8, &str)] = &[
    (&["SELECT ", OPEN, "A", CLOSE, " FROM T"], 0, "A\n1\n"),
    (
        &["SELECT ", OPEN, "(A)", CLOSE, " FROM T"],
        1,
        "refused TooDeep limit 64\n",
    ),
    (
        &[
            "SELECT ", SIGNS, SIGNS, SIGNS, SIGNS, SIGNS, SIGNS, SIGNS, SIGNS, "A FROM T",
        ],
        0,
        "EXPR$0\n1\n",
    ),
    (
        &[
            "SELECT - ",
            SIGNS,
            SIGNS,
            SIGNS,
            SIGNS,
            SIGNS,
            SIGNS,
            SIGNS,
            SIGNS,
            "A FROM T",
        ],
        1,
        "refused TooManyOperators limit 256\n",
    ),
];

fn replies_to_parts(
    alloc: Global,
    parts: &[&str],
    status: u8,
    text: &str,
) -> Result<bool, NoMemory> {
    let sql = joined(alloc, parts)?;
    replies(alloc, ONE, sql.as_str(), status, text)
}

#[test]
fn limits_of_a_text(rt: HostRuntime) -> Result<(), Fail> {
    let alloc = rt.alloc();
    for (parts, status, text) in LIMITS {
        let is_right = replies_to_parts(alloc, *parts, *status, *text)?;
        assert!(rt; is_right, "{text}");
    }
    Ok(())
}
