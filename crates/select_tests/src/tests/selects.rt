//! SELECTs with joins, groups, DISTINCT and ORDER BY. The rows are those that sqlite3 answers, with NULL after each value in ascending order.
use crate::tests::run::is_answered;
use cal_value::NoMemory;
use rule_hep::Rule;
use rules_filter::{FilterAggregateTranspose, FilterIntoJoin, FilterMerge, FilterProjectTranspose};
use rules_project::{ProjectMerge, ProjectRemove, PruneEmpty, ReduceExpressions};
use std::alloc::Global;
use std::test::Fail;

const TABLES: &str =
    r#"{"defaultSchema":"S","schemas":[{"name":"S","tables":[{"name":"T","factory":"cal.MemTableFactory","operand":{"columns":["A:int","B:int"],"rows":[[1,null],[1,2],[null,5],[2,7],[1,2]]}},{"name":"U","factory":"cal.MemTableFactory","operand":{"columns":["C:int","D:string"],"rows":[[1,"x"],[3,"y"],[null,"z"],[1,"w"]]}},{"name":"E","factory":"cal.MemTableFactory","operand":{"columns":["A:int"],"rows":[]}},{"name":"N","factory":"cal.MemTableFactory","operand":{"columns":["A:int"],"rows":[[null],[null],[1]]}},{"name":"P","factory":"cal.MemTableFactory","operand":{"columns":["A:int"],"rows":[[1],[2]]}},{"name":"Q","factory":"cal.MemTableFactory","operand":{"columns":["B:int"],"rows":[[3]]}},{"name":"K","factory":"cal.MemTableFactory","operand":{"columns":["K:int","V:int"],"rows":[[1,10],[2,20]],"primaryKey":["K"]}},{"name":"J","factory":"cal.MemTableFactory","operand":{"columns":["K:int","W:int"],"rows":[[2,5],[1,6],[2,7]]}},{"name":"L","factory":"cal.MemTableFactory","operand":{"columns":["K:int","X:int"],"rows":[[2,1],[3,2]]}}]}]}"#;

// The first statement that isn't answered by this text; empty where there is none.
fn first_wrong(
    alloc: Global,
    rows: &[(&'static str, &str)],
    rules: &[Box<dyn Rule>],
) -> Result<&'static str, NoMemory> {
    for (sql, text) in rows {
        let is_right = is_answered(alloc, TABLES, *sql, *text, rules)?;
        if !is_right {
            return Ok(*sql);
        }
    }
    Ok("")
}

const AGGREGATES: &[(&str, &str)] = &[
    (
        "SELECT COUNT(*), SUM(A) FROM E",
        "EXPR$0, EXPR$1\n0, NULL\n",
    ),
    ("SELECT A + 1 FROM E GROUP BY A", "EXPR$0\n"),
    (
        "SELECT A, COUNT(*) FROM N GROUP BY A ORDER BY A",
        "A, EXPR$1\n1, 1\nNULL, 2\n",
    ),
    (
        "SELECT COUNT(*), COUNT(A), COUNT(B) FROM T",
        "EXPR$0, EXPR$1, EXPR$2\n5, 4, 4\n",
    ),
    (
        "SELECT COUNT(*) FROM T HAVING SUM(A + 1) > 3",
        "EXPR$0\n5\n",
    ),
    ("SELECT COUNT(*) FROM T HAVING SUM(A + 1) > 300", "EXPR$0\n"),
    (
        "SELECT A, SUM(B * 2) AS S, MIN(B) + MAX(B), COUNT(B - A) FROM T GROUP BY A HAVING COUNT(*) > 0 ORDER BY A",
        "A, S, EXPR$2, EXPR$3\n1, 8, 4, 2\n2, 14, 14, 1\nNULL, 10, 10, 0\n",
    ),
];

const JOINS: &[(&str, &str)] = &[
    (
        "SELECT COUNT(*) FROM N AS X JOIN N AS Y ON X.A = Y.A",
        "EXPR$0\n1\n",
    ),
    (
        "SELECT A, B FROM P LEFT JOIN Q ON A = B WHERE B IS NULL ORDER BY A",
        "A, B\n1, NULL\n2, NULL\n",
    ),
    (
        "SELECT * FROM K JOIN J USING (K) LEFT JOIN L USING (K) ORDER BY W",
        "K, V, W, X\n2, 20, 5, 1\n1, 10, 6, NULL\n2, 20, 7, 1\n",
    ),
    (
        "SELECT K.K, COUNT(*) FROM K, J, L WHERE K.K = J.K AND L.K > J.K GROUP BY K.K ORDER BY 1 DESC",
        "K, EXPR$1\n2, 2\n1, 2\n",
    ),
    (
        "SELECT A.A, H.A FROM P A, P B, P C, P D, P E, P F, P G, P H WHERE A.A = B.A AND B.A = C.A AND C.A = D.A AND D.A = E.A AND E.A = F.A AND F.A = G.A AND G.A <= H.A ORDER BY 1, 2",
        "A, A\n1, 1\n1, 2\n2, 2\n",
    ),
    (
        "SELECT A.A, H.A FROM P A JOIN P B ON A.A = B.A JOIN P C ON B.A = C.A JOIN P D ON D.A = C.A JOIN P E ON D.A = E.A JOIN P F ON F.A = A.A JOIN P G ON G.A = 2 JOIN P H ON H.A <> G.A ORDER BY 1",
        "A, A\n1, 1\n2, 1\n",
    ),
    (
        "SELECT T.A, SUM(V) FROM T LEFT JOIN K ON T.A = K.K AND V > 10 GROUP BY T.A ORDER BY T.A",
        "A, EXPR$1\n1, NULL\n2, 20\nNULL, NULL\n",
    ),
    (
        "SELECT D, B FROM U LEFT JOIN T ON C = A AND B IS NOT NULL ORDER BY D, B",
        "D, B\n'w', 2\n'w', 2\n'x', 2\n'x', 2\n'y', NULL\n'z', NULL\n",
    ),
];

const ORDERS: &[(&str, &str)] = &[
    (
        "SELECT A, B FROM T ORDER BY A DESC, B NULLS FIRST",
        "A, B\nNULL, 5\n2, 7\n1, NULL\n1, 2\n1, 2\n",
    ),
    (
        "SELECT B, A FROM T ORDER BY B NULLS FIRST, A DESC NULLS LAST",
        "B, A\nNULL, 1\n2, 1\n2, 1\n5, NULL\n7, 2\n",
    ),
    ("SELECT DISTINCT 7 FROM P", "EXPR$0\n7\n"),
    (
        "SELECT DISTINCT A FROM T ORDER BY A DESC",
        "A\nNULL\n2\n1\n",
    ),
    (
        "SELECT DISTINCT * FROM T WHERE A = 1 ORDER BY B",
        "A, B\n1, 2\n1, NULL\n",
    ),
    (
        "SELECT X.A, Y.A FROM P X CROSS JOIN P Y ORDER BY 2, 1 DESC",
        "A, A\n2, 1\n1, 1\n2, 2\n1, 2\n",
    ),
];

// The first statement that isn't answered by its text when it is planned by these rules.
fn first_wrong_by(alloc: Global, rules: &[Box<dyn Rule>]) -> Result<&'static str, NoMemory> {
    for rows in [AGGREGATES, JOINS, ORDERS] {
        let wrong = first_wrong(alloc, rows, rules)?;
        if !wrong.is_empty() {
            return Ok(wrong);
        }
    }
    Ok("")
}

#[test]
fn without_rules(rt: HostRuntime) -> Result<(), Fail> {
    let rules: Vec<Box<dyn Rule>> = Vec::new(rt.alloc());
    let wrong = first_wrong_by(rt.alloc(), &rules)?;
    assert_eq!(rt; wrong, "");
    Ok(())
}

#[test]
fn by_the_rules(rt: HostRuntime) -> Result<(), Fail> {
    let alloc = rt.alloc();
    let rules: [Box<dyn Rule>; 8] = [
        Box::new(alloc, ReduceExpressions::new())?,
        Box::new(alloc, PruneEmpty::new())?,
        Box::new(alloc, FilterMerge::new())?,
        Box::new(alloc, FilterProjectTranspose::new())?,
        Box::new(alloc, FilterIntoJoin::new())?,
        Box::new(alloc, FilterAggregateTranspose::new())?,
        Box::new(alloc, ProjectMerge::new())?,
        Box::new(alloc, ProjectRemove::new())?,
    ];
    let wrong = first_wrong_by(alloc, &rules)?;
    assert_eq!(rt; wrong, "");
    Ok(())
}
