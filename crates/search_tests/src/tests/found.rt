//! How many sets, members and firings a search has, and whether it is complete.
use crate::tests::filter_below::FilterBelow;
use crate::tests::members::two_tables_have;
use crate::tests::run::{is_answered, planned};
use crate::tests::worked::first_wrong_of_one_firing;
use cal_rel::RelType;
use cal_value::NoMemory;
use rule_hep::Rule;
use rules_agg::{AggregateProjectMerge, AggregateRemove};
use rules_filter::{FilterAggregateTranspose, FilterIntoJoin, FilterMerge, FilterProjectTranspose};
use rules_join::{JoinAssociate, JoinCommute};
use rules_project::{ProjectMerge, ProjectRemove, PruneEmpty, ReduceExpressions};
use search_firings::Firing;
use select_planning::Planning;
use std::alloc::Global;
use std::test::Fail;

const MODEL: &str =
    r#"{"defaultSchema":"S","schemas":[{"name":"S","tables":[{"name":"T","factory":"cal.MemTableFactory","operand":{"columns":["A:int"],"rows":[[1]]}},{"name":"U","factory":"cal.MemTableFactory","operand":{"columns":["B:int"],"rows":[[1]]}},{"name":"V","factory":"cal.MemTableFactory","operand":{"columns":["C:int"],"rows":[[1],[2]]}},{"name":"W","factory":"cal.MemTableFactory","operand":{"columns":["D:int"],"rows":[[1]]}},{"name":"X","factory":"cal.MemTableFactory","operand":{"columns":["E:int"],"rows":[[1]]}},{"name":"K","factory":"cal.MemTableFactory","operand":{"columns":["K:int","N:int"],"rows":[[1,10],[2,null]],"primaryKey":["K"]}}]}]}"#;

// The statement, the budget, and what its search finds.
type Row = (&'static str, &'static str, &'static str);

const FOUND: &[Row] = &[
    (
        "SELECT A FROM T",
        "1",
        "root 0 sets 1 members 1 firings 0 complete",
    ),
    (
        "SELECT A, B FROM T JOIN U ON A = B",
        "2000",
        "root 2 sets 4 members 8 firings 12 complete",
    ),
    (
        "SELECT A, B FROM T JOIN U ON A = B",
        "13",
        "root 2 sets 4 members 8 firings 12 complete",
    ),
    (
        "SELECT A, B FROM T JOIN U ON A = B",
        "12",
        "root 2 sets 4 members 8 firings 12 stopped",
    ),
    (
        "SELECT A, B FROM T JOIN U ON A = B",
        "3",
        "root 2 sets 4 members 7 firings 3 stopped",
    ),
    (
        "SELECT A, B FROM T LEFT JOIN U ON A = B",
        "2000",
        "root 2 sets 3 members 3 firings 0 complete",
    ),
    (
        "SELECT A, B, C FROM T JOIN U ON A = B JOIN V ON B = C",
        "2000",
        "root 4 sets 10 members 28 firings 59 complete",
    ),
    (
        "SELECT A, B, C, D FROM T JOIN U ON A = B JOIN V ON B = C JOIN W ON C = D",
        "20000",
        "root 6 sets 20 members 70 firings 183 complete",
    ),
    (
        "SELECT A, B, C, D, E FROM T JOIN U ON A = B JOIN V ON B = C JOIN W ON C = D JOIN X ON D = E",
        "20000",
        "root 8 sets 35 members 145 firings 451 complete",
    ),
    (
        "SELECT K, SUM(N) FROM K GROUP BY K",
        "2000",
        "root 0 sets 1 members 1 firings 0 complete",
    ),
];

fn count_there(types: &[Option<RelType>]) -> usize {
    types.iter().filter(|t| t.is_some()).count()
}

fn counts_of(alloc: Global, planning: &Planning) -> Result<String, NoMemory> {
    let root = planning.root;
    let sets = count_there(planning.memo.types().as_slice());
    let members = planning.memo.members().len();
    let firings = planning.firings.len();
    let state = if planning.complete {
        "complete"
    } else {
        "stopped"
    };
    Ok(format!(in alloc; "root {root} sets {sets} members {members} firings {firings} {state}")?)
}

fn found(
    alloc: Global,
    sql: &str,
    budget: &str,
    rules: &[Box<dyn Rule>],
) -> Result<String, NoMemory> {
    match planned(alloc, MODEL, sql, budget, rules)? {
        Some(planning) => counts_of(alloc, &planning),
        None => Ok(String::new(alloc)),
    }
}

// By a rule that is never done: a search that the budget stops, and one that the limit of members stops.
const ENDLESS: &[Row] = &[
    (
        "SELECT A FROM T",
        "100",
        "root 1 sets 102 members 202 firings 100 stopped",
    ),
    (
        "SELECT A FROM T",
        "20000",
        "root 1 sets 513 members 1024 firings 511 stopped",
    ),
];

// The first statement of which something else is found, with what is found; empty where there is none.
fn first_wrong(alloc: Global, table: &[Row], rules: &[Box<dyn Rule>]) -> Result<String, NoMemory> {
    for (sql, budget, wanted) in table {
        let found = found(alloc, *sql, *budget, rules)?;
        if found.as_str() != *wanted {
            return Ok(found);
        }
    }
    Ok(String::new(alloc))
}

// How many of the firings are by the rule of this place.
fn count_by(firings: &[Firing], rule: u32) -> usize {
    firings.iter().filter(|firing| firing.rule == rule).count()
}

// So many firings by each of the rules that fire over a join of two tables: ProjectMerge, ProjectRemove, JoinCommute.
fn is_fired(planning: &Planning) -> bool {
    let firings = planning.firings.as_slice();
    count_by(firings, 6) == 8 && count_by(firings, 7) == 2 && count_by(firings, 10) == 2
}

fn two_tables_fire(alloc: Global, rules: &[Box<dyn Rule>]) -> Result<bool, NoMemory> {
    let sql = "SELECT A, B FROM T JOIN U ON A = B";
    match planned(alloc, MODEL, sql, "2000", rules)? {
        Some(planning) => Ok(is_fired(&planning)),
        None => Ok(false),
    }
}

// Rows that are the same whatever the budget.
const ANSWERS: &[(&str, &str)] = &[
    ("SELECT A, B FROM T JOIN U ON A = B", "A, B\n1, 1\n"),
    ("SELECT A, C FROM T LEFT JOIN V ON A = C", "A, C\n1, 1\n"),
    (
        "SELECT C, COUNT(*) FROM V JOIN T ON TRUE GROUP BY C ORDER BY C DESC",
        "C, EXPR$1\n2, 1\n1, 1\n",
    ),
    (
        "SELECT K, SUM(N), COUNT(*) FROM K GROUP BY K ORDER BY K",
        "K, EXPR$1, EXPR$2\n1, 10, 1\n2, NULL, 1\n",
    ),
    ("SELECT DISTINCT C FROM V WHERE C > 1", "C\n2\n"),
];

fn first_wrong_answer(
    alloc: Global,
    budget: &str,
    rules: &[Box<dyn Rule>],
) -> Result<&'static str, NoMemory> {
    for (sql, text) in ANSWERS {
        let is_right = is_answered(alloc, MODEL, *sql, budget, *text, rules)?;
        if !is_right {
            return Ok(*sql);
        }
    }
    Ok("")
}

fn answer_the_same(alloc: Global, rules: &[Box<dyn Rule>]) -> Result<bool, NoMemory> {
    for budget in ["1", "3", "2000"] {
        if !first_wrong_answer(alloc, budget, rules)?.is_empty() {
            return Ok(false);
        }
    }
    Ok(true)
}

#[test]
fn finds_what_there_is(rt: HostRuntime) -> Result<(), Fail> {
    let alloc = rt.alloc();
    let rules: [Box<dyn Rule>; 12] = [
        Box::new(alloc, ReduceExpressions::new())?,
        Box::new(alloc, PruneEmpty::new())?,
        Box::new(alloc, FilterMerge::new())?,
        Box::new(alloc, FilterProjectTranspose::new())?,
        Box::new(alloc, FilterIntoJoin::new())?,
        Box::new(alloc, FilterAggregateTranspose::new())?,
        Box::new(alloc, ProjectMerge::new())?,
        Box::new(alloc, ProjectRemove::new())?,
        Box::new(alloc, AggregateProjectMerge::new())?,
        Box::new(alloc, AggregateRemove::new())?,
        Box::new(alloc, JoinCommute::new())?,
        Box::new(alloc, JoinAssociate::new())?,
    ];
    let wrong = first_wrong(alloc, FOUND, &rules)?;
    assert_eq!(rt; wrong.as_str(), "");
    assert!(rt; two_tables_fire(alloc, &rules)?);
    assert!(rt; answer_the_same(alloc, &rules)?);
    assert!(rt; two_tables_have(alloc, &rules)?);
    assert_eq!(rt; first_wrong_of_one_firing(alloc, &rules)?, "");
    Ok(())
}

#[test]
fn stops_at_the_limits(rt: HostRuntime) -> Result<(), Fail> {
    let alloc = rt.alloc();
    let rules: [Box<dyn Rule>; 1] = [Box::new(alloc, FilterBelow::new())?];
    let wrong = first_wrong(alloc, ENDLESS, &rules)?;
    assert_eq!(rt; wrong.as_str(), "");
    Ok(())
}
