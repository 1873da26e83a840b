//! The members of the memo of a join of two tables.
use crate::tests::run::planned;
use cal_expr::{Expr, Op};
use cal_rel::{JoinKind, Rel};
use cal_value::{List, NoMemory};
use memo_sets::Member;
use rule_hep::Rule;
use std::alloc::Global;

const TWO_TABLES: &str =
    r#"{"defaultSchema":"S","schemas":[{"name":"S","tables":[{"name":"T","factory":"cal.MemTableFactory","operand":{"columns":["A:int"],"rows":[[1]]}},{"name":"U","factory":"cal.MemTableFactory","operand":{"columns":["B:int"],"rows":[[1]]}}]}]}"#;

// The node of a member: a scan; a join of two sets by an equation of two columns; a project of two columns of a set.
enum Node {
    Scan(u32),
    Join(u32, u32, u32, u32),
    Project(u32, u32, u32),
}

// Each member with its set.
const MEMBERS: &[(u32, Node)] = &[
    (0, Node::Scan(0)),
    (1, Node::Scan(1)),
    (2, Node::Join(0, 1, 0, 1)),
    (2, Node::Project(1, 0, 3)),
    (2, Node::Project(0, 1, 2)),
    (3, Node::Join(1, 0, 1, 0)),
    (3, Node::Project(1, 0, 2)),
    (3, Node::Project(0, 1, 3)),
];

fn join_of(alloc: Global, left: u32, right: u32, a: u32, b: u32) -> Result<Rel, NoMemory> {
    let on = Expr::binary(alloc, Op::Equal, Expr::Column(a), Expr::Column(b))?;
    Rel::join(
        alloc,
        JoinKind::Inner,
        Rel::Hole(left),
        Rel::Hole(right),
        on,
    )
}

fn project_of(alloc: Global, a: u32, b: u32, set: u32) -> Result<Rel, NoMemory> {
    let mut items = List::new(alloc);
    items.push(Expr::Column(a))?;
    items.push(Expr::Column(b))?;
    Rel::project(alloc, Rel::Hole(set), items)
}

fn rel_of(alloc: Global, node: &Node) -> Result<Rel, NoMemory> {
    match node {
        Node::Scan(table) => Ok(Rel::Scan(*table)),
        Node::Join(left, right, a, b) => join_of(alloc, *left, *right, *a, *b),
        Node::Project(a, b, set) => project_of(alloc, *a, *b, *set),
    }
}

fn has(members: &[Member], set: u32, rel: &Rel) -> bool {
    for member in members {
        if member.set == set && member.rel == *rel {
            return true;
        }
    }
    false
}

fn has_all(alloc: Global, members: &[Member]) -> Result<bool, NoMemory> {
    for (set, node) in MEMBERS {
        let rel = rel_of(alloc, node)?;
        let is_there = has(members, *set, &rel);
        drop(rel);
        if !is_there {
            return Ok(false);
        }
    }
    Ok(members.len() == MEMBERS.len())
}

// Whether the memo of the join of two tables has both joins in each of its sets, and nothing else.
pub(crate) fn two_tables_have(alloc: Global, rules: &[Box<dyn Rule>]) -> Result<bool, NoMemory> {
    let sql = "SELECT A, B FROM T JOIN U ON A = B";
    match planned(alloc, TWO_TABLES, sql, "2000", rules)? {
        Some(planning) => has_all(alloc, planning.memo.members().as_slice()),
        None => Ok(false),
    }
}
