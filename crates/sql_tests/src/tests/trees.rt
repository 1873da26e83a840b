//! The trees of SELECTs and their orders, and the steps by which rules rewrite them.
ghost use Rattle.std.specs.Prelude.{IfOk, IsSome, []};
ghost use Rattle.cal_schema.specs.Valid.{IsValidSchema};
ghost use Rattle.cal_rel.specs.Holes.{EachHole};
ghost use Rattle.cal_rel.specs.Info.{info_of};
ghost use Rattle.cal_rel.specs.Tree.{tree_of};
ghost use Rattle.cal_rel.specs.Typing.{type_of};
ghost use Rattle.sql_algebra.specs.Formed.{IsFormed};
ghost use Rattle.sql_parser.specs.Grammar.{Spells};
ghost use Rattle.sql_tests.specs.Ready.{IsReady};
ghost use Rattle.sql_translate.specs.Translated.{IsAccepted};

use crate::tests::run::schema;
use cal_expr::Expr;
use cal_rel::{AggCall, JoinKind, PlanInfo, Rel};
use cal_schema::{Refusal, Schema};
use cal_value::{Agg, Collation, List, NoMemory, Op, Row, Value};
use rule_hep::{HepRecord, HepStep, Rule, hep};
use rules_filter::{FilterAggregateTranspose, FilterIntoJoin, FilterMerge, FilterProjectTranspose};
use rules_project::{ProjectMerge, ProjectRemove, PruneEmpty, ReduceExpressions};
use select_planning::HEP_LIMIT;
use sql_parser::parse;
use sql_text::{Token, tokens};
use sql_translate::translate;
use sql_tree::Statement;
use sql_validator::{Checked, CheckedSelect, validate};
use std::alloc::Global;
use std::test::Fail;

// T is table 0, U 1, P 3, Q 4, R 5. A column is `$` and its number; a join has its sides in square brackets, an aggregate its groups and then its calls.
const TREES: &str = "SELECT A FROM T => Project($0) 0
SELECT * FROM T WHERE A > 1 => Project($0, $1) Filter(($0 > 1)) 0
SELECT DISTINCT 7 FROM T => Aggregate(0;) Project(7) 0
SELECT T.A, C FROM T JOIN U ON T.B = U.B => Project($0, $3) Join(inner ($1 = $2)) [0] [1]
SELECT 1 FROM T, U => Project(1) Join(inner TRUE) [0] [1]
SELECT * FROM T LEFT JOIN U USING (B) => Project($0, $1, $3) Join(left ($1 = $2)) [0] [1]
SELECT 1 FROM U X JOIN U Y USING (B, C) => Project(1) Join(inner (($0 = $2) AND ($1 = $3))) [1] [1]
SELECT A, COUNT(*) FROM T GROUP BY A => Project($0, $1) Aggregate(0; COUNT) 0
SELECT B, A FROM T GROUP BY A, B, A => Project($1, $0) Aggregate(0 1;) 0
SELECT * FROM T GROUP BY B, A => Project($1, $0) Aggregate(1 0;) 0
SELECT SUM(A), SUM(A) + 1 FROM T => Project($0, ($0 + 1)) Aggregate(; SUM 0) 0
SELECT COUNT(*), COUNT(B), COUNT(*) FROM T => Project($0, $1, $0) Aggregate(; COUNT, COUNT 1) 0
SELECT B, SUM(A * 2), MAX(A) FROM T GROUP BY B => Project($0, $1, $2) Aggregate(0; SUM 1, MAX 2) Project($1, ($0 * 2), $0) 0
SELECT COUNT(*) FROM T HAVING MIN(A) > 0 => Project($0) Filter(($1 > 0)) Aggregate(; COUNT, MIN 0) 0
SELECT DISTINCT A FROM T WHERE NOT B IS NULL AND - A < 2 GROUP BY A => Aggregate(0;) Project($0) Aggregate(0;) Filter((NOT $1 IS NULL AND (- $0 < 2))) 0
SELECT 1 FROM P JOIN R ON V = R.K JOIN Q ON Q.K = R.K => Project(1) Join(inner ($2 = $1)) [Join(inner ($0 = $1)) [3] [5]] [4]
SELECT A, B FROM T ORDER BY B DESC, 1 NULLS FIRST => Project($0, $1) 0 by 1 desc first, 0 asc first
SELECT A AS X, B FROM T ORDER BY X, T.B DESC NULLS LAST => Project($0, $1) 0 by 0 asc last, 1 desc last";

// The steps of the rules, each with the place of the input from the root, then the tree and the order.
const STEPS: &str = "SELECT A, B FROM T WHERE A > 1 => ProjectRemove ; Filter(($0 > 1)) 0
SELECT A FROM T => Project($0) 0
SELECT B, A FROM T => Project($1, $0) 0
SELECT * FROM T LEFT JOIN Q ON A = K WHERE K IS NULL => ProjectRemove ; Filter($2 IS NULL) Join(left ($0 = $2)) [0] [4]
SELECT * FROM T LEFT JOIN Q ON A = K WHERE K IS NULL AND A > 1 => FilterIntoJoin /0; ProjectRemove ; Filter($2 IS NULL) Join(left ($0 = $2)) [Filter(($0 > 1)) 0] [4]
SELECT T.A FROM T JOIN R ON TRUE WHERE T.B = R.K AND R.K < 9 AND T.A > 1 AND 1 < 2 => ReduceExpressions /0; FilterIntoJoin /0; Project($0) Join(inner ($1 = $2)) [Filter(($0 > 1)) 0] [Filter(($0 < 9)) 5]
SELECT A, COUNT(*) FROM T JOIN Q ON A = K GROUP BY A HAVING A > 1 AND COUNT(*) > 1 => FilterAggregateTranspose /0; FilterIntoJoin /0/0/0; ProjectRemove ; Filter(($1 > 1)) Aggregate(0; COUNT) Join(inner ($0 = $2)) [Filter(($0 > 1)) 0] [4]
SELECT A, COUNT(*) FROM T JOIN Q ON A = K GROUP BY A HAVING COUNT(*) > 1 => ProjectRemove ; Filter(($1 > 1)) Aggregate(0; COUNT) Join(inner ($0 = $2)) [0] [4]
SELECT A, B FROM T WHERE 1 = 1 => ReduceExpressions /0; ProjectRemove ; 0
SELECT A FROM T WHERE 1 > 2 => ReduceExpressions /0; PruneEmpty ; Empty
SELECT A, COUNT(*) FROM T JOIN U ON T.A = U.B WHERE 1 > 2 GROUP BY A => ReduceExpressions /0/0; PruneEmpty /0; PruneEmpty ; Empty
SELECT COUNT(*) FROM T WHERE FALSE => ReduceExpressions /0/0; ProjectRemove ; Aggregate(; COUNT) Empty
SELECT A + 1 + (2 * 3) FROM T WHERE A > 2 + 3 => ReduceExpressions ; ReduceExpressions /0; Project((($0 + 1) + 6)) Filter(($0 > 5)) 0
SELECT SUM(A * 2) FROM T WHERE 2 > 1 HAVING SUM(A * 2) > 1 AND 1 = 1 => ReduceExpressions /0; ReduceExpressions /0/0/0/0; ProjectRemove ; Filter((($0 > 1) AND TRUE)) Aggregate(; SUM 0) Project(($0 * 2)) 0
SELECT DISTINCT A, B FROM T WHERE A > 1 AND TRUE => ProjectRemove /0; Aggregate(0 1;) Filter((($0 > 1) AND TRUE)) 0";

fn push_number(alloc: Global, out: &mut String, number: u32) -> Result<(), NoMemory> {
    let text = format!(in alloc; "{number}")?;
    Ok(out.push_str(text.as_str())?)
}

fn op_text(op: Op) -> &'static str {
    match op {
        Op::Add => " + ",
        Op::Subtract => " - ",
        Op::Multiply => " * ",
        Op::Divide => " / ",
        Op::Equal => " = ",
        Op::NotEqual => " <> ",
        Op::Less => " < ",
        Op::LessEqual => " <= ",
        Op::Greater => " > ",
        Op::GreaterEqual => " >= ",
        Op::And => " AND ",
        Op::Or => " OR ",
    }
}

fn push_column(alloc: Global, out: &mut String, column: u32) -> Result<(), NoMemory> {
    out.push_str("$")?;
    push_number(alloc, out, column)
}

fn push_literal(alloc: Global, out: &mut String, value: &Value) -> Result<(), NoMemory> {
    match value {
        Value::Int(number) => {
            let text = format!(in alloc; "{number}")?;
            Ok(out.push_str(text.as_str())?)
        }
        Value::Bool(true) => Ok(out.push_str("TRUE")?),
        Value::Bool(false) => Ok(out.push_str("FALSE")?),
        Value::Null | Value::Text(_) => Ok(out.push_str("?")?),
    }
}

fn push_expr(alloc: Global, out: &mut String, expr: &Expr) -> Result<(), NoMemory> {
    match expr {
        Expr::Column(column) => push_column(alloc, out, *column),
        Expr::Literal(value) => push_literal(alloc, out, value),
        Expr::Negate(operand) => {
            out.push_str("- ")?;
            push_expr(alloc, out, operand.get())
        }
        Expr::Not(operand) => {
            out.push_str("NOT ")?;
            push_expr(alloc, out, operand.get())
        }
        Expr::IsNull(operand) => {
            push_expr(alloc, out, operand.get())?;
            Ok(out.push_str(" IS NULL")?)
        }
        Expr::Binary { op, left, right } => {
            out.push_str("(")?;
            push_expr(alloc, out, left.get())?;
            out.push_str(op_text(*op))?;
            push_expr(alloc, out, right.get())?;
            Ok(out.push_str(")")?)
        }
    }
}

fn push_exprs(alloc: Global, out: &mut String, exprs: &[Expr]) -> Result<(), NoMemory> {
    let mut gap = "";
    for expr in exprs {
        out.push_str(gap)?;
        push_expr(alloc, out, expr)?;
        gap = ", ";
    }
    Ok(())
}

fn agg_text(agg: Agg) -> &'static str {
    match agg {
        Agg::Count => "COUNT",
        Agg::Sum => "SUM",
        Agg::Sum0 => "SUM0",
        Agg::Min => "MIN",
        Agg::Max => "MAX",
    }
}

fn push_call(alloc: Global, out: &mut String, call: &AggCall) -> Result<(), NoMemory> {
    out.push_str(agg_text(call.agg))?;
    match call.argument {
        Some(column) => {
            out.push_str(" ")?;
            push_number(alloc, out, column)
        }
        None => Ok(()),
    }
}

fn push_groups(alloc: Global, out: &mut String, groups: &[u32]) -> Result<(), NoMemory> {
    let mut gap = "";
    for group in groups {
        out.push_str(gap)?;
        push_number(alloc, out, *group)?;
        gap = " ";
    }
    Ok(out.push_str(";")?)
}

fn push_calls(alloc: Global, out: &mut String, calls: &[AggCall]) -> Result<(), NoMemory> {
    let mut gap = " ";
    for call in calls {
        out.push_str(gap)?;
        push_call(alloc, out, call)?;
        gap = ", ";
    }
    Ok(())
}

fn kind_text(kind: JoinKind) -> &'static str {
    match kind {
        JoinKind::Inner => "inner ",
        JoinKind::Left => "left ",
    }
}

fn push_tree(alloc: Global, out: &mut String, rel: &Rel) -> Result<(), NoMemory> {
    match rel {
        Rel::Scan(table) => push_number(alloc, out, *table),
        Rel::Filter { input, predicate } => {
            out.push_str("Filter(")?;
            push_expr(alloc, out, predicate)?;
            out.push_str(") ")?;
            push_tree(alloc, out, input.get())
        }
        Rel::Project { input, items } => {
            out.push_str("Project(")?;
            push_exprs(alloc, out, items.as_slice())?;
            out.push_str(") ")?;
            push_tree(alloc, out, input.get())
        }
        Rel::Join {
            kind,
            left,
            right,
            on,
        } => {
            out.push_str("Join(")?;
            out.push_str(kind_text(*kind))?;
            push_expr(alloc, out, on)?;
            out.push_str(") [")?;
            push_tree(alloc, out, left.get())?;
            out.push_str("] [")?;
            push_tree(alloc, out, right.get())?;
            Ok(out.push_str("]")?)
        }
        Rel::Aggregate {
            input,
            groups,
            calls,
        } => {
            out.push_str("Aggregate(")?;
            push_groups(alloc, out, groups.as_slice())?;
            push_calls(alloc, out, calls.as_slice())?;
            out.push_str(") ")?;
            push_tree(alloc, out, input.get())
        }
        Rel::Empty(_) => Ok(out.push_str("Empty")?),
        Rel::TileScan(_) | Rel::StarScan { .. } | Rel::Hole(_) => Ok(out.push_str("?")?),
    }
}

fn push_order(alloc: Global, out: &mut String, order: &Collation) -> Result<(), NoMemory> {
    let mut gap = " by ";
    for key in order.as_slice() {
        out.push_str(gap)?;
        push_number(alloc, out, key.column)?;
        out.push_str(if key.descending { " desc" } else { " asc" })?;
        out.push_str(if key.nulls_first { " first" } else { " last" })?;
        gap = ", ";
    }
    Ok(())
}

fn name_of(rule: &Box<dyn Rule>) -> &str {
    rule.name()
}

fn push_path(alloc: Global, out: &mut String, path: &[u32]) -> Result<(), NoMemory> {
    for input in path {
        out.push_str("/")?;
        push_number(alloc, out, *input)?;
    }
    Ok(())
}

fn push_rule(out: &mut String, rules: &[Box<dyn Rule>], at: u32) -> Result<(), NoMemory> {
    match rules.get(at as usize) {
        Some(rule) => Ok(out.push_str(name_of(rule))?),
        None => Ok(out.push_str("?")?),
    }
}

// The steps, each as `RULE PATH; `.
fn push_log(
    alloc: Global,
    out: &mut String,
    log: &[HepStep],
    rules: &[Box<dyn Rule>],
) -> Result<(), NoMemory> {
    for step in log {
        push_rule(out, rules, step.rule)?;
        out.push_str(" ")?;
        push_path(alloc, out, step.path.as_slice())?;
        out.push_str("; ")?;
    }
    Ok(())
}

fn record_text(
    alloc: Global,
    record: &HepRecord,
    order: &Collation,
    rules: &[Box<dyn Rule>],
) -> Result<String, NoMemory> {
    let mut out = String::new(alloc);
    push_log(alloc, &mut out, record.log.as_slice(), rules)?;
    push_tree(alloc, &mut out, &record.result)?;
    push_order(alloc, &mut out, order)?;
    Ok(out)
}

fn text_of(
    alloc: Global,
    record: HepRecord,
    order: &Collation,
    rules: &[Box<dyn Rule>],
) -> Result<String, NoMemory> {
    let text = record_text(alloc, &record, order, rules);
    drop(record);
    text
}

fn rewritten_text(
    alloc: Global,
    tree: Rel,
    order: &Collation,
    schema: &Schema,
    rules: &[Box<dyn Rule>],
) -> Result<String, NoMemory>
    requires well_formed { IsSome (type_of (info_of schema.now [] []) (tree_of tree)) }
    requires no_hole { EachHole (λ k. ⊥) (tree_of tree) }
{
    let tiles = List::new(alloc);
    let sets = List::new(alloc);
    let info = PlanInfo::new(schema, &tiles, &sets);
    match hep(alloc, rules, HEP_LIMIT, &info, tree) {
        Ok(record) => text_of(alloc, record, order, rules),
        Err(no_memory) => Err(no_memory),
    }
}

fn translated_text(
    alloc: Global,
    made: &CheckedSelect,
    schema: &Schema,
    rules: &[Box<dyn Rule>],
) -> Result<String, NoMemory>
    requires valid { IsValidSchema schema.now }
    requires formed { IsFormed made.now.select }
    requires accepted { IsAccepted schema.now made.now }
{
    let (tree, order) = translate(alloc, made, schema)?;
    rewritten_text(alloc, tree, &order, schema, rules)
}

fn translated(
    alloc: Global,
    made: CheckedSelect,
    schema: &Schema,
    rules: &[Box<dyn Rule>],
) -> Result<String, NoMemory>
    requires valid { IsValidSchema schema.now }
    requires formed { IsFormed made.select }
    requires accepted { IsAccepted schema.now made }
{
    let text = translated_text(alloc, &made, schema, rules);
    drop(made);
    text
}

fn no_tree(alloc: Global) -> Result<String, NoMemory> {
    Ok(String::new(alloc))
}

fn of_select(alloc: Global, made: CheckedSelect) -> Result<String, NoMemory> {
    drop(made);
    no_tree(alloc)
}

fn of_rows(alloc: Global, rows: List<Row>) -> Result<String, NoMemory> {
    drop(rows);
    no_tree(alloc)
}

fn of_refusal(alloc: Global, refusal: Refusal) -> Result<String, NoMemory> {
    drop(refusal);
    no_tree(alloc)
}

fn of_accepted(
    alloc: Global,
    made: Checked,
    schema: &Schema,
    rules: &[Box<dyn Rule>],
) -> Result<String, NoMemory>
    requires valid { IsValidSchema schema.now }
    requires ready { IsReady schema.now made }
{
    match made {
        Checked::Select(made) => translated(alloc, made, schema, rules),
        Checked::ExplainPlan(made) => of_select(alloc, made),
        Checked::ExplainMemo(made) => of_select(alloc, made),
        Checked::Insert { rows, .. } => of_rows(alloc, rows),
        Checked::Refresh { .. } => no_tree(alloc),
    }
}

fn of_answer(
    alloc: Global,
    answer: Result<Checked, Refusal>,
    schema: &Schema,
    rules: &[Box<dyn Rule>],
) -> Result<String, NoMemory>
    requires valid { IsValidSchema schema.now }
    requires ready { IfOk answer (IsReady schema.now) }
{
    match answer {
        Ok(made) => of_accepted(alloc, made, schema, rules),
        Err(refusal) => of_refusal(alloc, refusal),
    }
}

#[tactic(auto, using(crate::proofs::Spelled::ready_rules))]
fn of_statement(
    alloc: Global,
    tokens: &List<Token>,
    statement: Statement,
    schema: &Schema,
    rules: &[Box<dyn Rule>],
) -> Result<String, NoMemory>
    requires valid { IsValidSchema schema.now }
    requires spelled { Spells tokens.now statement }
{
    let _ = tokens;
    of_answer(alloc, validate(alloc, statement, schema), schema, rules)
}

// The steps by which the rules rewrite the tree of the SELECT, the tree after them, and its order.
fn told(alloc: Global, schema: &Schema, sql: &str, rules: &[Box<dyn Rule>]) -> Result<String, Fail>
    requires { IsValidSchema schema.now }
{
    let tokens = tokens(alloc, sql)?;
    match parse(alloc, &tokens) {
        Ok(statement) => Ok(of_statement(alloc, &tokens, statement, schema, rules)?),
        Err(_) => Err(Fail::new("no statement")),
    }
}

fn holds(alloc: Global, schema: &Schema, row: &str, rules: &[Box<dyn Rule>]) -> Result<bool, Fail>
    requires { IsValidSchema schema.now }
{
    match row.split_once(" => ") {
        Some((sql, text)) => {
            let told = told(alloc, schema, sql, rules)?;
            Ok(told.as_str() == text)
        }
        None => Ok(false),
    }
}

// The first row that doesn't hold; empty where there is none.
fn first_wrong(
    alloc: Global,
    table: &'static str,
    rules: &[Box<dyn Rule>],
) -> Result<&'static str, Fail> {
    let schema = schema(alloc)?;
    for row in table.lines() {
        let holds = holds(alloc, &schema, row, rules)?;
        if !holds {
            return Ok(row);
        }
    }
    Ok("")
}

#[test]
fn trees_of_selects(rt: HostRuntime) -> Result<(), Fail> {
    let rules: Vec<Box<dyn Rule>> = Vec::new(rt.alloc());
    let wrong = first_wrong(rt.alloc(), TREES, &rules)?;
    assert_eq!(rt; wrong, "");
    Ok(())
}

#[test]
fn steps_of_rules(rt: HostRuntime) -> Result<(), Fail> {
    let alloc = rt.alloc();
    let rules: [Box<dyn Rule>; 8] = [
        Box::new(alloc, ReduceExpressions::new())?,
        Box::new(alloc, PruneEmpty::new())?,
        Box::new(alloc, FilterMerge::new())?,
        Box::new(alloc, FilterProjectTranspose::new())?,
        Box::new(alloc, FilterIntoJoin::new())?,
        Box::new(alloc, FilterAggregateTranspose::new())?,
        Box::new(alloc, ProjectMerge::new())?,
        Box::new(alloc, ProjectRemove::new())?,
    ];
    let wrong = first_wrong(alloc, STEPS, &rules)?;
    assert_eq!(rt; wrong, "");
    Ok(())
}
