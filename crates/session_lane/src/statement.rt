//! The reply to a statement's text.
ghost use Rattle.std.specs.Prelude.{◌≡◌, ◌≢◌, IfOk, IfErr, OnOk, None, map, []};
ghost use Rattle.std.specs.Str.{chars};
ghost use Rattle.cal_schema.specs.Fits.{Fits};
ghost use Rattle.cal_schema.specs.Valid.{IsValidSchema};
ghost use Rattle.cal_schema.specs.declared.refusal.Refusal.TheVariants as refused;
ghost use Rattle.sql_algebra.specs.Formed.{IsFormed};
ghost use Rattle.sql_parser.specs.Answers.{IsStatement, IsWithinLimits};
ghost use Rattle.sql_parser.specs.Grammar.{Spells};
ghost use Rattle.plan_scans.specs.Scans.{tables_of};
ghost use Rattle.sql_tree.specs.declared.statement.Statement.TheVariants.{Select as SelectOf, ExplainPlan, ExplainMemo};
ghost use Rattle.sql_validator.specs.Checked.{IsChecked};
ghost use Rattle.sql_validator.specs.Refusal.{explain_tokens};
ghost use Rattle.sql_validator.specs.declared.checked.Checked.TheVariants as checked;
ghost use Rattle.session_lane.specs.declared.reply.Cause.TheVariants as causes;
ghost use Rattle.session_lane.specs.declared.reply.Reply.TheVariants as replies;
ghost use Rattle.session_lane.specs.Replies.{Answers, IsReplyTo};
ghost use Rattle.session_lane.specs.Statements.{IsNoStatement, IsParseRefusal, IsOfSelect, IsOfPlan, IsOfMemo, IsFormedStatement};

use crate::answer::answer_select;
use crate::reply::{Cause, Reply};
use cal_schema::{Refusal, Schema};
use cal_snapshot::Snapshot;
use cal_value::{List, NoMemory};
use rule_hep::Rule;
use select_planning::plan_select;
use sql_parser::{ParseFault, parse};
use sql_text::{Token, TokenFault, tokens};
use sql_tree::{Select, Statement};
use sql_validator::{Checked, CheckedSelect, validate};
use std::alloc::Global;

fn parsed(alloc: Global, tokens: &List<Token>) -> Result<Statement, Refusal>
    ensures within { OnOk result (IsWithinLimits tokens.now) }
    ensures spelled { IfOk result (λ statement. Spells tokens.now statement) }
    ensures fault { IfErr result (λ cause. IsParseRefusal tokens.now cause) }
{
    match parse(alloc, tokens) {
        Ok(statement) => Ok(statement),
        Err(ParseFault::TooDeep { limit }) => Err(Refusal::TooDeep { limit }),
        Err(ParseFault::TooManyOperators { limit }) => Err(Refusal::TooManyOperators { limit }),
        Err(ParseFault::NotSql) => Err(Refusal::NotSql),
        Err(ParseFault::NoMemory) => Err(Refusal::NoMemory),
    }
}

// The statement that a text is.
fn statement_of(alloc: Global, text: &str) -> Result<Statement, Refusal>
    ensures statement { IfOk result (IsStatement (chars text.now)) }
    ensures fault { IfErr result (λ cause.
        cause ≢ refused.NoMemory → IsNoStatement (chars text.now) cause) }
{
    match tokens(alloc, text) {
        Ok(tokens) => parsed(alloc, &tokens),
        Err(TokenFault::NotToken { at }) => Err(Refusal::NotToken { at }),
        Err(TokenFault::NoMemory) => Err(Refusal::NoMemory),
    }
}

fn refused(cause: Refusal) -> Result<Reply, NoMemory>
    ensures reply { IfOk result (λ reply. reply ≡ replies.Refused None (causes.Text cause)) }
    ensures not_memory { OnOk result (cause ≢ refused.NoMemory) }
{
    match cause {
        Refusal::NoMemory => Err(NoMemory),
        cause => Ok(Reply::Refused {
            at: None,
            cause: Cause::Text(cause),
        }),
    }
}

// The SELECT of an accepted statement that is one.
fn select_of(made: Checked) -> CheckedSelect
    requires { IsOfSelect made }
    ensures { made ≡ checked.Select result }
{
    match made {
        Checked::Select(made) => made,
        _ => unreachable!(),
    }
}

// The SELECT of an accepted EXPLAIN PLAN.
fn select_of_plan(made: Checked) -> CheckedSelect
    requires { IsOfPlan made }
    ensures { made ≡ checked.ExplainPlan result }
{
    match made {
        Checked::ExplainPlan(made) => made,
        _ => unreachable!(),
    }
}

// The SELECT of an accepted EXPLAIN MEMO.
fn select_of_memo(made: Checked) -> CheckedSelect
    requires { IsOfMemo made }
    ensures { made ≡ checked.ExplainMemo result }
{
    match made {
        Checked::ExplainMemo(made) => made,
        _ => unreachable!(),
    }
}

// The rows of an accepted SELECT.
fn reply_to_accepted(
    alloc: Global,
    made: CheckedSelect,
    schema: &Schema,
    snapshot: &Snapshot,
    rules: &[Box<dyn Rule>],
    budget: u32,
) -> Result<Reply, NoMemory>
    requires formed { IsFormed made.select }
    requires checked { IsChecked schema.now 0 made.select made }
    requires valid { IsValidSchema schema.now }
    requires fits { Fits (tables_of snapshot.now) schema.now }
    requires tiles { snapshot.now.tiles ≡ [] }
    ensures { IfOk result (Answers (map (λ b. meaning b) rules.now) budget schema.now
        snapshot.now (SelectOf made.select)) }
{
    let answer = answer_select(alloc, &made, schema, snapshot, rules, budget)?;
    Ok(Reply::Rows {
        at: 0,
        names: made.names,
        answer,
    })
}

fn reply_to_select(
    alloc: Global,
    select: Select,
    schema: &Schema,
    snapshot: &Snapshot,
    rules: &[Box<dyn Rule>],
    budget: u32,
) -> Result<Reply, NoMemory>
    requires formed { IsFormed select }
    requires valid { IsValidSchema schema.now }
    requires fits { Fits (tables_of snapshot.now) schema.now }
    requires tiles { snapshot.now.tiles ≡ [] }
    ensures { IfOk result (Answers (map (λ b. meaning b) rules.now) budget schema.now
        snapshot.now (SelectOf select)) }
{
    match validate(alloc, Statement::Select(select), schema) {
        Ok(made) => reply_to_accepted(alloc, select_of(made), schema, snapshot, rules, budget),
        Err(cause) => refused(cause),
    }
}

// The plan of an accepted SELECT.
#[tactic(auto, using(crate::proofs::Answered::tile_rules))]
fn plan_of_accepted(
    alloc: Global,
    made: CheckedSelect,
    schema: &Schema,
    snapshot: &Snapshot,
    rules: &[Box<dyn Rule>],
    budget: u32,
) -> Result<Reply, NoMemory>
    requires formed { IsFormed made.select }
    requires checked { IsChecked schema.now explain_tokens made.select made }
    requires valid { IsValidSchema schema.now }
    requires tiles { snapshot.now.tiles ≡ [] }
    ensures { IfOk result (Answers (map (λ b. meaning b) rules.now) budget schema.now
        snapshot.now (ExplainPlan made.select)) }
{
    let planning = plan_select(alloc, &made, schema, snapshot, rules, budget)?;
    Ok(Reply::Plan { at: 0, planning })
}

fn reply_to_plan(
    alloc: Global,
    select: Select,
    schema: &Schema,
    snapshot: &Snapshot,
    rules: &[Box<dyn Rule>],
    budget: u32,
) -> Result<Reply, NoMemory>
    requires formed { IsFormed select }
    requires valid { IsValidSchema schema.now }
    requires tiles { snapshot.now.tiles ≡ [] }
    ensures { IfOk result (Answers (map (λ b. meaning b) rules.now) budget schema.now
        snapshot.now (ExplainPlan select)) }
{
    match validate(alloc, Statement::ExplainPlan(select), schema) {
        Ok(made) => plan_of_accepted(alloc, select_of_plan(made), schema, snapshot, rules, budget),
        Err(cause) => refused(cause),
    }
}

// The memo of an accepted SELECT.
#[tactic(auto, using(crate::proofs::Answered::tile_rules))]
fn memo_of_accepted(
    alloc: Global,
    made: CheckedSelect,
    schema: &Schema,
    snapshot: &Snapshot,
    rules: &[Box<dyn Rule>],
    budget: u32,
) -> Result<Reply, NoMemory>
    requires formed { IsFormed made.select }
    requires checked { IsChecked schema.now explain_tokens made.select made }
    requires valid { IsValidSchema schema.now }
    requires tiles { snapshot.now.tiles ≡ [] }
    ensures { IfOk result (Answers (map (λ b. meaning b) rules.now) budget schema.now
        snapshot.now (ExplainMemo made.select)) }
{
    let planning = plan_select(alloc, &made, schema, snapshot, rules, budget)?;
    Ok(Reply::Memo { at: 0, planning })
}

fn reply_to_memo(
    alloc: Global,
    select: Select,
    schema: &Schema,
    snapshot: &Snapshot,
    rules: &[Box<dyn Rule>],
    budget: u32,
) -> Result<Reply, NoMemory>
    requires formed { IsFormed select }
    requires valid { IsValidSchema schema.now }
    requires tiles { snapshot.now.tiles ≡ [] }
    ensures { IfOk result (Answers (map (λ b. meaning b) rules.now) budget schema.now
        snapshot.now (ExplainMemo select)) }
{
    match validate(alloc, Statement::ExplainMemo(select), schema) {
        Ok(made) => memo_of_accepted(alloc, select_of_memo(made), schema, snapshot, rules, budget),
        Err(cause) => refused(cause),
    }
}

fn reply_to_statement(
    alloc: Global,
    statement: Statement,
    schema: &Schema,
    snapshot: &Snapshot,
    rules: &[Box<dyn Rule>],
    budget: u32,
) -> Result<Reply, NoMemory>
    requires formed { IsFormedStatement statement }
    requires valid { IsValidSchema schema.now }
    requires fits { Fits (tables_of snapshot.now) schema.now }
    requires tiles { snapshot.now.tiles ≡ [] }
    ensures { IfOk result (Answers (map (λ b. meaning b) rules.now) budget schema.now
        snapshot.now statement) }
{
    match statement {
        Statement::Select(select) => {
            reply_to_select(alloc, select, schema, snapshot, rules, budget)
        }
        Statement::ExplainPlan(select) => {
            reply_to_plan(alloc, select, schema, snapshot, rules, budget)
        }
        Statement::ExplainMemo(select) => {
            reply_to_memo(alloc, select, schema, snapshot, rules, budget)
        }
        Statement::Insert { .. } => refused(Refusal::NotAQuery),
        Statement::Refresh { .. } => refused(Refusal::NotAQuery),
        Statement::CreateTile(_) => refused(Refusal::NotAQuery),
        Statement::DropTile(_) => refused(Refusal::NotAQuery),
        Statement::ChooseTiles { .. } => refused(Refusal::NotAQuery),
    }
}

/// The reply to a text over a snapshot without tiles: rows where it is a SELECT that is answered, the plan or the memo where it explains one, and
/// otherwise the first cause why it isn't answered. The schema is valid, and the tables of the snapshot fit it. The SELECT is planned by the
/// rules, which come in the order of the list, with at most `budget` firings.
pub fn reply_to(
    alloc: Global,
    text: &str,
    schema: &Schema,
    snapshot: &Snapshot,
    rules: &[Box<dyn Rule>],
    budget: u32,
) -> Result<Reply, NoMemory>
    requires valid { IsValidSchema schema.now }
    requires fits { Fits (tables_of snapshot.now) schema.now }
    requires tiles { snapshot.now.tiles ≡ [] }
    ensures { IfOk result (IsReplyTo (map (λ b. meaning b) rules.now) budget schema.now
        snapshot.now (chars text.now)) }
{
    match statement_of(alloc, text) {
        Ok(statement) => reply_to_statement(alloc, statement, schema, snapshot, rules, budget),
        Err(cause) => refused(cause),
    }
}
