//! Steps on a memo, and what it then is, as texts.
//!
//! A tree stands with its inputs before its nodes: `s` and `u` scan the tables 0 and 1, `f` filters by $0 > 1, `p` projects $0, `j` joins on
//! TRUE, a digit is the hole of that set. So `spf` is Filter(Project(Scan)). A step is a tree, which is seeded, or `2=TREE`, which
//! registers the tree in the set 2.
ghost use Rattle.std.specs.Prelude.{IfOk};
ghost use Rattle.memo_sets.specs.Seen.{sets_of, HasRoom};

use crate::{MEMBER_LIMIT, Member, Memo, MemoFault, Registered};
use cal_expr::Expr;
use cal_rel::{JoinKind, PlanInfo, Rel, RelType};
use cal_schema::{AdapterKind, ColumnDef, Schema, TableDef};
use cal_value::{Interval, List, NoMemory, Op, SqlText, SqlType, Value};
use std::alloc::Global;
use std::test::Fail;

// ---- tables

fn column(alloc: Global, hi: i128) -> Result<ColumnDef, Fail> {
    let kind = SqlType::integer(false, Interval::Range { lo: 1, hi });
    let name = SqlText::of(alloc, "A")?;
    Ok(ColumnDef { name, kind })
}

fn table(alloc: Global, name: &str, max_rows: u64, hi: i128) -> Result<TableDef, Fail> {
    let mut columns = List::new(alloc);
    columns.push(column(alloc, hi)?)?;
    Ok(TableDef {
        schema: SqlText::of(alloc, "")?,
        name: SqlText::of(alloc, name)?,
        columns,
        adapter: AdapterKind::Mem,
        file: SqlText::of(alloc, "")?,
        max_rows,
        primary_key: List::new(alloc),
    })
}

// T has at most 10 rows of a number up to 9, U at most 3 of one up to 20.
fn schema(alloc: Global) -> Result<Schema, Fail> {
    let mut tables = List::new(alloc);
    tables.push(table(alloc, "T", 10, 9)?)?;
    tables.push(table(alloc, "U", 3, 20)?)?;
    Ok(Schema {
        default_schema: None,
        tables,
    })
}

// ---- trees

fn above_one(alloc: Global, input: Rel) -> Result<Rel, NoMemory> {
    let one = Expr::Literal(Value::Int(1));
    let predicate = Expr::binary(alloc, Op::Greater, Expr::Column(0), one)?;
    Rel::filter(alloc, input, predicate)
}

fn first_column(alloc: Global, input: Rel) -> Result<Rel, NoMemory> {
    let mut items = List::new(alloc);
    items.push(Expr::Column(0))?;
    Rel::project(alloc, input, items)
}

fn joined(alloc: Global, left: Rel, right: Rel) -> Result<Rel, NoMemory> {
    let on = Expr::Literal(Value::Bool(true));
    Rel::join(alloc, JoinKind::Inner, left, right, on)
}

fn input(trees: &mut List<Rel>) -> Rel {
    match trees.pop() {
        Some(tree) => tree,
        None => Rel::Scan(9),
    }
}

fn node(alloc: Global, trees: &mut List<Rel>, sign: u8) -> Result<Rel, NoMemory> {
    match sign {
        b's' => Ok(Rel::Scan(0)),
        b'u' => Ok(Rel::Scan(1)),
        b'f' => above_one(alloc, input(trees)),
        b'p' => first_column(alloc, input(trees)),
        b'j' => {
            let right = input(trees);
            joined(alloc, input(trees), right)
        }
        digit => Ok(Rel::Hole(digit.saturating_sub(b'0') as u32)),
    }
}

fn tree(alloc: Global, text: &str) -> Result<Rel, NoMemory> {
    let mut trees = List::new(alloc);
    for sign in text.as_bytes() {
        let node = node(alloc, &mut trees, *sign)?;
        trees.push(node)?;
    }
    Ok(input(&mut trees))
}

// ---- steps

fn push_number(out: &mut String, number: u32) -> Result<(), NoMemory> {
    let text = match number {
        0 => "0",
        1 => "1",
        2 => "2",
        3 => "3",
        4 => "4",
        5 => "5",
        6 => "6",
        7 => "7",
        8 => "8",
        9 => "9",
        10 => "10",
        20 => "20",
        30 => "30",
        1023 => "1023",
        1024 => "1024",
        _ => "?",
    };
    out.push_str(text)?;
    Ok(())
}

fn push_fault(out: &mut String, fault: MemoFault) -> Result<(), NoMemory> {
    match fault {
        MemoFault::MemoFull { .. } => Ok(out.push_str(" full")?),
        MemoFault::NoMemory => Err(NoMemory),
    }
}

fn push_registered(out: &mut String, answer: Registered) -> Result<(), NoMemory> {
    match answer {
        Registered::Added(set) => {
            out.push_str(" added ")?;
            push_number(out, set)
        }
        Registered::Known(set) => {
            out.push_str(" known ")?;
            push_number(out, set)
        }
        Registered::Merged { kept, gone } => {
            out.push_str(" merged ")?;
            push_number(out, kept)?;
            push_number(out, gone)
        }
    }
}

fn seed(
    alloc: Global,
    memo: &mut Memo,
    info: &PlanInfo,
    rel: Rel,
    out: &mut String,
) -> Result<(), NoMemory>
    requires { HasRoom (sets_of memo.old) }
    ensures { HasRoom (sets_of memo.new) }
{
    let answer = memo.seeded(alloc, &rel, info);
    drop(rel);
    match answer {
        Ok(set) => {
            out.push_str(" ")?;
            push_number(out, set)
        }
        Err(fault) => push_fault(out, fault),
    }
}

fn register(
    alloc: Global,
    memo: &mut Memo,
    info: &PlanInfo,
    set: u32,
    rel: Rel,
    out: &mut String,
) -> Result<(), NoMemory>
    requires { HasRoom (sets_of memo.old) }
    ensures { HasRoom (sets_of memo.new) }
{
    let answer = memo.registered(alloc, set, &rel, info);
    drop(rel);
    match answer {
        Ok(answer) => push_registered(out, answer),
        Err(fault) => push_fault(out, fault),
    }
}

fn number(text: &str) -> u32 {
    match text.as_bytes().first() {
        Some(digit) => digit.saturating_sub(b'0') as u32,
        None => 0,
    }
}

fn step(
    alloc: Global,
    memo: &mut Memo,
    info: &PlanInfo,
    step: &str,
    out: &mut String,
) -> Result<(), NoMemory>
    requires { HasRoom (sets_of memo.old) }
    ensures { HasRoom (sets_of memo.new) }
{
    match step.split_once('=') {
        Some((set, text)) => {
            let rel = tree(alloc, text)?;
            register(alloc, memo, info, number(set), rel, out)
        }
        None => {
            let rel = tree(alloc, step)?;
            seed(alloc, memo, info, rel, out)
        }
    }
}

// ---- what a memo is

fn push_hole(out: &mut String, rel: &Rel) -> Result<(), NoMemory> {
    match rel {
        Rel::Hole(set) => push_number(out, *set),
        _ => Ok(out.push_str("?")?),
    }
}

fn push_node(out: &mut String, rel: &Rel) -> Result<(), NoMemory> {
    match rel {
        Rel::Scan(0) => Ok(out.push_str("s")?),
        Rel::Scan(_) => Ok(out.push_str("u")?),
        Rel::Filter { input, .. } => {
            push_hole(out, input.get())?;
            Ok(out.push_str("f")?)
        }
        Rel::Project { input, .. } => {
            push_hole(out, input.get())?;
            Ok(out.push_str("p")?)
        }
        Rel::Join { left, right, .. } => {
            push_hole(out, left.get())?;
            push_hole(out, right.get())?;
            Ok(out.push_str("j")?)
        }
        _ => Ok(out.push_str("?")?),
    }
}

// The members, as ` SET:NODE`.
fn push_members(out: &mut String, members: &List<Member>) -> Result<(), NoMemory> {
    for member in members.as_slice() {
        out.push_str(" ")?;
        push_number(out, member.set)?;
        out.push_str(":")?;
        push_node(out, &member.rel)?;
    }
    Ok(())
}

fn greatest(t: &RelType) -> u32 {
    match t.columns.get(0) {
        Some(column) => match column.interval {
            Interval::Range { hi, .. } => hi.clamp(0, 1000) as u32,
            Interval::Never => 0,
        },
        None => 0,
    }
}

fn push_type(out: &mut String, t: &Option<RelType>) -> Result<(), NoMemory> {
    match t {
        Some(t) => {
            push_number(out, t.bound.min(1000) as u32)?;
            out.push_str("/")?;
            push_number(out, greatest(t))
        }
        None => Ok(out.push_str("-")?),
    }
}

// The types of the sets, each by its bound of rows and the greatest number of its first column, `-` for a number that is gone.
fn push_types(out: &mut String, types: &List<Option<RelType>>) -> Result<(), NoMemory> {
    for t in types.as_slice() {
        out.push_str(" ")?;
        push_type(out, t)?;
    }
    Ok(())
}

// What each number has become, up to the first that was never made.
fn push_numbers(out: &mut String, memo: &Memo) -> Result<(), NoMemory> {
    for k in 0..10 {
        match memo.now(k) {
            Some(now) => {
                out.push_str(" ")?;
                push_number(out, now)?;
            }
            None => return Ok(()),
        }
    }
    Ok(())
}

fn push_memo(out: &mut String, memo: &Memo) -> Result<(), NoMemory> {
    out.push_str(" |")?;
    push_members(out, memo.members())?;
    out.push_str(" |")?;
    push_types(out, memo.types())?;
    out.push_str(" |")?;
    push_numbers(out, memo)?;
    out.push_str(" | ")?;
    push_number(out, memo.added())
}

// A memo with nothing in it, to which so many members seem to have been added.
fn empty(alloc: Global, added: u32) -> Memo
    ensures { HasRoom (sets_of result) }
{
    let mut memo = Memo::new(alloc);
    memo.added = added.min(MEMBER_LIMIT);
    memo
}

// The answers to the steps, and the memo after them: members, types, numbers, and how many members were added.
fn told(alloc: Global, info: &PlanInfo, added: u32, steps: &str) -> Result<String, NoMemory> {
    let mut out = String::new(alloc);
    let mut memo = empty(alloc, added);
    for text in steps.split(' ') {
        step(alloc, &mut memo, info, text, &mut out)?;
    }
    push_memo(&mut out, &memo)?;
    drop(memo);
    Ok(out)
}

fn holds(alloc: Global, info: &PlanInfo, added: u32, row: &str) -> Result<bool, NoMemory> {
    match row.split_once(" =>") {
        Some((steps, text)) => {
            let told = told(alloc, info, added, steps)?;
            Ok(told.as_str() == text)
        }
        None => Ok(false),
    }
}

// The first row that doesn't hold where so many members seem to have been added before; empty where there is none.
pub(crate) fn first_wrong(
    alloc: Global,
    added: u32,
    table: &'static str,
) -> Result<&'static str, Fail> {
    let schema = schema(alloc)?;
    let (tiles, sets) = (List::new(alloc), List::new(alloc));
    let info = PlanInfo::new(&schema, &tiles, &sets);
    for row in table.lines() {
        let holds = holds(alloc, &info, added, row)?;
        if !holds {
            return Ok(row);
        }
    }
    Ok("")
}
