//! Trees as words: the inputs of a node, then its expressions, then the node.
use cal_expr::Expr;
use cal_rel::{AggCall, JoinKind, Rel};
use cal_value::{Agg, Interval, List, NoMemory, Op, SqlText, SqlType, Value};
use std::alloc::Global;
use std::mem;

/// What the words so far have left for the next node.
#[derive(Drop)]
struct Stacks {
    trees: List<Rel>,
    parts: List<Expr>,
    groups: List<u32>,
    calls: List<AggCall>,
    types: List<SqlType>,
}

fn op_of(word: &str) -> Option<Op> {
    match word {
        "+" => Some(Op::Add),
        "-" => Some(Op::Subtract),
        "*" => Some(Op::Multiply),
        "/" => Some(Op::Divide),
        "=" => Some(Op::Equal),
        "<>" => Some(Op::NotEqual),
        "<" => Some(Op::Less),
        ">" => Some(Op::Greater),
        "AND" => Some(Op::And),
        "OR" => Some(Op::Or),
        _ => None,
    }
}

fn agg_of(word: &str) -> Option<Agg> {
    match word {
        "COUNT" => Some(Agg::Count),
        "SUM" => Some(Agg::Sum),
        "SUM0" => Some(Agg::Sum0),
        "MIN" => Some(Agg::Min),
        "MAX" => Some(Agg::Max),
        _ => None,
    }
}

fn type_of(word: &str) -> Option<SqlType> {
    match word {
        "integer" => Some(SqlType::integer(false, Interval::Never)),
        "boolean" => Some(SqlType::boolean(false)),
        "text" => Some(SqlType::text(false)),
        _ => None,
    }
}

// A number behind this letter.
fn number_after(word: &str, letter: char) -> Option<u32> {
    word.strip_prefix(letter)?.parse::<u32>().ok()
}

fn literal_of(alloc: Global, word: &str) -> Option<Value> {
    match word {
        "TRUE" => Some(Value::Bool(true)),
        "FALSE" => Some(Value::Bool(false)),
        "'x'" => SqlText::of(alloc, "x").ok().map(Value::Text),
        _ => word.parse::<i128>().ok().map(Value::Int),
    }
}

// ---- expressions

fn push_over_both(
    alloc: Global,
    parts: &mut List<Expr>,
    op: Op,
    right: Expr,
) -> Result<bool, NoMemory> {
    match parts.pop() {
        Some(left) => {
            parts.push(Expr::binary(alloc, op, left, right)?)?;
            Ok(true)
        }
        None => Ok(false),
    }
}

fn push_binary(alloc: Global, parts: &mut List<Expr>, op: Op) -> Result<bool, NoMemory> {
    match parts.pop() {
        Some(right) => push_over_both(alloc, parts, op, right),
        None => Ok(false),
    }
}

fn over(alloc: Global, word: &str, operand: Expr) -> Result<Expr, NoMemory> {
    match word {
        "NOT" => Expr::not(alloc, operand),
        "ISNULL" => Expr::is_null(alloc, operand),
        _ => Expr::negate(alloc, operand),
    }
}

fn push_over(alloc: Global, parts: &mut List<Expr>, word: &str) -> Result<bool, NoMemory> {
    match parts.pop() {
        Some(operand) => {
            parts.push(over(alloc, word, operand)?)?;
            Ok(true)
        }
        None => Ok(false),
    }
}

fn push_leaf(alloc: Global, parts: &mut List<Expr>, word: &str) -> Result<bool, NoMemory> {
    if let Some(column) = number_after(word, '$') {
        parts.push(Expr::Column(column))?;
        return Ok(true);
    }
    match literal_of(alloc, word) {
        Some(value) => {
            parts.push(Expr::Literal(value))?;
            Ok(true)
        }
        None => Ok(false),
    }
}

fn push_part(alloc: Global, parts: &mut List<Expr>, word: &str) -> Result<bool, NoMemory> {
    if let Some(op) = op_of(word) {
        return push_binary(alloc, parts, op);
    }
    match word {
        "NOT" | "ISNULL" | "NEGATE" => push_over(alloc, parts, word),
        _ => push_leaf(alloc, parts, word),
    }
}

// ---- aggregates

fn push_call(calls: &mut List<AggCall>, word: &str) -> Result<bool, NoMemory> {
    let (name, argument) = match word.split_once(':') {
        Some((name, column)) => (name, column.parse::<u32>().ok()),
        None => (word, None),
    };
    match agg_of(name) {
        Some(agg) => {
            calls.push(AggCall { agg, argument })?;
            Ok(true)
        }
        None => Ok(false),
    }
}

// ---- nodes

fn filtered(alloc: Global, trees: &mut List<Rel>, predicate: Expr) -> Result<bool, NoMemory> {
    match trees.pop() {
        Some(input) => {
            trees.push(Rel::filter(alloc, input, predicate)?)?;
            Ok(true)
        }
        None => Ok(false),
    }
}

fn push_filter(alloc: Global, stacks: &mut Stacks) -> Result<bool, NoMemory> {
    match stacks.parts.pop() {
        Some(predicate) => filtered(alloc, &mut stacks.trees, predicate),
        None => Ok(false),
    }
}

fn push_project(alloc: Global, stacks: &mut Stacks) -> Result<bool, NoMemory> {
    let items = mem::replace(&mut stacks.parts, List::new(alloc));
    match stacks.trees.pop() {
        Some(input) => {
            stacks.trees.push(Rel::project(alloc, input, items)?)?;
            Ok(true)
        }
        None => Ok(false),
    }
}

fn push_aggregate(alloc: Global, stacks: &mut Stacks) -> Result<bool, NoMemory> {
    let groups = mem::replace(&mut stacks.groups, List::new(alloc));
    let calls = mem::replace(&mut stacks.calls, List::new(alloc));
    match stacks.trees.pop() {
        Some(input) => {
            stacks
                .trees
                .push(Rel::aggregate(alloc, input, groups, calls)?)?;
            Ok(true)
        }
        None => Ok(false),
    }
}

fn joined(
    alloc: Global,
    trees: &mut List<Rel>,
    kind: JoinKind,
    on: Expr,
    right: Rel,
) -> Result<bool, NoMemory> {
    match trees.pop() {
        Some(left) => {
            trees.push(Rel::join(alloc, kind, left, right, on)?)?;
            Ok(true)
        }
        None => Ok(false),
    }
}

fn joined_on(
    alloc: Global,
    trees: &mut List<Rel>,
    kind: JoinKind,
    on: Expr,
) -> Result<bool, NoMemory> {
    match trees.pop() {
        Some(right) => joined(alloc, trees, kind, on, right),
        None => Ok(false),
    }
}

fn push_join(alloc: Global, stacks: &mut Stacks, kind: JoinKind) -> Result<bool, NoMemory> {
    match stacks.parts.pop() {
        Some(on) => joined_on(alloc, &mut stacks.trees, kind, on),
        None => Ok(false),
    }
}

fn push_empty(alloc: Global, stacks: &mut Stacks) -> Result<bool, NoMemory> {
    let types = mem::replace(&mut stacks.types, List::new(alloc));
    stacks.trees.push(Rel::Empty(types))?;
    Ok(true)
}

fn push_word(alloc: Global, stacks: &mut Stacks, word: &str) -> Result<bool, NoMemory> {
    if let Some(table) = number_after(word, 'T') {
        stacks.trees.push(Rel::Scan(table))?;
        return Ok(true);
    }
    if let Some(set) = number_after(word, 'H') {
        stacks.trees.push(Rel::Hole(set))?;
        return Ok(true);
    }
    if let Some(group) = number_after(word, '#') {
        stacks.groups.push(group)?;
        return Ok(true);
    }
    if let Some(t) = type_of(word) {
        stacks.types.push(t)?;
        return Ok(true);
    }
    Ok(push_call(&mut stacks.calls, word)? || push_part(alloc, &mut stacks.parts, word)?)
}

// Whether the word is one of a tree.
fn read_word(alloc: Global, stacks: &mut Stacks, word: &str) -> Result<bool, NoMemory> {
    match word {
        "filter" => push_filter(alloc, stacks),
        "project" => push_project(alloc, stacks),
        "aggregate" => push_aggregate(alloc, stacks),
        "inner" => push_join(alloc, stacks, JoinKind::Inner),
        "left" => push_join(alloc, stacks, JoinKind::Left),
        "empty" => push_empty(alloc, stacks),
        _ => push_word(alloc, stacks, word),
    }
}

fn is_one_tree(stacks: &Stacks) -> bool {
    stacks.trees.len() == 1
        && stacks.parts.is_empty()
        && stacks.groups.is_empty()
        && stacks.calls.is_empty()
        && stacks.types.is_empty()
}

// The one tree that is left, where nothing else is.
fn only_tree(stacks: &mut Stacks) -> Option<Rel> {
    if is_one_tree(stacks) {
        stacks.trees.pop()
    } else {
        None
    }
}

fn no_words(alloc: Global) -> Stacks {
    Stacks {
        trees: List::new(alloc),
        parts: List::new(alloc),
        groups: List::new(alloc),
        calls: List::new(alloc),
        types: List::new(alloc),
    }
}

// Whether each word is one of a tree.
fn read_words(alloc: Global, stacks: &mut Stacks, text: &str) -> Result<bool, NoMemory> {
    for word in text.split(' ') {
        if !read_word(alloc, stacks, word)? {
            return Ok(false);
        }
    }
    Ok(true)
}

fn read_tree(alloc: Global, stacks: &mut Stacks, text: &str) -> Result<Option<Rel>, NoMemory> {
    if read_words(alloc, stacks, text)? {
        Ok(only_tree(stacks))
    } else {
        Ok(None)
    }
}

/// The tree of these words; None where they are none of one tree. `T0` is a scan, `H0` a hole, `$0` a column, `#0` a group. A
/// node takes the trees, and all expressions, groups or types, that its words before it left.
pub(crate) fn read(alloc: Global, text: &str) -> Result<Option<Rel>, NoMemory> {
    let mut stacks = no_words(alloc);
    let tree = read_tree(alloc, &mut stacks, text);
    drop(stacks);
    tree
}
