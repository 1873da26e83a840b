//! What stands in brackets behind the name of a node.
ghost use Rattle.std.specs.Prelude.{◌≡◌, ◌++◌, OnOk, List as ListOf, ℕ, string_bytes};
ghost use Rattle.script_text.specs.Values.{more};
ghost use Rattle.explain_text.specs.Details as spec;
ghost use Rattle.explain_text.specs.Expressions.{column_text, expression_text};

use crate::expressions::{push_column, push_expression};
use cal_expr::Expr;
use cal_schema::{AggCall, JoinKind, Schema};
use cal_value::{Agg, Collation, KeyOrder, List, NoMemory};
use script_text::{push_table_name, push_text};

// ---- lists

/// What stands in a list of details.
pub(crate) trait Print {
    ghost text: { Self → ListOf ℕ };

    fn print(&self, out: &mut String) -> Result<(), NoMemory>
        ensures { OnOk result (string_bytes out.new ≡ string_bytes out.old ++ text self.now) };
}

/// A column.
impl Print for u32 {
    ghost text = { column_text };

    fn print(&self, out: &mut String) -> Result<(), NoMemory> {
        push_column(out, *self)
    }
}

impl Print for Expr {
    ghost text = { expression_text };

    fn print(&self, out: &mut String) -> Result<(), NoMemory> {
        push_expression(out, self)
    }
}

fn push_more<T: Print>(out: &mut String, items: &[T]) -> Result<(), NoMemory>
    ensures { OnOk result (string_bytes out.new ≡ string_bytes out.old ++ more T.text items.now) }
{
    for item in items {
        out.push_str(", ")?;
        item.print(out)?;
    }
    Ok(())
}

// The items with commas between them.
fn push_listed<T: Print>(out: &mut String, items: &[T]) -> Result<(), NoMemory>
    ensures { OnOk result (string_bytes out.new ≡ string_bytes out.old ++ spec.listed T.text items.now) }
{
    if let [first, rest @ ..] = items {
        first.print(out)?;
        push_more(out, rest)?;
    }
    Ok(())
}

// ---- aggregates

fn agg_text(agg: Agg) -> &'static str
    ensures { result.now ≡ spec.agg_text agg }
{
    match agg {
        Agg::Count => "COUNT",
        Agg::Sum => "SUM",
        Agg::Sum0 => "SUM0",
        Agg::Min => "MIN",
        Agg::Max => "MAX",
    }
}

fn push_argument(out: &mut String, argument: Option<u32>) -> Result<(), NoMemory>
    ensures { OnOk result (string_bytes out.new ≡ string_bytes out.old ++ spec.argument_text argument) }
{
    match argument {
        Some(at) => push_column(out, at),
        None => push_text(out, "*"),
    }
}

impl Print for AggCall {
    ghost text = { spec.call_text };

    fn print(&self, out: &mut String) -> Result<(), NoMemory> {
        out.push_str(agg_text(self.agg))?;
        out.push_str("(")?;
        push_argument(out, self.argument)?;
        push_text(out, ")")
    }
}

// ---- orders

fn direction_text(descending: bool) -> &'static str
    ensures { result.now ≡ spec.direction_text descending }
{
    if descending { " DESC" } else { " ASC" }
}

fn nulls_text(nulls_first: bool) -> &'static str
    ensures { result.now ≡ spec.nulls_text nulls_first }
{
    if nulls_first {
        " NULLS FIRST"
    } else {
        " NULLS LAST"
    }
}

impl Print for KeyOrder {
    ghost text = { spec.key_text };

    fn print(&self, out: &mut String) -> Result<(), NoMemory> {
        push_column(out, self.column)?;
        out.push_str(direction_text(self.descending))?;
        push_text(out, nulls_text(self.nulls_first))
    }
}

// ---- nodes with their details

fn push_table(out: &mut String, schema: &Schema, table: u32) -> Result<(), NoMemory>
    ensures { OnOk result (string_bytes out.new ≡ string_bytes out.old ++ spec.table_name schema.now table) }
{
    match schema.tables.get(table as usize) {
        Some(table) => push_table_name(out, &table.schema, &table.name),
        None => Ok(()),
    }
}

/// Adds a node that reads a table. Nothing stands in its brackets where the table isn't there.
pub(crate) fn push_scan(
    out: &mut String,
    name: &str,
    schema: &Schema,
    table: u32,
) -> Result<(), NoMemory>
    ensures { OnOk result (string_bytes out.new ≡ string_bytes out.old ++ spec.named name.now (spec.table_name schema.now table)) }
{
    out.push_str(name)?;
    out.push_str("(")?;
    push_table(out, schema, table)?;
    push_text(out, ")")
}

pub(crate) fn push_filter(out: &mut String, name: &str, predicate: &Expr) -> Result<(), NoMemory>
    ensures { OnOk result (string_bytes out.new ≡ string_bytes out.old ++ spec.named name.now (expression_text predicate.now)) }
{
    out.push_str(name)?;
    out.push_str("(")?;
    push_expression(out, predicate)?;
    push_text(out, ")")
}

pub(crate) fn push_project(out: &mut String, name: &str, items: &List<Expr>) -> Result<(), NoMemory>
    ensures { OnOk result (string_bytes out.new ≡ string_bytes out.old ++ spec.named name.now (spec.items_text items.now)) }
{
    out.push_str(name)?;
    out.push_str("(")?;
    push_listed(out, items.as_slice())?;
    push_text(out, ")")
}

fn kind_text(kind: JoinKind) -> &'static str
    ensures { result.now ≡ spec.kind_text kind }
{
    match kind {
        JoinKind::Inner => "Inner",
        JoinKind::Left => "Left",
    }
}

fn push_join_details(out: &mut String, kind: JoinKind, on: &Expr) -> Result<(), NoMemory>
    ensures { OnOk result (string_bytes out.new ≡ string_bytes out.old ++ spec.join_text kind on.now) }
{
    out.push_str("kind=")?;
    out.push_str(kind_text(kind))?;
    out.push_str(" on=[")?;
    push_expression(out, on)?;
    push_text(out, "]")
}

pub(crate) fn push_join(
    out: &mut String,
    name: &str,
    kind: JoinKind,
    on: &Expr,
) -> Result<(), NoMemory>
    ensures { OnOk result (string_bytes out.new ≡ string_bytes out.old ++ spec.named name.now (spec.join_text kind on.now)) }
{
    out.push_str(name)?;
    out.push_str("(")?;
    push_join_details(out, kind, on)?;
    push_text(out, ")")
}

fn push_aggregate_details(
    out: &mut String,
    groups: &List<u32>,
    calls: &List<AggCall>,
) -> Result<(), NoMemory>
    ensures { OnOk result (string_bytes out.new ≡ string_bytes out.old ++ spec.aggregate_text groups.now calls.now) }
{
    out.push_str("keys=[")?;
    push_listed(out, groups.as_slice())?;
    out.push_str("] calls=[")?;
    push_listed(out, calls.as_slice())?;
    push_text(out, "]")
}

pub(crate) fn push_aggregate(
    out: &mut String,
    name: &str,
    groups: &List<u32>,
    calls: &List<AggCall>,
) -> Result<(), NoMemory>
    ensures { OnOk result (string_bytes out.new ≡ string_bytes out.old ++ spec.named name.now (spec.aggregate_text groups.now calls.now)) }
{
    out.push_str(name)?;
    out.push_str("(")?;
    push_aggregate_details(out, groups, calls)?;
    push_text(out, ")")
}

fn push_keys(out: &mut String, keys: &Collation) -> Result<(), NoMemory>
    ensures { OnOk result (string_bytes out.new ≡ string_bytes out.old ++ spec.sort_text keys.now) }
{
    out.push_str("keys=[")?;
    push_listed(out, keys.as_slice())?;
    push_text(out, "]")
}

pub(crate) fn push_sort(out: &mut String, name: &str, keys: &Collation) -> Result<(), NoMemory>
    ensures { OnOk result (string_bytes out.new ≡ string_bytes out.old ++ spec.named name.now (spec.sort_text keys.now)) }
{
    out.push_str(name)?;
    out.push_str("(")?;
    push_keys(out, keys)?;
    push_text(out, ")")
}
