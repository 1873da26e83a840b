//! One pass over the rows of a table, which are lent and not copied first.
ghost use Rattle.std.specs.Prelude.{◌≡◌, ◌+◌, ◌≤◌, ◌++◌, ◌∷◌, [], length, All, IfOk, IfSome, OnOk};
ghost use Rattle.std.specs.Option.{option_copied};
ghost use Rattle.cal_expr.specs.WellFormed.{IsWellFormed};
ghost use Rattle.cal_snapshot.specs.Parts.{rows_in};
ghost use Rattle.row_exec.specs.Passes as spec;
ghost use Rattle.row_exec.specs.Passes.{CanGoOver, CanPass, passed};

use crate::nodes::{holds_of, values};
use crate::pass::TablePass;
use cal_expr::Expr;
use cal_snapshot::{Part, Snapshot};
use cal_value::{List, NoMemory, Row, Steps, copy_row};
use std::alloc::Global;
use std::sync::ledger::Ledger;

fn keeps(alloc: Global, condition: Option<&Expr>, row: &Row) -> Result<bool, NoMemory>
    requires { IfSome (option_copied condition) (λ e. IsWellFormed e row.now) }
    ensures { IfOk result (λ kept. kept ≡ spec.keeps (option_copied condition.entry) row.now) }
{
    match condition {
        Some(condition) => holds_of(alloc, condition, row),
        None => Ok(true),
    }
}

fn made_of(alloc: Global, items: Option<&List<Expr>>, row: &Row) -> Result<Row, NoMemory>
    requires { IfSome (option_copied items) (λ es. All (λ e. IsWellFormed e row.now) es) }
    ensures { IfOk result (λ made. made ≡ spec.made_of (option_copied items.entry) row.now) }
{
    match items {
        Some(items) => values(alloc, items, row),
        None => copy_row(alloc, row),
    }
}

fn add_passed(
    alloc: Global,
    pass: &TablePass<'_>,
    row: &Row,
    rows: &mut List<Row>,
) -> Result<(), NoMemory>
    requires { CanPass pass.now row.now }
    ensures { OnOk result (rows.new ≡ rows.old ++ passed pass.now (row.now ∷ [])) }
{
    if !keeps(alloc, pass.condition, row)? {
        return Ok(());
    }
    let made = made_of(alloc, pass.items, row)?;
    rows.push(made)
}

/// What the pass makes of the rows of its table, in their order. It makes one step for each of them; where there is no memory,
/// at most so many.
pub(crate) fn pass_rows<L: Ledger>(
    alloc: Global,
    pass: &TablePass<'_>,
    snapshot: &Snapshot,
    steps: &mut Steps<L>,
) -> Result<List<Row>, NoMemory>
    requires { CanGoOver snapshot.now pass.now }
    ensures rows { IfOk result (λ rows. rows ≡ passed pass.now (rows_in snapshot.now pass.now.table)) }
    ensures all { OnOk result (steps.new ≡ steps.old + length (rows_in snapshot.now pass.now.table)) }
    ensures some { steps.old ≤ steps.new }
    ensures most { steps.new ≤ steps.old + length (rows_in snapshot.now pass.now.table) }
{
    let mut rows = List::new(alloc);
    for at in 0..snapshot.table_len(pass.table) {
        let row = snapshot.lend(Part::Table(pass.table), at, steps);
        add_passed(alloc, pass, row, &mut rows)?;
    }
    Ok(rows)
}
