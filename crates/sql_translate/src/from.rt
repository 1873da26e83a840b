//! The joins of FROM, and WHERE.
ghost use Rattle.std.specs.Prelude.{◌≡◌, ◌≢◌, ◌<◌, ◌^◌, [], length, map, IfOk};
ghost use Rattle.cal_rel.specs.Tree.{binary, join_on, leaf, scan, tree_of};
ghost use Rattle.cal_schema.specs.declared.schema.Schema.{Schema};
ghost use Rattle.sql_algebra.specs.Algebra as spec;
ghost use Rattle.sql_meaning.specs.Scope.{header_of, types_in};
ghost use Rattle.sql_names.specs.Tables.{AreNumbered};
ghost use Rattle.sql_to_rel.specs.Numbered.{numbered};

use cal_expr::Expr;
use cal_rel::Rel;
use cal_schema::JoinKind;
use cal_value::{List, NoMemory};
use expr_parts::conjunction;
use sql_meaning::{Entry, conditions};
use sql_to_rel::expression;
use sql_tree::{FromEntry, How, Tree};
use std::alloc::Global;

fn join_kind(how: &How) -> JoinKind
    ensures { result ≡ spec.join_kind how.now }
{
    match how {
        How::First => JoinKind::Inner,
        How::Cross => JoinKind::Inner,
        How::Inner(_) => JoinKind::Inner,
        How::Left(_) => JoinKind::Left,
    }
}

fn all_numbered(
    alloc: Global,
    conditions: &[Tree],
    scope: &[Entry<'_>],
) -> Result<List<Expr>, NoMemory>
    requires { length (types_in scope.now) < 2 ^ 32 }
    ensures { IfOk result (λ all. all ≡ map (numbered scope.now) conditions.now) }
{
    let mut all = List::new(alloc);
    for condition in conditions {
        all.push(expression(alloc, condition, scope)?)?;
    }
    Ok(all)
}

fn join_condition(alloc: Global, entry: &FromEntry, scope: &[Entry<'_>]) -> Result<Expr, NoMemory>
    requires { length (types_in scope.now) < 2 ^ 32 }
    ensures { IfOk result (λ e. e ≡ spec.join_condition scope.now entry.now) }
{
    let conditions = conditions(alloc, entry)?;
    let all = all_numbered(alloc, conditions.as_slice(), scope)?;
    conjunction(alloc, all)
}

// The tree of the entries before joined with this one, whose table has this number and which is the last of the scope.
#[tactic(auto, using(cal_rel::proofs::TreeSteps::tree_steps))]
fn joined_with(
    alloc: Global,
    tree: Rel,
    entry: &FromEntry,
    table: u32,
    scope: &[Entry<'_>],
) -> Result<Rel, NoMemory>
    requires { length (types_in scope.now) < 2 ^ 32 }
    ensures { IfOk result (λ rel. tree_of rel ≡ binary (join_on (spec.join_kind entry.now.how)
        (spec.join_condition scope.now entry.now)) (tree_of tree) (leaf (scan table))) }
{
    let on = join_condition(alloc, entry, scope)?;
    Rel::join(alloc, join_kind(&entry.how), tree, Rel::Scan(table), on)
}

/// The joins of the entries of FROM, of which there is one at least, from left to right.
pub(crate) fn from_tree(
    alloc: Global,
    from: &[FromEntry],
    tables: &[u32],
    scope: &[Entry<'_>],
) -> Result<Rel, NoMemory>
    requires some { from.now ≢ [] }
    requires small { length (types_in scope.now) < 2 ^ 32 }
    requires counted { length tables.now ≡ length from.now }
    requires seen { length scope.now ≡ length from.now }
    ensures { IfOk result (λ rel. (schema : Schema) → AreNumbered schema from.now tables.now
        → scope.now ≡ map (header_of schema) from.now
        → tree_of rel ≡ spec.from_tree schema from.now) }
{
    let mut tree = Rel::Scan(tables[0]);
    for at in 1..from.len() {
        tree = joined_with(alloc, tree, &from[at], tables[at], &scope[..at + 1])?;
    }
    Ok(tree)
}

/// The rows of which WHERE is TRUE.
#[tactic(auto, using(cal_rel::proofs::TreeSteps::tree_steps))]
pub(crate) fn where_tree(
    alloc: Global,
    tree: Rel,
    condition: &Option<Tree>,
    scope: &[Entry<'_>],
) -> Result<Rel, NoMemory>
    requires { length (types_in scope.now) < 2 ^ 32 }
    ensures { IfOk result (λ rel.
        tree_of rel ≡ spec.kept (numbered scope.now) condition.now (tree_of tree)) }
{
    match condition {
        Some(condition) => {
            let predicate = expression(alloc, condition, scope)?;
            Rel::filter(alloc, tree, predicate)
        }
        None => Ok(tree),
    }
}
