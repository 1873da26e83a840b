//! Whether a SELECT asks for groups.
ghost use Rattle.std.specs.Prelude.{◌≡◌};
ghost use Rattle.std.specs.List.{list_any};
ghost use Rattle.sql_meaning.specs.Parts as spec;

use sql_tree::{Item, Items, Select, Tree};

fn has_aggregate(tree: &Tree) -> bool
    ensures { result ≡ spec.has_aggregate tree.now }
{
    match tree {
        Tree::Column { .. } | Tree::Literal { .. } => false,
        Tree::Negate { operand, .. } => has_aggregate(operand.get()),
        Tree::Binary { left, right, .. } => has_aggregate(left.get()) || has_aggregate(right.get()),
        Tree::Not { operand, .. } => has_aggregate(operand.get()),
        Tree::IsNull { operand, .. } => has_aggregate(operand.get()),
        Tree::Aggregate { .. } => true,
    }
}

fn has_aggregates(items: &[Item]) -> bool
    ensures { result ≡ list_any (λ item. spec.has_aggregate item.tree) items.now }
{
    items.iter().any(|item| has_aggregate(&item.tree))
}

#[tactic(auto, using(crate::proofs::Anywhere::any_rules))]
fn items_have_aggregates(items: &Items) -> bool
    ensures { result ≡ list_any spec.has_aggregate (spec.item_trees items.now) }
{
    match items {
        Items::Star => false,
        Items::Listed(items) => has_aggregates(items.as_slice()),
    }
}

/// Whether the SELECT has GROUP BY, HAVING or an aggregate among its items. Takes no memory.
pub fn is_aggregate_query(select: &Select) -> bool
    ensures { result ≡ spec.is_aggregate_query select.now }
{
    !select.groups.is_empty() || select.having.is_some() || items_have_aggregates(&select.items)
}
