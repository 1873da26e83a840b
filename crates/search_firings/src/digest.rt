//! Numbers by which trees are looked up.
ghost use Rattle.std.specs.Prelude.{◌≡◌, fold};
ghost use Rattle.cal_expr.specs.Equal.{op_index};
ghost use Rattle.cal_rel.specs.Tree.{tree_of};
ghost use Rattle.search_firings.specs.Digest as spec;

use cal_expr::Expr;
use cal_rel::Rel;
use cal_value::Op;

const PRIME: u64 = 1_099_511_628_211;

#[tactic(auto, unfolding(crate::specs::Digest::mixed))]
pub fn mixed(a: u64, b: u64) -> u64
    ensures { result ≡ spec.mixed a b }
{
    a.wrapping_mul(PRIME).wrapping_add(b)
}

fn op_number(op: Op) -> u64
    ensures { result ≡ op_index op }
{
    op as u8 as u64
}

fn expr_digest(e: &Expr) -> u64
    ensures { result ≡ spec.expr_digest e.now }
{
    match e {
        Expr::Column(at) => mixed(1, *at as u64),
        Expr::Literal(_) => 2,
        Expr::Negate(a) => mixed(3, expr_digest(a.get())),
        Expr::Binary { op, left, right } => {
            let first = mixed(op_number(*op), expr_digest(left.get()));
            mixed(first, expr_digest(right.get()))
        }
        Expr::Not(a) => mixed(4, expr_digest(a.get())),
        Expr::IsNull(a) => mixed(5, expr_digest(a.get())),
    }
}

#[tactic(auto, using(crate::proofs::FoldSteps::fold_steps))]
fn items_digest(items: &[Expr]) -> u64
    ensures { result ≡ fold (λ d e. spec.mixed d (spec.expr_digest e)) 11 items.now }
{
    let mut digest = 11;
    for item in items {
        digest = mixed(digest, expr_digest(item));
    }
    digest
}

#[tactic(auto, using(crate::proofs::FoldSteps::fold_steps))]
fn groups_digest(groups: &[u32], calls: usize) -> u64
    ensures { result ≡ fold spec.mixed (spec.mixed 12 calls) groups.now }
{
    let mut digest = mixed(12, calls as u64);
    for group in groups {
        digest = mixed(digest, *group as u64);
    }
    digest
}

#[tactic(auto, using(cal_rel::proofs::TreeSteps::tree_steps))]
pub fn rel_digest(rel: &Rel) -> u64
    ensures { result ≡ spec.tree_digest (tree_of rel.now) }
{
    match rel {
        Rel::Scan(table) => mixed(6, *table as u64),
        Rel::TileScan(at) => mixed(7, *at as u64),
        Rel::StarScan { lattice } => mixed(8, *lattice as u64),
        Rel::Filter { input, predicate } => {
            let node = mixed(10, expr_digest(predicate));
            mixed(node, rel_digest(input.get()))
        }
        Rel::Project { input, items } => {
            let node = items_digest(items.as_slice());
            mixed(node, rel_digest(input.get()))
        }
        Rel::Join {
            kind: _,
            left,
            right,
            on,
        } => {
            let node = mixed(13, expr_digest(on));
            let first = mixed(node, rel_digest(left.get()));
            mixed(first, rel_digest(right.get()))
        }
        Rel::Aggregate {
            input,
            groups,
            calls,
        } => {
            let node = groups_digest(groups.as_slice(), calls.len());
            mixed(node, rel_digest(input.get()))
        }
        Rel::Empty(types) => mixed(9, types.len() as u64),
        Rel::Hole(set) => mixed(14, *set as u64),
    }
}
