//! Trees are entered with their inputs first.
ghost use Rattle.std.specs.Prelude.{◌≡◌, IfOk};
ghost use Rattle.cal_rel.specs.Tree.{tree_of};
ghost use Rattle.memo_model.specs.Steps.{joint_type, place, placed, entered};
ghost use Rattle.memo_sets.specs.Seen.{drafted, HasRoom};
ghost use Rattle.memo_sets.specs.Faults.{Enters};

use crate::draft::Draft;
use crate::memo::{Memo, MemoFault};
use crate::nodes::{aggregate_over, filter_over, join_over, project_over};
use crate::types::met;
use cal_rel::{PlanInfo, Rel, type_of};
use cal_schema::RelType;
use cal_value::NoMemory;
use memo_model::MEMBER_LIMIT;
use std::alloc::Global;

impl Draft {
    /// What is known of the rows of a tree whose root is this node over sets.
    fn joint_type(
        &self,
        alloc: Global,
        base: &Memo,
        info: &PlanInfo,
        rel: &Rel,
        node: &Rel,
    ) -> Result<Option<RelType>, NoMemory>
        ensures { IfOk result (λ t. t
            ≡ joint_type info.now (drafted base.now self.now).types
            (tree_of rel.now) (tree_of node.now)) }
    {
        let over = PlanInfo::new(info.schema, info.tiles, &self.types);
        let own = type_of(alloc, node, &over)?;
        let whole = type_of(alloc, rel, &over)?;
        met(alloc, own, &whole)
    }

    /// A new member of the target, or of a set of its own.
    fn put_new(
        &mut self,
        alloc: Global,
        base: &Memo,
        target: Option<u32>,
        node: Rel,
        own: Option<RelType>,
    ) -> Result<u32, MemoFault>
        requires { HasRoom (drafted base.now self.old) }
        ensures { Enters (place (tree_of node) own target None (drafted base.now self.old))
            (drafted base.now self.new) result }
    {
        if self.added >= MEMBER_LIMIT {
            return Err(MemoFault::MemoFull {
                limit: MEMBER_LIMIT,
            });
        }
        match target {
            Some(set) => {
                self.push_member(base, set, node)?;
                self.narrow(alloc, base, set, &own)?;
                Ok(set)
            }
            None => {
                let set = self.push_set(alloc, base, node, own)?;
                Ok(set)
            }
        }
    }

    /// The node is found, or becomes a new member. `rel` is the tree of which it is the root.
    fn place(
        &mut self,
        alloc: Global,
        base: &Memo,
        info: &PlanInfo,
        target: Option<u32>,
        rel: &Rel,
        node: Rel,
    ) -> Result<u32, MemoFault>
        requires { HasRoom (drafted base.now self.old) }
        ensures { Enters
            (placed info.now target (tree_of rel.now) (tree_of node) (drafted base.now self.old))
            (drafted base.now self.new) result }
    {
        let own = self.joint_type(alloc, base, info, rel, &node)?;
        match self.found(base, &node) {
            Some(set) => {
                self.narrow(alloc, base, set, &own)?;
                Ok(set)
            }
            None => self.put_new(alloc, base, target, node, own),
        }
    }

    /// A tree that is its own root.
    fn place_leaf(
        &mut self,
        alloc: Global,
        base: &Memo,
        info: &PlanInfo,
        target: Option<u32>,
        rel: &Rel,
    ) -> Result<u32, MemoFault>
        requires { HasRoom (drafted base.now self.old) }
        ensures { Enters
            (placed info.now target (tree_of rel.now) (tree_of rel.now) (drafted base.now self.old))
            (drafted base.now self.new) result }
    {
        let node = rel.copy(alloc)?;
        self.place(alloc, base, info, target, rel, node)
    }

    /// Enters a tree with its inputs first, the left one before the right one. The root goes into the target where it is
    /// nowhere yet.
    pub fn enter(
        &mut self,
        alloc: Global,
        base: &Memo,
        info: &PlanInfo,
        target: Option<u32>,
        rel: &Rel,
    ) -> Result<u32, MemoFault>
        requires { HasRoom (drafted base.now self.old) }
        ensures { Enters (entered info.now target (tree_of rel.now) (drafted base.now self.old))
            (drafted base.now self.new) result }
    {
        match rel {
            Rel::Scan(_) => self.place_leaf(alloc, base, info, target, rel),
            Rel::TileScan(_) => self.place_leaf(alloc, base, info, target, rel),
            Rel::StarScan { .. } => self.place_leaf(alloc, base, info, target, rel),
            Rel::Empty(_) => self.place_leaf(alloc, base, info, target, rel),
            Rel::Hole(set) => Ok(*set),
            Rel::Filter { input, predicate } => {
                let below = match self.enter(alloc, base, info, None, input.get()) {
                    Ok(below) => below,
                    Err(fault) => return Err(fault),
                };
                let node = filter_over(alloc, below, predicate)?;
                self.place(alloc, base, info, target, rel, node)
            }
            Rel::Project { input, items } => {
                let below = match self.enter(alloc, base, info, None, input.get()) {
                    Ok(below) => below,
                    Err(fault) => return Err(fault),
                };
                let node = project_over(alloc, below, items)?;
                self.place(alloc, base, info, target, rel, node)
            }
            Rel::Aggregate {
                input,
                groups,
                calls,
            } => {
                let below = match self.enter(alloc, base, info, None, input.get()) {
                    Ok(below) => below,
                    Err(fault) => return Err(fault),
                };
                let node = aggregate_over(alloc, below, groups, calls)?;
                self.place(alloc, base, info, target, rel, node)
            }
            Rel::Join {
                kind,
                left,
                right,
                on,
            } => {
                let first = match self.enter(alloc, base, info, None, left.get()) {
                    Ok(first) => first,
                    Err(fault) => return Err(fault),
                };
                let second = match self.enter(alloc, base, info, None, right.get()) {
                    Ok(second) => second,
                    Err(fault) => return Err(fault),
                };
                let node = join_over(alloc, *kind, first, second, on)?;
                self.place(alloc, base, info, target, rel, node)
            }
        }
    }
}
