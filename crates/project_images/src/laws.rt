//! Laws of the rules of projects, each as the contract of a function that does nothing.
ghost use Rattle.std.specs.Prelude.{◌≡◌, ℕ, Some, List as ListOf};
ghost use Rattle.cal_value.specs.declared.value.Value.{Value};
ghost use Rattle.cal_schema.specs.Valid.{IsValidSchema};
ghost use Rattle.cal_expr.specs.declared.expr.Expr.{Expr};
ghost use Rattle.cal_expr.specs.Meaning.{meaning_of};
ghost use Rattle.cal_rel.specs.Holes.{renumbered, Narrows};
ghost use Rattle.cal_rel.specs.Info.{Info};
ghost use Rattle.cal_rel.specs.Tree.{Tree};
ghost use Rattle.rule_hep.specs.Law.{StandsFor};
ghost use Rattle.rule_hep.specs.Local.{kept};
ghost use Rattle.project_images.specs.Meanings.{reduce_expressions, prune_empty, project_merge, project_remove};
ghost use Rattle.project_images.specs.ProjectMerge.{merged_projects};
ghost use Rattle.project_images.specs.ProjectRemove.{removed_project};
ghost use Rattle.project_images.specs.PruneEmpty.{pruned};
ghost use Rattle.project_images.specs.ReduceExpressions.{reduced, reduced_tree};

/// A reduced expression has the value of the expression over every row, whether it is well formed or not.
pub fn reduced_law()
    ensures { (e : Expr) (row : ListOf Value) → meaning_of (reduced e) row ≡ meaning_of e row }
{}

/// A filter or project with the values of its constant parts in their place may stand for it, and so may the input of a
/// filter by TRUE and the empty tree for one by FALSE. They are the same but for the numbers of sets where these are narrower.
pub fn reduce_expressions_law()
    ensures image { (info : Info) (rel : Tree)
        → reduce_expressions.image info rel 0 ≡ kept info rel (reduced_tree info rel) }
    ensures stands { (info : Info) (rel out : Tree) (n : ℕ)
        → reduce_expressions.image info rel n ≡ Some out → StandsFor info out rel }
    ensures steady { (m : ℕ → ℕ) (from to : Info) (rel out : Tree) (n : ℕ)
        → IsValidSchema from.schema → Narrows m from to
        → reduce_expressions.image from rel n ≡ Some out
        → reduce_expressions.image to (renumbered m rel) n ≡ Some (renumbered m out) }
{}

/// The empty tree may stand for a tree that has no rows since an input has none, and is the same where sets are narrower.
pub fn prune_empty_law()
    ensures image { (info : Info) (rel : Tree)
        → prune_empty.image info rel 0 ≡ kept info rel (pruned info rel) }
    ensures stands { (info : Info) (rel out : Tree) (n : ℕ)
        → prune_empty.image info rel n ≡ Some out → StandsFor info out rel }
    ensures steady { (m : ℕ → ℕ) (from to : Info) (rel out : Tree) (n : ℕ)
        → IsValidSchema from.schema → Narrows m from to
        → prune_empty.image from rel n ≡ Some out
        → prune_empty.image to (renumbered m rel) n ≡ Some (renumbered m out) }
{}

/// One project may stand for two, and is the same but for the numbers of sets where these are narrower.
pub fn project_merge_law()
    ensures image { (info : Info) (rel : Tree)
        → project_merge.image info rel 0 ≡ kept info rel (merged_projects rel) }
    ensures stands { (info : Info) (rel out : Tree) (n : ℕ)
        → project_merge.image info rel n ≡ Some out → StandsFor info out rel }
    ensures steady { (m : ℕ → ℕ) (from to : Info) (rel out : Tree) (n : ℕ)
        → IsValidSchema from.schema → Narrows m from to
        → project_merge.image from rel n ≡ Some out
        → project_merge.image to (renumbered m rel) n ≡ Some (renumbered m out) }
{}

/// Its input may stand for a project of all columns in order, and is the same but for the numbers of sets where these are
/// narrower.
pub fn project_remove_law()
    ensures image { (info : Info) (rel : Tree)
        → project_remove.image info rel 0 ≡ kept info rel (removed_project info rel) }
    ensures stands { (info : Info) (rel out : Tree) (n : ℕ)
        → project_remove.image info rel n ≡ Some out → StandsFor info out rel }
    ensures steady { (m : ℕ → ℕ) (from to : Info) (rel out : Tree) (n : ℕ)
        → IsValidSchema from.schema → Narrows m from to
        → project_remove.image from rel n ≡ Some out
        → project_remove.image to (renumbered m rel) n ≡ Some (renumbered m out) }
{}
