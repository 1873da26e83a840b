//! Laws of the rules of aggregates, each as the contract of a function that does nothing.
ghost use Rattle.std.specs.Prelude.{◌≡◌, ℕ, Some};
ghost use Rattle.cal_schema.specs.Valid.{IsValidSchema};
ghost use Rattle.cal_rel.specs.Holes.{renumbered, Narrows};
ghost use Rattle.cal_rel.specs.Info.{Info};
ghost use Rattle.cal_rel.specs.Tree.{Tree};
ghost use Rattle.rule_hep.specs.Law.{StandsFor};
ghost use Rattle.rule_hep.specs.Local.{kept};
ghost use Rattle.agg_images.specs.AggregateProjectMerge.{merged_below};
ghost use Rattle.agg_images.specs.AggregateRemove.{removed_aggregate};
ghost use Rattle.agg_images.specs.Meanings.{aggregate_project_merge, aggregate_remove};

/// An aggregate may stand for one over a project of which it uses columns alone, and is the same but for the numbers of sets
/// where these are narrower.
pub fn aggregate_project_merge_law()
    ensures image { (info : Info) (rel : Tree)
        → aggregate_project_merge.image info rel 0 ≡ kept info rel (merged_below rel) }
    ensures stands { (info : Info) (rel out : Tree) (n : ℕ)
        → aggregate_project_merge.image info rel n ≡ Some out → StandsFor info out rel }
    ensures steady { (m : ℕ → ℕ) (from to : Info) (rel out : Tree) (n : ℕ)
        → IsValidSchema from.schema → Narrows m from to
        → aggregate_project_merge.image from rel n ≡ Some out
        → aggregate_project_merge.image to (renumbered m rel) n ≡ Some (renumbered m out) }
{}

/// A project may stand for an aggregate whose groups hold a unique key, and is the same but for the numbers of sets where these
/// are narrower.
pub fn aggregate_remove_law()
    ensures image { (info : Info) (rel : Tree)
        → aggregate_remove.image info rel 0 ≡ kept info rel (removed_aggregate info rel) }
    ensures stands { (info : Info) (rel out : Tree) (n : ℕ)
        → aggregate_remove.image info rel n ≡ Some out → StandsFor info out rel }
    ensures steady { (m : ℕ → ℕ) (from to : Info) (rel out : Tree) (n : ℕ)
        → IsValidSchema from.schema → Narrows m from to
        → aggregate_remove.image from rel n ≡ Some out
        → aggregate_remove.image to (renumbered m rel) n ≡ Some (renumbered m out) }
{}
