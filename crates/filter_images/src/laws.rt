//! Laws of the rules of filters, each as the contract of a function that does nothing.
ghost use Rattle.std.specs.Prelude.{◌≡◌, ℕ, Some};
ghost use Rattle.cal_schema.specs.Valid.{IsValidSchema};
ghost use Rattle.cal_rel.specs.Holes.{renumbered, Narrows};
ghost use Rattle.cal_rel.specs.Info.{Info};
ghost use Rattle.cal_rel.specs.Tree.{Tree};
ghost use Rattle.rule_hep.specs.Law.{StandsFor};
ghost use Rattle.rule_hep.specs.Local.{kept};
ghost use Rattle.filter_images.specs.FilterAggregateTranspose.{filter_below_aggregate};
ghost use Rattle.filter_images.specs.FilterIntoJoin.{filter_below_join};
ghost use Rattle.filter_images.specs.FilterMerge.{merged_filters};
ghost use Rattle.filter_images.specs.FilterProjectTranspose.{filter_below_project};
ghost use Rattle.filter_images.specs.Meanings.{filter_merge, filter_project_transpose, filter_into_join, filter_aggregate_transpose};

/// One filter may stand for two, and is the same but for the numbers of sets where these are narrower.
pub fn filter_merge_law()
    ensures image { (info : Info) (rel : Tree)
        → filter_merge.image info rel 0 ≡ kept info rel (merged_filters rel) }
    ensures stands { (info : Info) (rel out : Tree) (n : ℕ)
        → filter_merge.image info rel n ≡ Some out → StandsFor info out rel }
    ensures steady { (m : ℕ → ℕ) (from to : Info) (rel out : Tree) (n : ℕ)
        → IsValidSchema from.schema → Narrows m from to
        → filter_merge.image from rel n ≡ Some out
        → filter_merge.image to (renumbered m rel) n ≡ Some (renumbered m out) }
{}

/// A filter below a project may stand for one above it, and is the same but for the numbers of sets where these are narrower.
pub fn filter_project_transpose_law()
    ensures image { (info : Info) (rel : Tree)
        → filter_project_transpose.image info rel 0 ≡ kept info rel (filter_below_project rel) }
    ensures stands { (info : Info) (rel out : Tree) (n : ℕ)
        → filter_project_transpose.image info rel n ≡ Some out → StandsFor info out rel }
    ensures steady { (m : ℕ → ℕ) (from to : Info) (rel out : Tree) (n : ℕ)
        → IsValidSchema from.schema → Narrows m from to
        → filter_project_transpose.image from rel n ≡ Some out
        → filter_project_transpose.image to (renumbered m rel) n ≡ Some (renumbered m out) }
{}

/// Conjuncts in the sides of a join and in its condition may stand for a filter above it, and are the same but for the
/// numbers of sets where these are narrower.
pub fn filter_into_join_law()
    ensures image { (info : Info) (rel : Tree)
        → filter_into_join.image info rel 0 ≡ kept info rel (filter_below_join info rel) }
    ensures stands { (info : Info) (rel out : Tree) (n : ℕ)
        → filter_into_join.image info rel n ≡ Some out → StandsFor info out rel }
    ensures steady { (m : ℕ → ℕ) (from to : Info) (rel out : Tree) (n : ℕ)
        → IsValidSchema from.schema → Narrows m from to
        → filter_into_join.image from rel n ≡ Some out
        → filter_into_join.image to (renumbered m rel) n ≡ Some (renumbered m out) }
{}

/// Conjuncts on group columns below an aggregate may stand for these above it, and are the same but for the numbers of
/// sets where these are narrower.
pub fn filter_aggregate_transpose_law()
    ensures image { (info : Info) (rel : Tree)
        → filter_aggregate_transpose.image info rel 0 ≡ kept info rel (filter_below_aggregate rel) }
    ensures stands { (info : Info) (rel out : Tree) (n : ℕ)
        → filter_aggregate_transpose.image info rel n ≡ Some out → StandsFor info out rel }
    ensures steady { (m : ℕ → ℕ) (from to : Info) (rel out : Tree) (n : ℕ)
        → IsValidSchema from.schema → Narrows m from to
        → filter_aggregate_transpose.image from rel n ≡ Some out
        → filter_aggregate_transpose.image to (renumbered m rel) n ≡ Some (renumbered m out) }
{}
