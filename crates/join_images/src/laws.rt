//! Laws of the rules of joins, each as the contract of a function that does nothing.
ghost use Rattle.std.specs.Prelude.{◌≡◌, ℕ, ◌+◌, ◌-◌, ◌<◌, nat_lt, List as ListOf, Some, if◌then◌else◌, slice_get};
ghost use Rattle.cal_schema.specs.declared.database.Db.{Db};
ghost use Rattle.cal_schema.specs.declared.rel_type.RelType.{RelType};
ghost use Rattle.cal_schema.specs.Fits.{Fits};
ghost use Rattle.cal_schema.specs.Valid.{IsValidSchema};
ghost use Rattle.cal_rel.specs.Bag.{bag};
ghost use Rattle.cal_rel.specs.Holes.{renumbered, Narrows};
ghost use Rattle.cal_rel.specs.Info.{Info};
ghost use Rattle.cal_rel.specs.Meaning.{AreTrueOf};
ghost use Rattle.cal_rel.specs.Operators.{Row};
ghost use Rattle.cal_rel.specs.Tree.{Tree};
ghost use Rattle.cal_rel.specs.Typing.{type_of};
ghost use Rattle.rule_hep.specs.Law.{StandsFor};
ghost use Rattle.rule_hep.specs.Local.{kept};
ghost use Rattle.join_images.specs.JoinAssociate.{associated_joins};
ghost use Rattle.join_images.specs.JoinCommute.{exchanged_columns, commuted_join};
ghost use Rattle.join_images.specs.Meanings.{join_commute, join_associate};

/// A join with its sides in the other order, and its columns restored, may stand for the join, and is the same but for the
/// numbers of sets where these are narrower. The columns of its left rows are moved behind those of its right rows.
pub fn join_commute_law()
    ensures image { (info : Info) (rel : Tree)
        → join_commute.image info rel 0 ≡ kept info rel (commuted_join info rel) }
    ensures stands { (info : Info) (rel out : Tree) (n : ℕ)
        → join_commute.image info rel n ≡ Some out → StandsFor info out rel }
    ensures steady { (m : ℕ → ℕ) (from to : Info) (rel out : Tree) (n : ℕ)
        → IsValidSchema from.schema → Narrows m from to
        → join_commute.image from rel n ≡ Some out
        → join_commute.image to (renumbered m rel) n ≡ Some (renumbered m out) }
    ensures columns { (left right at : ℕ) → at < left + right
        → slice_get (exchanged_columns left right) at
        ≡ Some (if nat_lt at left then at + right else at - left) }
{}

/// Two joins that are grouped to the right may stand for two that are grouped to the left, and are the same but for the numbers
/// of sets where these are narrower. Their rows come in the same order.
pub fn join_associate_law()
    ensures image { (info : Info) (rel : Tree)
        → join_associate.image info rel 0 ≡ kept info rel (associated_joins info rel) }
    ensures stands { (info : Info) (rel out : Tree) (n : ℕ)
        → join_associate.image info rel n ≡ Some out → StandsFor info out rel }
    ensures steady { (m : ℕ → ℕ) (from to : Info) (rel out : Tree) (n : ℕ)
        → IsValidSchema from.schema → Narrows m from to
        → join_associate.image from rel n ≡ Some out
        → join_associate.image to (renumbered m rel) n ≡ Some (renumbered m out) }
    ensures rows { (info : Info) (rel out : Tree) (t : RelType) (db : Db) (holes : ℕ → ListOf Row)
        → type_of info rel ≡ Some t → associated_joins info rel ≡ Some out
        → Fits db info.schema → AreTrueOf info.sets holes
        → bag info db holes out ≡ bag info db holes rel }
{}
