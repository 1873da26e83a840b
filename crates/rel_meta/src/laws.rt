//! Laws of unique keys, as the contract of a function that does nothing.
ghost use Rattle.std.specs.Prelude.{◌≡◌, ℕ, List, Some, All};
ghost use Rattle.cal_value.specs.Order.{SameBag};
ghost use Rattle.cal_schema.specs.declared.database.Db.{Db};
ghost use Rattle.cal_schema.specs.declared.rel_type.RelType.{RelType};
ghost use Rattle.cal_schema.specs.Fits.{Fits};
ghost use Rattle.cal_schema.specs.Valid.{IsValidSchema};
ghost use Rattle.cal_rel.specs.Bag.{bag};
ghost use Rattle.cal_rel.specs.Holes.{renumbered, Narrows};
ghost use Rattle.cal_rel.specs.Info.{Info};
ghost use Rattle.cal_rel.specs.Meaning.{AreTrueOf};
ghost use Rattle.cal_rel.specs.Operators.{Row};
ghost use Rattle.cal_rel.specs.Tree.{Tree};
ghost use Rattle.cal_rel.specs.Typing.{type_of};
ghost use Rattle.rel_meta.specs.Keys.{unique_keys};
ghost use Rattle.rel_meta.specs.Unique.{IsUniqueOn};

/// On each unique key of a well-formed tree the rows differ that it means, in whatever order they stand, over every database that fits and all rows in
/// its holes of which the types of the sets are true. With narrower types of the sets, also under other numbers, a tree has the same keys.
pub fn unique_law()
    ensures unique { (info : Info) (tree : Tree) (t : RelType) (db : Db)
        (holes : ℕ → List Row) (rows : List Row) → type_of info tree ≡ Some t
        → Fits db info.schema → AreTrueOf info.sets holes
        → SameBag rows (bag info db holes tree)
        → All (λ key. IsUniqueOn key rows) (unique_keys info tree) }
    ensures steady { (m : ℕ → ℕ) (from to : Info) (tree : Tree) (t : RelType)
        → IsValidSchema from.schema → Narrows m from to → type_of from tree ≡ Some t
        → unique_keys to (renumbered m tree) ≡ unique_keys from tree }
{}
