//! Laws of trees, each as the contract of a function that does nothing.
ghost use Rattle.std.specs.Prelude.{◌≡◌, ℕ, Some, List as ListOf, All, length};
ghost use Rattle.cal_value.specs.Order.{SameBag};
ghost use Rattle.cal_expr.specs.declared.expr.Expr.{Expr};
ghost use Rattle.cal_schema.specs.declared.database.Db.{Db};
ghost use Rattle.cal_schema.specs.declared.rel_type.RelType.{RelType as RelTypeOf};
ghost use Rattle.cal_schema.specs.Fits.{Fits};
ghost use Rattle.cal_schema.specs.RelType.{IsTrueOf, IsWithin};
ghost use Rattle.cal_schema.specs.Valid.{IsValidSchema};
ghost use Rattle.cal_rel.specs.Bag.{bag, width, set_width};
ghost use Rattle.cal_rel.specs.Examples.{SmallTrees};
ghost use Rattle.cal_rel.specs.Holes.{renumbered, filled, EachHole, HasWithin, Renumbers, Narrows};
ghost use Rattle.cal_rel.specs.Info.{Info, set_at};
ghost use Rattle.cal_rel.specs.Meaning.{AreTrueOf, MeansTheSame};
ghost use Rattle.cal_rel.specs.Operators.{Row as RowOf};
ghost use Rattle.cal_rel.specs.Places.{place, replaced};
ghost use Rattle.cal_rel.specs.Ranges.{IsInRange, AreInRange, IsSqlValue};
ghost use Rattle.cal_rel.specs.Tree.{Tree};
ghost use Rattle.cal_rel.specs.Typing.{type_of};

use cal_schema::RelType;
use cal_value::{List, Row};

/// The type of a well-formed tree is true of the rows that it means over every database that fits and all rows in its
/// holes of which the types of the sets are true.
pub fn true_type_law()
    ensures { (info : Info) (db : Db) (holes : ℕ → ListOf RowOf) (tree : Tree) (t : RelTypeOf)
        → Fits db info.schema → AreTrueOf info.sets holes → type_of info tree ≡ Some t
        → IsTrueOf t (bag info db holes tree) }
{}

/// Each number in the rows of a well-formed tree is one of SQL, over a valid schema and sets whose numbers are.
pub fn range_law()
    ensures types { (info : Info) (tree : Tree) (t : RelTypeOf)
        → IsValidSchema info.schema → AreInRange info.sets → type_of info tree ≡ Some t
        → All IsInRange t.columns }
    ensures values { (info : Info) (db : Db) (holes : ℕ → ListOf RowOf) (tree : Tree) (t : RelTypeOf)
        → IsValidSchema info.schema → AreInRange info.sets
        → Fits db info.schema → AreTrueOf info.sets holes → type_of info tree ≡ Some t
        → All (λ row. All IsSqlValue row) (bag info db holes tree) }
{}

/// A well-formed tree has as many columns as its rows, and each set that it names is there.
pub fn well_formed_law()
    ensures columns { (info : Info) (tree : Tree) (t : RelTypeOf) → type_of info tree ≡ Some t
        → length t.columns ≡ width info tree }
    ensures sets { (info : Info) (tree : Tree) (t : RelTypeOf) → type_of info tree ≡ Some t
        → EachHole (λ k. (s : RelTypeOf) × (set_at info.sets k ≡ Some s)) tree }
{}

/// What a type is true of, it is true of as a bag, and each type at least as wide is.
pub fn true_of_others_law(t: &RelType, rows: &List<Row>)
    requires { IsTrueOf t.now rows.now }
    ensures same { (others : ListOf RowOf) → SameBag rows.now others → IsTrueOf t.now others }
    ensures wider { (wide : RelTypeOf) → IsWithin t.now wide → IsTrueOf wide rows.now }
{
    let _ = t;
    let _ = rows;
}

/// With narrower types of the sets, under other numbers, a tree stays well formed, and its type is at most as wide.
pub fn narrower_sets_law()
    ensures { (m : ℕ → ℕ) (from to : Info) (tree : Tree) (t : RelTypeOf)
        → IsValidSchema from.schema → Narrows m from to → type_of from tree ≡ Some t
        → HasWithin (type_of to (renumbered m tree)) t }
{}

/// A tree that means the same in the place of a part gives a tree that means the same.
pub fn replaced_part_law()
    ensures { (info : Info) (tree part new : Tree) (path : ListOf ℕ)
        → place tree path ≡ Some part → MeansTheSame info new part
        → MeansTheSame info (replaced tree path new) tree }
{}

/// Other numbers for the sets change neither type nor meaning.
pub fn renumbered_sets_law()
    ensures types { (m : ℕ → ℕ) (from to : Info) (tree : Tree) → Renumbers m from to
        → type_of to (renumbered m tree) ≡ type_of from tree }
    ensures rows { (m : ℕ → ℕ) (from to : Info) (db : Db) (holes : ℕ → ListOf RowOf) (tree : Tree)
        → Renumbers m from to
        → bag to db holes (renumbered m tree) ≡ bag from db (λ k. holes (m k)) tree }
{}

/// Trees in the places of the holes, each of as many columns as the set, mean what the tree means over their rows.
pub fn filled_holes_law()
    ensures columns { (info : Info) (trees : ℕ → Tree) (tree : Tree)
        → EachHole (λ k. width info (trees k) ≡ set_width info k) tree
        → width info (filled trees tree) ≡ width info tree }
    ensures rows { (info : Info) (db : Db) (holes : ℕ → ListOf RowOf) (trees : ℕ → Tree) (tree : Tree)
        → EachHole (λ k. width info (trees k) ≡ set_width info k) tree
        → bag info db holes (filled trees tree) ≡ bag info db (λ k. bag info db holes (trees k)) tree }
{}

/// Where the rows of each hole are the same bag, the rows of the tree are.
pub fn same_holes_law()
    ensures { (info : Info) (db : Db) (holes others : ℕ → ListOf RowOf) (tree : Tree)
        → EachHole (λ k. SameBag (holes k) (others k)) tree
        → SameBag (bag info db holes tree) (bag info db others tree) }
{}

/// The rows of some small trees.
pub fn examples_law()
    ensures { (info : Info) (on : Expr) → SmallTrees info on }
{}
