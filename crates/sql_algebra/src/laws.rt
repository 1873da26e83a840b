//! Laws of the relational tree that a SELECT stands for, each as the contract of a function that does nothing.
ghost use Rattle.std.specs.Prelude.{◌≡◌, ℕ, [], List, None, map};
ghost use Rattle.std.specs.Option.{IsSomeAnd};
ghost use Rattle.cal_value.specs.Order.{SameBag};
ghost use Rattle.cal_schema.specs.declared.database.Db.{Db};
ghost use Rattle.cal_schema.specs.declared.schema.Schema.{Schema};
ghost use Rattle.cal_schema.specs.Fits.{Fits};
ghost use Rattle.cal_schema.specs.Valid.{IsValidSchema};
ghost use Rattle.cal_rel.specs.Bag.{bag};
ghost use Rattle.cal_rel.specs.Info.{Info};
ghost use Rattle.cal_rel.specs.Operators.{Row};
ghost use Rattle.cal_rel.specs.Typing.{type_of};
ghost use Rattle.sql_tree.specs.declared.select.Select.{Select};
ghost use Rattle.sql_meaning.specs.Direct.{direct};
ghost use Rattle.sql_meaning.specs.Refused.{refusal_of};
ghost use Rattle.typed_meaning.specs.Accepted.{answer_types};
ghost use Rattle.sql_algebra.specs.Algebra.{algebra};
ghost use Rattle.sql_algebra.specs.Formed.{IsFormed};

/// The rows of the tree are those that the SELECT means, in the same order, whatever tiles and sets there are.
pub fn algebra_law()
    ensures { (info : Info) (db : Db) (holes : ℕ → List Row) (before : ℕ) (select : Select)
        → Fits db info.schema → IsValidSchema info.schema → IsFormed select
        → refusal_of info.schema before select ≡ None
        → bag info db holes (algebra info.schema select) ≡ direct select info.schema db }
{}

/// So they are the same bag.
pub fn same_bag_law()
    ensures { (info : Info) (db : Db) (holes : ℕ → List Row) (before : ℕ) (select : Select)
        → Fits db info.schema → IsValidSchema info.schema → IsFormed select
        → refusal_of info.schema before select ≡ None
        → SameBag (bag info db holes (algebra info.schema select))
        (direct select info.schema db) }
{}

/// The tree is well formed, and its columns are of the kinds of the answer's.
pub fn well_formed_law()
    ensures { (info : Info) (before : ℕ) (select : Select)
        → IsValidSchema info.schema → IsFormed select
        → refusal_of info.schema before select ≡ None
        → IsSomeAnd (type_of info (algebra info.schema select))
        (λ t. map (λ c. c.kind) t.columns ≡ map (λ c. c.kind) (answer_types info.schema select)) }
{}
