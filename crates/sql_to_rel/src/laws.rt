//! Laws of the expression that a tree stands for, each as the contract of a function that does nothing.
ghost use Rattle.std.specs.Prelude.{◌≡◌, ℕ, List, false, map};
ghost use Rattle.cal_expr.specs.Meaning.{meaning_of};
ghost use Rattle.cal_expr.specs.Typing.{type_of};
ghost use Rattle.sql_tree.specs.declared.tree.Tree.{Tree};
ghost use Rattle.sql_meaning.specs.Parts.{has_aggregate};
ghost use Rattle.sql_meaning.specs.Scope.{Header, types_in};
ghost use Rattle.sql_meaning.specs.Sizes.{tree_type};
ghost use Rattle.sql_meaning.specs.Value.{EntryRow, value};
ghost use Rattle.sql_to_rel.specs.Numbered.{numbered, flat, AreFull};

/// Its type over the columns of all entries is the tree's, which has no aggregate.
pub fn type_law()
    ensures { (rows : ℕ) (scope : List Header) (tree : Tree) → has_aggregate tree ≡ false
        → type_of (numbered scope tree) (types_in scope) ≡ tree_type rows scope tree }
{}

/// Its value over the rows of all entries is the tree's, which has no aggregate.
pub fn value_law()
    ensures { (env : List EntryRow) (tree : Tree) → has_aggregate tree ≡ false → AreFull env
        → meaning_of (numbered (map (λ b. b.header) env) tree) (flat env) ≡ value env tree }
{}
