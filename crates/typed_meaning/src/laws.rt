//! Laws of the direct meaning of a SELECT, each as the contract of a function that does nothing.
ghost use Rattle.std.specs.Prelude.{◌≡◌, ℕ, false, [], List, Some, None, length, All};
ghost use Rattle.std.specs.List.{flat_map};
ghost use Rattle.cal_value.specs.declared.kind.SqlType.{SqlType};
ghost use Rattle.cal_value.specs.Types.{IsOfType, HasTypes};
ghost use Rattle.cal_aggregate.specs.ResultType.{IsBounded};
ghost use Rattle.cal_schema.specs.declared.database.Db.{Db};
ghost use Rattle.cal_schema.specs.declared.schema.Schema.{Schema};
ghost use Rattle.cal_schema.specs.Fits.{Fits};
ghost use Rattle.sql_tree.specs.declared.select.Select.{Select};
ghost use Rattle.sql_tree.specs.declared.tree.Tree.{Tree};
ghost use Rattle.sql_meaning.specs.Bounds.{bound_of};
ghost use Rattle.sql_meaning.specs.Direct.{loops, found, direct};
ghost use Rattle.sql_meaning.specs.Groups.{aggregates_in, ungrouped};
ghost use Rattle.sql_meaning.specs.Kinds.{clashes};
ghost use Rattle.sql_meaning.specs.Parts.{has_aggregate};
ghost use Rattle.sql_meaning.specs.Refused.{refusal_of};
ghost use Rattle.sql_meaning.specs.Scope.{Header, scope_of, types_in};
ghost use Rattle.sql_meaning.specs.Sizes.{tree_type, misfits};
ghost use Rattle.sql_meaning.specs.Value.{EntryRow, value, group_value};
ghost use Rattle.typed_meaning.specs.Accepted.{answer_types, HasTypedValues};
ghost use Rattle.typed_meaning.specs.Known.{HasKnownColumns, HasType, HasAllTypes};
ghost use Rattle.typed_meaning.specs.Rows.{IsTypedRow};

/// The rows of FROM have a row of each entry, whose values are of the types of its columns.
pub fn typed_rows_law()
    ensures loops { (schema : Schema) (db : Db) (select : Select) → Fits db schema
        → All (IsTypedRow (scope_of schema select)) (loops schema db select.from []) }
    ensures found { (schema : Schema) (db : Db) (select : Select) → Fits db schema
        → All (IsTypedRow (scope_of schema select)) (found schema db select) }
    ensures types { (scope : List Header) (env : List EntryRow) → IsTypedRow scope env
        → HasTypes (flat_map (λ b. b.row) env) (types_in scope) }
{}

/// The value of an expression without an aggregate is of its type.
pub fn typed_value_law()
    ensures { (rows : ℕ) (scope : List Header) (env : List EntryRow) (tree : Tree) (t : SqlType)
        → IsTypedRow scope env → has_aggregate tree ≡ false
        → tree_type rows scope tree ≡ Some t
        → IsOfType (value env tree) t }
{}

/// FROM has no more rows than its bound, where that is below 10^38.
pub fn row_bound_law()
    ensures loops { (schema : Schema) (db : Db) (select : Select) → Fits db schema
        → IsBounded (length (loops schema db select.from [])) (bound_of (scope_of schema select)) }
    ensures found { (schema : Schema) (db : Db) (select : Select) → Fits db schema
        → IsBounded (length (found schema db select)) (bound_of (scope_of schema select)) }
{}

/// Over a group the value of an expression without an aggregate within another is of its type. Where the group has no row,
/// no column stands outside aggregates.
pub fn typed_group_law()
    ensures { (rows : ℕ) (scope : List Header) (group : List (List EntryRow)) (tree : Tree)
        (t : SqlType) → All (IsTypedRow scope) group → IsBounded (length group) rows
        → (aggregates_in tree).nested ≡ [] → (group ≡ [] → ungrouped scope [] tree ≡ [])
        → tree_type rows scope tree ≡ Some t
        → IsOfType (group_value group tree) t }
{}

/// In a SELECT that isn't refused each expression has a type, of which its value is: of the conditions of joins and of WHERE
/// over rows, of items over rows or groups, and of HAVING over groups.
pub fn accepted_values_law()
    ensures { (schema : Schema) (db : Db) (before : ℕ) (select : Select) → Fits db schema
        → refusal_of schema before select ≡ None → HasTypedValues schema db select }
{}

/// An expression of known columns in which kinds go together and everything fits has a type, which is of its kind.
pub fn has_type_law()
    ensures { (rows : ℕ) (scope : List Header) (tree : Tree)
        → HasKnownColumns scope tree → clashes scope tree ≡ [] → misfits rows scope tree ≡ []
        → HasType rows scope tree }
{}

/// In a SELECT that isn't refused each expression has a type, and each condition that of a truth value.
pub fn accepted_types_law()
    ensures { (schema : Schema) (before : ℕ) (select : Select)
        → refusal_of schema before select ≡ None → HasAllTypes schema select }
{}

/// The rows of a SELECT that isn't refused have values of the types of its columns.
pub fn answer_types_law()
    ensures { (schema : Schema) (db : Db) (before : ℕ) (select : Select) → Fits db schema
        → refusal_of schema before select ≡ None
        → All (λ row. HasTypes row (answer_types schema select)) (direct select schema db) }
{}
