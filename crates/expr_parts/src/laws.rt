//! Laws of the parts of expressions, each as the contract of a function that does nothing.
ghost use Rattle.std.specs.Prelude.{◌≡◌, ℕ, ◌<◌, ◌≤◌, nat_lt, nat_le, Bool, true, List as ListOf, ◌++◌, All, Some, length, map, slice_get};
ghost use Rattle.std.specs.List.{list_all};
ghost use Rattle.cal_value.specs.declared.kind.SqlType.{SqlType};
ghost use Rattle.cal_value.specs.declared.value.Value.{Value};
ghost use Rattle.cal_value.specs.Logic.{is_true};
ghost use Rattle.cal_value.specs.Order.{column_of, columns_of};
ghost use Rattle.cal_expr.specs.declared.expr.Expr.{Expr};
ghost use Rattle.cal_expr.specs.Meaning.{meaning_of};
ghost use Rattle.cal_expr.specs.Typing.{type_of};
ghost use Rattle.expr_parts.specs.Columns.{columns_read, is_constant, with_columns, over_items, over_columns, shifted_down};
ghost use Rattle.expr_parts.specs.Conjuncts.{conjuncts_of, conjunction};

/// The columns that an expression reads settle its value and its type.
pub fn columns_law()
    ensures value { (e : Expr) (r s : ListOf Value)
        → All (λ at. column_of r at ≡ column_of s at) (columns_read e)
        → meaning_of e r ≡ meaning_of e s }
    ensures of_type { (e : Expr) (ts us : ListOf SqlType)
        → All (λ at. slice_get ts at ≡ slice_get us at) (columns_read e)
        → type_of e ts ≡ type_of e us }
{}

/// A well-formed expression reads columns that are there.
pub fn in_range_law()
    ensures { (e : Expr) (ts : ListOf SqlType) (t : SqlType) → type_of e ts ≡ Some t
        → All (λ at. at < length ts) (columns_read e) }
{}

/// The tests of the columns that an expression reads say where each of them lies.
pub fn tests_law()
    ensures below { (e : Expr) (width : ℕ)
        → list_all (λ at. nat_lt at width) (columns_read e) ≡ true
        → All (λ at. at < width) (columns_read e) }
    ensures from { (e : Expr) (width : ℕ)
        → list_all (λ at. nat_le width at) (columns_read e) ≡ true
        → All (λ at. width ≤ at) (columns_read e) }
{}

/// Where for each column that is read another expression has that column's value of another row, the expression with
/// these in the place of columns means what it means over that row.
pub fn replaced_columns_law()
    ensures { (f : ℕ → Expr) (e : Expr) (row other : ListOf Value)
        → All (λ at. meaning_of (f at) row ≡ column_of other at) (columns_read e)
        → meaning_of (with_columns f e) row ≡ meaning_of e other }
{}

/// An expression over items means what it means over their values.
pub fn over_items_law()
    ensures { (items : ListOf Expr) (e : Expr) (row : ListOf Value)
        → All (λ at. at < length items) (columns_read e)
        → meaning_of (over_items items e) row ≡ meaning_of e (map (λ item. meaning_of item row) items) }
{}

/// An expression over columns means what it means over each row that begins with their values.
pub fn over_columns_law()
    ensures { (columns : ListOf ℕ) (e : Expr) (row more : ListOf Value)
        → All (λ at. at < length columns) (columns_read e)
        → meaning_of (over_columns columns e) row ≡ meaning_of e (columns_of row columns ++ more) }
{}

/// Over two rows as one, an expression that reads the first alone means what it means over that, and one that reads the
/// second alone what it means over that, shifted down.
pub fn two_parts_law()
    ensures first { (x y : ListOf Value) (e : Expr)
        → All (λ at. at < length x) (columns_read e)
        → meaning_of e (x ++ y) ≡ meaning_of e x }
    ensures second { (x y : ListOf Value) (e : Expr)
        → All (λ at. length x ≤ at) (columns_read e)
        → meaning_of (shifted_down (length x) e) y ≡ meaning_of e (x ++ y) }
{}

/// A constant has one type and one value.
pub fn constant_law()
    ensures value { (e : Expr) (r s : ListOf Value) → is_constant e ≡ true
        → meaning_of e r ≡ meaning_of e s }
    ensures of_type { (e : Expr) (ts us : ListOf SqlType) → is_constant e ≡ true
        → type_of e ts ≡ type_of e us }
{}

/// An expression is TRUE of a row exactly where each of its conjuncts is, and these read no other columns.
pub fn conjuncts_law()
    ensures rows { (e : Expr) (row : ListOf Value)
        → is_true (meaning_of e row) ≡ list_all (λ c. is_true (meaning_of c row)) (conjuncts_of e) }
    ensures columns { (within : ℕ → Bool) (e : Expr)
        → All (λ at. within at ≡ true) (columns_read e)
        → All (λ c. All (λ at. within at ≡ true) (columns_read c)) (conjuncts_of e) }
{}

/// A conjunction is TRUE of a row exactly where each conjunct is, and reads no other columns than these.
pub fn conjunction_law()
    ensures rows { (cs : ListOf Expr) (row : ListOf Value)
        → is_true (meaning_of (conjunction cs) row) ≡ list_all (λ c. is_true (meaning_of c row)) cs }
    ensures columns { (within : ℕ → Bool) (cs : ListOf Expr)
        → All (λ c. All (λ at. within at ≡ true) (columns_read c)) cs
        → All (λ at. within at ≡ true) (columns_read (conjunction cs)) }
{}
