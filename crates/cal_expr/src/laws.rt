//! Laws of expressions, each as the contract of a function that does nothing.
ghost use Rattle.std.specs.Prelude.{◌≡◌, Some, IsTrue, All};
ghost use Rattle.cal_value.specs.Interval.{is_in_range};
ghost use Rattle.cal_value.specs.Narrower.{StillTyped};
ghost use Rattle.cal_value.specs.Types.{AreAtMostAsWide, HasTypes, IsOfType, IsProperType};
ghost use Rattle.cal_expr.specs.Meaning.{meaning_of};
ghost use Rattle.cal_expr.specs.Typing.{type_of};

use crate::expr::Expr;
use cal_value::{Kind, List, Row, SqlType};

/// Over a row that has the types of the columns, the value of a well-formed expression has its kind, lies in its
/// interval, and is NULL only where its type is nullable.
pub fn typed_value_law(expr: &Expr, columns: &List<SqlType>, row: &Row, t: SqlType)
    requires row { HasTypes row.now columns.now }
    requires typed { type_of expr.now columns.now ≡ Some t }
    ensures { IsOfType (meaning_of expr.now row.now) t }
{
    let _ = expr;
    let _ = columns;
    let _ = row;
}

/// Narrower types of the columns keep an expression well formed, with a type at most as wide.
pub fn narrower_columns_law(expr: &Expr, narrow: &List<SqlType>, wide: &List<SqlType>)
    requires { AreAtMostAsWide narrow.now wide.now }
    ensures { StillTyped (type_of expr.now narrow.now) (type_of expr.now wide.now) }
{
    let _ = expr;
    let _ = narrow;
    let _ = wide;
}

/// The interval of a well-formed expression of numbers is in range. Its ends stand in order where those of the columns
/// do.
pub fn range_law(expr: &Expr, columns: &List<SqlType>, t: SqlType)
    requires { type_of expr.now columns.now ≡ Some t }
    ensures range { t.kind ≡ Kind.Integer → IsTrue (is_in_range t.interval) }
    ensures order { All IsProperType columns.now → IsProperType t }
{
    let _ = expr;
    let _ = columns;
}
