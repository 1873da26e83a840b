//! Laws of the operators, each as the contract of a function that does nothing.
ghost use Rattle.std.specs.Prelude.{◌≡◌, ℕ, All, List as ListOf, length};
ghost use Rattle.cal_expr.specs.declared.expr.Expr.{Expr};
ghost use Rattle.cal_schema.specs.declared.agg_call.AggCall.{AggCall};
ghost use Rattle.cal_schema.specs.declared.join_kind.JoinKind.{JoinKind};
ghost use Rattle.cal_rel.specs.Bag.{binary_bag};
ghost use Rattle.cal_rel.specs.Operators.{Row, called, grouped};
ghost use Rattle.cal_rel.specs.Tree.{join_on};
ghost use Rattle.exec_ops.specs.declared.join_on.JoinOn.{JoinOn};
ghost use Rattle.exec_ops.specs.Group.{group_rows};
ghost use Rattle.exec_ops.specs.Join.{join_rows};
ghost use Rattle.row_exec.specs.Split.{Splits};

/// The join on pairs of columns and a rest is the join on a condition, where left and right rows go together exactly where the
/// condition is TRUE of the one before the other.
pub fn join_law()
    ensures { (kind : JoinKind) (on : Expr) (split : JoinOn) (left right : ListOf Row) (n : ℕ)
        → All (λ row. length row ≡ n) left → Splits on n split
        → binary_bag (join_on kind on) split.right_width left right ≡ join_rows kind split left right }
{}

/// The groups of one aggregate node are those of the operator.
pub fn group_law()
    ensures { (groups : ListOf ℕ) (calls : ListOf AggCall) (rows : ListOf Row)
        → grouped groups (called calls) rows ≡ group_rows groups calls rows }
{}
