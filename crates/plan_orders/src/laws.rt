//! Laws of the order of a plan's rows, each as the contract of a function that does nothing.
ghost use Rattle.std.specs.Prelude.{◌≡◌, ℕ, IsTrue, List as ListOf, map};
ghost use Rattle.cal_value.specs.declared.order.KeyOrder.{KeyOrder};
ghost use Rattle.cal_value.specs.Order.{IsInOrder};
ghost use Rattle.cal_expr.specs.declared.expr.Expr.{Expr};
ghost use Rattle.cal_schema.specs.declared.agg_call.AggCall.{AggCall};
ghost use Rattle.cal_schema.specs.declared.database.Db.{Db};
ghost use Rattle.cal_rel.specs.Info.{Info};
ghost use Rattle.cal_rel.specs.Operators.{Row};
ghost use Rattle.cal_rel.specs.Typing.{pairs_of};
ghost use Rattle.exec_ops.specs.Sort.{IsSortedOn};
ghost use Rattle.plan_nodes.specs.declared.nodes.PlanNode.{PlanNode};
ghost use Rattle.plan_nodes.specs.declared.nodes.PlanNode.TheVariants.{MergeJoin, SortedAggregate};
ghost use Rattle.plan_nodes.specs.Orders.{is_prefix};
ghost use Rattle.plan_nodes.specs.PlanTrees.{PlanTree, plan, plan_width, order_of};
ghost use Rattle.plan_meaning.specs.Bags.{node_bag, plan_bag};
ghost use Rattle.plan_meaning.specs.WellFormed.{IsKept, IsWellFormed, HasKeysWithin};
ghost use Rattle.plan_orders.specs.Ordered.{AreWide, AreSorted, IsNoSort};

/// Each key of the order that a plan gives is a column of its rows.
pub fn keys_law()
    ensures { (info : Info) (db : Db) (tree : PlanTree) → IsWellFormed info db tree
        → HasKeysWithin (plan_width info tree) (order_of info tree) }
{}

/// Out of left rows in the order that the first input gives, each node but Sort makes rows in the order that the plan gives.
pub fn order_law()
    ensures { (info : Info) (db : Db) (node : PlanNode) (rows part : ℕ) (a b : PlanTree)
        (left right : ListOf Row) → IsWellFormed info db (plan node rows part a b)
        → IsNoSort node → AreSorted (plan_width info a) (order_of info a) left
        → IsInOrder (order_of info (plan node rows part a b))
        (node_bag info db node (plan_width info b) left right) }
{}

/// The inputs of a MergeJoin are sorted on the columns of its pairs.
pub fn merge_law()
    ensures first { (info : Info) (db : Db) (on : Expr) (rows part : ℕ) (a b : PlanTree)
        (left : ListOf Row) → IsWellFormed info db (plan (MergeJoin on) rows part a b)
        → IsInOrder (order_of info a) left
        → IsSortedOn (map (λ p. p.left) (pairs_of (plan_width info a) on)) left }
    ensures second { (info : Info) (db : Db) (on : Expr) (rows part : ℕ) (a b : PlanTree)
        (right : ListOf Row) → IsWellFormed info db (plan (MergeJoin on) rows part a b)
        → IsInOrder (order_of info b) right
        → IsSortedOn (map (λ p. p.right) (pairs_of (plan_width info a) on)) right }
{}

/// The input of a SortedAggregate is sorted on its groups.
pub fn group_law()
    ensures { (info : Info) (db : Db) (groups : ListOf ℕ) (calls : ListOf AggCall)
        (rows part : ℕ) (a b : PlanTree) (left : ListOf Row)
        → IsWellFormed info db (plan (SortedAggregate groups calls) rows part a b)
        → IsInOrder (order_of info a) left → IsSortedOn groups left }
{}

/// Rows in an order are in each order with which it begins.
pub fn prefix_law()
    ensures { (order need : ListOf KeyOrder) (rows : ListOf Row) → IsTrue (is_prefix need order)
        → IsInOrder order rows → IsInOrder need rows }
{}

/// Rows that a plan means have as many columns as the plan says.
pub fn wide_law()
    ensures { (info : Info) (db : Db) (tree : PlanTree) → IsWellFormed info db tree
        → AreWide (plan_width info tree) (plan_bag info db tree) }
{}

/// Rows that a node makes have as many columns as the plan says, where those of its inputs have.
pub fn node_law()
    ensures { (info : Info) (db : Db) (node : PlanNode) (rows part : ℕ) (a b : PlanTree)
        (left right : ListOf Row) → IsWellFormed info db (plan node rows part a b)
        → AreWide (plan_width info a) left → AreWide (plan_width info b) right
        → AreWide (plan_width info (plan node rows part a b))
        (node_bag info db node (plan_width info b) left right) }
{}

/// Where a table's adapter or a tile hands on the rows, those that the plan means have its columns and its order.
pub fn kept_law()
    ensures { (info : Info) (db : Db) (tree : PlanTree) → IsWellFormed info db tree → IsKept tree
        → AreSorted (plan_width info tree) (order_of info tree) (plan_bag info db tree) }
{}
