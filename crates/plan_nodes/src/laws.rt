//! Laws of plans, each as the contract of a function that does nothing.
ghost use Rattle.std.specs.Prelude.{◌≡◌, IsTrue, ℕ, List as ListOf, Some};
ghost use Rattle.cal_value.specs.declared.order.KeyOrder.{KeyOrder};
ghost use Rattle.cal_rel.specs.Info.{Info};
ghost use Rattle.plan_nodes.specs.declared.nodes.PlanNode.{PlanNode};
ghost use Rattle.plan_nodes.specs.Orders.{is_prefix, gives, asked_order, below, Found};

/// The order that a node needs of its first input is the least one with which it gives the needed order and has what its
/// row asks.
pub fn below_law()
    ensures least { (info : Info) (width : ℕ) (node : PlanNode) (need order : ListOf KeyOrder)
        → IsTrue (is_prefix need (gives info width node order))
        → IsTrue (is_prefix (asked_order width node) order)
        → Found (below info width node need) order }
    ensures enough { (info : Info) (width : ℕ) (node : PlanNode) (need rest order : ListOf KeyOrder)
        → below info width node need ≡ Some rest → IsTrue (is_prefix rest order)
        → IsTrue (is_prefix need (gives info width node order)) }
    ensures asked { (info : Info) (width : ℕ) (node : PlanNode) (need rest : ListOf KeyOrder)
        → below info width node need ≡ Some rest
        → IsTrue (is_prefix (asked_order width node) rest) }
{}
