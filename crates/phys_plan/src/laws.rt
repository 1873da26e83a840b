//! Laws of the plans that a memo spells, each as the contract of a function that does nothing.
ghost use Rattle.std.specs.Prelude.{◌≡◌, ℕ, IsTrue, List as ListOf, Option as OptionOf, Some, None, slice_get};
ghost use Rattle.cal_value.specs.declared.order.KeyOrder.{KeyOrder};
ghost use Rattle.cal_rel.specs.Bag.{set_width};
ghost use Rattle.plan_nodes.specs.Orders.{is_prefix};
ghost use Rattle.plan_nodes.specs.PlanTrees.{PlanTree, rows_of, plan_width, order_of};
ghost use Rattle.phys_plan.specs.declared.ways.Ask.{Ask};
ghost use Rattle.phys_plan.specs.declared.ways.Way.{Way};
ghost use Rattle.phys_plan.specs.Spaces.{Space, HasWidths};
ghost use Rattle.phys_plan.specs.Ways.{ways};
ghost use Rattle.phys_plan.specs.Plans.{Realises};
ghost use Rattle.phys_plan.specs.Realised.{Realised, HasPlan};
ghost use Rattle.phys_plan.specs.Alternatives.{asked_rows};
ghost use Rattle.phys_plan.specs.Inputs.{IsOrderOf, IsRow};
ghost use Rattle.phys_plan.specs.Grounded.{HoldsTree};

/// The two ways to say that a plan realises what is asked are one.
pub fn realised_law()
    ensures by_rules { (space : Space) (ask : OptionOf Ask) (tree : PlanTree)
        → Realises space ask tree → Realised space ask tree }
    ensures by_tree { (space : Space) (ask : OptionOf Ask) (tree : PlanTree)
        → Realised space ask tree → Realises space ask tree }
{}

/// A plan that realises what is asked has the estimate of the set, and the asked order.
pub fn given_law()
    ensures rows { (space : Space) (ask : OptionOf Ask) (tree : PlanTree)
        → Realises space ask tree → rows_of tree ≡ asked_rows space ask }
    ensures order { (space : Space) (ask : OptionOf Ask) (tree : PlanTree) (order : ListOf KeyOrder)
        → Realises space ask tree → IsOrderOf ask order
        → IsTrue (is_prefix order (order_of space.info tree)) }
{}

/// Each way asks of its inputs what its node's row asks.
pub fn roots_law()
    ensures { (space : Space) (set : ℕ) (order : ListOf KeyOrder) (k : ℕ) (w : Way)
        → slice_get (ways space set order) k ≡ Some w → IsRow space w }
{}

/// A set that holds a tree of parts that can be read has a plan in each order.
pub fn plan_exists_law()
    ensures { (space : Space) (set : ℕ) (order : ListOf KeyOrder)
        → HoldsTree space set → HasPlan space set order }
{}

/// A plan has as many columns as the set that it realises.
pub fn widths_law()
    ensures { (space : Space) (ask : Ask) (tree : PlanTree)
        → HasWidths space → Realises space (Some ask) tree
        → plan_width space.info tree ≡ set_width space.info ask.set }
{}
