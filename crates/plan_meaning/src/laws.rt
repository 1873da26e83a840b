//! Laws of plans and what they mean, each as the contract of a function that does nothing.
ghost use Rattle.std.specs.Prelude.{◌≡◌, ℕ, List as ListOf, Option as OptionOf, Some};
ghost use Rattle.cal_value.specs.declared.order.KeyOrder.{KeyOrder};
ghost use Rattle.cal_expr.specs.declared.expr.Expr.{Expr};
ghost use Rattle.cal_schema.specs.declared.database.Db.{Db};
ghost use Rattle.cal_schema.specs.declared.rel_type.RelType.{RelType};
ghost use Rattle.cal_schema.specs.declared.schema.Schema.{Schema};
ghost use Rattle.cal_schema.specs.Fits.{Fits};
ghost use Rattle.cal_rel.specs.Bag.{set_width};
ghost use Rattle.cal_rel.specs.Info.{Info};
ghost use Rattle.memo_model.specs.Sets.{Sets};
ghost use Rattle.memo_model.specs.Sound.{over, IsSound};
ghost use Rattle.plan_nodes.specs.PlanTrees.{PlanTree, plan_width, order_of};
ghost use Rattle.phys_plan.specs.declared.ways.Ask.{Ask};
ghost use Rattle.phys_plan.specs.Realised.{Realised, IsPlanOf};
ghost use Rattle.phys_plan.specs.Spaces.{Space, HasWidths};
ghost use Rattle.plan_meaning.specs.Bags.{plan_bag};
ghost use Rattle.plan_meaning.specs.Examples.{SmallPlans};
ghost use Rattle.plan_meaning.specs.Memos.{IsSpaceOf, AreApart, MeansSet};
ghost use Rattle.plan_meaning.specs.WellFormed.{IsWellFormed, HasKeysWithin, ArePartsOf};

/// A plan of a set of a sound memo means what the set means, whatever is asked of its rows.
pub fn plan_meaning_law()
    ensures plan { (info : Info) (sets : Sets) (space : Space) (set : ℕ) (order : ListOf KeyOrder)
        (tree : PlanTree) → IsSound info sets → IsSpaceOf space info sets
        → AreApart info.tiles → IsPlanOf space set order tree
        → MeansSet info sets set tree }
    ensures asked { (info : Info) (sets : Sets) (space : Space) (ask : Ask) (tree : PlanTree)
        → IsSound info sets → IsSpaceOf space info sets → AreApart info.tiles
        → Realised space (Some ask) tree → MeansSet info sets ask.set tree }
{}

/// In a sound memo each member has as many columns as its set.
pub fn widths_law()
    ensures { (info : Info) (sets : Sets) (space : Space) → IsSound info sets
        → IsSpaceOf space info sets → AreApart info.tiles → HasWidths space }
{}

/// A plan of a set of a sound memo is well formed over a database of whose parts the space has the lengths, where each key of
/// the asked order is a column of the set.
pub fn well_formed_law()
    ensures { (info : Info) (sets : Sets) (space : Space) (set : ℕ) (order : ListOf KeyOrder)
        (tree : PlanTree) (db : Db) → IsSound info sets → IsSpaceOf space info sets
        → AreApart info.tiles → ArePartsOf space db → Fits db info.schema
        → HasKeysWithin (set_width (over info sets.types) set) order
        → IsPlanOf space set order tree → IsWellFormed info db tree }
{}

/// The types of sets are no part of what a plan means and gives.
pub fn sets_law()
    ensures rows { (info : Info) (types : ListOf (OptionOf RelType)) (db : Db) (tree : PlanTree)
        → plan_bag (over info types) db tree ≡ plan_bag info db tree }
    ensures columns { (info : Info) (types : ListOf (OptionOf RelType)) (tree : PlanTree)
        → plan_width (over info types) tree ≡ plan_width info tree }
    ensures order { (info : Info) (types : ListOf (OptionOf RelType)) (tree : PlanTree)
        → order_of (over info types) tree ≡ order_of info tree }
{}

/// The rows of some small plans.
pub fn examples_law()
    ensures { (info : Info) (schema : Schema) (on : Expr) → SmallPlans info schema on }
{}
