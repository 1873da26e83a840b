//! Laws of plans and the SELECTs that they answer, each as the contract of a function that does nothing.
ghost use Rattle.std.specs.Prelude.{◌≡◌, ℕ, [], length};
ghost use Rattle.cal_schema.specs.declared.schema.Schema.{Schema};
ghost use Rattle.cal_snapshot.specs.Parts.{Parts};
ghost use Rattle.cal_rel.specs.Bag.{width};
ghost use Rattle.cal_rel.specs.Info.{Info, info_of};
ghost use Rattle.memo_model.specs.Sets.{Sets};
ghost use Rattle.phys_plan.specs.Grounded.{HoldsTree};
ghost use Rattle.phys_plan.specs.Spaces.{HasWidths};
ghost use Rattle.plan_meaning.specs.Memos.{AreApart};
ghost use Rattle.plan_meaning.specs.WellFormed.{HasKeysWithin};
ghost use Rattle.plan_spaces.specs.Made.{made};
ghost use Rattle.sql_algebra.specs.Algebra.{algebra};
ghost use Rattle.sql_meaning.specs.Names.{output_names};
ghost use Rattle.sql_meaning.specs.Order.{keys_of};
ghost use Rattle.sql_meaning.specs.Scope.{scope_of};
ghost use Rattle.sql_tree.specs.declared.select.Select.{Select};
ghost use Rattle.volcano_best.specs.declared.planned.Planned.{Planned};
ghost use Rattle.volcano_best.specs.Solved.{IsCheapest};
ghost use Rattle.plan_answers.specs.Answers.{HoldsTheSelect, AnswersTheSelect};

/// The tree of a SELECT has a column for each name of the answer.
pub fn columns_law()
    ensures { (info : Info) (schema : Schema) (select : Select) → width info (algebra schema select)
        ≡ length (output_names (scope_of schema select) select.items) }
{}

/// Each key of ORDER BY is a column of the SELECT's tree.
pub fn keys_law()
    ensures { (info : Info) (schema : Schema) (select : Select)
        → HasKeysWithin (width info (algebra schema select))
        (keys_of (scope_of schema select) select) }
{}

/// A set that holds a tree of the SELECT has what the choice of a cheapest plan asks, over a snapshot in which no two tiles are of one
/// instance.
pub fn choice_law()
    ensures tree { (schema : Schema) (parts : Parts) (sets : Sets) (set : ℕ) (select : Select)
        → HoldsTheSelect (info_of schema parts.tiles []) sets set select
        → HoldsTree (made (info_of schema parts.tiles []) sets parts) set }
    ensures widths { (schema : Schema) (parts : Parts) (sets : Sets) (set : ℕ) (select : Select)
        → HoldsTheSelect (info_of schema parts.tiles []) sets set select → AreApart parts.tiles
        → HasWidths (made (info_of schema parts.tiles []) sets parts) }
{}

/// The cheapest plan of such a set in the order that the SELECT asks answers the SELECT.
pub fn answer_law()
    ensures { (schema : Schema) (parts : Parts) (sets : Sets) (set : ℕ) (select : Select)
        (best : Planned) → HoldsTheSelect (info_of schema parts.tiles []) sets set select
        → AreApart parts.tiles → IsCheapest (made (info_of schema parts.tiles []) sets parts) set
        (keys_of (scope_of schema select) select) best
        → AnswersTheSelect schema parts sets select best.plan }
{}
