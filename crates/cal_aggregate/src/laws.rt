//! Laws of aggregates, each as the contract of a function that does nothing.
ghost use Rattle.std.specs.Prelude.{◌≡◌, pos, ◌+ℤ◌, ◌≤◌, ◌++◌, Some, List as ListOf, IfSome, map, count_by, fold, not};
ghost use Rattle.std.specs.List.{flat_map};
ghost use Rattle.std.specs.List.Sorted.{IsPermutation};
ghost use Rattle.cal_value.specs.declared.value.Value.{Value as ValueOf};
ghost use Rattle.cal_value.specs.declared.value.Value.TheVariants.{Int};
ghost use Rattle.cal_value.specs.Logic.{is_null};
ghost use Rattle.cal_value.specs.Narrower.{StillTyped};
ghost use Rattle.cal_value.specs.Types.{IsProperType};
ghost use Rattle.cal_aggregate.specs.Aggregate.{aggregated, combined, rolled, numbers, sum_of, IsMin, IsMax};
ghost use Rattle.cal_aggregate.specs.ResultType.{agg_type};

use cal_value::{Agg, List, SqlType, Value};

/// Counts and sums in other words: the number of values that aren't NULL, and the sum of the numbers.
#[tactic(auto, using(crate::proofs::AggregateFolds::aggregate_laws))]
pub fn counts_and_sums_law(values: &List<Value>)
    ensures count { aggregated Agg.Count values.now
        ≡ Int (pos (count_by (λ v. not (is_null v)) values.now)) }
    ensures sum { aggregated Agg.Sum values.now ≡ sum_of (numbers values.now) }
    ensures sum0 { aggregated Agg.Sum0 values.now ≡ Int (fold ◌+ℤ◌ (pos 0) (numbers values.now)) }
{
    let _ = values;
}

/// MIN and MAX in other words: NULL where no value is there that isn't NULL, else the least and the greatest of those.
#[tactic(auto, using(crate::proofs::Extremes::extreme_laws))]
pub fn least_and_greatest_law(values: &List<Value>)
    ensures least { IsMin values.now (aggregated Agg.Min values.now) }
    ensures greatest { IsMax values.now (aggregated Agg.Max values.now) }
{
    let _ = values;
}

/// An aggregate doesn't ask in which order the values stand.
#[tactic(auto, using(crate::proofs::AggregateFolds::aggregate_laws))]
pub fn aggregate_order_law(agg: Agg, values: &List<Value>, others: &List<Value>)
    requires { IsPermutation values.now others.now }
    ensures { aggregated agg values.now ≡ aggregated agg others.now }
{
    let _ = values;
    let _ = others;
}

/// The aggregate of a whole from those of its parts: COUNT by SUM0, each other one by itself.
#[tactic(auto, using(crate::proofs::AggregateFolds::aggregate_laws))]
pub fn roll_up_law(agg: Agg, groups: &List<List<Value>>)
    ensures two { (vs ws : ListOf ValueOf) → aggregated agg (vs ++ ws)
        ≡ combined (rolled agg) (aggregated agg vs) (aggregated agg ws) }
    ensures any { aggregated agg (flat_map (λ vs. vs) groups.now)
        ≡ aggregated (rolled agg) (map (aggregated agg) groups.now) }
{
    let _ = groups;
}

/// A narrower argument and a lesser bound leave an aggregate well formed, with a type at most as wide. What takes no
/// argument takes none of the narrower ones.
pub fn narrower_argument_law(
    agg: Agg,
    narrow: Option<SqlType>,
    wide: Option<SqlType>,
    fewer: u128,
    bound: u128,
)
    requires argument { StillTyped narrow wide }
    requires rows { fewer ≤ bound }
    ensures { StillTyped (agg_type agg narrow fewer) (agg_type agg wide bound) }
{}

/// The ends of an aggregate's type stand in order, where those of its argument do.
pub fn proper_aggregate_law(agg: Agg, argument: Option<SqlType>, bound: u128, t: SqlType)
    requires argument { IfSome argument IsProperType }
    requires typed { agg_type agg argument bound ≡ Some t }
    ensures { IsProperType t }
{}
