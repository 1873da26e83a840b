//! A law of column tests, as the contract of a function that does nothing.
ghost use Rattle.std.specs.Prelude.{◌≡◌, List, IsTrue};
ghost use Rattle.cal_expr.specs.Meaning.{meaning_of};
ghost use Rattle.cal_value.specs.Logic.{is_true};
ghost use Rattle.cal_value.specs.declared.value.Value.{Value};
ghost use Rattle.adapters.specs.declared.request.ColumnTest.{ColumnTest};
ghost use Rattle.adapters.specs.Scan.{expression_of, is_comparison, meets};

/// A test by one of the six comparisons is met exactly where the comparison of its column with its literal means TRUE.
#[tactic(auto, using(crate::proofs::Comparisons::meets_means))]
pub fn comparison_law()
    ensures { (test : ColumnTest) (row : List Value) → IsTrue (is_comparison test.op) →
        meets row test ≡ is_true (meaning_of (expression_of test) row) }
{}
