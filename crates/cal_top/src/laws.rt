//! Laws of the definitions, each as the contract of a function that does nothing else.
ghost use Rattle.std.specs.Prelude.{◌≡◌, ℕ, List as ListOf, Option, Some};
ghost use Rattle.cal_outside.specs.Store.{StoreState};
ghost use Rattle.rule_hep.specs.Meaning.{Meaning};
ghost use Rattle.cal_top.specs.RunEnd.{AreSameEnds, RunEnd, IsRightEnd};

use session_lane::one_reply_is_right;

/// Over told files, at most one fault, one list of files, one list of tables and, up to the order of its rows, one reply are
/// right for given words and rules, where no fault was counted, and but for want of memory.
pub fn one_end_is_right()
    ensures { (rules : ListOf Meaning) (old : StoreState) (file : ListOf ℕ → Option (ListOf ℕ)) (words : ListOf (ListOf ℕ))
        (a b : RunEnd) → old.files ≡ Some file → IsRightEnd rules old words a → IsRightEnd rules old words b → AreSameEnds a b }
{
    one_reply_is_right();
}
