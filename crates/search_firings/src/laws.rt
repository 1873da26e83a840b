//! Laws of firings, each as the contract of a function that does nothing.
ghost use Rattle.std.specs.Prelude.{ℕ, List as ListOf};
ghost use Rattle.cal_rel.specs.Info.{Info};
ghost use Rattle.rule_hep.specs.Meaning.{Meaning};
ghost use Rattle.memo_model.specs.Sets.{Member};
ghost use Rattle.search_model.specs.Search.{IsTriples};
ghost use Rattle.search_model.specs.Listed.{listed};

/// The list of the triples of a memo has each of them and no other.
pub fn triples_law()
    ensures { (info : Info) (rules : ListOf Meaning) (members : ListOf Member)
        → IsTriples info rules members (listed info rules members) }
{}
