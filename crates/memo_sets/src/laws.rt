//! Laws of memos, each as the contract of a function that does nothing.
ghost use Rattle.std.specs.Prelude.{◌≡◌, ℕ, Some, List as ListOf};
ghost use Rattle.cal_schema.specs.declared.rel_type.RelType.{RelType};
ghost use Rattle.cal_schema.specs.RelType.{kinds_of};
ghost use Rattle.cal_rel.specs.Holes.{renumbered};
ghost use Rattle.cal_rel.specs.Info.{Info};
ghost use Rattle.cal_rel.specs.Meaning.{MeansTheSame};
ghost use Rattle.cal_rel.specs.Tree.{Tree};
ghost use Rattle.cal_rel.specs.Typing.{type_of};
ghost use Rattle.memo_model.specs.Sets.{Member, Sets, became, Stands};
ghost use Rattle.memo_model.specs.Sound.{over, Means, IsSound, IsUnique, MayRegister};
ghost use Rattle.memo_model.specs.Relations.{Keeps};

/// A well-formed tree that means the same as one that stands in a set, and has its column kinds, may be registered there.
pub fn image_law()
    ensures { (info : Info) (m : Sets) (s : ℕ) (x out : Tree) (t u : RelType)
        → IsSound info m → Stands m.members s x
        → type_of (over info m.types) x ≡ Some t → type_of (over info m.types) out ≡ Some u
        → kinds_of u.columns ≡ kinds_of t.columns → MeansTheSame (over info m.types) out x
        → MayRegister info m out s }
{}

/// What stands in a set means what the set means, it stands in what the set has become afterwards, and in no other set.
pub fn stands_law()
    ensures means { (info : Info) (m : Sets) (s : ℕ) (x : Tree)
        → IsSound info m → Stands m.members s x → Means info m.seeds x s }
    ensures kept { (old new : Sets) (s : ℕ) (x : Tree) → Keeps old new → Stands old.members s x
        → Stands new.members (became new.numbers s) (renumbered (became new.numbers) x) }
    ensures once { (members : ListOf Member) (s r : ℕ) (x : Tree) → IsUnique members
        → Stands members s x → Stands members r x → s ≡ r }
{}

/// What one memo keeps of another and a third of the first, the third keeps of the second.
pub fn keeps_law()
    ensures { (first second third : Sets) → Keeps first second → Keeps second third
        → Keeps first third }
{}
