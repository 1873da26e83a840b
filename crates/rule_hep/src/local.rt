ghost use Rattle.std.specs.Prelude.{◌≡◌, IfOk, Some};
ghost use Rattle.std.specs.Cmp.Lexicographic.{pointwise};
ghost use Rattle.std.specs.Option.{option_map};
ghost use Rattle.cal_value.specs.Types.{same_kind};
ghost use Rattle.cal_schema.specs.RelType.{kinds_of};
ghost use Rattle.cal_rel.specs.Tree.{tree_of};
ghost use Rattle.rule_hep.specs.Local as spec;

use cal_rel::{PlanInfo, Rel, RelType, type_of};
use cal_value::{NoMemory, SqlType};
use std::alloc::Global;

fn have_same_kinds(a: &[SqlType], b: &[SqlType]) -> bool
    ensures { result ≡ pointwise same_kind (kinds_of a.now) (kinds_of b.now) }
{
    match (a, b) {
        ([], []) => true,
        ([s, types @ ..], [t, others @ ..]) => {
            s.kind.is(t.kind) && have_same_kinds(types, others)
        }
        _ => false,
    }
}

fn same_columns(own: &Option<RelType>, other: &Option<RelType>) -> bool
    ensures { result ≡ spec.same_columns own.now other.now }
{
    let Some(s) = own else {
        return false;
    };
    let Some(t) = other else {
        return false;
    };
    have_same_kinds(s.columns.as_slice(), t.columns.as_slice())
}

/// What a rule of width 1 answers when it has made `out` of `rel`: `out`, where both are well formed with columns of the same kinds, and
/// else None.
pub fn kept(alloc: Global, info: &PlanInfo, rel: &Rel, out: Rel) -> Result<Option<Rel>, NoMemory>
    ensures { IfOk result (λ image. option_map tree_of image
        ≡ spec.kept info.now (tree_of rel.now) (Some (tree_of out))) }
{
    let own = type_of(alloc, &out, info)?;
    let other = type_of(alloc, rel, info)?;
    if same_columns(&own, &other) {
        Ok(Some(out))
    } else {
        Ok(None)
    }
}
