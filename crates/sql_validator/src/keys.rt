//! Keys of ORDER BY that name no column of the answer.
ghost use Rattle.std.specs.Prelude.{◌≡◌, ◌<◌, ◌^◌, length, find, option_map};
ghost use Rattle.sql_meaning.specs.Names.{output_names, output_places};
ghost use Rattle.sql_meaning.specs.Refused.{names_no_column};
ghost use Rattle.sql_meaning.specs.Scope.{types_in};

use cal_value::SqlText;
use sql_meaning::Entry;
use sql_names::key_column;
use sql_tree::Select;

/// The place of the first key of ORDER BY that names no column of the answer. Takes no memory.
pub(crate) fn bad_key(
    select: &Select,
    names: &[SqlText],
    places: &[Option<usize>],
    scope: &[Entry<'_>],
) -> Option<u64>
    requires named { names.now ≡ output_names scope.now select.now.items }
    requires placed { places.now ≡ output_places scope.now select.now.items }
    requires numbered { length (types_in scope.now) < 2 ^ 32 }
    ensures { result ≡ option_map (λ key. key.place)
        (find (names_no_column scope.now select.now) select.now.order) }
{
    for key in select.order.as_slice() {
        if key_column(&key.by, names, places, scope).is_none() {
            return Some(key.place);
        }
    }
    None
}
