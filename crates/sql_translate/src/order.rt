//! The keys of ORDER BY.
ghost use Rattle.std.specs.Prelude.{◌≡◌, ◌<◌, ◌^◌, length, filter_map, IfOk};
ghost use Rattle.sql_meaning.specs.Names.{output_names, output_places};
ghost use Rattle.sql_meaning.specs.Order as spec;
ghost use Rattle.sql_meaning.specs.Scope.{types_in};

use crate::numbers::column_number;
use cal_value::{Collation, KeyOrder, List, NoMemory, SqlText};
use sql_meaning::Entry;
use sql_names::{key_column, output_places};
use sql_tree::Select;
use std::alloc::Global;

/// The columns of the answer that ORDER BY names, each with its direction and where NULL stands.
pub(crate) fn order_keys(
    alloc: Global,
    select: &Select,
    names: &[SqlText],
    scope: &[Entry<'_>],
) -> Result<Collation, NoMemory>
    requires small { length (types_in scope.now) < 2 ^ 32 }
    requires named { names.now ≡ output_names scope.now select.now.items }
    ensures { IfOk result (λ keys. keys ≡ spec.keys_of scope.now select.now) }
{
    let places = output_places(alloc, &select.items, scope)?;
    let mut keys = List::new(alloc);
    for key in select.order.as_slice() {
        if let Some(at) = key_column(&key.by, names, places.as_slice(), scope) {
            let column = column_number(at)?;
            keys.push(KeyOrder {
                column,
                descending: key.descending,
                nulls_first: key.nulls_first,
            })?;
        }
    }
    Ok(keys)
}
