//! The entries that an expression sees.
ghost use Rattle.std.specs.Prelude.{◌≡◌, take};

use sql_meaning::Entry;

/// The first so many entries, or all where there are fewer.
pub(crate) fn seen<'a, 'b>(scope: &'a [Entry<'b>], entries: usize) -> &'a [Entry<'b>]
    ensures { result.now ≡ take entries scope.now }
{
    scope.split_at(entries.min(scope.len())).0
}
