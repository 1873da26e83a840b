//! The keys of ORDER BY as columns of the answer.
ghost use Rattle.std.specs.Prelude.{◌≡◌, ◌<◌, ◌^◌, length, count_by, position};
ghost use Rattle.std.specs.Option.{option_and_then};
ghost use Rattle.cal_schema.specs.Lookup.{is_same_name};
ghost use Rattle.sql_tree.specs.declared.select.Items.{Items};
ghost use Rattle.sql_meaning.specs.Names.{output_names, output_places};
ghost use Rattle.sql_meaning.specs.Order as spec;
ghost use Rattle.sql_meaning.specs.Scope.{place_of, types_in};

use cal_value::SqlText;
use sql_meaning::{Entry, column_place};
use sql_tree::{ColumnName, KeyBy};

fn placed(count: usize, number: i128) -> Option<usize>
    ensures { result ≡ spec.placed count number }
{
    if number < 1 || number > count as i128 {
        None
    } else {
        Some((number - 1) as usize)
    }
}

fn times(names: &[SqlText], name: &SqlText) -> usize
    ensures { result ≡ count_by (is_same_name name.now) names.now }
{
    let mut count = 0;
    for other in names {
        if *name == *other {
            count += 1;
        }
    }
    count
}

fn first_named(names: &[SqlText], name: &SqlText) -> Option<usize>
    ensures { result ≡ position (is_same_name name.now) names.now }
{
    names.iter().position(|other| *name == *other)
}

fn named_once(names: &[SqlText], name: &SqlText) -> Option<usize>
    ensures { result ≡ spec.named_once names.now name.now }
{
    if times(names, name) == 1 {
        first_named(names, name)
    } else {
        None
    }
}

fn is_at(at: usize, place: &Option<usize>) -> bool
    ensures { result ≡ spec.is_at at place.now }
{
    match place {
        Some(other) => *other == at,
        None => false,
    }
}

fn first_at(places: &[Option<usize>], at: usize) -> Option<usize>
    ensures { result ≡ spec.first_at places.now at }
{
    places.iter().position(|place| is_at(at, place))
}

fn qualified_column(
    places: &[Option<usize>],
    scope: &[Entry<'_>],
    name: &ColumnName,
) -> Option<usize>
    requires { length (types_in scope.now) < 2 ^ 32 }
    ensures { result ≡ option_and_then (spec.first_at places.now) (place_of scope.now name.now) }
{
    first_at(places, column_place(scope, name)?)
}

/// The column of the answer that a key names: the one of this place from 1, the only one of this name, or the first one that is
/// this column of FROM. Takes no memory.
pub fn key_column(
    by: &KeyBy,
    names: &[SqlText],
    places: &[Option<usize>],
    scope: &[Entry<'_>],
) -> Option<usize>
    requires { length (types_in scope.now) < 2 ^ 32 }
    ensures { (items : Items) → names.now ≡ output_names scope.now items
        → places.now ≡ output_places scope.now items
        → result ≡ spec.key_column scope.now items by.now }
{
    match by {
        KeyBy::Place(number) => placed(names.len(), *number),
        KeyBy::Column(name) => match &name.alias {
            Some(_) => qualified_column(places, scope, name),
            None => named_once(names, &name.name),
        },
    }
}
