//! Laws of the definitions, each as the contract of a function that does nothing.
ghost use Rattle.std.specs.Prelude.{All};
ghost use Rattle.cal_schema.specs.Fits.{HasWholeKey, IsFilledBy};
ghost use Rattle.cal_schema.specs.Valid.{IsValidTable};

use crate::table::TableDef;
use cal_value::{List, Row};

/// No key of the rows of a valid table has NULL in it.
pub fn whole_keys_law(table: &TableDef, rows: &List<Row>)
    requires valid { IsValidTable table.now }
    requires filled { IsFilledBy table.now rows.now }
    ensures { All (HasWholeKey table.now) rows.now }
{
    let _ = table;
    let _ = rows;
}
