ghost use Rattle.std.specs.Prelude.{◌≡◌, IfOk};

use cal_value::{Duplicate, List, NoMemory, Row};
use std::alloc::Global;

/// The rows of each table, in the order of the schema's tables.
#[derive(Debug, Drop)]
pub struct Db {
    pub tables: List<List<Row>>,
}

impl Duplicate for Db {
    fn copy(&self, alloc: Global) -> Result<Db, NoMemory> {
        let tables = self.tables.copy(alloc)?;
        Ok(Db { tables })
    }
}
