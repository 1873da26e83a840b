//! The statements.
use crate::select::{Select, TableName};
use crate::tree::{ColumnName, Tree};
use cal_value::{Duplicate, List, NoMemory, Row};
use std::alloc::Global;

/// A tile of a lattice: its dimensions, and its measures where they are written.
#[derive(Debug, Drop)]
pub struct TileText {
    pub lattice: TableName,
    pub dims: List<ColumnName>,
    pub measures: Option<List<Tree>>,
}

/// A statement.
#[derive(Debug, Drop)]
pub enum Statement {
    Select(Select),
    ExplainPlan(Select),
    ExplainMemo(Select),
    Insert { table: TableName, rows: List<Row> },
    Refresh { table: TableName },
    CreateTile(TileText),
    DropTile(TileText),
    ChooseTiles { lattice: TableName, limit: u32 },
}

impl Duplicate for TileText {
    fn copy(&self, alloc: Global) -> Result<TileText, NoMemory> {
        let lattice = self.lattice.copy(alloc)?;
        let dims = self.dims.copy(alloc)?;
        let measures = self.measures.copy(alloc)?;
        Ok(TileText {
            lattice,
            dims,
            measures,
        })
    }
}

impl Duplicate for Statement {
    fn copy(&self, alloc: Global) -> Result<Statement, NoMemory> {
        match self {
            Statement::Select(select) => Ok(Statement::Select(select.copy(alloc)?)),
            Statement::ExplainPlan(select) => Ok(Statement::ExplainPlan(select.copy(alloc)?)),
            Statement::ExplainMemo(select) => Ok(Statement::ExplainMemo(select.copy(alloc)?)),
            Statement::Insert { table, rows } => Ok(Statement::Insert {
                table: table.copy(alloc)?,
                rows: rows.copy(alloc)?,
            }),
            Statement::Refresh { table } => Ok(Statement::Refresh {
                table: table.copy(alloc)?,
            }),
            Statement::CreateTile(tile) => Ok(Statement::CreateTile(tile.copy(alloc)?)),
            Statement::DropTile(tile) => Ok(Statement::DropTile(tile.copy(alloc)?)),
            Statement::ChooseTiles { lattice, limit } => Ok(Statement::ChooseTiles {
                lattice: lattice.copy(alloc)?,
                limit: *limit,
            }),
        }
    }
}
