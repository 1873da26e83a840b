//! The parts of a SELECT.
use crate::tree::{ColumnName, Tree};
use cal_value::{Duplicate, List, NoMemory, SqlText};
use std::alloc::Global;

/// A table or a lattice, with its schema where that is written.
#[derive(Debug, Drop)]
pub struct TableName {
    pub schema: Option<SqlText>,
    pub name: SqlText,
}

/// An item of a SELECT, with its alias where that is written.
#[derive(Debug, Drop)]
pub struct Item {
    pub tree: Tree,
    pub alias: Option<SqlText>,
}

/// `*`, or the items.
#[derive(Debug, Drop)]
pub enum Items {
    Star,
    Listed(List<Item>),
}

/// A name of USING, with its place.
#[derive(Debug, Drop)]
pub struct UsingName {
    pub place: u64,
    pub name: SqlText,
}

/// The condition of a join.
#[derive(Debug, Drop)]
pub enum Cond {
    On(Tree),
    Using(List<UsingName>),
}

/// How an entry of FROM is joined with those before it.
#[derive(Debug, Drop)]
pub enum How {
    First,
    Cross,
    Inner(Cond),
    Left(Cond),
}

/// An entry of FROM. Without a written alias its alias is the table's name.
#[derive(Debug, Drop)]
pub struct FromEntry {
    pub table: TableName,
    pub alias: SqlText,
    pub how: How,
}

/// What a key of ORDER BY names: an output column by its number, or a column.
#[derive(Debug, Drop)]
pub enum KeyBy {
    Place(i128),
    Column(ColumnName),
}

/// A key of ORDER BY, with the place of its first token.
#[derive(Debug, Drop)]
pub struct OrderKey {
    pub place: u64,
    pub by: KeyBy,
    pub descending: bool,
    pub nulls_first: bool,
}

/// A SELECT.
#[derive(Debug, Drop)]
pub struct Select {
    pub distinct: bool,
    pub items: Items,
    pub from: List<FromEntry>,
    pub filter: Option<Tree>,
    pub groups: List<ColumnName>,
    pub having: Option<Tree>,
    pub order: List<OrderKey>,
}

impl Duplicate for TableName {
    fn copy(&self, alloc: Global) -> Result<TableName, NoMemory> {
        let schema = self.schema.copy(alloc)?;
        let name = self.name.copy(alloc)?;
        Ok(TableName { schema, name })
    }
}

impl Duplicate for Item {
    fn copy(&self, alloc: Global) -> Result<Item, NoMemory> {
        let tree = self.tree.copy(alloc)?;
        let alias = self.alias.copy(alloc)?;
        Ok(Item { tree, alias })
    }
}

impl Duplicate for Items {
    fn copy(&self, alloc: Global) -> Result<Items, NoMemory> {
        match self {
            Items::Star => Ok(Items::Star),
            Items::Listed(items) => Ok(Items::Listed(items.copy(alloc)?)),
        }
    }
}

impl Duplicate for UsingName {
    fn copy(&self, alloc: Global) -> Result<UsingName, NoMemory> {
        let name = self.name.copy(alloc)?;
        Ok(UsingName {
            place: self.place,
            name,
        })
    }
}

impl Duplicate for Cond {
    fn copy(&self, alloc: Global) -> Result<Cond, NoMemory> {
        match self {
            Cond::On(tree) => Ok(Cond::On(tree.copy(alloc)?)),
            Cond::Using(names) => Ok(Cond::Using(names.copy(alloc)?)),
        }
    }
}

impl Duplicate for How {
    fn copy(&self, alloc: Global) -> Result<How, NoMemory> {
        match self {
            How::First => Ok(How::First),
            How::Cross => Ok(How::Cross),
            How::Inner(cond) => Ok(How::Inner(cond.copy(alloc)?)),
            How::Left(cond) => Ok(How::Left(cond.copy(alloc)?)),
        }
    }
}

impl Duplicate for FromEntry {
    fn copy(&self, alloc: Global) -> Result<FromEntry, NoMemory> {
        let table = self.table.copy(alloc)?;
        let alias = self.alias.copy(alloc)?;
        let how = self.how.copy(alloc)?;
        Ok(FromEntry { table, alias, how })
    }
}

impl Duplicate for KeyBy {
    fn copy(&self, alloc: Global) -> Result<KeyBy, NoMemory> {
        match self {
            KeyBy::Place(number) => Ok(KeyBy::Place(*number)),
            KeyBy::Column(name) => Ok(KeyBy::Column(name.copy(alloc)?)),
        }
    }
}

impl Duplicate for OrderKey {
    fn copy(&self, alloc: Global) -> Result<OrderKey, NoMemory> {
        let by = self.by.copy(alloc)?;
        Ok(OrderKey {
            place: self.place,
            by,
            descending: self.descending,
            nulls_first: self.nulls_first,
        })
    }
}

impl Duplicate for Select {
    fn copy(&self, alloc: Global) -> Result<Select, NoMemory> {
        let items = self.items.copy(alloc)?;
        let from = self.from.copy(alloc)?;
        let filter = self.filter.copy(alloc)?;
        let groups = self.groups.copy(alloc)?;
        let having = self.having.copy(alloc)?;
        let order = self.order.copy(alloc)?;
        Ok(Select {
            distinct: self.distinct,
            items,
            from,
            filter,
            groups,
            having,
            order,
        })
    }
}
