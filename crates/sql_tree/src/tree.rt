//! The tree of an expression.
use cal_value::{Agg, Duplicate, NoMemory, Op, SqlText, Value};
use sqlite_items::Boxed;
use std::alloc::Global;

/// A column, with the alias of its entry where it is written.
#[derive(Debug, Drop)]
pub struct ColumnName {
    pub alias: Option<SqlText>,
    pub name: SqlText,
}

/// An expression. Each node has its token's place, counted from 0: the operator, the aggregate's word, or the first
/// token. A literal is never NULL. `Aggregate` without an argument is COUNT(*).
#[derive(Debug, Drop)]
pub enum Tree {
    Column {
        place: u64,
        name: ColumnName,
    },
    Literal {
        place: u64,
        value: Value,
    },
    Negate {
        place: u64,
        operand: Boxed<Tree>,
    },
    Binary {
        place: u64,
        op: Op,
        left: Boxed<Tree>,
        right: Boxed<Tree>,
    },
    Not {
        place: u64,
        operand: Boxed<Tree>,
    },
    IsNull {
        place: u64,
        operand: Boxed<Tree>,
    },
    Aggregate {
        place: u64,
        agg: Agg,
        argument: Option<Boxed<Tree>>,
    },
}

impl Duplicate for ColumnName {
    fn copy(&self, alloc: Global) -> Result<ColumnName, NoMemory> {
        let alias = self.alias.copy(alloc)?;
        let name = self.name.copy(alloc)?;
        Ok(ColumnName { alias, name })
    }
}

impl Duplicate for Tree {
    fn copy(&self, alloc: Global) -> Result<Tree, NoMemory> {
        match self {
            Tree::Column { place, name } => Ok(Tree::Column {
                place: *place,
                name: name.copy(alloc)?,
            }),
            Tree::Literal { place, value } => Ok(Tree::Literal {
                place: *place,
                value: value.copy(alloc)?,
            }),
            Tree::Negate { place, operand } => Ok(Tree::Negate {
                place: *place,
                operand: Boxed::new(alloc, operand.get().copy(alloc)?)?,
            }),
            Tree::Binary {
                place,
                op,
                left,
                right,
            } => Ok(Tree::Binary {
                place: *place,
                op: *op,
                left: Boxed::new(alloc, left.get().copy(alloc)?)?,
                right: Boxed::new(alloc, right.get().copy(alloc)?)?,
            }),
            Tree::Not { place, operand } => Ok(Tree::Not {
                place: *place,
                operand: Boxed::new(alloc, operand.get().copy(alloc)?)?,
            }),
            Tree::IsNull { place, operand } => Ok(Tree::IsNull {
                place: *place,
                operand: Boxed::new(alloc, operand.get().copy(alloc)?)?,
            }),
            Tree::Aggregate {
                place,
                agg,
                argument,
            } => {
                let argument = match argument {
                    Some(argument) => Some(Boxed::new(alloc, argument.get().copy(alloc)?)?),
                    None => None,
                };
                Ok(Tree::Aggregate {
                    place: *place,
                    agg: *agg,
                    argument,
                })
            }
        }
    }
}
