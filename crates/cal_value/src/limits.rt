//! The limits of the product, which contracts cite by name.

/// A number of SQL is smaller in size: 10^38.
pub const NUMBER_LIMIT: i128 = 100_000_000_000_000_000_000_000_000_000_000_000_000;

/// How many characters a text may have.
pub const TEXT_LIMIT: u32 = 4000;

/// How many characters a name may have.
pub const NAME_LIMIT: u32 = 128;

/// How many tables a schema may have.
pub const TABLE_LIMIT: u32 = 64;

/// How many columns a table may have.
pub const COLUMN_LIMIT: u32 = 32;

/// How many entries FROM may have.
pub const FROM_LIMIT: u32 = 8;

/// How many rows a table may have, where its model says nothing less.
pub const ROW_LIMIT: u64 = 1_048_576;

/// How many brackets of a statement may be open at a token.
pub const BRACKET_LIMIT: u32 = 64;

/// How many operators a statement may have, unless it begins with INSERT.
pub const OPERATOR_LIMIT: u32 = 256;

/// How many rewrites a search may make, by the words of a command.
pub const BUDGET_LIMIT: u64 = 20_000;

/// How many bytes a model may have.
pub const MODEL_LIMIT: u64 = 16_777_216;

/// How many bytes the file of a table may have.
pub const FILE_LIMIT: u64 = 8_388_608;

/// How many bytes the files of all tables may have together.
pub const FILES_LIMIT: u64 = 33_554_432;
