/// What can be read: a table by its number, or a tile by its instance.
#[derive(Clone, Copy, Debug, PartialEq, Eq, Hash)]
pub enum Part {
    Table(u32),
    Tile(u32),
}
